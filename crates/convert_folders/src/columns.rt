//! What is changed in a column.
use crate::forms::form_words;
use crate::report::{About, Report, Status};
use file_convert::{ColumnReport, ReportKind};
use file_sights::NULLS;
use std::str::from_utf8;

/// Returns bytes of a cell as a text.
pub(crate) fn text(bytes: &[u8]) -> &str {
    from_utf8(bytes).unwrap_or("?")
}

/// Returns what an entry of a column of a file speaks of.
pub(crate) fn about<'a>(status: Status, file: &'a str, column: &'a ColumnReport) -> About<'a> {
    About {
        column: Some(text(column.title.as_slice())),
        ..About::file(status, file)
    }
}

/// Reports the cells that are changed.
pub(crate) fn report_changed(report: &mut Report, file: &str, column: &ColumnReport) {
    if let ReportKind::Form(form) = column.kind
        && column.changed > 0
    {
        let (words, more) = form_words(form);
        report.say_count(column.changed, " cells: ");
        report.say(words);
        report.say(more);
        report.say(": line ");
        report.say_count(column.line, ": \"");
        report.say(text(column.before.as_slice()));
        report.say("\" is ");
        report.say(text(column.after.as_slice()));
        report.end(About {
            count: column.changed,
            line: column.line,
            ..about(Status::Changed, file, column)
        });
    }
}

/// Says a number of billionths of a millionth as a decimal.
pub(crate) fn say_difference(report: &mut Report, difference: u64) {
    report.message.is_short |= write!(report.message.text, "0.000000{difference:09}").is_err();
}

/// Reports the cells that are rounded.
pub(crate) fn report_rounded(report: &mut Report, file: &str, column: &ColumnReport) {
    if column.fine > 0 && column.rounds {
        report.say_count(
            column.fine,
            " cells: rounded to six decimal places, the greatest difference is ",
        );
        say_difference(report, column.difference);
        report.say(": line ");
        report.say_count(column.fine_line, "");
        report.end(About {
            count: column.fine,
            line: column.fine_line,
            ..about(Status::Changed, file, column)
        });
    }
}

/// Ends an entry of cells that are null.
fn end_null(report: &mut Report, file: &str, column: &ColumnReport, count: usize) {
    report.end(About {
        count,
        ..about(Status::Changed, file, column)
    });
}

/// Reports the texts that stand for null in a column of values.
pub(crate) fn report_nulls(report: &mut Report, file: &str, column: &ColumnReport) {
    for (word, count) in NULLS.iter().zip(column.nulls.as_slice()) {
        if *count > 0 && matches!(column.kind, ReportKind::Form(_)) {
            report.say_count(*count, " cells: ");
            report.say(word);
            report.say(" is null, and stays");
            end_null(report, file, column, *count);
        }
    }
}

/// Reports the text that stands for null because this is asked.
pub(crate) fn report_asked(report: &mut Report, file: &str, column: &ColumnReport) {
    if let Some(null) = &column.asked_null
        && column.asked_cells > 0
    {
        report.say_count(column.asked_cells, " cells: ");
        report.say(text(null.as_slice()));
        report.say(" is null");
        end_null(report, file, column, column.asked_cells);
    }
}
