//! What would be changed in a column if it were asked for.
use crate::columns::{about, say_difference, text};
use crate::report::{About, Report, Status};
use file_convert::{ColumnReport, ReportKind};
use file_sights::NULLS;

/// Ends a proposal.
fn end_proposal(report: &mut Report, file: &str, column: &ColumnReport) {
    report.end(About {
        count: column.fine,
        ..about(Status::Proposed, file, column)
    });
}

/// Proposes to round.
fn propose_round(report: &mut Report, file: &str, column: &ColumnReport) {
    if column.fine > 0 && !column.rounds {
        report.say_count(
            column.fine,
            " cells have more than six decimal places, first in line ",
        );
        report.say_count(column.fine_line, "; rounding changes them by ");
        say_difference(report, column.difference);
        report.say(" at most");
        report.option.push("--round");
        end_proposal(report, file, column);
    }
}

/// Appends a line of `--columns` for a column of a table to the option.
fn push_rule(report: &mut Report, table: &str, title: &str, rule: &str) {
    for text in [table, ".", title, rule] {
        report.option.push(text);
    }
}

/// Proposes one of two lines of `--columns` for a column of a table.
fn propose_rule(report: &mut Report, table: &str, column: &ColumnReport, rules: (&str, &str)) {
    let title = text(column.title.as_slice());
    report.option.push("--columns FILE, with the line ");
    push_rule(report, table, title, rules.0);
    report.option.push(", or ");
    push_rule(report, table, title, rules.1);
}

/// Proposes texts that may stand for null in a column of texts.
fn propose_nulls(report: &mut Report, file: &str, column: &ColumnReport) {
    for (word, count) in NULLS.iter().zip(column.nulls.as_slice()) {
        if *count > 0 && column.asked_null.is_none() {
            report.say_count(*count, " cells of a column of texts are ");
            report.say(word);
            report.option.push("--null ");
            report.option.push(word);
            report.option.push(" makes them null");
            end_proposal(report, file, column);
        }
    }
}

/// Reports what would be changed in a column if it were asked for. `table` is what lines of `--columns` call its table.
pub(crate) fn report_proposals(
    report: &mut Report,
    file: &str,
    table: &str,
    column: &ColumnReport,
) {
    propose_round(report, file, column);
    match column.kind {
        ReportKind::TwoPoints => {
            report.say(
                "its numbers may have a decimal point or a decimal comma, so they stay texts",
            );
            propose_rule(
                report,
                table,
                column,
                (": decimal comma", ": decimal point"),
            );
            end_proposal(report, file, column);
        }
        ReportKind::TwoOrders => {
            report.say("its dates may have the day first or the month first, so they stay texts");
            propose_rule(report, table, column, (": day first", ": month first"));
            end_proposal(report, file, column);
        }
        ReportKind::Text => propose_nulls(report, file, column),
        ReportKind::Form(_) | ReportKind::Empty => {}
    }
}
