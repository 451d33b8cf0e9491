//! What is changed in a file.
use crate::columns::{report_asked, report_changed, report_nulls, report_rounded};
use crate::proposals::report_proposals;
use crate::report::{About, Report, Status};
use file_convert::{Converted, is_dropped};
use text_encodings::Encoding;

/// Returns what is changed of an encoding; nothing if nothing is.
fn encoding_words(encoding: Encoding) -> &'static str {
    match encoding {
        Encoding::Utf8 => "",
        Encoding::MarkedUtf8 => "a byte order mark, which is left out",
        Encoding::Utf16Little => "UTF-16 with the low byte first, written as UTF-8",
        Encoding::Utf16Big => "UTF-16 with the high byte first, written as UTF-8",
        Encoding::Windows1252 => "Windows-1252, written as UTF-8",
    }
}

/// Returns what is changed of a separator; nothing if nothing is.
fn separator_words(separator: u8) -> &'static str {
    match separator {
        b';' => "fields separated by semicolons, written with commas",
        b'\t' => "fields separated by tabs, written with commas",
        b'|' => "fields separated by bars, written with commas",
        _ => "",
    }
}

/// Reports a change of a whole file in words, if there is one.
fn report_words(report: &mut Report, file: &str, words: &str) {
    if !words.is_empty() {
        report.say(words);
        report.end(About::file(Status::Changed, file));
    }
}

/// Reports a change of lines or columns of a file, if there are some.
fn report_count(report: &mut Report, file: &str, count: usize, words: &str) {
    if count > 0 {
        report.say_count(count, words);
        report.end(About {
            count,
            ..About::file(Status::Changed, file)
        });
    }
}

/// Reports what is changed in a file, and what would be if it were asked for. `table` is what lines of `--columns` call its table.
pub(crate) fn report_changes(report: &mut Report, file: &str, table: &str, made: &Converted) {
    report_words(report, file, encoding_words(made.encoding));
    report_words(report, file, separator_words(made.separator));
    let columns = made.columns.iter();
    let empty = columns.filter(|column| is_dropped(column.kind)).count();
    let counts = [
        (made.skipped, " lines before the header are left out"),
        (made.returns, " line breaks are a CR alone, written as LF"),
        (made.counts.blank, " empty lines are left out"),
        (made.counts.short, " rows are filled with empty cells"),
        (empty, " empty columns at the right are left out"),
    ];
    for (count, words) in &counts {
        report_count(report, file, *count, words);
    }
    for column in made.columns.as_slice() {
        report_changed(report, file, column);
        report_rounded(report, file, column);
        report_nulls(report, file, column);
        report_asked(report, file, column);
        report_proposals(report, file, table, column);
    }
}
