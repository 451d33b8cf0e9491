//! Why files are not converted.
use crate::report::{About, Report, Status};
use csv_records::RecordFault;
use file_convert::ConvertFault;
use schema_inference::LeftOutCause;

/// Says the lines of rows, and that there are more.
fn say_lines(report: &mut Report, lines: &[usize], count: usize) {
    let mut before = ": line ";
    for line in lines {
        report.say(before);
        report.say_count(*line, "");
        before = ", ";
    }
    if count > lines.len() {
        report.say(" and more");
    }
}

/// Returns what is wrong with the record of a line.
fn cause_text(fault: RecordFault) -> &'static str {
    match fault {
        RecordFault::BareReturn => ": a CR without an LF after it",
        RecordFault::StrayQuote => ": a double quote inside a cell that has none at its front",
        RecordFault::AfterQuote => ": text after the closing double quote of a cell",
        RecordFault::Unfinished => ": no double quote closes a cell",
        RecordFault::NoMemory => ": out of memory",
    }
}

/// Reports why a file is not converted, and what helps.
pub(crate) fn report_refusal(report: &mut Report, file: &str, fault: &ConvertFault) {
    let mut about = About::file(Status::Refused, file);
    match fault {
        ConvertFault::NotUtf16 => report.say("it begins as UTF-16, and is not UTF-16"),
        ConvertFault::NoText => report.say("it has NUL bytes, so it is no text"),
        ConvertFault::Changed => report.say("it has changed while it was converted"),
        ConvertFault::Empty => report.say("it is empty"),
        ConvertFault::NoMemory => report.message.is_short = true,
        ConvertFault::Text { fault, line } => {
            about.count = 1;
            report.say("line ");
            report.say_count(*line, cause_text(*fault));
        }
        ConvertFault::Ragged { lines, count } => {
            about.count = *count;
            report.say_count(*count, " rows have fewer cells than the header, or more");
            say_lines(report, lines.as_slice(), *count);
            report.option.push("--pad fills them with empty cells");
        }
        ConvertFault::Title { lines } => {
            about.count = *lines;
            report.say_count(*lines, " lines before the header look like a title");
            report.option.push("--skip-lines ");
            report.option.push_number(*lines);
            report.option.push(" leaves them out");
        }
    }
    report.end(about);
}

/// Reports why the table that a file becomes is none that is served.
pub(crate) fn report_left_out(report: &mut Report, file: &str, cause: LeftOutCause) {
    match cause {
        LeftOutCause::ManyColumns { columns } => {
            report.say_count(columns, " columns: accepted: 256 at most");
        }
        LeftOutCause::TooLarge => report.say("it becomes a file of more than 1 GiB"),
        _ => report.say("it becomes no table"),
    }
    report.end(About::file(Status::Refused, file));
}
