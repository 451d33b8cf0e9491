//! What helps with what is refused, a line for each file. Each command writes what it makes on its standard output, but for `split`.
use crate::line::Line;
use crate::place::TableFile;
use csv_index::TextFault;
use csv_shapes::{Cure, cure_of};

/// What helps with metadata.
pub(crate) const METADATA: &str = "csvw_draft FOLDER prints a draft to compare it with";

/// What helps with cells that have no value.
pub(crate) const CELLS: &str =
    "csvw_draft FOLDER prints a datatype for each column under which all its cells have values";

/// What helps with keys.
pub(crate) const KEYS: &str = "csvw_draft FOLDER prints a draft of the table without this key";

/// What helps with a file that is missing.
pub(crate) const MISSING: &str =
    "put the file into the folder, or take its table out: csvw_draft FOLDER prints a draft of the files that are there";

/// Appends the line of what helps with a file.
pub(crate) fn push_help(lines: &mut Line, url: &str, help: &str) {
    lines.push("help: ");
    lines.push(url);
    lines.push(": ");
    lines.push(help);
    lines.push("\n");
}

/// Appends the line of a command that helps with a file, which is called after its first part.
pub(crate) fn push_command(lines: &mut Line, url: &str, before: &str, after: &str) {
    lines.push("help: ");
    lines.push(url);
    lines.push(": ");
    push_end(lines, url, (before, after));
}

/// Appends the end of the line of a command: the name of the file between two texts.
fn push_end(lines: &mut Line, url: &str, parts: (&str, &str)) {
    lines.push(parts.0);
    lines.push(url);
    lines.push(parts.1);
    lines.push("\n");
}

/// Returns what makes a CSV file of one whose fields a byte separates.
fn separator_hint(byte: u8) -> &'static str {
    match byte {
        b';' => "its fields are separated by `;`: csvformat -d ';' ",
        b'\t' => "its fields are separated by tabs: csvformat -t ",
        _ => "its fields are separated by `|`: csvformat -d '|' ",
    }
}

/// Returns what is said before and after the name of the file.
fn parts_of(cure: Cure) -> (&'static str, &'static str) {
    match cure {
        Cure::Separator { byte } => (separator_hint(byte), " makes it a CSV file"),
        Cure::FirstName => (
            "each row has one field more, so the header lacks its first name: sed '1s/^/Row,/' ",
            " gives it one",
        ),
        Cure::Title { .. } => (" ", " leaves out what is before it"),
        Cure::Row { .. } => ("p ", " shows the row"),
        Cure::Utf16 => ("it is UTF-16: iconv -f UTF-16 -t UTF-8 ", " makes it UTF-8"),
        Cure::Windows => (
            "a spreadsheet's WINDOWS-1252, most likely: iconv -f WINDOWS-1252 -t UTF-8 ",
            " makes it UTF-8",
        ),
        Cure::OtherBytes => (
            "LC_ALL=C.UTF-8 grep -naxv '.*' ",
            " shows the lines that are no UTF-8",
        ),
        Cure::Returns => (
            "carriage returns end its lines: tr '\\r' '\\n' < ",
            " makes them line feeds",
        ),
        Cure::Quotes => (
            "awk -F'\"' 'NF % 2 == 0 {print FNR \": \" $0}' ",
            " shows the lines with an odd number of double quotes",
        ),
        Cure::Line { .. } => ("p ", " shows the line"),
        Cure::Empty => (
            "it is empty: write a header into it, as echo 'A,B' > ",
            " does",
        ),
    }
}

/// Appends the line of what helps with a file.
fn push_cure(lines: &mut Line, url: &str, cure: Cure) {
    lines.push("help: ");
    lines.push(url);
    lines.push(": ");
    match cure {
        Cure::Title { line } => {
            lines.push_with("the table begins in line ", line);
            lines.push_with(": tail -n +", line);
        }
        Cure::Row { line } | Cure::Line { line } => lines.push_with("sed -n ", line),
        _ => {}
    }
    push_end(lines, url, parts_of(cure));
}

/// Appends the line of what helps with a file that is no table for a fault, if something is known to.
pub(crate) fn push_file_help(lines: &mut Line, url: &str, bytes: &[u8], fault: TextFault) {
    if let Some(cure) = cure_of(bytes, fault) {
        push_cure(lines, url, cure);
    }
}

/// Appends the line of what helps with a file that has another header than its schema.
pub(crate) fn help_headers(lines: &mut Line, file: &TableFile<'_>) {
    let url = file.schema.url.as_str();
    if file.index.width() > file.schema.columns.len() {
        push_help(
            lines,
            url,
            "csvw_draft FOLDER --add adds the columns that csv-metadata.json lacks",
        );
    } else {
        push_command(lines, url, "head -n 1 ", " shows the header");
    }
}
