//! What helps with a file that is no table.
use crate::records::line_after;
use crate::shape::Shape;
use csv_index::TextFault;

/// The bytes that may separate fields in the place of a comma.
pub const SEPARATORS: [u8; 3] = [b';', b'\t', b'|'];

/// The bytes that are no characters of WINDOWS-1252.
const NOT_WINDOWS: [u8; 5] = [0x81, 0x8d, 0x8f, 0x90, 0x9d];

/// What helps with a file that is no table.
#[derive(Clone, Copy)]
pub enum Cure {
    /// A byte separates its fields in the place of a comma.
    Separator { byte: u8 },
    /// Its header lacks the name of the first column.
    FirstName,
    /// Its header is in this line, counted from 1, after a title or a comment.
    Title { line: usize },
    /// The row in this line, counted from 1, has another number of fields than the header.
    Row { line: usize },
    /// It is UTF-16.
    Utf16,
    /// It is a spreadsheet's WINDOWS-1252, most likely.
    Windows,
    /// Some of its lines are no UTF-8.
    OtherBytes,
    /// Carriage returns alone end its lines.
    Returns,
    /// A double quote has no other that it belongs to.
    Quotes,
    /// What is no CSV is in this line, counted from 1.
    Line { line: usize },
    /// It is empty.
    Empty,
}

/// Returns the first line of a file.
fn first_line(bytes: &[u8]) -> &[u8] {
    match bytes.iter().position(|byte| *byte == b'\n') {
        Some(end) => &bytes[..end],
        None => bytes,
    }
}

/// Returns the byte that separates the fields of a file in the place of a comma, if it is a table so.
fn separator_of(bytes: &[u8]) -> Option<u8> {
    let line = first_line(bytes);
    for separator in SEPARATORS {
        if line.contains(&separator) && Shape::of(bytes, separator).is_table() {
            return Some(separator);
        }
    }
    None
}

/// Returns true if a byte that may separate fields is in a line.
fn has_separator(line: &[u8]) -> bool {
    line.iter().any(|byte| SEPARATORS.contains(byte))
}

/// Returns what helps with a file whose records have different numbers of fields.
fn width_cure(bytes: &[u8]) -> Cure {
    if let Some(byte) = separator_of(bytes) {
        return Cure::Separator { byte };
    }
    let header = first_line(bytes);
    let shape = Shape::of(bytes, b',');
    let is_comment = header.starts_with(b"#");
    if shape.lacks_name() && !is_comment && !has_separator(header) {
        return Cure::FirstName;
    }
    if shape.has_title() && (is_comment || shape.header == 1) {
        return Cure::Title { line: shape.line };
    }
    Cure::Row { line: shape.uneven }
}

/// Returns what helps with a file that is not UTF-8 from an offset on.
fn text_cure(bytes: &[u8], at: usize) -> Cure {
    if bytes.starts_with(&[0xff, 0xfe]) || bytes.starts_with(&[0xfe, 0xff]) {
        return Cure::Utf16;
    }
    let is_ascii = bytes.iter().take(at).all(|byte| byte.is_ascii());
    let is_windows = bytes
        .iter()
        .all(|byte| *byte != 0 && !NOT_WINDOWS.contains(byte));
    if is_ascii && is_windows {
        Cure::Windows
    } else {
        Cure::OtherBytes
    }
}

/// Returns what helps with a file that has what is no CSV at an offset.
fn line_cure(bytes: &[u8], at: usize) -> Cure {
    let before = at.min(bytes.len());
    Cure::Line {
        line: line_after(1, &bytes[..before]),
    }
}

/// Returns what helps with a file that is no table for a fault, if something is known to.
pub fn cure_of(bytes: &[u8], fault: TextFault) -> Option<Cure> {
    match fault {
        TextFault::Width { .. } => Some(width_cure(bytes)),
        TextFault::NotUtf8 { at } => Some(text_cure(bytes, at)),
        TextFault::BareCr { .. } if !bytes.contains(&b'\n') => Some(Cure::Returns),
        TextFault::BareCr { at } | TextFault::StrayQuote { at } | TextFault::AfterQuote { at } => {
            Some(line_cure(bytes, at))
        }
        TextFault::Unfinished { at } if bytes.ends_with(b"\r") => Some(line_cure(bytes, at)),
        TextFault::Unfinished { .. } => Some(Cure::Quotes),
        TextFault::NoHeader => Some(Cure::Empty),
        TextFault::NoMemory => None,
    }
}
