//! The lines before a header: a guess.
use crate::records::{Record, Records};
use crate::separator::shape_of;

/// Returns the bytes of a record.
fn bytes_of(bytes: &[u8], record: Record) -> &[u8] {
    bytes.get(record.start..record.end).unwrap_or(&[])
}

/// Returns true if a record has one cell that is not empty, the first, and others.
fn is_title(bytes: &[u8], separator: u8, record: Record) -> bool {
    let text = bytes_of(bytes, record);
    let first = text.iter().position(|byte| *byte == separator).unwrap_or(0);
    record.fields > 1 && first > 0 && text.iter().skip(first).all(|byte| *byte == separator)
}

/// Returns how many lines before the header look like a title or comments, if the records have several widths.
pub(crate) fn short_lines(bytes: &[u8], separator: u8) -> usize {
    let shape = shape_of(bytes, separator);
    if shape.width > 1 && shape.before > 0 && shape.alike > shape.before {
        shape.line.saturating_sub(1)
    } else {
        0
    }
}

/// Returns how many lines before the header have a first cell alone.
pub(crate) fn title_lines(bytes: &[u8], separator: u8) -> usize {
    let mut records = Records::new(bytes, separator);
    let mut line = 0;
    for _record in 0..10 {
        match records.next_record() {
            Some(record) if is_title(bytes, separator, record) => line = record.line,
            Some(record) if line > 0 => return record.line.saturating_sub(1),
            _ => return 0,
        }
    }
    0
}
