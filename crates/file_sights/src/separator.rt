//! The byte that separates the fields of a text: a guess.
use crate::records::Records;

/// The bytes that may separate fields.
const SEPARATORS: [u8; 4] = [b',', b';', b'\t', b'|'];

/// How many records are looked at.
const SAMPLE: usize = 2_000;

/// The widest table that is looked for.
const WIDEST: usize = 1_000;

/// How the records of a text look under a separator: the width that most of them have, how many have it, and how many records come before the first of these.
#[derive(Clone, Copy)]
pub(crate) struct Shape {
    pub(crate) width: usize,
    pub(crate) alike: usize,
    pub(crate) before: usize,
    /// The line in which the first of them begins.
    pub(crate) line: usize,
}

/// Returns how many records of a sample have a width, and the number and the line of the first of them.
fn count_width(bytes: &[u8], separator: u8, width: usize) -> Shape {
    let mut shape = Shape {
        width,
        alike: 0,
        before: 0,
        line: 1,
    };
    let mut records = Records::new(bytes, separator);
    for number in 0..SAMPLE {
        let Some(record) = records.next_record() else {
            break;
        };
        if record.fields == width {
            if shape.alike == 0 {
                shape.before = number;
                shape.line = record.line;
            }
            shape.alike = shape.alike.saturating_add(1);
        }
    }
    shape
}

/// Returns the shape of a text under a separator: the most frequent width of those that the first records have.
pub(crate) fn shape_of(bytes: &[u8], separator: u8) -> Shape {
    let mut best = Shape {
        width: 1,
        alike: 0,
        before: 0,
        line: 1,
    };
    let mut records = Records::new(bytes, separator);
    let mut tried: usize = 0;
    for _number in 0..20 {
        let Some(record) = records.next_record() else {
            break;
        };
        if record.fields != tried && record.fields <= WIDEST {
            tried = record.fields;
            let shape = count_width(bytes, separator, record.fields);
            if shape.alike > best.alike {
                best = shape;
            }
        }
    }
    best
}

/// Returns the byte that most likely separates the fields of a text: that under which the most records have one width of two fields or more.
pub(crate) fn separator_of(bytes: &[u8]) -> u8 {
    let mut separator = b',';
    let mut most: usize = 0;
    for candidate in SEPARATORS {
        let shape = shape_of(bytes, candidate);
        if shape.width > 1 && shape.alike > most {
            separator = candidate;
            most = shape.alike;
        }
    }
    separator
}
