//! How many fields the records of a file have.
use crate::records::{RecordShape, Records};

/// The rows that a header and its rows are at least, for each line of a title before them.
const ROWS_FOR_TITLE: usize = 2;

/// How the records of a file look under a separator. Lines that are empty are left out.
#[derive(Clone, Copy)]
pub(crate) struct Shape {
    /// How many fields the first record has.
    pub(crate) header: usize,
    /// How many records follow it, and how many of them have one field more.
    rows: usize,
    longer: usize,
    /// The records at the end that have the same number of fields: how many fields, how many records, and the line of the first.
    width: usize,
    even: usize,
    pub(crate) line: usize,
    /// The line of the first record that has another number of fields than the first, or 1. Here lines that are empty count.
    pub(crate) uneven: usize,
}

impl Shape {
    /// Returns the shape of a file.
    pub(crate) fn of(bytes: &[u8], separator: u8) -> Shape {
        let mut records = Records::new(bytes, separator);
        let header = records.next_record().fields;
        let mut shape = Shape {
            header,
            rows: 0,
            longer: 0,
            width: header,
            even: 1,
            line: 1,
            uneven: 1,
        };
        for _row in 0..bytes.len() {
            if records.is_at_end() {
                break;
            }
            let record = records.next_record();
            if shape.uneven == 1 && record.fields != header {
                shape.uneven = record.line;
            }
            if !record.is_blank {
                shape.add(record);
            }
        }
        shape
    }

    /// Adds a record.
    fn add(&mut self, record: RecordShape) {
        self.rows = self.rows.saturating_add(1);
        if record.fields == self.header.saturating_add(1) {
            self.longer = self.longer.saturating_add(1);
        }
        if record.fields != self.width {
            self.width = record.fields;
            self.even = 0;
            self.line = record.line;
        }
        self.even = self.even.saturating_add(1);
    }

    /// Returns true if it is a table of two columns or more.
    pub(crate) fn is_table(&self) -> bool {
        self.line == 1 && self.width > 1
    }

    /// Returns true if each row has one field more than the header, which has two or more.
    pub(crate) fn lacks_name(&self) -> bool {
        self.header > 1 && self.rows > 0 && self.longer == self.rows
    }

    /// Returns true if a table comes after a few lines of one cell.
    pub(crate) fn has_title(&self) -> bool {
        let before = self.rows.saturating_add(1).saturating_sub(self.even);
        self.width > 1 && before > 0 && self.even >= before.saturating_mul(ROWS_FOR_TITLE)
    }
}
