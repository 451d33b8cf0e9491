//! What is known of the lines of a file.
ghost use Rattle.std.specs.Prelude.{◌<◌, length};

use csv_index::IndexedText;
use csv_shapes::SEPARATORS;
use std::alloc::{AllocError, Global};

/// Returns true if a byte is in each cell of the first column.
fn is_in_each(file: &IndexedText, byte: u8) -> bool
    requires { 0 < length file.now.header }
{
    for row in 0..file.rows() {
        if !file.cell(row, 0).bytes.as_bytes().contains(&byte) {
            return false;
        }
    }
    true
}

/// Returns how many rows at the end have only empty cells.
fn empty_rows(file: &IndexedText) -> usize {
    let rows = file.rows();
    for back in 1..=rows {
        for col in 0..file.width() {
            if !file.cell(rows - back, col).bytes.is_empty() {
                return back - 1;
            }
        }
    }
    rows
}

/// What is known of the lines of a file once some of them are read.
#[derive(Drop)]
pub(crate) struct LinesSeen {
    /// How many rows at the end have only empty cells.
    pub(crate) empty: usize,
    /// The bytes that are in the one cell of each line, and may separate fields.
    pub(crate) separators: Vec<u8>,
}

impl LinesSeen {
    /// Returns what is known of the first lines of a file.
    pub(crate) fn new(alloc: Global, file: &IndexedText) -> Result<LinesSeen, AllocError> {
        let mut separators = Vec::new(alloc);
        if file.width() == 1 {
            for byte in SEPARATORS {
                if file.header(0).bytes.as_bytes().contains(&byte) {
                    separators.push(byte)?;
                }
            }
        }
        let mut lines = LinesSeen {
            empty: 0,
            separators,
        };
        lines.read(file);
        Ok(lines)
    }

    /// Reads more rows.
    pub(crate) fn read(&mut self, file: &IndexedText) {
        let empty = empty_rows(file);
        if empty == file.rows() {
            self.empty = self.empty.saturating_add(empty);
        } else {
            self.empty = empty;
        }
        if file.width() == 1 {
            self.separators.retain(|byte| is_in_each(file, *byte));
        }
    }
}
