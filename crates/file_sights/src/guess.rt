//! What a draft guesses the datatypes of a table from.
use column_forms::null_place;
use csv_records::push_row;
use file_convert::{ColumnReport, ConvertFault, record_at};
use std::alloc::Global;
use std::borrow::CowSlice;

/// Returns true if texts that a draft does not know stand for null in columns.
pub fn has_unknown_nulls(columns: &[ColumnReport]) -> bool {
    for column in columns {
        if let [_, _, two, _, _, _, _, seven, ..] = column.nulls.as_slice()
            && (*two > 0 || *seven > 0)
        {
            return true;
        }
    }
    false
}

/// Returns rows with empty cells in the place of texts that stand for null and that a draft does not know.
pub fn guess_text(alloc: Global, bytes: &[u8]) -> Result<Vec<u8>, ConvertFault> {
    let mut guess = Vec::with_capacity(alloc, bytes.len())?;
    let mut left = bytes;
    for _row in 0..bytes.len() {
        if left.is_empty() {
            break;
        }
        let read = record_at(alloc, b',', left, 1)?;
        let mut cells = read.cells;
        for cell in &mut cells {
            if matches!(null_place(cell.as_slice()), Some(2 | 7)) {
                *cell = CowSlice::Borrowed(&[]);
            }
        }
        push_row(&mut guess, cells.as_slice())?;
        left = read.rest;
    }
    Ok(guess)
}
