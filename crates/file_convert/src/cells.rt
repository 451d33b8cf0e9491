//! The cells of a record.
ghost use Rattle.std.specs.Prelude.{◌≡◌, ◌==◌, ◌&&◌, IfOk, [], ◌∷◌, length, map, slice_index_or};
ghost use Rattle.std.specs.Cow.{cow_slice_items};
ghost use Rattle.csv_records.specs.Exchange.{IsFirstRecord, exchanged};
ghost use Rattle.file_convert.specs.Rows.{is_empty_line, nth_cell};

use crate::fault::ConvertFault;
use csv_records::{Record, RecordCell, RecordFault, read_record};
use std::alloc::Global;

/// Returns the record at the front of a text that is not empty; or why there is none, with its line.
pub fn record_at(
    alloc: Global,
    separator: u8,
    text: &[u8],
    line: usize,
) -> Result<Record<'_>, ConvertFault>
    ensures { IfOk result (λ read. IsFirstRecord separator (map (exchanged separator) text.now)
        (map cow_slice_items read.cells.items) (map (exchanged separator) read.rest.now)) }
{
    match read_record(alloc, separator, text) {
        Ok(read) => Ok(read),
        Err(RecordFault::NoMemory) => Err(ConvertFault::NoMemory),
        Err(fault) => Err(ConvertFault::Text { fault, line }),
    }
}

/// Returns a cell of a record by its number; an empty one after the last.
pub(crate) fn cell_at<'a>(cells: &'a [RecordCell<'_>], place: usize) -> &'a [u8]
    ensures { result.now ≡ nth_cell (map cow_slice_items cells.now) place }
{
    match cells.get(place) {
        Some(cell) => cell.as_slice(),
        None => &[],
    }
}

/// Returns true if cells are one that is empty, as an empty line has it.
pub fn is_blank(cells: &[RecordCell<'_>]) -> bool
    ensures { result ≡ is_empty_line (map cow_slice_items cells.now) }
{
    match cells {
        [cell] => cell.as_slice().is_empty(),
        _ => false,
    }
}

/// Returns the number of line breaks before the rest of a text.
pub fn lines_before(text: &[u8], rest: &[u8]) -> usize {
    let (front, _) = text.split_at(text.len().saturating_sub(rest.len()));
    front.iter().filter(|byte| **byte == b'\n').count()
}
