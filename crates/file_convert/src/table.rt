//! A table as it is written.
ghost use Rattle.std.specs.Prelude.{◌≡◌, IfOk, map};
ghost use Rattle.std.specs.Cow.{cow_slice_items};
ghost use Rattle.csv_records.specs.Exchange.{exchanged};
ghost use Rattle.file_convert.specs.Conversion.{IsConvertedTable, PutsRow, PutsRows};
ghost use Rattle.file_convert.specs.Pieces.{PutsHeader};
ghost use Rattle.file_convert.specs.Rows.{plan_of};
ghost use Rattle.text_encodings.specs.Decoders.{AddsText};

use crate::cells::{is_blank, lines_before, record_at};
use crate::fault::ConvertFault;
use crate::report::ColumnReport;
use crate::rows::{header_of, row_of};
use csv_records::{RecordCell, push_row, rows_read_back};
use std::alloc::{AllocError, Global};

/// How a table is read: its separator, the cells of its header, and whether short rows get empty cells.
#[derive(Clone, Copy)]
pub(crate) struct Reading {
    pub(crate) separator: u8,
    pub(crate) width: usize,
    pub(crate) pads: bool,
}

/// Returns a fault of one line whose row has other cells than the header.
fn ragged_at(alloc: Global, line: usize) -> Result<ConvertFault, AllocError> {
    let lines = Vec::from_slice(alloc, &[line])?;
    Ok(ConvertFault::Ragged { lines, count: 1 })
}

/// Writes what the columns write for a record.
fn put_row(
    out: &mut Vec<u8>,
    reports: &mut [ColumnReport],
    how: Reading,
    line: usize,
    cells: &[RecordCell<'_>],
) -> Result<(), ConvertFault>
    ensures plans { map plan_of reports.new ≡ map plan_of reports.old }
    ensures row { IfOk result (λ _. PutsRow (map plan_of reports.old) how
        (map cow_slice_items cells.now) out.old.items out.new.items) }
{
    if how.width > 1 && is_blank(cells) {
        return Ok(());
    }
    if cells.len() > reports.len() || !how.pads && cells.len() < how.width {
        return Err(ragged_at(*out.allocator(), line)?);
    }
    let row = row_of(*out.allocator(), reports, line, cells)?;
    if row.is_empty() {
        return Err(ConvertFault::Empty);
    }
    Ok(push_row(out, row.as_slice())?)
}

/// Writes what the columns write for the records of a text. Returns the number of the line after them.
pub(crate) fn put_rows(
    out: &mut Vec<u8>,
    reports: &mut [ColumnReport],
    how: Reading,
    text: &[u8],
    first_line: usize,
) -> Result<usize, ConvertFault>
    ensures plans { map plan_of reports.new ≡ map plan_of reports.old }
    ensures rows { IfOk result (λ _. PutsRows (map plan_of reports.old) how
        (map (exchanged how.separator) text.now) out.old.items out.new.items) }
{
    let mut left = text;
    let mut line = first_line;
    while !left.is_empty() {
        let read = record_at(*out.allocator(), how.separator, left, line)?;
        put_row(out, reports, how, line, read.cells.as_slice())?;
        line = line.saturating_add(lines_before(left, read.rest));
        left = read.rest;
    }
    Ok(line)
}

/// A header that is written: how many cells it has, and the text after it.
#[derive(Clone, Copy)]
pub(crate) struct Begun<'a> {
    pub(crate) width: usize,
    pub(crate) rest: &'a [u8],
}

/// Writes the header of a text, which is its first record.
pub(crate) fn put_header<'a>(
    out: &mut Vec<u8>,
    reports: &[ColumnReport],
    how: Reading,
    text: &'a [u8],
    line: usize,
) -> Result<Begun<'a>, ConvertFault>
    ensures { IfOk result (λ new. PutsHeader (map plan_of reports.now) how
        (map (exchanged how.separator) text.now) (map (exchanged how.separator) new.rest.now)
        new.width out.old.items out.new.items) }
{
    if text.is_empty() {
        return Err(ConvertFault::Empty);
    }
    let header = record_at(*out.allocator(), how.separator, text, line)?;
    let cells = header.cells.as_slice();
    let width = cells.len();
    let titles = header_of(*out.allocator(), reports, cells)?;
    if titles.as_slice().is_empty() || width > reports.len() {
        return Err(ConvertFault::Empty);
    }
    push_row(out, titles.as_slice())?;
    let rest = header.rest;
    Ok(Begun { width, rest })
}

/// Writes the table of a text whose first line has a number.
pub(crate) fn write_table(
    out: &mut Vec<u8>,
    reports: &mut [ColumnReport],
    how: Reading,
    text: &[u8],
    first_line: usize,
) -> Result<(), ConvertFault>
    ensures plans { map plan_of reports.new ≡ map plan_of reports.old }
    ensures table { IfOk result (λ _. AddsText out.old.items out.new.items
        (IsConvertedTable (map plan_of reports.old) how.pads how.separator text.now)) }
{
    rows_read_back();
    let begun = put_header(out, reports, how, text, first_line)?;
    let line = first_line.saturating_add(lines_before(text, begun.rest));
    let how = Reading {
        width: begun.width,
        ..how
    };
    put_rows(out, reports, how, begun.rest, line)?;
    Ok(())
}
