//! The cells of a file that is read window by window.
ghost use Rattle.std.specs.Prelude.{◌≡◌, ◌≤◌, ◌+◌, ℕ, List, None, IfOk, IfErr, length, map};
ghost use Rattle.cell_types.specs.Column.{column_view};
ghost use Rattle.csv_fields.specs.Values.{FitsColumns};
ghost use Rattle.csv_grammar.specs.Raw.{RawTable};
ghost use Rattle.csv_index.specs.Index.{IsRawTable};
ghost use Rattle.file_cells.specs.Cells.{most_rows, AddsLines, AddsRows, GivesCells, HasReadCells, HasTableCells, MayAddLines};
ghost use Rattle.file_cells.specs.Parts.{ArePartReadOn, HavePartReaders, IsFirstBadIn};
ghost use Rattle.file_cells.specs.Rows.{wrong_of};

use crate::fault::{BadCell, FileFault};
use crate::header::first_mismatch;
use crate::parts::read_part;
use cell_types::{CellFault, Column};
use column_blocks::{ColumnReader, column_readers};
use csv_index::IndexedText;
use csv_windows::FirstLines;
use std::alloc::Global;

/// No file has more rows, so there is room for all cells of a column.
pub const MOST_ROWS: usize = 1 << 31;

/// What is read of the cells of the first lines of a file.
#[derive(Drop)]
pub enum Cells {
    /// There is no line.
    Nothing,
    /// The header matches, each cell has a value, and these have read them.
    Read(Vec<ColumnReader>),
    /// The header does not match, or a cell has no value.
    Wrong(FileFault),
}

/// Reads the rows of a file after others, part by part, into `readers`. Returns these; or the first cell, row by row, that has no value. The first row has that number.
pub fn read_rows(
    alloc: Global,
    columns: &[Column],
    file: &IndexedText,
    first: usize,
    readers: Vec<ColumnReader>,
) -> Result<Vec<ColumnReader>, BadCell>
    requires fits { FitsColumns (map column_view columns.now) file.now }
    requires room { first + length file.now.rows ≤ most_rows }
    requires readers { HavePartReaders (map column_view columns.now) readers.items
        (length file.now.rows) }
    ensures right { IfOk result
        (λ _. wrong_of first (map column_view columns.now) file.now.rows ≡ None) }
    ensures read { IfOk result (λ new.
        ArePartReadOn (map column_view columns.now) file.now.rows readers.items new.items) }
    ensures bad { IfErr result (IsFirstBadIn first (map column_view columns.now) file.now.rows) }
{
    let mut readers = readers;
    let mut parts = file.parts(alloc, 0)?;
    let mut row = 0;
    while row < file.rows() {
        parts.next();
        let part = parts.part();
        match read_part(alloc, columns, &part, first + row, &mut readers) {
            Ok(()) => {}
            Err(bad) => return Err(bad),
        }
        row += part.rows();
    }
    Ok(readers)
}

/// Returns the cells of rows whose header matches, or out of memory.
fn cells_of(read: Result<Vec<ColumnReader>, BadCell>) -> Result<Cells, FileFault>
    ensures cells { IfOk result (λ cells. GivesCells read cells) }
    ensures memory { IfErr result (λ e. e ≡ FileFault.NoMemory) }
{
    match read {
        Ok(readers) => Ok(Cells::Read(readers)),
        Err(bad) => match bad.fault {
            CellFault::NoMemory => Err(FileFault::NoMemory),
            _ => Ok(Cells::Wrong(FileFault::Cell(bad))),
        },
    }
}

/// Returns the cells of the first lines of a file, or of all of it: a table.
fn first_cells(alloc: Global, columns: &[Column], file: &IndexedText) -> Result<Cells, FileFault>
    requires rows { length file.now.rows ≤ most_rows }
    requires table { (front : List ℕ) × IsRawTable front file.now }
    ensures cells { IfOk result (HasTableCells (map column_view columns.now) file.now) }
    ensures memory { IfErr result (λ e. e ≡ FileFault.NoMemory) }
{
    match first_mismatch(alloc, columns, file)? {
        Some(col) => Ok(Cells::Wrong(FileFault::Header(col))),
        None => {
            let readers = column_readers(alloc, columns, MOST_ROWS)?;
            cells_of(read_rows(alloc, columns, file, 0, readers))
        }
    }
}

/// Returns the cells with those of more rows. The first of these has the number `first`.
fn more_cells(
    alloc: Global,
    columns: &[Column],
    first: usize,
    readers: Vec<ColumnReader>,
    file: &IndexedText,
) -> Result<Cells, FileFault>
    requires fits { FitsColumns (map column_view columns.now) file.now }
    requires room { first + length file.now.rows ≤ most_rows }
    requires read { (raw : RawTable) × (first ≡ length raw.rows)
        × HasReadCells (map column_view columns.now) raw readers.items }
    ensures cells { IfOk result
        (AddsRows (map column_view columns.now) first readers.items file.now.rows) }
    ensures memory { IfErr result (λ e. e ≡ FileFault.NoMemory) }
{
    cells_of(read_rows(alloc, columns, file, first, readers))
}

/// Returns the cells of first lines with those of more lines, or of the rest of a file. They are a table together.
pub fn with_cells(
    alloc: Global,
    columns: &[Column],
    lines: FirstLines,
    cells: Cells,
    file: &IndexedText,
) -> Result<Cells, FileFault>
    requires { MayAddLines (map column_view columns.now) lines cells file.now }
    ensures cells { IfOk result (AddsLines (map column_view columns.now) lines cells file.now) }
    ensures memory { IfErr result (λ e. e ≡ FileFault.NoMemory) }
{
    match lines {
        FirstLines::Nothing => first_cells(alloc, columns, file),
        FirstLines::Table(size) => match cells {
            Cells::Nothing => Ok(Cells::Nothing),
            Cells::Read(readers) => more_cells(alloc, columns, size.rows, readers, file),
            Cells::Wrong(fault) => Ok(Cells::Wrong(fault)),
        },
        FirstLines::Faulty(_) => Ok(cells),
    }
}
