//! The cells of a file that is read window by window, of which those of the key's columns alone are kept.
ghost use Rattle.std.specs.Prelude.{◌≡◌, ◌≢◌, ◌<◌, ◌≤◌, ◌+◌, ◌==◌, ℕ, List, true, false, IfOk, length, slice_set};
ghost use Rattle.std.specs.List.{list_any};
ghost use Rattle.cell_types.specs.Value.{CellValue};
ghost use Rattle.csv_fields.specs.Values.{FitsColumns};
ghost use Rattle.csv_index.specs.Index.{IsRawTable};
ghost use Rattle.csvw_meta.specs.Schema.{schema_view};
ghost use Rattle.file_cells.specs.Cells.{most_rows};
ghost use Rattle.folder_checks.specs.Cells.{AddsKeptLines, AddsKeptRows, AreKept, HasChecked, MayAddKeptLines};

use cell_types::CellFault;
use column_blocks::{ColumnReader, column_readers};
use csv_index::IndexedText;
use csv_windows::FirstLines;
use csvw_meta::Schema;
use file_cells::{BadCell, FileFault, MOST_ROWS, first_mismatch, read_rows};
use std::alloc::{AllocError, Global};

/// The readers of the columns of a file whose cells have values, or what is first wrong with these or with its header.
pub type KeptCells = Result<Vec<ColumnReader>, FileFault>;

/// Returns readers with `reader` in the place of that of a column, if this is not in the key.
fn with_reader(
    key: &[usize],
    readers: Vec<ColumnReader>,
    col: usize,
    reader: ColumnReader,
) -> Vec<ColumnReader>
    requires { col < length readers.items }
    ensures kept { list_any (λ place. place == col) key.now ≡ true → result.items ≡ readers.items }
    ensures put { list_any (λ place. place == col) key.now ≡ false
        → result.items ≡ slice_set readers.items col reader }
{
    let mut readers = readers;
    if !key.contains(&col) {
        readers[col] = reader;
    }
    readers
}

/// Returns readers without what those of columns that are not in the key have read.
fn without_others(
    alloc: Global,
    schema: &Schema,
    readers: Vec<ColumnReader>,
) -> Result<Vec<ColumnReader>, AllocError>
    requires { (rows : List (List CellValue))
        × AreKept (schema_view schema.now) rows readers.items }
    ensures { IfOk result (λ new. (rows : List (List CellValue))
        → AreKept (schema_view schema.now) rows readers.items
        → AreKept (schema_view schema.now) rows new.items) }
{
    let mut kept = readers;
    let mut fresh = column_readers(alloc, schema.columns.as_slice(), MOST_ROWS)?;
    while let Some(reader) = fresh.pop() {
        kept = with_reader(schema.key.as_slice(), kept, fresh.len(), reader);
    }
    Ok(kept)
}

/// Returns the fault of a file with a cell that has no value.
fn fault_of(bad: BadCell) -> FileFault
    ensures memory { bad.fault ≡ CellFault.NoMemory → result ≡ FileFault.NoMemory }
    ensures cell { bad.fault ≢ CellFault.NoMemory → result ≡ FileFault.Cell bad }
{
    match bad.fault {
        CellFault::NoMemory => FileFault::NoMemory,
        _ => FileFault::Cell(bad),
    }
}

/// Returns the cells with those of more rows. The first of these has the number `first`.
fn more_cells(
    alloc: Global,
    schema: &Schema,
    first: usize,
    readers: Vec<ColumnReader>,
    file: &IndexedText,
) -> KeptCells
    requires fits { FitsColumns (schema_view schema.now).columns file.now }
    requires room { first + length file.now.rows ≤ most_rows }
    requires kept { (rows : List (List CellValue)) × (first ≡ length rows)
        × AreKept (schema_view schema.now) rows readers.items }
    ensures { AddsKeptRows (schema_view schema.now) first readers.items file.now.rows result }
{
    match read_rows(alloc, schema.columns.as_slice(), file, first, readers) {
        Ok(read) => Ok(without_others(alloc, schema, read)?),
        Err(bad) => Err(fault_of(bad)),
    }
}

/// Returns the cells of the first lines of a file, or of all of it: a table.
fn first_cells(alloc: Global, schema: &Schema, file: &IndexedText) -> KeptCells
    requires rows { length file.now.rows ≤ most_rows }
    requires table { (front : List ℕ) × IsRawTable front file.now }
    ensures { HasChecked (schema_view schema.now) file.now result }
{
    match first_mismatch(alloc, schema.columns.as_slice(), file)? {
        Some(col) => Err(FileFault::Header(col)),
        None => {
            let readers = column_readers(alloc, schema.columns.as_slice(), MOST_ROWS)?;
            more_cells(alloc, schema, 0, readers, file)
        }
    }
}

/// Returns the cells of first lines with those of more lines, or of the rest of a file. They are a table together.
pub fn with_cells(
    alloc: Global,
    schema: &Schema,
    lines: FirstLines,
    cells: KeptCells,
    file: &IndexedText,
) -> KeptCells
    requires { MayAddKeptLines (schema_view schema.now) lines cells file.now }
    ensures { AddsKeptLines (schema_view schema.now) lines cells file.now result }
{
    match lines {
        FirstLines::Nothing => first_cells(alloc, schema, file),
        FirstLines::Table(size) => match cells {
            Ok(readers) => more_cells(alloc, schema, size.rows, readers, file),
            Err(fault) => Err(fault),
        },
        FirstLines::Faulty(_) => cells,
    }
}
