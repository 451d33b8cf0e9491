//! Reading the rows of a part of a file, column after column.
ghost use Rattle.std.specs.Prelude.{◌≡◌, ◌⊎◌, ◌<◌, ◌+◌, ◌^◌, IfErr, OnOk, MatchOption, length, map, None, Some};
ghost use Rattle.cell_types.specs.Column.{column_view};
ghost use Rattle.file_cells.specs.Parts.{wrong_at, AllColumnsHaveValues, ArePartReadOn, HavePartReaders, IsFirstBadIn};

use crate::fault::BadCell;
use cell_types::{CellFault, Column};
use column_blocks::ColumnReader;
use csv_fields::{Part, cell_value};
use std::alloc::{AllocError, Global};

/// Reads the rows of a part into the readers of their columns, column after column. An error means that memory ran out, or that a cell has no value.
fn read_columns(
    alloc: Global,
    columns: &[Column],
    part: &Part<'_, '_>,
    readers: &mut Vec<ColumnReader>,
) -> Result<(), CellFault>
    requires width { part.now.width ≡ length columns.now }
    requires readers { HavePartReaders (map column_view columns.now) readers.old.items
        (length part.now.rows) }
    ensures values { OnOk result
        (AllColumnsHaveValues (map column_view columns.now) part.now.rows) }
    ensures readers { OnOk result (ArePartReadOn (map column_view columns.now) part.now.rows
        readers.old.items readers.new.items) }
    ensures fault { IfErr result (λ e. (e ≡ CellFault.NoMemory)
        ⊎ (AllColumnsHaveValues (map column_view columns.now) part.now.rows → ⊥)) }
{
    for (col, column) in columns.iter().enumerate() {
        match readers[col].read_part(alloc, column, part, col) {
            Ok(()) => {}
            Err(fault) => return Err(fault),
        }
    }
    Ok(())
}

/// Returns the first cell of a row of a part that has no value, or out of memory; `None` if each has one.
fn bad_in_row(
    alloc: Global,
    columns: &[Column],
    part: &Part<'_, '_>,
    row: usize,
) -> Option<(usize, CellFault)>
    requires width { part.now.width ≡ length columns.now }
    requires row { row < length part.now.rows }
    ensures { MatchOption result (wrong_at columns.now part.now.rows row ≡ None)
        (λ bad. (bad.1 ≡ CellFault.NoMemory)
        ⊎ (wrong_at columns.now part.now.rows row ≡ Some bad)) }
{
    for (col, column) in columns.iter().enumerate() {
        match cell_value(alloc, column, part.field(row, col)) {
            Ok(_) => {}
            Err(fault) => return Some((col, fault)),
        }
    }
    None
}

/// Returns the first cell of a part, row by row, that has no value; the first row of the part has that number.
fn first_bad_cell(alloc: Global, columns: &[Column], part: &Part<'_, '_>, first: usize) -> BadCell
    requires width { part.now.width ≡ length columns.now }
    requires bad { AllColumnsHaveValues (map column_view columns.now) part.now.rows → ⊥ }
    requires fits { first + length part.now.rows < 2 ^ 64 }
    ensures { IsFirstBadIn first (map column_view columns.now) part.now.rows result }
{
    for row in 0..part.rows() {
        if let Some((col, fault)) = bad_in_row(alloc, columns, part, row) {
            return BadCell {
                row: first + row,
                col,
                fault,
            };
        }
    }
    unreachable!()
}

/// Reads the rows of a part into the readers of their columns, or finds the first cell, row by row, that has no value. If the columns have found
/// one, the part is read again row by row, since columns find another first. The first row of the part has that number.
pub fn read_part(
    alloc: Global,
    columns: &[Column],
    part: &Part<'_, '_>,
    first: usize,
    readers: &mut Vec<ColumnReader>,
) -> Result<(), BadCell>
    requires width { part.now.width ≡ length columns.now }
    requires fits { first + length part.now.rows < 2 ^ 64 }
    requires readers { HavePartReaders (map column_view columns.now) readers.old.items
        (length part.now.rows) }
    ensures values { OnOk result
        (AllColumnsHaveValues (map column_view columns.now) part.now.rows) }
    ensures readers { OnOk result (ArePartReadOn (map column_view columns.now) part.now.rows
        readers.old.items readers.new.items) }
    ensures fault { IfErr result
        (IsFirstBadIn first (map column_view columns.now) part.now.rows) }
{
    match read_columns(alloc, columns, part, readers) {
        Ok(()) => Ok(()),
        Err(CellFault::NoMemory) => Err(BadCell::from(AllocError)),
        Err(_) => Err(first_bad_cell(alloc, columns, part, first)),
    }
}
