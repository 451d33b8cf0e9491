//! What a cell is in a column.
ghost use Rattle.std.specs.Prelude.{◌≡◌, true, IfOk};
ghost use Rattle.cell_types.specs.Cell.{value_of};
ghost use Rattle.cell_types.specs.Column.{column_view};
ghost use Rattle.type_inference.specs.CellReading.{reading_of};
ghost use Rattle.type_inference.specs.declared.reading.CellReading.TheVariants.{HasValue};

use cell_types::{
    CellFault, Column, Datatype, Value, read_cell, read_plain_boolean, read_plain_date,
    read_plain_decimal, read_short_integer,
};
use std::alloc::{AllocError, Global};

/// What a cell is in a column.
#[derive(Clone, Copy)]
pub enum CellReading {
    /// It is null.
    IsNull,
    /// It has a value that is not null.
    HasValue,
    /// It has no value.
    HasNone,
}

/// Returns true only if a cell has its value as it is, so that it is read in one pass. Most cells have.
fn is_plain(column: &Column, cell: &str) -> bool
    ensures { result ≡ true → reading_of (value_of (column_view column.now) cell.now) ≡ HasValue }
{
    match &column.datatype {
        Datatype::Integer => read_short_integer(column, cell).is_some(),
        Datatype::Boolean(form) => read_plain_boolean(column, form, cell).is_some(),
        Datatype::Date(form) => read_plain_date(column, *form, cell).is_some(),
        Datatype::Decimal => read_plain_decimal(column, cell).is_some(),
        Datatype::Text => false,
    }
}

/// Returns what a cell is in a column.
pub fn reading_in(alloc: Global, column: &Column, cell: &str) -> Result<CellReading, AllocError>
    ensures { IfOk result
        (λ reading. reading ≡ reading_of (value_of (column_view column.now) cell.now)) }
{
    if is_plain(column, cell) {
        return Ok(CellReading::HasValue);
    }
    match read_cell(alloc, column, cell) {
        Ok(value) => Ok(match value {
            Value::Null => CellReading::IsNull,
            _ => CellReading::HasValue,
        }),
        Err(CellFault::NoMemory) => Err(AllocError),
        Err(_) => Ok(CellReading::HasNone),
    }
}
