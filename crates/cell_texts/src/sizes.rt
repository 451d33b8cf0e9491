//! How many bytes the texts of cells take, or do not pass. None is written.
ghost use Rattle.std.specs.Prelude.{◌≡◌, ◌≤◌, IsTrue, length};
ghost use Rattle.reply_values.specs.Printed.{printed_value};
ghost use Rattle.reply_values.specs.Size.{told};
ghost use Rattle.row_columns.specs.Cell.{cell_view};
ghost use Rattle.text_columns.specs.PlainParts.{IsPlainCell};
ghost use Rattle.value_rows.specs.Packed.{lent_value_view};

use cell_types::Value;
use reply_values::{number_room, plain_size, text_room, text_size, value_size};
use row_columns::{Cell, cell_of};
use value_rows::LentValue;

/// Returns how many bytes a cell takes, in JSON or in CSV.
#[inline(always)]
pub fn cell_size<const JSON: bool>(cell: Cell<'_>) -> usize
    ensures { result ≡ told (length (printed_value JSON (cell_view cell.entry))) }
{
    match cell {
        Cell::Null if JSON => 4,
        Cell::Null => 0,
        Cell::Number(number) => value_size::<JSON>(&number.value()),
        Cell::Text(text) => text_size::<JSON>(text.as_bytes()),
        Cell::Value(value) => value_size::<JSON>(value),
    }
}

/// Returns how many bytes a value takes that is lent, in JSON or in CSV. Most are whole numbers, as a count is.
#[inline(always)]
pub fn lent_size<const JSON: bool>(value: LentValue<'_>) -> usize
    ensures { result ≡ told (length (printed_value JSON (lent_value_view value.entry))) }
{
    match value {
        LentValue::Integer(number) => value_size::<JSON>(&Value::Int(number as i128)),
        other => cell_size::<JSON>(cell_of(other)),
    }
}

/// Returns how many bytes a cell takes, as [`cell_size`] does. No text is looked at if `is_plain`: each of its bytes stands for itself.
#[inline(always)]
pub fn known_size<const JSON: bool>(cell: Cell<'_>, is_plain: bool) -> usize
    requires { IsTrue is_plain → IsPlainCell JSON (cell_view cell) }
    ensures { result ≡ told (length (printed_value JSON (cell_view cell.entry))) }
{
    match cell {
        Cell::Text(text) if is_plain => plain_size::<JSON>(text.len()),
        other => cell_size::<JSON>(other),
    }
}

/// No cell of a block but a text takes more bytes. It is given for each of these, so that none has to be read.
const SHORT: usize = 22;

/// Returns a number of bytes that a cell does not pass, in JSON or in CSV. No text is looked at, and no number.
#[inline(always)]
pub fn cell_room<const JSON: bool>(cell: Cell<'_>) -> usize
    ensures { told (length (printed_value JSON (cell_view cell.entry))) ≤ result }
{
    match cell {
        Cell::Null => SHORT,
        Cell::Number(number) => number_room::<JSON>(number.kind, number.number),
        Cell::Text(text) => text_room::<JSON>(text.as_bytes()),
        Cell::Value(value) => value_size::<JSON>(value),
    }
}
