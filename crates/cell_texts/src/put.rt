//! The texts of cells, written into room that is there.
ghost use Rattle.std.specs.Prelude.{◌+◌, ◌<◌, ◌≤◌, get_or, length};
ghost use Rattle.cell_types.specs.Value.{null};
ghost use Rattle.reply_values.specs.Printed.{printed_value};
ghost use Rattle.reply_values.specs.Size.{IsWrittenAt};

use reply_values::{put_piece, put_plain, put_text, put_value};
use row_columns::{Cell, RowRef};

/// Writes the cell of a row in a column, in JSON or in CSV. A text is not looked at if its block knows that each of its bytes stands for itself.
#[inline(always)]
pub fn put_cell<const JSON: bool>(
    out: &mut [u8],
    at: usize,
    values: &RowRef<'_>,
    col: usize,
) -> usize
    requires col { col < length values.now }
    requires room { at + length (printed_value JSON (get_or values.now col null))
        ≤ length out.old }
    ensures { IsWrittenAt out.old out.new at result
        (printed_value JSON (get_or values.now col null)) }
{
    match values.cell(col) {
        Cell::Null if JSON => put_piece(out, at, b"null"),
        Cell::Null => at,
        Cell::Number(number) => put_value::<JSON>(out, at, &number.value()),
        Cell::Text(text) if values.is_plain::<JSON>(col) => {
            put_plain::<JSON>(out, at, text.as_bytes())
        }
        Cell::Text(text) => put_text::<JSON>(out, at, text.as_bytes()),
        Cell::Value(value) => put_value::<JSON>(out, at, value),
    }
}
