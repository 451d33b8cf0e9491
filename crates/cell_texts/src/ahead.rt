//! Cells that are read before they are needed. If an answer has rows in another order than their table, each is far from the one before it: so the cells of some
//! rows are read one right after another, and memory brings them together.
ghost use Rattle.std.specs.Prelude.{◌<◌, length};
ghost use Rattle.std.specs.List.{All};

use row_columns::{Cell, Columns};

/// How many rows came one after another while their block was read, and are near.
const NEAR: usize = 4096;

/// Returns true if rows are near: few rows are, and so are rows that follow on one another.
pub(crate) fn are_near(columns: &Columns) -> bool {
    columns.len() <= NEAR || columns.block_rows(0, 1).is_some()
}

/// Returns a byte that a value has, or tells. None is asked for; to tell it the cell is read.
#[inline(always)]
fn byte_of(cell: Cell<'_>) -> u8 {
    match cell {
        Cell::Number(number) => u8::from(number.number > 0),
        Cell::Text(text) => text.as_bytes().first().copied().unwrap_or(0),
        Cell::Null | Cell::Value(_) => 0,
    }
}

/// Reads the cells of the rows with these numbers. What it has seen says nothing: it is kept, so that no cell is passed over.
pub(crate) fn read_ahead(columns: &Columns, numbers: &[usize], seen: u8) -> u8
    requires { All (λ n. n < length columns.now.rows) numbers.now }
{
    let mut seen = seen;
    for col in 0..columns.width() {
        for number in numbers {
            seen = seen ^ byte_of(columns.row_ref(*number).cell(col));
        }
    }
    seen
}
