//! Cells, as they are kept.
ghost use Rattle.std.specs.Prelude.{◌≡◌, IsTrue, option_map, slice_index_or};
ghost use Rattle.cell_types.specs.Value.{null, value_view};
ghost use Rattle.row_columns.specs.Cell.{cell_view};
ghost use Rattle.row_columns.specs.Text.{text_of_cell};
ghost use Rattle.text_columns.specs.PlainParts.{IsPlainCell};
ghost use Rattle.value_rows.specs.Packed.{lent_value_view};

use block_summary::{PackedColumn, TypedNumber};
use cell_types::{NumberKind, Value};
use column_blocks::BlockCells;
use text_columns::TextColumn;
use value_rows::LentValue;

/// A cell, as it is kept. It is as small as what it lends, so that a row is read without a [`Value`] between.
#[derive(Clone, Copy, Drop)]
pub enum Cell<'a> {
    Null,
    Number(TypedNumber),
    Text(&'a str),
    /// A value of any kind, of a row that is kept as values.
    Value(&'a Value<'static>),
}

/// Returns the cell of a row of numbers; null past the end.
#[inline(always)]
pub fn number_cell(numbers: &PackedColumn, row: usize) -> Cell<'static>
    ensures { cell_view result ≡ slice_index_or numbers.now row null }
{
    match numbers.typed(row) {
        Some(number) => Cell::Number(number),
        None => Cell::Null,
    }
}

/// Returns the cell of a row of texts; null past the end.
#[inline(always)]
pub fn text_cell<'t>(texts: &TextColumn<'t>, row: usize) -> Cell<'t>
    ensures { cell_view result ≡ slice_index_or texts.now row null }
{
    if row >= texts.len() {
        return Cell::Null;
    }
    match texts.text(row) {
        Some(text) => Cell::Text(text),
        None => Cell::Null,
    }
}

/// Returns the cell of a row of a block; null past the end.
#[inline(always)]
pub(crate) fn cell_in(cells: &BlockCells, row: usize) -> Cell<'_>
    ensures { cell_view result ≡ slice_index_or cells.now.cells row null }
{
    if let Some(numbers) = cells.packed() {
        return number_cell(numbers, row);
    }
    match cells.texts() {
        Some(texts) => text_cell(&texts, row),
        None => Cell::Null,
    }
}

/// Returns true if each byte of the text of a row of a block is known to stand for itself, in JSON or in CSV.
#[inline(always)]
pub(crate) fn is_plain_in<const JSON: bool>(cells: &BlockCells, row: usize) -> bool
    ensures { IsTrue result → IsPlainCell JSON (slice_index_or cells.now.cells row null) }
{
    match cells.texts() {
        Some(texts) => row < texts.len() && texts.is_plain::<JSON>(row, 1),
        None => false,
    }
}

/// Returns the cell of a value that is lent.
#[inline(always)]
pub fn cell_of(value: LentValue<'_>) -> Cell<'_>
    ensures { cell_view result ≡ lent_value_view value.entry }
{
    match value {
        LentValue::Null => Cell::Null,
        LentValue::Integer(number) => Cell::Number(TypedNumber::new(NumberKind::Integer, number)),
        LentValue::Decimal(millionths) => Cell::Number(TypedNumber::new(
            NumberKind::Decimal,
            millionths,
        )),
        LentValue::Boolean(truth) => Cell::Number(TypedNumber::of_truth(truth)),
        LentValue::Date(date) => Cell::Number(TypedNumber::of_day(date)),
        LentValue::Text(text) => Cell::Text(text),
        LentValue::Other(value) => Cell::Value(value),
    }
}

/// Returns the text of a value that is lent, or `None` if it is null, or no text.
pub(crate) fn text_of<'a>(value: LentValue<'a>) -> Option<&'a str>
    ensures { option_map (λ t. t.now) result ≡ text_of_cell (lent_value_view value.entry) }
{
    match value {
        LentValue::Text(text) => Some(text),
        LentValue::Other(Value::Text(text)) => Some(text.as_str()),
        _ => None,
    }
}
