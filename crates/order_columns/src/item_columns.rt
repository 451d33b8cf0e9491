//! The columns that items of an order are: those of a table, and before them the values of items that are computed.
ghost use Rattle.std.specs.Prelude.{◌≡◌, ◌<◌, [], get_or, length, map, option_map, slice_get, slice_index_or, IfOk, Some};
ghost use Rattle.cell_types.specs.Value.{value_view, null};
ghost use Rattle.row_eval.specs.Row.{text_in};
ghost use Rattle.order_columns.specs.Items.{extended, values_before};

use cell_types::Value;
use row_columns::Columns;
use std::alloc::{AllocError, Global};
use std::marker::Model;
use value_rows::{LentValue, PackedValues};

/// The columns of a table after columns of values. They are seen as rows, each of which begins with its values.
#[derive(Drop)]
pub struct ItemColumns<'a> {
    columns: &'a Columns,
    computed: &'a [PackedValues],
}

impl<'a> Model for ItemColumns<'a> {
    ghost use Rattle.order_columns.specs.Items.{extended, ItemRows};

    ghost Value = { ItemRows };

    ghost view = { λ c. record { rows = extended c.computed.now c.columns.now.rows } };
}

/// Returns the value that a column has for a row, or null if it has none.
#[inline(always)]
fn kept_value(values: &PackedValues, number: usize) -> Value<'_>
    ensures { value_view result ≡ slice_index_or values.now number null }
{
    if number < values.len() {
        return values.value(number);
    }
    Value::Null
}

/// Returns the values that columns have for a row.
fn kept_row<'c>(
    alloc: Global,
    computed: &'c [PackedValues],
    number: usize,
) -> Result<Vec<Value<'c>>, AllocError>
    ensures { IfOk result
        (λ made. map value_view made.items ≡ values_before computed.now number) }
{
    let mut values = Vec::with_capacity(alloc, computed.len())?;
    for column in computed {
        values.push(kept_value(column, number))?;
    }
    Ok(values)
}

/// Returns the value in the column with a number, or null if there is no such column.
#[inline(always)]
fn table_value(columns: &Columns, number: usize, place: usize) -> Value<'_>
    requires { number < length columns.now.rows }
    ensures { value_view result
        ≡ get_or (slice_index_or columns.now.rows number []) place null }
{
    columns.rows_are_wide();
    if place < columns.width() {
        return columns.value(number, place);
    }
    Value::Null
}

/// Returns the text in the column with a number, or `None` if the row has no text there, or there is no such column.
fn table_text(columns: &Columns, number: usize, place: usize) -> Option<&str>
    requires { number < length columns.now.rows }
    ensures { option_map (λ t. t.now) result
        ≡ text_in (get_or (slice_index_or columns.now.rows number []) place null) }
{
    columns.rows_are_wide();
    if place < columns.width() {
        return columns.text(number, place);
    }
    None
}

/// Returns the text that a column has for a row, or `None` if it has another value or none.
fn kept_text(values: &PackedValues, number: usize) -> Option<&str>
    ensures { option_map (λ t. t.now) result ≡ text_in (slice_index_or values.now number null) }
{
    if number >= values.len() {
        return None;
    }
    match values.lent(number) {
        LentValue::Text(text) => Some(text),
        LentValue::Other(Value::Text(text)) => Some(text.as_str()),
        _ => None,
    }
}

impl<'a> ItemColumns<'a> {
    /// Returns the columns of a table alone.
    pub fn of(columns: &'a Columns) -> ItemColumns<'a>
        ensures { result.rows ≡ columns.now.rows }
    {
        ItemColumns {
            columns,
            computed: &[],
        }
    }

    /// Returns the columns of a table after columns of values.
    pub fn after(columns: &'a Columns, computed: &'a [PackedValues]) -> ItemColumns<'a>
        ensures { result.rows ≡ extended computed.now columns.now.rows }
    {
        ItemColumns { columns, computed }
    }

    /// Returns how many rows there are.
    pub fn len(&self) -> usize
        ensures { result ≡ length self.now.rows }
    {
        self.columns.len()
    }

    /// Returns the value in the column with a number, or null if there is no such column.
    #[inline(always)]
    pub fn value(&self, number: usize, place: usize) -> Value<'_>
        requires { number < length self.now.rows }
        ensures { value_view result
            ≡ get_or (slice_index_or self.now.rows number []) place null }
    {
        match self.computed.get(place) {
            Some(values) => kept_value(values, number),
            None => table_value(self.columns, number, place - self.computed.len()),
        }
    }

    /// Returns the text in the column with a number, or `None` if the row has no text there, or there is no such column.
    pub fn text(&self, number: usize, place: usize) -> Option<&str>
        requires { number < length self.now.rows }
        ensures { option_map (λ t. t.now) result
            ≡ text_in (get_or (slice_index_or self.now.rows number []) place null) }
    {
        match self.computed.get(place) {
            Some(values) => kept_text(values, number),
            None => table_text(self.columns, number, place - self.computed.len()),
        }
    }

    /// Returns the values of a row.
    pub fn row(&self, alloc: Global, number: usize) -> Result<Vec<Value<'_>>, AllocError>
        requires { number < length self.now.rows }
        ensures { IfOk result
            (λ made. slice_get self.now.rows number ≡ Some (map value_view made.items)) }
    {
        let mut values = kept_row(alloc, self.computed, number)?;
        let mut others = self.columns.row(alloc, number)?;
        values.append(&mut others)?;
        Ok(values)
    }
}
