//! The rows of an answer.
ghost use Rattle.std.specs.Prelude.{◌≡◌, ◌<◌, [], ◌∷◌, IfOk, IfSome, Some, length, map, option_and_then, option_map, slice_get, string_bytes};
ghost use Rattle.std.specs.List.{All, AllByRecursion};
ghost use Rattle.cell_types.specs.Value.{value_view};
ghost use Rattle.csvw_meta.specs.Schema.{schema_view};
ghost use Rattle.row_eval.specs.Row.{row_view};
ghost use Rattle.row_columns.specs.Picked.{numbered};
ghost use Rattle.result_rows.specs.Rows.{rows_of_row};

use crate::names::{names_of, picked_names};
use cell_types::Value;
use csvw_meta::Schema;
use row_columns::{Columns, RowRef};
use std::alloc::{AllocError, Global};
use std::marker::Model;
use value_rows::PackedValues;

/// Rows of values under their names. They own what they have.
#[derive(Drop)]
pub struct Rows {
    names: Vec<String>,
    columns: Columns,
    count: Option<u64>,
}

impl Model for Rows {
    ghost use Rattle.result_rows.specs.Rows.{RowsOf};

    ghost Value = { RowsOf };

    ghost use Rattle.result_rows.specs.Inside.{rows_view, AreUnderNames};

    ghost view = { rows_view };

    ghost invariant = { AreUnderNames };
}

/// Returns a row of values in columns of any.
fn one_row(alloc: Global, values: &[Value<'_>]) -> Result<Columns, AllocError>
    ensures kinds { IfOk result (λ made. length made.kinds ≡ length values.now) }
    ensures rows { IfOk result (λ made. made.rows ≡ row_view values.now ∷ []) }
{
    let mut row = PackedValues::new(alloc);
    for value in values {
        row.push(alloc, value)?;
    }
    Columns::of_values(alloc, values.len(), 1, row)
}

impl Rows {
    /// Returns rows of columns, with a name for each column.
    pub fn new(names: Vec<String>, columns: Columns, count: Option<u64>) -> Rows
        requires { length columns.kinds ≡ length names.items }
        ensures { result ≡ record {
          names = map string_bytes names.items;
          rows = columns.rows;
          count = count;
        } }
    {
        Rows {
            names,
            columns,
            count,
        }
    }

    /// Returns the row of a key: its values in the columns that are selected, or in all of them.
    pub fn of_row(
        alloc: Global,
        schema: &Schema,
        values: &[Value<'_>],
        select: Option<&[usize]>,
    ) -> Result<Rows, AllocError>
        requires wide { length values.now ≡ length (schema_view schema.now).columns }
        requires within { IfSome select
            (λ places. All (λ place. place < length values.now) places.now) }
        ensures { IfOk result (λ rows. rows ≡ rows_of_row (schema_view schema.now)
            (option_map (λ places. places.now) select.entry) (row_view values.now)) }
    {
        let names = names_of(alloc, schema.columns.as_slice())?;
        let row = one_row(alloc, values)?;
        match select {
            Some(places) => {
                let names = picked_names(alloc, names.as_slice(), places)?;
                let picked = row.picked(alloc, places, &[0])?;
                Ok(Rows::new(names, picked, None))
            }
            None => Ok(Rows::new(names, row, None)),
        }
    }

    /// Returns the names of the columns.
    pub fn names(&self) -> &[String]
        ensures { map string_bytes result.now ≡ self.now.names }
    {
        self.names.as_slice()
    }

    /// Returns how many values each row has: one for each name.
    pub fn width(&self) -> usize
        ensures names { result ≡ length self.now.names }
        ensures rows { AllByRecursion (λ values. length values ≡ result) self.now.rows }
    {
        self.columns.rows_are_wide();
        self.names.len()
    }

    /// Returns the columns that the values stand in, one for each name.
    pub fn columns(&self) -> &Columns
        ensures rows { result.now.rows ≡ self.now.rows }
        ensures width { length result.now.kinds ≡ length self.now.names }
    {
        &self.columns
    }

    /// Returns how many rows there are.
    pub fn len(&self) -> usize
        ensures { result ≡ length self.now.rows }
    {
        self.columns.len()
    }

    /// Returns the value of a row and a column, both counted from 0. It takes no memory.
    pub fn value(&self, row: usize, col: usize) -> Value<'_>
        requires row { row < length self.now.rows }
        requires col { col < length self.now.names }
        ensures { option_and_then (λ values. slice_get values col) (slice_get self.now.rows row)
            ≡ Some (value_view result) }
    {
        self.columns.value(row, col)
    }

    /// Returns a row, counted from 0. It takes no memory, and if several of its values are asked for, it is the faster way.
    pub fn row_ref(&self, row: usize) -> RowRef<'_>
        requires { row < length self.now.rows }
        ensures row { slice_get self.now.rows row ≡ Some result }
        ensures width { length result ≡ length self.now.names }
    {
        self.columns.row_ref(row)
    }

    /// Returns the rows with these numbers, counted from 0, under the same names, and a count.
    pub fn with_rows(
        self,
        alloc: Global,
        numbers: &[usize],
        count: Option<u64>,
    ) -> Result<Rows, AllocError>
        requires { All (λ number. number < length self.rows) numbers.now }
        ensures { IfOk result (λ rows. rows ≡ record {
          names = self.names;
          rows = numbered numbers.now self.rows;
          count = count;
        }) }
    {
        let Rows {
            names,
            mut columns,
            ..
        } = self;
        columns.put_in_order(alloc, numbers)?;
        Ok(Rows {
            names,
            columns,
            count,
        })
    }

    /// Returns how many rows there are in all, if that was asked for.
    pub fn count(&self) -> Option<u64>
        ensures { result ≡ self.now.count }
    {
        self.count
    }
}
