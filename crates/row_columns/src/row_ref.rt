//! One row of columns.
ghost use Rattle.std.specs.Prelude.{◌≡◌, ◌<◌, IsTrue, Some, length, slice_get, slice_index_or};
ghost use Rattle.cell_types.specs.Value.{null, value_view};
ghost use Rattle.row_columns.specs.Cell.{cell_view};
ghost use Rattle.row_columns.specs.Store.{end_of, stored_row, IsStoredWide};
ghost use Rattle.text_columns.specs.PlainParts.{IsPlainCell};

use crate::cell::Cell;
use crate::store::Store;
use cell_types::Value;
use std::marker::Model;

/// A row of [`Columns`](crate::Columns), seen as the list of its values.
#[derive(Drop)]
pub struct RowRef<'a> {
    store: &'a Store,
    number: usize,
}

impl<'a> Model for RowRef<'a> {
    ghost use Rattle.std.specs.Prelude.{List};
    ghost use Rattle.cell_types.specs.Value.{CellValue};
    ghost use Rattle.row_columns.specs.Inside.{row_ref_view, IsLent};

    ghost Value = { List CellValue };

    ghost view = { row_ref_view };

    ghost invariant = { IsLent };
}

impl<'a> RowRef<'a> {
    /// Returns the row with a number.
    #[inline(always)]
    pub(crate) fn of(store: &'a Store, number: usize) -> RowRef<'a>
        requires wide { IsStoredWide store.now }
        requires number { number < end_of store.now }
        ensures { result ≡ stored_row store.now number }
    {
        RowRef { store, number }
    }

    /// Returns the value in a column, counted from 0. It takes no memory.
    #[inline(always)]
    pub fn value(&self, col: usize) -> Value<'a>
        requires { col < length self.now }
        ensures { slice_get self.now col ≡ Some (value_view result) }
    {
        self.store.value(self.number, col)
    }

    /// Returns the cell in a column, counted from 0, as it is kept.
    #[inline(always)]
    pub fn cell(&self, col: usize) -> Cell<'a>
        requires { col < length self.now }
        ensures { slice_get self.now col ≡ Some (cell_view result) }
    {
        self.store.cell(self.number, col)
    }

    /// Returns true if each byte of the text in a column, counted from 0, is known to stand for itself, in JSON or in CSV.
    #[inline(always)]
    pub fn is_plain<const JSON: bool>(&self, col: usize) -> bool
        requires { col < length self.now }
        ensures { IsTrue result → IsPlainCell JSON (slice_index_or self.now col null) }
    {
        self.store.is_plain::<JSON>(self.number, col)
    }
}
