//! Columns of values.
ghost use Rattle.std.specs.Prelude.{◌≡◌, ◌+◌, ◌*◌, ◌++◌, ◌^◌, [], ◌<◌, ◌≤◌, ℕ, IfOk, IfSome, OnErr, OnOk, Some, length, map, option_and_then, option_map, replicate, slice_get, slice_index_or};
ghost use Rattle.std.specs.List.{All};
ghost use Rattle.block_summary.specs.Ranges.{column_of};
ghost use Rattle.cell_types.specs.Column.{column_view};
ghost use Rattle.cell_types.specs.Value.{value_view, null};
ghost use Rattle.row_columns.specs.Codes.{HaveCodes};
ghost use Rattle.row_columns.specs.Columns.{no_columns};
ghost use Rattle.row_columns.specs.Kinds.{any, kinds_of};
ghost use Rattle.row_columns.specs.Picked.{kinds_at, numbered, values_at};
ghost use Rattle.row_columns.specs.Text.{text_of_cell};
ghost use Rattle.value_rows.specs.ValueRows.{rows_of};

use crate::row_numbers::RowNumbers;
use crate::row_ref::RowRef;
use crate::store::{Store, all_kinds, kinds_at_places};
use block_summary::PackedColumn;
use cell_types::{Column, Value};
use row_selection::Selection;
use std::alloc::{AllocError, Global};
use std::marker::Model;
use std::mem;
use table_store::Block;
use value_rows::{PackedValues, ValueRows};

/// Rows of values, one of the kind of each column. Of the rows of a block their numbers are kept, beside the block.
#[derive(Drop)]
pub struct Columns {
    pub(crate) store: Store,
    /// A row of blocks has the number of its block and its own in the block, as one.
    pub(crate) numbers: RowNumbers,
}

impl Model for Columns {
    ghost use Rattle.row_columns.specs.Columns.{ColumnsOf};

    ghost Value = { ColumnsOf };

    ghost use Rattle.row_columns.specs.Inside.{columns_view, HoldRows};

    ghost view = { columns_view };

    ghost invariant = { HoldRows };
}

impl Columns {
    /// Returns no columns, and no rows.
    pub fn none(alloc: Global) -> Columns
        ensures { result ≡ no_columns }
    {
        Columns {
            store: Store::none(alloc),
            numbers: RowNumbers::none(alloc),
        }
    }

    /// Returns no rows yet, for the columns of a table.
    pub fn new(alloc: Global, columns: &[Column]) -> Result<Columns, AllocError>
        ensures { IfOk result (λ made.
            made ≡ record { kinds = kinds_of (map column_view columns.now); rows = [] }) }
    {
        let kinds = all_kinds(alloc, columns)?;
        Ok(Columns {
            store: Store::Blocks(kinds, Vec::new(alloc)),
            numbers: RowNumbers::none(alloc),
        })
    }

    /// Returns no rows yet, for those of a table's columns that have these places, counted from 0.
    pub fn of_places(
        alloc: Global,
        columns: &[Column],
        places: &[usize],
    ) -> Result<Columns, AllocError>
        requires { All (λ place. place < length columns.now) places.now }
        ensures kinds { IfOk result (λ made.
            made.kinds ≡ kinds_at places.now (kinds_of (map column_view columns.now))) }
        ensures rows { IfOk result (λ made. made.rows ≡ []) }
    {
        let kinds = kinds_at_places(alloc, columns, places)?;
        Ok(Columns {
            store: Store::Blocks(kinds, Vec::new(alloc)),
            numbers: RowNumbers::none(alloc),
        })
    }

    /// Returns `count` rows of `width` values of any kind, given one after another. Values after these are of no row.
    pub fn of_values(
        alloc: Global,
        width: usize,
        count: usize,
        values: PackedValues,
    ) -> Result<Columns, AllocError>
        requires { count * width ≤ length values }
        ensures { IfOk result (λ made. made ≡ record {
          kinds = replicate width any;
          rows = rows_of width count values;
        }) }
    {
        let numbers = RowNumbers::first(alloc, count)?;
        Ok(Columns {
            store: Store::Values(ValueRows::of(width, count, values)),
            numbers,
        })
    }

    /// Drops every column and every row.
    fn drop_all(&mut self, alloc: Global)
        ensures { self.new ≡ no_columns }
    {
        self.store = Store::none(alloc);
        self.numbers.clear();
    }

    /// Appends the selected rows of a block. If memory ran out, no column is left.
    pub fn take(
        &mut self,
        alloc: Global,
        block: &Block<'_>,
        rows: Selection,
    ) -> Result<(), AllocError>
        requires kinds { self.old.kinds ≡ kinds_of block.now.schema.columns }
        requires within { All (λ number. number < length block.now.rows) rows }
        ensures kinds { OnOk result (self.new.kinds ≡ self.old.kinds) }
        ensures rows { OnOk result
            (self.new.rows ≡ self.old.rows ++ numbered rows block.now.rows) }
        ensures refused { OnErr result (self.new ≡ no_columns) }
    {
        block.values_fit();
        match Selection::all(block.schema().columns.len()).to_vec(alloc) {
            Ok(places) => self.take_places(alloc, block, places.as_slice(), rows),
            Err(refused) => {
                self.drop_all(alloc);
                Err(refused)
            }
        }
    }

    /// Appends the values that the selected rows of a block have in the columns with these places. If memory ran out, no column is left.
    pub fn take_places(
        &mut self,
        alloc: Global,
        block: &Block<'_>,
        places: &[usize],
        rows: Selection,
    ) -> Result<(), AllocError>
        requires kinds { self.old.kinds ≡ kinds_at places.now (kinds_of block.now.schema.columns) }
        requires places { All (λ place. place < length block.now.schema.columns) places.now }
        requires within { All (λ number. number < length block.now.rows) rows }
        ensures kinds { OnOk result (self.new.kinds ≡ self.old.kinds) }
        ensures rows { OnOk result (self.new.rows
            ≡ self.old.rows ++ map (values_at places.now) (numbered rows block.now.rows)) }
        ensures refused { OnErr result (self.new ≡ no_columns) }
    {
        if rows.len() == 0 {
            return Ok(());
        }
        let mut store = mem::replace(&mut self.store, Store::none(alloc));
        let mut kept = mem::replace(&mut self.numbers, RowNumbers::none(alloc));
        let (start, rows) = store.take(alloc, block, places, rows)?;
        kept.append(alloc, start, rows)?;
        self.store = store;
        self.numbers = kept;
        Ok(())
    }

    /// Returns how many rows there are.
    pub fn len(&self) -> usize
        ensures { result ≡ length self.now.rows }
    {
        self.numbers.len()
    }

    /// Returns how many columns there are.
    pub fn width(&self) -> usize
        ensures { result ≡ length self.now.kinds }
    {
        self.store.width()
    }

    /// Each row has a value for each column.
    pub fn rows_are_wide(&self)
        ensures { All (λ row. length row ≡ length self.now.kinds) self.now.rows }
    {
        let _store = &self.store; // a look at a field brings the invariant into sight
    }

    /// Returns the value of a row and a column, both counted from 0. It takes no memory.
    #[inline(always)]
    pub fn value(&self, row: usize, col: usize) -> Value<'_>
        requires row { row < length self.now.rows }
        requires col { col < length self.now.kinds }
        ensures { option_and_then (λ values. slice_get values col) (slice_get self.now.rows row)
            ≡ Some (value_view result) }
    {
        self.store.value(self.numbers.at(row) as usize, col)
    }

    /// Returns a row, counted from 0. It takes no memory, and if several values of a row are asked for, it is the faster way.
    #[inline(always)]
    pub fn row_ref(&self, row: usize) -> RowRef<'_>
        requires { row < length self.now.rows }
        ensures row { slice_get self.now.rows row ≡ Some result }
        ensures width { length result ≡ length self.now.kinds }
    {
        RowRef::of(&self.store, self.numbers.at(row) as usize)
    }

    /// Returns the text of a row and a column, both counted from 0, or `None` if the value is null, or no text. It takes no memory.
    pub fn text(&self, row: usize, col: usize) -> Option<&str>
        requires row { row < length self.now.rows }
        requires col { col < length self.now.kinds }
        ensures { option_map (λ t. t.now) result
            ≡ text_of_cell (slice_index_or (slice_index_or self.now.rows row []) col null) }
    {
        self.store.text(self.numbers.at(row) as usize, col)
    }

    /// Returns a code for each row by its value in a column, counted from 0, or `None` if the rows are not all those of one block, in their order, or it has no codes for the column.
    pub fn codes(&self, alloc: Global, col: usize) -> Result<Option<Vec<u8>>, AllocError>
        requires { col < length self.now.kinds }
        ensures { IfOk result (λ codes.
            IfSome codes (λ codes. HaveCodes codes.items col self.now.rows)) }
    {
        match self.numbers.run() {
            Some(run) => self.store.codes(alloc, run, col),
            None => Ok(None),
        }
    }

    /// Returns the cells of a column as they are packed, if the rows are all those of one block, in their order, or `None` if they are others, or the column has texts.
    pub fn packed(&self, col: usize) -> Option<&PackedColumn>
        requires { col < length self.now.kinds }
        ensures { IfSome result (λ cells. cells.now ≡ column_of self.now.rows col) }
    {
        let run = self.numbers.run()?;
        self.store.packed(run, col)
    }

    /// Returns the values of a row, counted from 0.
    pub fn row(&self, alloc: Global, row: usize) -> Result<Vec<Value<'_>>, AllocError>
        requires { row < length self.now.rows }
        ensures { IfOk result
            (λ values. slice_get self.now.rows row ≡ Some (map value_view values.items)) }
    {
        self.rows_are_wide();
        let width = self.width();
        let mut values = Vec::with_capacity(alloc, width)?;
        for col in 0..width {
            values.push(self.value(row, col))?;
        }
        Ok(values)
    }

    /// Returns the values that the rows with these numbers have in the columns with these places, each counted from 0.
    pub fn picked(
        &self,
        alloc: Global,
        places: &[usize],
        numbers: &[usize],
    ) -> Result<Columns, AllocError>
        requires places { All (λ place. place < length self.now.kinds) places.now }
        requires within { All (λ number. number < length self.now.rows) numbers.now }
        ensures kinds { IfOk result (λ made. made.kinds ≡ kinds_at places.now self.now.kinds) }
        ensures rows { IfOk result (λ made.
            made.rows ≡ map (values_at places.now) (numbered numbers.now self.now.rows)) }
    {
        let store = self.store.picked(alloc, places)?;
        let numbers = self.numbers.picked(alloc, numbers)?;
        Ok(Columns { store, numbers })
    }

    /// Keeps the number of each row by itself, unless the rows follow on one another in their table, so that each is found at once.
    pub fn list(&mut self, alloc: Global) -> Result<(), AllocError>
        ensures { self.new ≡ self.old }
    {
        self.numbers.list(alloc)
    }

    /// Puts the rows with these numbers, counted from 0, in the place of all. An error leaves the rows as they were.
    pub fn put_in_order(&mut self, alloc: Global, numbers: &[usize]) -> Result<(), AllocError>
        requires { All (λ number. number < length self.old.rows) numbers.now }
        ensures kinds { self.new.kinds ≡ self.old.kinds }
        ensures rows { OnOk result (self.new.rows ≡ numbered numbers.now self.old.rows) }
        ensures refused { OnErr result (self.new ≡ self.old) }
    {
        self.numbers = self.numbers.picked(alloc, numbers)?;
        Ok(())
    }

    /// Drops every row.
    pub fn clear(&mut self)
        ensures kinds { self.new.kinds ≡ self.old.kinds }
        ensures rows { self.new.rows ≡ [] }
    {
        self.numbers.clear();
        self.store.clear();
    }
}
