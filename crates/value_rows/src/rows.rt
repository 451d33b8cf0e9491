//! Rows of values.
ghost use Rattle.std.specs.Prelude.{◌≡◌, ◌<◌, ◌≤◌, ◌+◌, ◌*◌, ◌++◌, ◌∷◌, [], IfOk, IfSome, OnOk, length, map, slice_index_or};
ghost use Rattle.std.specs.List.{All};
ghost use Rattle.cell_types.specs.Rows.{values_at};
ghost use Rattle.cell_types.specs.Value.{null, value_view};
ghost use Rattle.value_rows.specs.Packed.{lent_value_view, AreTextsWithin};
ghost use Rattle.value_rows.specs.ValueRows.{numbered, rows_of};

use crate::packed::PackedValues;
use crate::slots::{LentValue, value_of};
use cell_types::Value;
use std::alloc::{AllocError, Global};
use std::marker::Model;
use table_store::Block;

/// Rows of `width` values of any kind, one after another in one list.
#[derive(Drop)]
pub struct ValueRows {
    width: usize,
    count: usize,
    /// What is after the values of `count` rows is of no row.
    values: PackedValues,
}

impl Model for ValueRows {
    ghost use Rattle.std.specs.Prelude.{◌*◌, ◌≤◌, length};
    ghost use Rattle.value_rows.specs.ValueRows.{rows_of, ValueRowsOf};

    ghost Value = { ValueRowsOf };

    ghost view = { λ v. record {
      width = v.width;
      rows = rows_of v.width v.count v.values;
    } };

    ghost invariant = { λ v. v.count * v.width ≤ length v.values };
}

/// Appends copies of the values that a row of a block has in the columns with these places.
fn push_taken(
    values: &mut PackedValues,
    alloc: Global,
    block: &Block<'_>,
    places: &[usize],
    row: usize,
) -> Result<(), AllocError>
    requires places { All (λ place. place < length block.now.schema.columns) places.now }
    requires row { row < length block.now.rows }
    ensures longer { length values.old ≤ length values.new }
    ensures values { OnOk result (values.new
        ≡ values.old ++ values_at places.now (slice_index_or block.now.rows row [])) }
{
    for place in places {
        values.push(alloc, &block.value(alloc, row, *place)?)?;
    }
    Ok(())
}

impl ValueRows {
    /// Returns `count` rows of `width` values, one after another. Values after these are of no row.
    pub fn of(width: usize, count: usize, values: PackedValues) -> ValueRows
        requires { count * width ≤ length values }
        ensures { result ≡ record { width = width; rows = rows_of width count values } }
    {
        ValueRows {
            width,
            count,
            values,
        }
    }

    /// Returns how many values a row has.
    pub fn width(&self) -> usize
        ensures { result ≡ self.now.width }
    {
        self.width
    }

    /// Returns how many rows there are.
    pub fn len(&self) -> usize
        ensures { result ≡ length self.now.rows }
    {
        self.count
    }

    /// Returns the value of a row and a column, both counted from 0, as it is kept.
    #[inline(always)]
    pub fn lent(&self, row: usize, col: usize) -> LentValue<'_>
        requires row { row < length self.now.rows }
        requires col { col < self.now.width }
        ensures { lent_value_view result
            ≡ slice_index_or (slice_index_or self.now.rows row []) col null }
    {
        self.values.are_few();
        self.values.lent(row * self.width + col)
    }

    /// Returns the value of a row and a column, both counted from 0.
    #[inline(always)]
    pub fn value(&self, row: usize, col: usize) -> Value<'_>
        requires row { row < length self.now.rows }
        requires col { col < self.now.width }
        ensures { value_view result
            ≡ slice_index_or (slice_index_or self.now.rows row []) col null }
    {
        value_of(self.lent(row, col))
    }

    /// Writes how many bytes the text of each row has in a column, of as many rows from `first` on as there are places. Returns bytes that have all these texts, or `None` if they
    /// are not known to be texts one after another.
    #[inline(always)]
    pub fn text_lengths(&self, first: usize, col: usize, lengths: &mut [usize]) -> Option<&[u8]>
        requires some { 0 < length lengths.old }
        requires rows { first + length lengths.old ≤ length self.now.rows }
        requires col { col < self.now.width }
        ensures long { length lengths.new ≡ length lengths.old }
        ensures texts { IfSome result (λ bytes. AreTextsWithin
            (λ i. slice_index_or (slice_index_or self.now.rows (first + i) []) col null)
            lengths.new bytes.now) }
    {
        self.values.are_few();
        self.values
            .text_lengths(first * self.width + col, self.width, lengths)
    }

    /// Appends copies of the values that a row has in the columns with these places to others.
    fn push_picked(
        &self,
        values: &mut PackedValues,
        alloc: Global,
        places: &[usize],
        row: usize,
    ) -> Result<(), AllocError>
        requires places { All (λ place. place < self.now.width) places.now }
        requires row { row < length self.now.rows }
        ensures { OnOk result (values.new
            ≡ values.old ++ values_at places.now (slice_index_or self.now.rows row [])) }
    {
        for place in places {
            values.push(alloc, &self.value(row, *place))?;
        }
        Ok(())
    }

    /// Returns copies of the values that the rows have in the columns with these places.
    pub fn picked(&self, alloc: Global, places: &[usize]) -> Result<ValueRows, AllocError>
        requires { All (λ place. place < self.now.width) places.now }
        ensures width { IfOk result (λ made. made.width ≡ length places.now) }
        ensures rows { IfOk result
            (λ made. made.rows ≡ map (values_at places.now) self.now.rows) }
    {
        let mut values = PackedValues::new(alloc);
        for number in 0..self.count {
            self.push_picked(&mut values, alloc, places, number)?;
        }
        Ok(ValueRows::of(places.len(), self.count, values))
    }

    /// Appends copies of the values that the rows of a block with these numbers have in the columns with these places.
    pub fn take(
        &mut self,
        alloc: Global,
        block: &Block<'_>,
        places: &[usize],
        numbers: &[usize],
    ) -> Result<(), AllocError>
        requires width { self.old.width ≡ length places.now }
        requires places { All (λ place. place < length block.now.schema.columns) places.now }
        requires within { All (λ number. number < length block.now.rows) numbers.now }
        ensures width { self.new.width ≡ self.old.width }
        ensures rows { OnOk result (self.new.rows ≡ self.old.rows
            ++ map (values_at places.now) (numbered numbers.now block.now.rows)) }
    {
        for number in numbers {
            self.push_row(alloc, block, places, *number)?;
        }
        Ok(())
    }

    /// Appends copies of the values that a row of a block has in the columns with these places.
    fn push_row(
        &mut self,
        alloc: Global,
        block: &Block<'_>,
        places: &[usize],
        row: usize,
    ) -> Result<(), AllocError>
        requires width { self.old.width ≡ length places.now }
        requires places { All (λ place. place < length block.now.schema.columns) places.now }
        requires row { row < length block.now.rows }
        ensures width { self.new.width ≡ self.old.width }
        ensures rows { OnOk result (self.new.rows ≡ self.old.rows
            ++ values_at places.now (slice_index_or block.now.rows row []) ∷ []) }
    {
        // That many rows of values would not fit in memory.
        let Some(count) = self.count.checked_add(1) else {
            return Err(AllocError);
        };
        self.values.are_few();
        self.values.truncate(self.count * self.width);
        push_taken(&mut self.values, alloc, block, places, row)?;
        self.count = count;
        Ok(())
    }

    /// Drops every row.
    pub fn clear(&mut self)
        ensures width { self.new.width ≡ self.old.width }
        ensures rows { self.new.rows ≡ [] }
    {
        self.values.clear();
        self.count = 0;
    }
}
