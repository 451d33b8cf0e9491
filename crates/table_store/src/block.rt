//! The blocks of a table's rows.
ghost use Rattle.std.specs.Prelude.{◌≡◌, ◌<◌, ◌≤◌, Some, IfOk, IsOk, length, map, slice_get, option_and_then};
ghost use Rattle.std.specs.Option.{option_copied};
ghost use Rattle.block_summary.specs.Cells.{AreUnpacked};
ghost use Rattle.block_summary.specs.Ranges.{column_of, is_null};
ghost use Rattle.block_summary.specs.Types.{numbers_of};
ghost use Rattle.block_summary.specs.declared.block.TheConstants.{BLOCK_ROWS};
ghost use Rattle.cell_types.specs.Value.{value_view};
ghost use Rattle.csvw_meta.specs.Schema.{schema_view};
ghost use Rattle.table_store.specs.Block.{block_count, block_of, packed_cells, text_cells, typed_cells_of, HasNumbers};
ghost use Rattle.table_store.specs.Fits.{HasTableRows};
ghost use Rattle.table_store.specs.Summaries.{IsSummaryOf};

use crate::table::Table;
use block_summary::{BLOCK_ROWS, PackedColumn, Summary};
use cell_types::Value;
use column_blocks::BlockCells;
use csvw_meta::Schema;
use std::alloc::{AllocError, Global};
use std::marker::Model;
use text_columns::TextColumn;

/// The rows of one block of a table.
#[derive(Drop)]
pub struct Block<'t> {
    pub(crate) table: &'t Table,
    /// The number of its first row in the table.
    pub(crate) first: usize,
    /// How many rows there are from there on, at most a block's.
    pub(crate) rows: usize,
}

impl<'t> Model for Block<'t> {
    ghost use Rattle.table_store.specs.Table.{TableOf};

    ghost Value = { TableOf };

    ghost use Rattle.table_store.specs.Block.{block_view, IsPartOfTable};

    ghost view = { block_view };

    ghost invariant = { IsPartOfTable };
}

impl Table {
    /// Returns the block of a number, counted from 0.
    pub fn block(&self, number: usize) -> Block<'_>
        requires { number < block_count (length self.now.rows) }
        ensures { result ≡ block_of self.now number }
    {
        let all = self.rows();
        let first = number * BLOCK_ROWS;
        let rows = (all - first).min(BLOCK_ROWS);
        Block {
            table: self,
            first,
            rows,
        }
    }
}

impl<'t> Block<'t> {
    pub fn schema(&self) -> &'t Schema
        ensures { schema_view result.now ≡ self.now.schema }
    {
        self.table.schema()
    }

    /// Returns how many rows the block has.
    pub fn rows(&self) -> usize
        ensures { result ≡ length self.now.rows }
    {
        self.rows
    }

    /// Returns the value of a row, counted from 0 in the block, and a column.
    pub fn value(&self, alloc: Global, row: usize, col: usize) -> Result<Value<'t>, AllocError>
        requires row { row < length self.now.rows }
        requires col { col < length self.now.schema.columns }
        ensures memory { IsOk result }
        ensures value { IfOk result (λ value.
            option_and_then (λ values. slice_get values col) (slice_get self.now.rows row)
            ≡ Some (value_view value)) }
    {
        self.table.value(alloc, self.first + row, col)
    }

    /// Returns the cells of a column in the block; nothing for a column of texts.
    pub fn packed(&self, col: usize) -> Option<&'t PackedColumn>
        requires { col < length self.now.schema.columns }
        ensures { option_copied result ≡ packed_cells self.now col }
    {
        self.table.packed(self.first / BLOCK_ROWS, col)
    }

    /// Returns the cells of a column of texts in the block; nothing for another column.
    pub fn texts(&self, col: usize) -> Option<TextColumn<'t>>
        requires { col < length self.now.schema.columns }
        ensures { result ≡ text_cells self.now col }
    {
        self.table.texts(self.first / BLOCK_ROWS, col)
    }

    /// Returns the cells of a column in the block, to be kept after the block: they are shared with the table, and not copied. It takes no memory.
    pub fn shared(&self, col: usize) -> Result<BlockCells, AllocError>
        requires { col < length self.now.schema.columns }
        ensures { IfOk result (λ cells. Some cells ≡ typed_cells_of self.now col) }
    {
        self.table.shared(self.first / BLOCK_ROWS, col)
    }

    /// Writes the number of each row in a column that is none of texts, and marks the nulls. A decimal is written in millionths, a day by its
    /// number ([`cell_types::day_number`]), false as 0 and true as 1; at a null stands any number.
    pub fn numbers(&self, col: usize, numbers: &mut [i64], nulls: &mut [bool])
        requires col { col < length self.now.schema.columns }
        requires numbers { HasNumbers self.now col }
        requires numbers_long { length numbers.old ≡ length self.now.rows }
        requires nulls_long { length nulls.old ≡ length self.now.rows }
        ensures numbers { AreUnpacked (numbers_of (column_of self.now.rows col)) numbers.new }
        ensures nulls { nulls.new ≡ map is_null (column_of self.now.rows col) }
    {
        let Some(column) = self.packed(col) else {
            unreachable!();
        };
        column.unpack(numbers);
        column.unpack_nulls(nulls);
    }

    /// Returns the summary of the block: the range of each of its columns.
    pub fn summary(&self) -> &'t Summary
        ensures { IsSummaryOf self.now result.now }
    {
        &self.table.summary()[self.first / BLOCK_ROWS]
    }

    /// There are no more rows than a block has.
    pub fn rows_are_few(&self)
        ensures { length self.now.rows ≤ BLOCK_ROWS }
    {
        let _rows = self.rows; // a look at a field brings the invariant into sight
    }

    /// Each value is one that its column may have, no text has more than 2 to the 30 bytes, and there are no more rows than that.
    pub fn values_fit(&self)
        ensures { HasTableRows self.now }
    {
        self.table.values_fit();
    }
}
