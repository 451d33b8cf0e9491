//! The columns of a table.
ghost use Rattle.std.specs.Prelude.{◌≡◌, ◌<◌, ◌*◌, ◌++◌, IfOk, OnOk, length, take, drop, slice_index_or};
ghost use Rattle.std.specs.Option.{option_copied};
ghost use Rattle.block_summary.specs.Ranges.{IsRangeOf};
ghost use Rattle.block_summary.specs.declared.block.TheConstants.{BLOCK_ROWS};
ghost use Rattle.cell_types.specs.Value.{null, value_view};
ghost use Rattle.column_blocks.specs.TypedColumn.{block_in, cells_in, cells_of_each, cells_of_numbers, cells_of_texts, AreBlocks, HaveKind};

use crate::block_cells::BlockCells;
use block_summary::{BLOCK_ROWS, PackedColumn, Range};
use cell_types::{ColumnKind, Value};
use std::alloc::{AllocError, Global};
use std::marker::Model;
use text_columns::TextColumn;

/// The cells of a column of a table, block by block.
#[derive(Drop)]
pub struct TypedColumn {
    pub(crate) kind: ColumnKind,
    pub(crate) blocks: Vec<BlockCells>,
}

impl Model for TypedColumn {
    ghost use Rattle.column_blocks.specs.ColumnCells.{ColumnCells};

    ghost Value = { ColumnCells };

    ghost use Rattle.block_summary.specs.declared.block.TheConstants.{BLOCK_ROWS};
    ghost use Rattle.column_blocks.specs.TypedColumn.{cells_in, cells_of_each, AreBlocks, HaveKind};

    ghost view = { λ c. record {
      kind = c.kind;
      cells = cells_in (cells_of_each c.blocks.items);
    } };

    ghost invariant = { λ c. AreBlocks BLOCK_ROWS (cells_of_each c.blocks.items)
        × HaveKind c.kind c.blocks.items };
}

impl TypedColumn {
    /// Returns the value of a row; null past the end.
    pub fn value(&self, row: usize) -> Value<'_>
        ensures { value_view result ≡ slice_index_or self.now.cells row null }
    {
        let number = row / BLOCK_ROWS;
        if number >= self.blocks.len() {
            return Value::Null;
        }
        self.blocks[number].value(row % BLOCK_ROWS)
    }

    /// Returns the cells of the block of a number, counted from 0, as they are packed; nothing for texts.
    pub fn packed(&self, number: usize) -> Option<&PackedColumn>
        requires { number * BLOCK_ROWS < length self.now.cells }
        ensures { option_copied result ≡ cells_of_numbers self.now.kind
            (take BLOCK_ROWS (drop (number * BLOCK_ROWS) self.now.cells)) }
    {
        self.blocks[number].packed()
    }

    /// Returns the texts and nulls of the block of a number, counted from 0; nothing for numbers.
    pub fn texts(&self, number: usize) -> Option<TextColumn<'_>>
        requires { number * BLOCK_ROWS < length self.now.cells }
        ensures { result ≡ cells_of_texts self.now.kind
            (take BLOCK_ROWS (drop (number * BLOCK_ROWS) self.now.cells)) }
    {
        self.blocks[number].texts()
    }

    /// Returns the cells of the block of a number, counted from 0, for another owner. It takes no memory.
    pub fn shared(&self, number: usize) -> Result<BlockCells, AllocError>
        requires { number * BLOCK_ROWS < length self.now.cells }
        ensures { IfOk result (λ shared. shared ≡ block_in self.now number) }
    {
        self.blocks[number].shared()
    }

    /// Returns the range of the block of a number, counted from 0.
    pub fn range(&self, alloc: Global, number: usize) -> Result<Range, AllocError>
        requires { number * BLOCK_ROWS < length self.now.cells }
        ensures { IfOk result (λ range. IsRangeOf range
            (take BLOCK_ROWS (drop (number * BLOCK_ROWS) self.now.cells))) }
    {
        self.blocks[number].range(alloc)
    }

    /// Returns the blocks of the cells, in their order.
    pub fn into_blocks(self) -> Vec<BlockCells>
        ensures kind { HaveKind self.kind result.items }
        ensures blocks { AreBlocks BLOCK_ROWS (cells_of_each result.items) }
        ensures cells { cells_in (cells_of_each result.items) ≡ self.cells }
    {
        let TypedColumn { blocks, .. } = self;
        blocks
    }
}
