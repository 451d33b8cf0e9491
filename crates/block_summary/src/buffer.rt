//! The cells of a column, read one after another until they fill a block.

ghost use Rattle.std.specs.Prelude.{◌≡◌, ◌<◌, [], IfOk, length};
ghost use Rattle.std.specs.Option.{ForSome};
ghost use Rattle.cell_types.specs.Kind.{cell_of, IsNumberOf};
ghost use Rattle.block_summary.specs.Reading.{buffer_with_cell};

use crate::packed::PackedColumn;
use cell_types::NumberKind;
use std::alloc::{AllocError, Global};
use std::marker::Model;

/// The cells of a column that are read one after another, until they fill a block.
#[derive(Drop)]
pub struct CellBuffer {
    kind: NumberKind,
    values: Vec<i64>,
    nulls: Vec<bool>,
    len: usize,
}

impl Model for CellBuffer {
    ghost use Rattle.std.specs.Prelude.{◌≡◌, ◌≤◌, length, take};
    ghost use Rattle.block_summary.specs.Reading.{BufferOf};

    ghost Value = { BufferOf };

    ghost use Rattle.block_summary.specs.Cells.{cells_of};
    ghost use Rattle.block_summary.specs.Types.{number_cells, AllNumbersOf};

    ghost view = { λ b. record {
      kind = b.kind;
      room = length b.values.items;
      cells = number_cells b.kind (take b.len b.nulls.items) (take b.len b.values.items);
    } };

    ghost invariant = { λ b. (length b.nulls.items ≡ length b.values.items)
        × (b.len ≤ length b.values.items)
        × AllNumbersOf b.kind (cells_of (take b.len b.nulls.items) (take b.len b.values.items)) };
}

impl CellBuffer {
    /// Returns an empty buffer with room for `room` cells.
    pub fn new(alloc: Global, kind: NumberKind, room: usize) -> Result<CellBuffer, AllocError>
        ensures { IfOk result
            (λ buffer. buffer ≡ record { kind = kind; room = room; cells = [] }) }
    {
        let values = Vec::from_elem(alloc, 0, room)?;
        let nulls = Vec::from_elem(alloc, false, room)?;
        Ok(CellBuffer {
            kind,
            values,
            nulls,
            len: 0,
        })
    }

    /// Returns how many cells there are.
    pub fn len(&self) -> usize
        ensures { result ≡ length self.now.cells }
    {
        self.len
    }

    /// Adds the cell of a number, or a null.
    pub fn push(&mut self, number: Option<i64>)
        requires room { length self.old.cells < self.old.room }
        requires number { ForSome number (IsNumberOf self.old.kind) }
        ensures { self.new ≡ buffer_with_cell self.old (cell_of self.old.kind number) }
    {
        self.values[self.len] = number.unwrap_or(0);
        self.nulls[self.len] = number.is_none();
        self.len += 1;
    }

    /// Begins anew.
    pub fn clear(&mut self)
        ensures { self.new ≡ record self.old { cells = [] } }
    {
        self.len = 0;
    }

    /// Returns the cells, as a block keeps them.
    pub fn pack(&self, alloc: Global) -> Result<PackedColumn, AllocError>
        ensures { IfOk result (λ column. column ≡ self.now.cells) }
    {
        PackedColumn::pack(
            alloc,
            self.kind,
            &self.values.as_slice()[..self.len],
            &self.nulls.as_slice()[..self.len],
        )
    }
}
