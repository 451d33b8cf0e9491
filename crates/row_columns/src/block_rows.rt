//! Rows that follow on one another in one block.
ghost use Rattle.std.specs.Prelude.{◌≡◌, ◌+◌, ◌<◌, ◌≤◌, ℕ, [], IfSome, drop, length, map, slice_index_or, take};
ghost use Rattle.block_summary.specs.Ranges.{column_of};
ghost use Rattle.block_summary.specs.declared.block.TheConstants.{BLOCK_ROWS};
ghost use Rattle.row_columns.specs.Numbers.{numbers_from};
ghost use Rattle.row_columns.specs.Part.{ArePartOf, AreRowsFrom};
ghost use Rattle.row_columns.specs.Piece.{piece_row};
ghost use Rattle.row_columns.specs.Store.{end_of, stored_row};

use crate::columns::Columns;
use crate::piece::Piece;
use crate::store::Store;
use block_summary::{BLOCK_ROWS, PackedColumn};
use column_blocks::BlockCells;
use std::marker::Model;
use text_columns::TextColumn;
use value_rows::ValueRows;

/// Rows that follow on one another in one block, one at least. They are seen as the list of these rows.
#[derive(Drop)]
pub struct BlockRows<'a> {
    piece: &'a Piece,
    first: usize,
    len: usize,
}

impl<'a> Model for BlockRows<'a> {
    ghost use Rattle.std.specs.Prelude.{◌+◌, ◌<◌, ◌≤◌, List, map};
    ghost use Rattle.block_summary.specs.declared.block.TheConstants.{BLOCK_ROWS};
    ghost use Rattle.cell_types.specs.Value.{CellValue};
    ghost use Rattle.row_columns.specs.Numbers.{numbers_from};
    ghost use Rattle.row_columns.specs.Piece.{piece_row};

    ghost Value = { List (List CellValue) };

    ghost view = { λ b. map (piece_row b.piece.now) (numbers_from b.first b.len) };

    ghost invariant = { λ b. (0 < b.len) × (b.first + b.len ≤ BLOCK_ROWS) };
}

/// The cells of a column of such rows. They are seen as the list of these cells.
#[derive(Drop)]
pub struct ColumnPart<'a> {
    cells: &'a BlockCells,
    first: usize,
    len: usize,
}

impl<'a> Model for ColumnPart<'a> {
    ghost use Rattle.std.specs.Prelude.{◌+◌, ◌≤◌, List, map, slice_index_or};
    ghost use Rattle.block_summary.specs.declared.block.TheConstants.{BLOCK_ROWS};
    ghost use Rattle.cell_types.specs.Value.{CellValue, null};
    ghost use Rattle.row_columns.specs.Numbers.{numbers_from};

    ghost Value = { List CellValue };

    ghost view = { λ c. map (λ row. slice_index_or c.cells.now.cells row null)
        (numbers_from c.first c.len) };

    ghost invariant = { λ c. c.first + c.len ≤ BLOCK_ROWS };
}

/// The cells that a block has in a column, as they are kept, and the number of the first row of a part of them.
#[derive(Drop)]
pub enum PartCells<'a> {
    Numbers(&'a PackedColumn, usize),
    Texts(TextColumn<'a>, usize),
}

impl<'a> BlockRows<'a> {
    /// Returns `len` rows from the row `first` of a block on.
    pub(crate) fn of(piece: &'a Piece, first: usize, len: usize) -> BlockRows<'a>
        requires some { 0 < len }
        requires within { first + len ≤ BLOCK_ROWS }
        ensures { result ≡ map (piece_row piece.now) (numbers_from first len) }
    {
        BlockRows { piece, first, len }
    }

    /// Returns the cells of a column, counted from 0.
    pub fn column(&self, col: usize) -> ColumnPart<'a>
        requires { (row : ℕ) → row < length self.now
            → col < length (slice_index_or self.now row []) }
        ensures { result ≡ column_of self.now col }
    {
        ColumnPart {
            cells: self.piece.cells(col),
            first: self.first,
            len: self.len,
        }
    }
}

impl<'a> ColumnPart<'a> {
    /// Returns the cells of the whole block, as they are kept, and the number there of the first of these.
    #[inline(always)]
    pub fn kept(&self) -> PartCells<'a>
        ensures { ArePartOf self.now result }
    {
        if let Some(numbers) = self.cells.packed() {
            return PartCells::Numbers(numbers, self.first);
        }
        match self.cells.texts() {
            Some(texts) => PartCells::Texts(texts, self.first),
            None => unreachable!(),
        }
    }
}

impl Store {
    /// Returns the rows with `count` numbers from one on, if they are in one block.
    pub(crate) fn block_rows(&self, number: usize, count: usize) -> Option<BlockRows<'_>>
        requires number { number < end_of self.now }
        requires count { 0 < count }
        ensures { IfSome result
            (λ rows. rows ≡ map (stored_row self.now) (numbers_from number count)) }
    {
        let Store::Blocks(_, pieces) = self else {
            return None;
        };
        let first = number % BLOCK_ROWS;
        if count > BLOCK_ROWS - first {
            return None;
        }
        Some(BlockRows::of(&pieces[number / BLOCK_ROWS], first, count))
    }
}

impl Columns {
    /// Returns rows of values among which a row, counted from 0, and those after it are, and its number among them. They are `None` if the rows are not kept as values, one after another.
    pub fn value_rows(&self, row: usize) -> Option<(&ValueRows, usize)>
        requires { row < length self.now.rows }
        ensures { IfSome result (λ part. AreRowsFrom row self.now part.0.now part.1) }
    {
        self.numbers.run()?;
        let Store::Values(rows) = &self.store else {
            return None;
        };
        Some((rows, self.numbers.at(row) as usize))
    }

    /// Returns `count` rows from one on, counted from 0, or `None` if they are not known to follow on one another in one block.
    pub fn block_rows(&self, row: usize, count: usize) -> Option<BlockRows<'_>>
        requires { row + count ≤ length self.now.rows }
        ensures { IfSome result (λ rows. rows ≡ take count (drop row self.now.rows)) }
    {
        self.numbers.run()?;
        if count == 0 {
            return None;
        }
        self.store.block_rows(self.numbers.at(row) as usize, count)
    }
}
