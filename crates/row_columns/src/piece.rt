//! The cells of some columns of a block, which are shared with its table.
ghost use Rattle.std.specs.Prelude.{◌≡◌, ◌<◌, ℕ, [], IfOk, IfSome, IsTrue, get_or, length, map, option_map, slice_index_or};
ghost use Rattle.std.specs.List.{All};
ghost use Rattle.cell_types.specs.Value.{null, value_view};
ghost use Rattle.row_columns.specs.Cell.{cell_view};
ghost use Rattle.row_columns.specs.Codes.{HaveCodesAt};
ghost use Rattle.row_columns.specs.Picked.{values_at};
ghost use Rattle.row_columns.specs.Piece.{no_cells, piece_at, piece_row};
ghost use Rattle.row_columns.specs.Text.{text_of_cell};
ghost use Rattle.text_columns.specs.PlainParts.{IsPlainCell};

use crate::cell::{Cell, cell_in, is_plain_in};
use block_summary::PackedColumn;
use cell_types::Value;
use column_blocks::BlockCells;
use std::alloc::{AllocError, Global};
use std::marker::Model;
use table_store::Block;

/// The cells of some columns of a block.
#[derive(Drop)]
pub(crate) struct Piece {
    columns: Vec<BlockCells>,
}

impl Model for Piece {
    ghost use Rattle.std.specs.Prelude.{List};
    ghost use Rattle.column_blocks.specs.ColumnCells.{ColumnCells};

    ghost Value = { List ColumnCells };

    ghost use Rattle.row_columns.specs.Piece.{HaveTextsAlone};

    ghost view = { λ piece. piece.columns.items };

    ghost invariant = { λ piece. HaveTextsAlone piece.columns.items };
}

impl Piece {
    /// Returns those of the columns of a block that have these places.
    pub(crate) fn of_places(
        alloc: Global,
        block: &Block<'_>,
        places: &[usize],
    ) -> Result<Piece, AllocError>
        requires { All (λ place. place < length block.now.schema.columns) places.now }
        ensures wide { IfOk result (λ piece. length piece ≡ length places.now) }
        ensures rows { IfOk result (λ piece. (row : ℕ) → row < length block.now.rows
            → piece_row piece row ≡ values_at places.now (slice_index_or block.now.rows row [])) }
    {
        block.values_fit();
        let mut columns = Vec::with_capacity(alloc, places.len())?;
        for place in places {
            columns.push(block.shared(*place)?)?;
        }
        Ok(Piece { columns })
    }

    /// Returns the value of a row and a column; null past the rows.
    #[inline(always)]
    pub(crate) fn value(&self, row: usize, col: usize) -> Value<'_>
        requires { col < length self.now }
        ensures { value_view result ≡ slice_index_or (piece_row self.now row) col null }
    {
        self.columns[col].value(row)
    }

    /// Returns the cell of a row and a column, as it is kept; null past the rows.
    #[inline(always)]
    pub(crate) fn cell(&self, row: usize, col: usize) -> Cell<'_>
        requires { col < length self.now }
        ensures { cell_view result ≡ slice_index_or (piece_row self.now row) col null }
    {
        cell_in(&self.columns[col], row)
    }

    /// Returns true if each byte of the text of a row and a column is known to stand for itself, in JSON or in CSV.
    #[inline(always)]
    pub(crate) fn is_plain<const JSON: bool>(&self, row: usize, col: usize) -> bool
        requires { col < length self.now }
        ensures { IsTrue result
            → IsPlainCell JSON (slice_index_or (piece_row self.now row) col null) }
    {
        is_plain_in::<JSON>(&self.columns[col], row)
    }

    /// Returns the text of a row and a column, or `None` if the value is null, or no text, and past the rows.
    #[inline(always)]
    pub(crate) fn text(&self, row: usize, col: usize) -> Option<&str>
        requires { col < length self.now }
        ensures { option_map (λ t. t.now) result
            ≡ text_of_cell (slice_index_or (piece_row self.now row) col null) }
    {
        let texts = self.columns[col].texts()?;
        if row >= texts.len() {
            return None;
        }
        texts.text(row)
    }

    /// Returns the cells of a column as they are packed; nothing for texts.
    pub(crate) fn packed(&self, col: usize) -> Option<&PackedColumn>
        requires { col < length self.now }
        ensures { IfSome result (λ cells. (row : ℕ) → slice_index_or cells.now row null
            ≡ slice_index_or (piece_row self.now row) col null) }
    {
        self.columns[col].packed()
    }

    /// Returns the cells of a column.
    pub(crate) fn cells(&self, col: usize) -> &BlockCells
        requires { col < length self.now }
        ensures { result.now ≡ slice_index_or self.now col no_cells }
    {
        &self.columns[col]
    }

    /// Returns the codes of all rows by their values in a column, if it has codes.
    pub(crate) fn codes(&self, col: usize) -> Option<&[u8]>
        requires { col < length self.now }
        ensures { IfSome result (λ codes. HaveCodesAt codes.now col (piece_row self.now)) }
    {
        let texts = self.columns[col].texts()?;
        let codes = texts.codes()?;
        Some(codes.codes.as_slice())
    }

    /// Returns the columns with these places.
    pub(crate) fn picked(&self, alloc: Global, places: &[usize]) -> Result<Piece, AllocError>
        requires { All (λ place. place < length self.now) places.now }
        ensures { IfOk result (λ piece.
            piece ≡ piece_at places.now self.now) }
    {
        let mut columns = Vec::with_capacity(alloc, places.len())?;
        for place in places {
            columns.push(self.columns[*place].shared()?)?;
        }
        Ok(Piece { columns })
    }
}
