//! The columns of a block.

use block_summary::PackedColumn;
use text_columns::TextColumn;

/// The cells of a column, one for each row of the block, as they are retained.
#[derive(Clone, Copy)]
pub enum BlockColumn<'a> {
    /// The cells of a column that has numbers.
    Packed(&'a PackedColumn),
    /// The texts of a column and its nulls.
    Texts(&'a TextColumn<'a>),
}

/// The rows of a block that are wanted, with its columns.
#[derive(Clone, Copy)]
pub struct WantedRows<'r, 'a> {
    pub columns: &'r [BlockColumn<'a>],
    pub wanted: &'r [bool],
}
