//! The columns of a table, block by block (Model for Tabular Data and Metadata on the Web, section 6.4). A [`ColumnReader`] reads the cells of a column
//! one after another into a [`TypedColumn`], of numbers as they are packed or of texts, which then gives the value of a row, the cells of a block,
//! or the range of these.
#![tactic(auto)]

mod block_cells;
mod column_reader;
mod number_reader;
mod text_reader;
mod typed_column;

pub use block_cells::BlockCells;
pub use column_reader::{ColumnReader, column_readers, columns_read};
pub use typed_column::TypedColumn;
