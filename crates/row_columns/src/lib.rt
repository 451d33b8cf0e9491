//! Rows by number. Of the rows of a block that [`Columns`] take they keep the number and a share of the block, and copy no value; other rows stand in them
//! as values. Some of their rows, in any order, and some of their columns are columns again. A caller sees them as a list of rows.
#![tactic(auto)]

mod block_rows;
mod cell;
mod columns;
mod piece;
mod row_numbers;
mod row_ref;
mod store;

pub use block_rows::{BlockRows, ColumnPart, PartCells};
pub use cell::{Cell, cell_of, number_cell, text_cell};
pub use columns::Columns;
pub use row_ref::RowRef;
