//! Columns of a block.
#![tactic(auto)]

mod block;
mod bounds;
mod buffer;
mod integers;
mod lanes;
mod laws;
mod packed;
mod range;
mod span;
mod summary;
mod test;
mod typed_number;

pub use block::{BLOCK_ROWS, rows_of_a_block};
pub use bounds::Bounds;
pub use buffer::CellBuffer;
pub use laws::{one_range, ranges_join, ranges_widen, skips_no_row, skips_nothing};
pub use packed::PackedColumn;
pub use range::Range;
pub use summary::{Summary, admits};
pub use test::Test;
pub use typed_number::TypedNumber;
