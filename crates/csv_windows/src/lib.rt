//! A CSV file that is read window by window, so that it is never in memory as a whole (RFC 4180, section 2): of each window its whole lines. [`Front::read`] gives
//! the rows of a window, as they stand in it; what the windows say together is what the whole file says: its one table, or the first thing that is wrong with it.
#![tactic(auto)]

mod front;
mod lines;
mod window;

pub use front::{FirstLines, TableSize};
pub use window::{Front, Piece};
