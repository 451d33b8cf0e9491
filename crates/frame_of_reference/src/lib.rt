//! How far the numbers of a block are above its least one: an offset for each row, as narrow as they allow, and loops over them.
#![tactic(auto)]

mod lanes;
mod marks;
mod offsets;

pub use lanes::sum_of;
pub use marks::{turn_each, unmark_nulls};
pub use offsets::{Offsets, add_each, mark_each, offset_at, offsets_of, rows_of};
