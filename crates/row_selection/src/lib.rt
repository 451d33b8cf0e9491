//! Some rows of a block, by their numbers: the first ones, or a list of two bytes each. A caller sees a [`Selection`] as the list of their numbers.
#![tactic(auto)]

mod law;
mod marks;
mod selection;

pub use law::worked_selections;
pub use selection::Selection;
