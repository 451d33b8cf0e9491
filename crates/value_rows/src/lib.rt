//! Values of any kind, one after another in a list in which each is packed, and rows of such values.
#![tactic(auto)]

mod packed;
mod rows;
mod slots;

pub use packed::PackedValues;
pub use rows::ValueRows;
pub use slots::LentValue;
