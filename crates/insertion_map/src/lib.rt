//! Keys in the order in which they came, each with its place among them. Of keys that are equal the first is kept. [`HashPlaces`] are their places alone.
#![tactic(auto)]

mod hash_places;
mod last_places;
mod places;

pub use hash_places::HashPlaces;
pub use places::{KeyPlaces, hash_of_items};
