//! Files as people have them, before they are converted: their encoding, the byte that separates their fields, the lines before their header, and the form of the cells
//! of each column ([`found_in`]). A file is read twice in pieces: it is looked at, and then its cells are seen. No contract says what is guessed.
#![tactic(auto)]

mod guess;
mod look;
mod passes;
mod pieces;
mod records;
mod reports;
mod seeing;
mod separator;
mod sight;
mod titles;

pub use column_forms::NULLS;
pub use guess::{guess_text, has_unknown_nulls};
pub use passes::{PassFault, found_in};
pub use pieces::FilePieces;
