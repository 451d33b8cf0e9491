//! What a file that is to be CSV (RFC 4180) looks like, if it is a table or not: its records, the byte that separates its fields, lines of a title before its
//! header, its encoding. [`cure_of`] returns what helps with a file that is no table. No contract says what is guessed.
#![tactic(auto)]

mod cure;
mod records;
mod shape;

pub use cure::{Cure, SEPARATORS, cure_of};
pub use records::{RecordShape, Records, line_after};
