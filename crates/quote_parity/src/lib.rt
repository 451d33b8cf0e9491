//! The structure of a CSV text, a block of 64 bytes at a time (RFC 4180, section 2). What one block has to know of the text before it
//! is the parity of its double quotes and the kind of its last byte: [`Carry`]. [`Carry::step`] marks the commas that part
//! fields, the LFs that end records and the place of a fault, exactly as the grammar has them.
#![tactic(auto)]

mod carry;
mod words;

pub use carry::{Carry, Masks, Unfinished};
pub use words::{prefix_xor, select};
