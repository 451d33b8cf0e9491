//! Passes over a file whose columns are found: what is made of it is looked at for a draft ([`look_first`], [`look_again`]), or written and checked at once
//! ([`write_file`]). No file is held.
#![tactic(auto)]

mod looks;
mod passes;
mod writes;

pub use looks::{Guessed, look_again, look_first};
pub use passes::{SourceFile, found_again};
pub use writes::{Written, write_file};
