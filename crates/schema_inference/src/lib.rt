//! A draft of the metadata of CSV files (Metadata Vocabulary for Tabular Data). A file is given in pieces ([`FileGuess`]), at most twice; of a table a [`Guesser`] returns a
//! schema: for each column the name that its header cell speaks for, the first datatype under which all its cells have values, and the texts that stand for null; and a key, if its
//! first column may be one. Why a file has no schema is in a contract; what is guessed of a table is in none. [`draft_text`] returns the text of schemas, indented by two.
#![tactic(auto)]

mod column;
mod days;
mod draft;
mod fault;
mod file_guess;
mod guess;
mod key;
mod lines;
mod looks;
mod names;
mod rows;
mod sight;
mod warnings;

pub use draft::draft_text;
pub use fault::{DraftFault, LeftOut, LeftOutCause, OtherCell, Warning};
pub use file_guess::FileGuess;
pub use guess::{Aims, Guess, Guesser};
pub use names::next_name;
pub use sight::TableGuess;
