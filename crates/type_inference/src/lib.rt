//! The datatype that the cells of a column speak for, and the texts among them that stand for null (Metadata Vocabulary for Tabular Data, sections 5.7 and
//! 5.11). A [`Inference`] is what is known of a column when some of its cells are read, one after another; the datatypes that are left for it only become fewer.
//! It is a guess, and no contract says what it is: a draft is checked by loading it.
#![tactic(auto)]

mod cells;
mod form;
mod inference;
mod look;
mod reading;
mod steps;
mod types;

pub use cells::{are_digits, without_white};
pub use form::CellForm;
pub use inference::Inference;
pub use look::{LOOK_COUNT, Look, look_name, look_of};
pub use reading::{CellReading, reading_in};
pub use types::{Candidates, NULL_WORDS};
