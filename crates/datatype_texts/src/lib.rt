//! The names of datatypes and their formats, as metadata has them (Metadata Vocabulary for Tabular Data, section 5.11): read, and written.
#![tactic(auto)]

mod format;
mod laws;
mod names;

pub use format::{DatatypeFormat, format_of, has_format, has_formats, with_format};
pub use laws::{texts_of_datatypes_read_back, worked_datatypes};
pub use names::{accepted_cells, datatype_name, datatype_named};
