//! The words of the command line of `csvw_draft`, as `clap` reads them.
#![tactic(auto)]

mod conversion;
mod words;

pub use conversion::Conversion;
pub use words::{DraftCommand, DraftOptions, USAGE_LINE, read_words};
