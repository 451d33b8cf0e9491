//! What a draft says to the publisher of files: a line for each warning, and one for all of a file that are said together.
#![tactic(auto)]

mod counts;
mod warning;

pub use warning::{file_of, is_said, push_warning};
