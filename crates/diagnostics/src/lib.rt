//! Why the service refuses a folder, for a person who writes metadata: of each refusal its cause with the file, the line, the column and the cell, and what would be
//! accepted.
#![tactic(auto)]

mod accepted;
mod help;
mod json;
mod line;
mod metadata;
mod place;
mod probe;
mod report;
mod rows;
mod table;
mod text;
mod value;

pub use line::Line;
pub use metadata::refuse_metadata;
pub use report::{MOST_REFUSALS, Report};
pub use table::{refuse_file, refuse_table};
pub use text::cut;
pub use value::{push_quoted, push_value};
