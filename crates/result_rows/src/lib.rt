//! The rows of an answer (OData 4.01 Part 2, URL Conventions, section 4.3): names, the values under them row by row, and how many rows there are where that
//! was asked for.
#![tactic(auto)]

mod columns;
mod cut;
mod kept;
mod names;
mod ordered;
mod rows;
mod skip;

pub use cut::all_numbers;
pub use kept::Kept;
pub use names::{names_of, picked_names};
pub use ordered::OrderedRows;
pub use rows::Rows;
pub use skip::skip_rows;
