//! Codes of rows by their values in some columns: rows with the same code have the same values. Rows are grouped by them if few values come into question.
#![tactic(auto)]

mod codes;

pub use codes::{Codes, key_codes};
