//! The rows of a block that pass conditions (OData 4.01 URL Conventions, section 5.1.2). [`filter_block`] evaluates the conditions a column at a time, and one
//! that columns do not compute on the wanted rows one by one. [`passing_numbers`] asks one more condition of rows that are listed.
#![tactic(auto)]

mod block;
mod columns;
mod guess;
mod law;
mod numbers;
mod passing;
mod rows;

pub use block::{Passed, filter_block};
pub use guess::{Rank, guessed_value};
pub use law::conditions_in_turn;
pub use numbers::passing_numbers;
