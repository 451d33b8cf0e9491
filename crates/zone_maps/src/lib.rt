//! Conditions over the summary of a block (OData 4.01 URL Conventions, section 5.1.1). [`known_truth`] tells the truth that a condition has on
//! each row, where the ranges of the columns decide it; no row is looked at.
#![tactic(auto)]

mod constants;
mod kinds;
mod known;
mod numbers;
mod tests;

pub use constants::constant_number;
pub use known::known_truth;
pub use numbers::numbers_are_tested;
