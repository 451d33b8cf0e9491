//! Conditions over blocks of rows (OData 4.01 URL Conventions, section 5.1.1). [`eval_block`] evaluates a condition a column at a time; its
//! contract speaks of the outcome of each row alone. Where it falls back, the rows are evaluated one by one.
#![tactic(auto)]

mod block;
mod bounded;
mod bounds;
mod columns;
mod comparison;
mod items;
mod leaf;
mod lists;
mod measures;
mod numbers;
mod packed;
mod parts;
mod relation;
mod spans;
mod texts;
mod truths;

pub use block::eval_block;
pub use columns::BlockColumn;
pub use number_kernels::Fallback;
