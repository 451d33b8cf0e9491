//! Vectors of the rows of a block, and what joins them: numbers compared and computed, truths by three-valued logic (OData 4.01 URL
//! Conventions, section 5.1.1). The loops, but those of quotients, read all that they need of a row, compute one value without a branch and write it, so
//! that they run in lanes. No column and no expression is known here.
#![tactic(auto)]

mod arithmetic;
mod comparison;
mod division;
mod fallback;
mod logic;
mod numbers;
mod operand;
mod operators;

pub use comparison::compare;
pub use fallback::Fallback;
pub use logic::{conjunction, disjunction, negation, open_rows, same_truth, truths_of};
pub use numbers::{Numbers, cells};
pub use operators::{join, join_fitting};
