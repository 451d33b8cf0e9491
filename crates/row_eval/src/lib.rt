//! Typed expressions on rows of values, with the three-valued logic of OData (OData 4.01 URL Conventions, section 5.1.1). [`eval`]
//! gives the one outcome of an expression on a row: a value, or a division by zero.
#![tactic(auto)]

mod comparison;
mod condition;
mod date;
mod fault;
mod law;
mod number;
mod relation;
mod text;
mod truth;
mod typed;

pub use comparison::holds;
pub use condition::eval_truth;
pub use date::eval_date;
pub use fault::EvalFault;
pub use law::{
    dates_are_compared, faults_are_foreseen, worked_columns, worked_comparisons, worked_functions,
    worked_logic, worked_numbers,
};
pub use number::eval_number;
pub use text::{eval_text, has_part, index_in, text_passes};
pub use truth::{Truth, greatest, least, opposite, truth_of};
pub use typed::eval;
