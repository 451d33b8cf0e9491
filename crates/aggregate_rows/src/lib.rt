//! Aggregates of rows in columns, of all of them or of each group (OData Data Aggregation 4.0, section 3). An [`Aggregator`] is given the rows piece by
//! piece, keeps of each group its values and what is computed of it so far, and gives the one row of `aggregate` or the rows of `groupby`.
#![tactic(auto)]

mod aggregator;
mod computed;
mod distinct;
mod groups;
mod joins;
mod kept;
mod parts;
mod results;
mod sums;

pub use aggregator::{Aggregator, gathered};
