//! Transformations of `$apply` with their types (OData Data Aggregation 4.0, section 3). Columns are their numbers in the input.

use typed_trees::TruthExpr;

/// How many rows an input has at most: 2 to the 30, for a table's file has no more bytes.
pub const MOST_ROWS: u128 = 1_073_741_824;

/// The bound of a number of rows or values: 2 to the 31.
pub const COUNT_SIZE: u128 = 2_147_483_648;

/// What is computed of rows (sections 3.1.2 and 3.1.3).
#[derive(Clone, Copy)]
pub enum Aggregate {
    /// The number of the rows.
    Count,
    SumOfIntegers(usize),
    SumOfDecimals(usize),
    Min(usize),
    Max(usize),
    CountDistinct(usize),
}

/// An aggregate and the name that it has in the result.
#[derive(Drop)]
pub struct NamedAggregate {
    pub alias: String,
    pub aggregate: Aggregate,
}

/// A transformation of `$apply`.
#[derive(Drop)]
pub enum TypedTransformation {
    /// The rows on which a condition is true.
    Filter(Box<TruthExpr>),
    /// One row of aggregates of all rows.
    Aggregate(Vec<NamedAggregate>),
    /// A row for each group of rows with the same values in some columns: these values, and then aggregates of the group's rows.
    GroupBy(Vec<usize>, Vec<NamedAggregate>),
}
