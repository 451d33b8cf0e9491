//! Typed expressions (OData 4.01 URL Conventions, section 5.1.1): a name is the number of a column, and each node belongs to the enum of
//! its type. The operators of numbers and of comparison, the trees, which of them are columns, and which may divide by zero.
#![tactic(auto)]

mod division;
mod operator;
mod plain;
mod tree;

pub use division::{can_fault, truth_can_fault};
pub use operator::ArithmeticOperator;
pub use plain::{PlainColumn, columns_are_columns, plain_column};
pub use tree::{
    DateExpr, DatePart, MILLIONTHS, NumberExpr, TextExpr, TextTest, TruthExpr, TypedExpr,
};
