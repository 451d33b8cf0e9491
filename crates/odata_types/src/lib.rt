//! The types of OData expressions and the bounds of their numbers (OData 4.01 URL Conventions, section 5.1.1; OData CSDL, section 4.4).
//! A tree that fits the columns of its input becomes a typed one, in which a name is the number of a column and each node belongs
//! to the enum of its type; a tree that does not fit has one first cause.
#![tactic(auto)]

mod column;
mod expression;
mod fault;
mod function;
mod key;
mod law;
mod list;
mod literal;
mod operand;
mod operator;
mod schema;
mod types;

pub use column::place_of;
pub use expression::{typed_expr, typed_filter};
pub use fault::TypeFault;
pub use key::key_value;
pub use law::{
    expressions_are_queried, filters_are_queried, literals_have_values, sizes, tables_are_inputs,
    worked_typings,
};
pub use operand::{scaled, within};
pub use schema::schema_columns;
pub use typed_trees::{
    DateExpr, DatePart, MILLIONTHS, NumberExpr, TextExpr, TextTest, TruthExpr, TypedExpr,
    can_fault, truth_can_fault,
};
pub use types::{COLUMN_SIZE, ColumnType, ExprType, FUNCTION_SIZE, InputColumn, MOST_SIZE};
