//! Queries on a table (OData 4.01 URL Conventions, section 5.1; OData Data Aggregation 4.0, section 3): the key, the transformations of
//! `$apply` and the other options, with their types. A query that fits its table names each column by its number; one that does not fit has
//! one first cause.
#![tactic(auto)]

mod aggregate;
mod apply;
mod group;
mod item;
mod key;
mod law;
mod option;
mod query;
mod selection;
mod typed_query;

pub use aggregate::{Aggregate, COUNT_SIZE, MOST_ROWS, NamedAggregate, TypedTransformation};
pub use law::{keys_are_typed, sizes, worked_keys, worked_transformations};
pub use query::{OrderBy, Query, Typed};
pub use typed_query::check;
