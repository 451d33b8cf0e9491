//! What a query means (OData 4.01 URL Conventions, section 5.1; OData Data Aggregation 4.0, section 3), over whole lists of rows: the rows that a filter
//! keeps, their order, their groups and aggregates, and a query with all its options. The functions are laws of these definitions: each is a theorem, and
//! does nothing.
#![tactic(auto)]

mod law;

pub use law::{
    bounds_hold, distinct_values_are_counted, extremes_are_values, rows_are_in_groups,
    rows_are_in_order, sums_add_up, true_rows_pass, worked_queries,
};
