//! Plans of queries (OData 4.01 URL Conventions, section 5.1): what is done to the rows of a table, step by step. [`naive`] makes the plan
//! whose meaning is that of its query, and [`rewrite`] of a plan one that means the same with less to do. The functions without a body are laws
//! of the definitions: each is a theorem, and does nothing.
#![tactic(auto)]

mod law;
mod plain;
mod plan;
mod push;
mod rewrites;
mod scan;
mod test;

pub use law::{
    bare_scans_read_all, blocks_up_to_the_stop, needed_blocks_are_read, nodes_in_turn,
    plans_need_blocks, queries_are_typed, queries_fit, results_are_inputs, results_are_rows,
    scans_read_table_rows, tests_are_passed, unadmitted_blocks_pass_none, worked_blocks,
    worked_tests,
};
pub use plain::are_plain;
pub use plan::{Node, Plan, Slice, naive};
pub use rewrites::rewrite;
pub use scan::{ColumnTest, Scan};
