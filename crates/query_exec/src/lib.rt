//! Runs of plans over the blocks of a table, and the rows that they give (OData 4.01 Part 2, URL Conventions). A [`Run`] never holds the
//! table: it is handed the blocks that it names, one at a time, and then gives the plan's meaning on the rows of that table.
#![tactic(auto)]

mod admitted;
mod aggregate;
mod every;
mod fault;
mod front;
mod names;
mod parts;
mod run;
mod run_kept;
mod sink;
mod slice;
mod sorted;
mod steps;
mod top_n;

pub use fault::ExecFault;
pub use front::{FirstRows, orders_move_rows};
pub use result_rows::{OrderedRows, Rows};
pub use run::{Run, Step};
pub use run_kept::RunKept;
