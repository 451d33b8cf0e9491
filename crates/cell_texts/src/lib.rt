//! The texts of cells as they are kept, in JSON (RFC 8259; OData 4.01 JSON Format) and in CSV (RFC 4180), each written into room that is there,
//! how many bytes each takes, and how many it does not pass. Cells of rows that stand far from one another are read before they are needed.
#![tactic(auto)]

mod ahead;
mod part_sizes;
mod put;
mod row_sizes;
mod sizes;
mod turns;

pub use put::put_cell;
pub use row_sizes::{put_sizes, row_room};
pub use turns::RowTurns;
