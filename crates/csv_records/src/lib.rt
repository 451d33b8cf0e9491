//! The records of a text of RFC 4180 (section 2) one by one, with another separator in the place of the comma, and cells as such a text.
#![tactic(auto)]

mod exchanges;
mod fault;
mod feeds;
mod laws;
mod lines;
mod read;
mod write;

pub use exchanges::exchange;
pub use fault::RecordFault;
pub use feeds::LineFeeds;
pub use laws::{rows_read_back, worked_exchanges};
pub use lines::after_lines;
pub use read::{Record, RecordCell, push_cell, read_record};
pub use write::push_row;
