//! The log of the service: the lines that it writes of itself, each of which is one line, in a room that is bounded, so that a log that nobody reads stops nothing.
#![tactic(auto)]

mod lines;
mod log;
mod texts;
mod work;

pub use lines::{Lines, MOST_WAITING};
pub use log::{CloseReason, LoadSummary, Log, Tally, tells_lines};
pub use work::{Work, worked_minute};
