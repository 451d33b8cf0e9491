//! The clock of a service's rounds: how long it works for each connection, when it has to ask the system again, and when a load that goes on beside them takes its next
//! step.
#![tactic(auto)]

mod stopwatch;

pub use stopwatch::Stopwatch;
