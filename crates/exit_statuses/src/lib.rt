//! How the programs over folders end: why one ended early, the line that says so on standard error, and the exit status.
#![tactic(auto)]

mod fault;
mod laws;
mod status;
mod text;

pub use fault::{MAX_READS, ProgramFault, sizes};
pub use laws::faults_are_one_line;
pub use status::{DONE, error_status, report};
pub use text::{DEVICE, MEMORY, REFUSED, USAGE, fault_line};
