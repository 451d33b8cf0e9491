//! Answers requests of OData over a folder of CSV files. Without words on the command line the program answers standard input over the
//! built-in folder `notes`; with words it checks a folder on a disk, answers a target or a file of requests over it, or serves it. It ends with the
//! status 0; a fault is reported on standard error and by the exit status.
#![tactic(auto)]

use odata_serve::command_status;
use std::process::ExitCode;

fn main(rt: HostRuntime) -> ExitCode {
    ExitCode::from(command_status(&rt))
}
