//! A draft of the metadata of a folder of CSV files; what the service understands of a folder; and why it refuses one. The program ends with the status 0; a fault is reported on
//! standard error and by the exit status.
#![tactic(auto)]

mod add;
mod check;
mod command;
mod draft;
mod explain;
mod folder;
mod guess;
mod left_out;
mod splice;
mod status;
mod told;
mod warning;

use command::command_status;
use std::process::ExitCode;

fn main(rt: HostRuntime) -> ExitCode {
    ExitCode::from(command_status(&rt))
}
