//! A service to run: answers requests of OData over a folder of CSV files on many connections at once, in turns, takes up the folder where it
//! changed, and ends peers that are slow.
#![tactic(auto)]

mod command;
mod drain;
mod endings;
mod folder;
mod limits;
mod older_tables;
mod serving;
mod turns;
mod watch;

use command::command_status;
use std::process::ExitCode;

fn main(rt: HostRuntime) -> ExitCode {
    ExitCode::from(command_status(&rt))
}
