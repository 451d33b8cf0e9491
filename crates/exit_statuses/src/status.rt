//! How an end is reported: what is said of a fault on standard error, and the exit status.
ghost use Rattle.std.specs.Prelude.{◌≡◌, ◌≢◌};
ghost use Rattle.std.specs.IoError.{error_kind};
ghost use Rattle.exit_statuses.specs.Status.{IsFaultStatus, IsNoScript};

use crate::fault::ProgramFault;
use crate::text::{DEVICE, MEMORY, USAGE, fault_line};
use std::io::{self, ErrorKind};

/// The exit status if all was done.
pub const DONE: u8 = 0;

/// Returns the exit status of an error of the system.
pub fn error_status(error: &io::Error) -> u8
    ensures memory { error_kind error.now ≡ ErrorKind.OutOfMemory → result ≡ MEMORY }
    ensures device { error_kind error.now ≢ ErrorKind.OutOfMemory → result ≡ DEVICE }
    ensures other { result ≢ USAGE }
{
    match error.kind() {
        ErrorKind::OutOfMemory => MEMORY,
        _ => DEVICE,
    }
}

/// Writes what is said of a fault to standard error, and gives its exit status.
#[tactic(auto, using(crate::proofs::StatusLemmas::other_status))]
pub fn report(rt: &(impl Eprint + AllocGlobal), fault: &ProgramFault) -> u8
    ensures status { IsFaultStatus fault.now result }
    ensures other { IsNoScript fault.now → result ≢ USAGE }
{
    match fault_line(rt.alloc(), fault) {
        Ok((line, status)) => {
            if !line.is_empty() {
                let _ = rt.eprintln(line);
            }
            status
        }
        Err(_) => MEMORY,
    }
}
