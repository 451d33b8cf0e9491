//! Why a program has nothing to do.
ghost use Rattle.clap.specs.Words.{kind_of};
ghost use Rattle.cli_args.specs.Fault.{IsFaultBy};

use clap::Error;
use clap::error::ErrorKind;

/// Why there is nothing to do.
#[derive(Drop)]
pub enum ArgsFault {
    /// The words ask for help or the version, which is the error's text.
    Shows(Error),
    /// They are no command of the program.
    Usage,
    /// Memory ran out.
    NoMemory,
}

/// Returns why there is nothing to do, if `clap` fails.
pub(crate) fn fault_by(error: Error) -> ArgsFault
    ensures { IsFaultBy (kind_of error) result }
{
    match error.kind() {
        ErrorKind::OutOfMemory => ArgsFault::NoMemory,
        ErrorKind::DisplayHelp | ErrorKind::DisplayVersion => ArgsFault::Shows(error),
        _ => ArgsFault::Usage,
    }
}
