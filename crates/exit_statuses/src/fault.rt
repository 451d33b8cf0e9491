//! Why a program over a folder ended early.
ghost use Rattle.std.specs.Prelude.{◌≡◌};
ghost use Rattle.exit_statuses.specs.Laws.{ReadSizes};

use odata_http::RunFault;
use served_folders::FolderFault;
use std::alloc::AllocError;

/// The most reads of one stream.
pub const MAX_READS: u32 = 1_048_576;

/// The numbers of the programs over folders: the most reads, and the exit statuses.
pub fn sizes()
    ensures { ReadSizes }
{}

/// Why the program ended early.
#[derive(Drop)]
pub enum ProgramFault {
    /// The folder gave no catalog.
    Folder(FolderFault),
    /// The stream was not answered to its end.
    Run(RunFault),
    /// A line of a script, counted from 1, is no command; those before it were run.
    Script { line: u64 },
    /// A write of the program's own failed.
    Device,
    /// Memory ran out.
    NoMemory,
}

impl From<AllocError> for ProgramFault {
    ghost use Rattle.exit_statuses.specs.declared.fault.ProgramFault.TheVariants.{NoMemory};

    ghost from_gives = { λ _ fault. fault ≡ NoMemory };

    fn from(_error: AllocError) -> ProgramFault {
        ProgramFault::NoMemory
    }
}
