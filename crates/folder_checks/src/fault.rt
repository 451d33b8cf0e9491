//! Why a table is refused.
ghost use Rattle.std.specs.Prelude.{◌≡◌, option_map, string_bytes};
ghost use Rattle.table_store.specs.Fault.{bad_table, load_cause};
ghost use Rattle.folder_checks.specs.Checks.{check_cause};

use file_cells::{BadCell, FileFault};
use key_index::KeyFault;
use std::alloc::AllocError;
use table_store::LoadFault;

/// Why a table is refused.
#[derive(Clone, Copy)]
pub enum CheckFault {
    /// There is no file.
    Missing,
    /// The file has more bytes than the limit.
    TooLarge,
    File(FileFault),
    Key(KeyFault),
    NoMemory,
}

impl From<AllocError> for CheckFault {
    ghost use Rattle.folder_checks.specs.declared.fault.CheckFault.TheVariants.{NoMemory};

    ghost from_gives = { λ _ fault. fault ≡ NoMemory };

    fn from(_: AllocError) -> CheckFault {
        CheckFault::NoMemory
    }
}

/// Returns the fault of a folder that the fault of the table of that url is.
pub fn fault_of(table: String, fault: CheckFault) -> LoadFault
    ensures { load_cause result
        ≡ option_map (bad_table (string_bytes table)) (check_cause fault) }
{
    match fault {
        CheckFault::Missing => LoadFault::FileMissing { table },
        CheckFault::TooLarge => LoadFault::FileTooLarge { table },
        CheckFault::File(FileFault::Text(fault)) => LoadFault::Text { table, fault },
        CheckFault::File(FileFault::Header(col)) => LoadFault::Header { table, col },
        CheckFault::File(FileFault::Cell(BadCell { row, col, fault })) => LoadFault::Cell {
            table,
            row,
            col,
            fault,
        },
        CheckFault::Key(KeyFault::Null(row)) => LoadFault::KeyNull { table, row },
        CheckFault::Key(KeyFault::Twice(row)) => LoadFault::KeyTwice { table, row },
        CheckFault::File(FileFault::NoMemory) | CheckFault::NoMemory => LoadFault::NoMemory,
    }
}
