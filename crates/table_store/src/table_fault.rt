//! Why a table is refused whose file is there.
ghost use Rattle.std.specs.Prelude.{◌≡◌};

use file_cells::FileFault;
use key_index::KeyFault;
use std::alloc::AllocError;

/// Why a table is refused, as [`LoadFault`](crate::LoadFault) has it.
#[derive(Clone, Copy)]
pub enum TableFault {
    File(FileFault),
    Key(KeyFault),
    NoMemory,
}

impl From<AllocError> for TableFault {
    ghost use Rattle.table_store.specs.declared.table_fault.TableFault.TheVariants.{NoMemory};

    ghost from_gives = { λ _ fault. fault ≡ NoMemory };

    fn from(_: AllocError) -> TableFault {
        TableFault::NoMemory
    }
}
