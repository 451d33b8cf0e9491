//! Why a line gave no command.
ghost use Rattle.std.specs.Prelude.{◌≡◌};

use std::alloc::AllocError;

/// Why a line gave no command.
#[derive(Clone, Copy, PartialEq, Eq)]
pub enum CommandFault {
    /// It is none.
    Bad,
    /// Memory ran out.
    NoMemory,
}

impl From<AllocError> for CommandFault {
    ghost use Rattle.event_scripts.specs.declared.fault.CommandFault.TheVariants.{NoMemory};

    ghost from_gives = { λ _ e. e ≡ NoMemory };

    fn from(_error: AllocError) -> CommandFault {
        CommandFault::NoMemory
    }
}
