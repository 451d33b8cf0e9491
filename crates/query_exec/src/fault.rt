//! Why a run has no answer.

use row_eval::EvalFault;
use std::alloc::AllocError;

/// Why a run has no answer.
#[derive(Clone, Copy, PartialEq, Eq)]
pub enum ExecFault {
    /// A number is divided by zero.
    DivisionByZero,
    /// Memory ran out.
    NoMemory,
    /// The run was refused before.
    Failed,
}

impl From<AllocError> for ExecFault {
    ghost use Rattle.std.specs.Prelude.{◌≡◌};
    ghost use Rattle.query_exec.specs.declared.fault.ExecFault.TheVariants.{NoMemory};

    ghost from_gives = { λ _ e. e ≡ NoMemory };

    fn from(_: AllocError) -> ExecFault {
        ExecFault::NoMemory
    }
}

impl From<EvalFault> for ExecFault {
    ghost use Rattle.std.specs.Prelude.{◌≡◌};
    ghost use Rattle.query_exec.specs.Fault.{exec_fault};

    ghost from_gives = { λ fault e. e ≡ exec_fault fault };

    fn from(fault: EvalFault) -> ExecFault {
        match fault {
            EvalFault::DivisionByZero => ExecFault::DivisionByZero,
            EvalFault::NoMemory => ExecFault::NoMemory,
        }
    }
}
