//! Why an expression has no value on a row.

use std::alloc::AllocError;

/// Why an expression has no value on a row.
#[derive(Clone, Copy, PartialEq, Eq)]
pub enum EvalFault {
    /// A number is divided by zero.
    DivisionByZero,
    /// Memory ran out when texts were joined.
    NoMemory,
}

impl From<AllocError> for EvalFault {
    ghost use Rattle.std.specs.Prelude.{◌≡◌};
    ghost use Rattle.row_eval.specs.declared.fault.EvalFault.TheVariants.{NoMemory};

    ghost from_gives = { λ _ e. e ≡ NoMemory };

    fn from(_: AllocError) -> EvalFault {
        EvalFault::NoMemory
    }
}
