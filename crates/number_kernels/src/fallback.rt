//! Why a block is not evaluated a column at a time.

ghost use Rattle.std.specs.Prelude.{◌≡◌};

use std::alloc::AllocError;

/// Why rows have no lanes.
#[derive(Clone, Copy)]
pub enum Fallback {
    /// Columns do not hold it, and the rows are to be evaluated one by one: a number may not fit 64 bits, a divisor is zero, a part of the
    /// expression has no loop here, or a column was not read.
    Rows,
    /// Memory ran out. Rows are not taken one by one for that.
    NoMemory,
}

impl From<AllocError> for Fallback {
    ghost use Rattle.number_kernels.specs.declared.fallback.Fallback.TheVariants.{NoMemory};

    ghost from_gives = { λ _ e. e ≡ NoMemory };

    fn from(_: AllocError) -> Fallback {
        Fallback::NoMemory
    }
}
