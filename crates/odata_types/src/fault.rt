//! Why a query does not fit the columns of its input.

use std::alloc::{AllocError, AllocFailed};

/// The first cause why a query does not fit, on a walk that takes the operands of a node from left to right, and then the node.
#[derive(Clone, Copy, PartialEq, Eq)]
pub enum TypeFault {
    /// A name that no column has.
    UnknownName,
    /// Operands whose types do not fit the operator or function, or each other.
    Mismatch,
    /// A number that may grow over 2 to the 126 in size, in millionths if it is a decimal.
    TooLarge,
    /// An alias of `$apply` that is the name of another column.
    AliasTaken,
    /// A key that is none of the table.
    BadKey,
    /// Memory ran out.
    NoMemory,
}

impl From<AllocError> for TypeFault {
    ghost use Rattle.std.specs.Prelude.{◌≡◌};
    ghost use Rattle.odata_types.specs.declared.fault.TypeFault.TheVariants.{NoMemory};

    ghost from_gives = { λ _ e. e ≡ NoMemory };

    fn from(_: AllocError) -> TypeFault {
        TypeFault::NoMemory
    }
}

impl<T: Drop> From<AllocFailed<T>> for TypeFault {
    ghost use Rattle.std.specs.Prelude.{◌≡◌};
    ghost use Rattle.odata_types.specs.declared.fault.TypeFault.TheVariants.{NoMemory};

    ghost from_gives = { λ _ e. e ≡ NoMemory };

    fn from(_: AllocFailed<T>) -> TypeFault {
        TypeFault::NoMemory
    }
}
