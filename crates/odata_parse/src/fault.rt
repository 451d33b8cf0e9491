//! Why tokens have no tree, and texts no value.

ghost use Rattle.std.specs.Prelude.{◌≡◌};
ghost use Rattle.odata_parse.specs.declared.fault.PhraseFault.TheVariants.{NoMemory};
ghost use Rattle.odata_parse.specs.Parsing.{parse_fault};

use std::alloc::{AllocError, AllocFailed};

/// Why tokens are not parsed, in the order in which it is looked for.
#[derive(Clone, Copy, PartialEq, Eq)]
pub enum ParseFault {
    /// Parentheses or prefix operators are nested more than this service takes, or `$apply` has too many transformations.
    TooDeep,
    /// The grammar has no tree for the tokens.
    Syntax,
    /// Memory ran out.
    NoMemory,
}

/// The text of a value is not of the form that was asked for.
#[derive(Clone, Copy, PartialEq, Eq)]
pub struct Syntax;

/// Why a phrase is not read.
#[derive(Clone, Copy)]
pub(crate) enum PhraseFault {
    Syntax,
    NoMemory,
}

impl From<AllocError> for PhraseFault {
    ghost from_gives = { λ _ e. e ≡ NoMemory };

    fn from(_: AllocError) -> PhraseFault {
        PhraseFault::NoMemory
    }
}

impl<T: Drop> From<AllocFailed<T>> for PhraseFault {
    ghost from_gives = { λ _ e. e ≡ NoMemory };

    fn from(_: AllocFailed<T>) -> PhraseFault {
        PhraseFault::NoMemory
    }
}

impl From<PhraseFault> for ParseFault {
    ghost from_gives = { λ fault e. e ≡ parse_fault fault };

    fn from(fault: PhraseFault) -> ParseFault {
        match fault {
            PhraseFault::Syntax => ParseFault::Syntax,
            PhraseFault::NoMemory => ParseFault::NoMemory,
        }
    }
}
