//! Why a text has no list of tokens.

use std::alloc::AllocFailed;

/// Why a text has no tokens. If there are more than 1,024 of them before the first place where none begins, it is `TooMany`.
#[derive(Clone, Copy, Debug, PartialEq, Eq)]
pub enum LexFault {
    /// At some place neither a space, a tab nor a token begins.
    Bad,
    /// The text has more than [`MAX_TOKENS`](crate::MAX_TOKENS) tokens.
    TooMany,
    /// The system gave no memory.
    NoMemory,
}

impl<T: Drop> From<AllocFailed<T>> for LexFault {
    ghost use Rattle.std.specs.Prelude.{◌≡◌};
    ghost use Rattle.odata_lex.specs.declared.fault.LexFault.TheVariants.{NoMemory};

    ghost from_gives = { λ _ e. e ≡ NoMemory };

    fn from(_: AllocFailed<T>) -> LexFault {
        LexFault::NoMemory
    }
}
