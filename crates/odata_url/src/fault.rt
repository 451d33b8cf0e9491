//! What may be wrong with a target.
ghost use Rattle.std.specs.Prelude.{◌≡◌};
ghost use Rattle.odata_url.specs.declared.fault.UrlFault.TheVariants.{NoMemory};

use std::alloc::{AllocError, AllocFailed};

/// The first thing wrong with a target, from left to right, or out of memory.
#[derive(Clone, Copy, Debug, PartialEq, Eq)]
pub enum UrlFault {
    /// The target begins neither with `/` nor with `http://`.
    BadTarget,
    /// A `%` is not followed by two hexadecimal digits (RFC 3986, section 2.1).
    BadEscape,
    /// Decoded bytes are not UTF-8.
    BadUtf8,
    /// A name with `$` in front is no system option.
    UnknownOption,
    /// A system option that is not served, or an alias of a parameter.
    NotServed,
    /// A system option stands twice.
    OptionTwice,
    /// Memory ran out.
    NoMemory,
}

impl From<AllocError> for UrlFault {
    ghost from_gives = { λ _ fault. fault ≡ NoMemory };

    fn from(_: AllocError) -> UrlFault {
        UrlFault::NoMemory
    }
}

impl<T: Drop> From<AllocFailed<T>> for UrlFault {
    ghost from_gives = { λ _ fault. fault ≡ NoMemory };

    fn from(_: AllocFailed<T>) -> UrlFault {
        UrlFault::NoMemory
    }
}
