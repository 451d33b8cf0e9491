//! Why a text has no record at its front.
use std::alloc::AllocError;

/// Why a text has no record at its front.
#[derive(Clone, Copy, PartialEq, Eq)]
pub enum RecordFault {
    /// No LF comes after a CR outside double quotes.
    BareReturn,
    /// A double quote is inside a field that has none at its front.
    StrayQuote,
    /// A byte comes after a closing double quote.
    AfterQuote,
    /// The text ends inside double quotes.
    Unfinished,
    /// Memory ran out.
    NoMemory,
}

impl From<AllocError> for RecordFault {
    fn from(_error: AllocError) -> RecordFault {
        RecordFault::NoMemory
    }
}
