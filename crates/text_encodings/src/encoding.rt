//! The encoding of a file.
use std::alloc::AllocError;

/// How the characters of a file are bytes.
#[derive(Clone, Copy)]
pub enum Encoding {
    /// UTF-8 without a byte order mark.
    Utf8,
    /// UTF-8 with one.
    MarkedUtf8,
    /// UTF-16 with a byte order mark, the less significant byte of a unit first.
    Utf16Little,
    /// The same with the more significant byte first.
    Utf16Big,
    /// Windows-1252.
    Windows1252,
}

/// Why a file has no text.
#[derive(Drop)]
pub enum EncodingFault {
    /// A byte order mark says UTF-16, and there is an odd number of bytes, or a surrogate has no partner.
    NotUtf16,
    /// The file is in another encoding.
    Another,
    /// Memory ran out.
    NoMemory,
}

impl From<AllocError> for EncodingFault {
    fn from(_error: AllocError) -> EncodingFault {
        EncodingFault::NoMemory
    }
}
