//! Why a file is not converted.
use csv_records::RecordFault;
use std::alloc::AllocError;
use text_encodings::EncodingFault;

/// Why a file is not converted.
#[derive(Drop)]
pub enum ConvertFault {
    /// It has a byte order mark of UTF-16, and is none.
    NotUtf16,
    /// It has NUL bytes, and so is no text.
    NoText,
    /// It has no record.
    Empty,
    /// Its fields do not have the form of RFC 4180, in this line, counted from 1.
    Text { fault: RecordFault, line: usize },
    /// Rows have fewer fields than the header, or more that are not empty: the lines of the first of them, and how many they are.
    Ragged { lines: Vec<usize>, count: usize },
    /// These lines before the header look like a title or comments.
    Title { lines: usize },
    /// It has changed since it was looked at.
    Changed,
    /// Memory ran out.
    NoMemory,
}

impl From<AllocError> for ConvertFault {
    fn from(_error: AllocError) -> ConvertFault {
        ConvertFault::NoMemory
    }
}

impl From<EncodingFault> for ConvertFault {
    fn from(error: EncodingFault) -> ConvertFault {
        match error {
            EncodingFault::NotUtf16 => ConvertFault::NotUtf16,
            EncodingFault::Another => ConvertFault::Changed,
            EncodingFault::NoMemory => ConvertFault::NoMemory,
        }
    }
}
