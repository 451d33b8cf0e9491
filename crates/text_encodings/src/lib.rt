//! Texts of files in the encodings that spreadsheets write: UTF-8, UTF-16 with a byte order mark, and else Windows-1252 (Encoding Standard of WHATWG). A
//! [`Decoder`] reads a file in pieces, and returns its text in UTF-8, without its byte order mark.
#![tactic(auto)]

mod decoder;
mod encoding;
mod laws;
mod utf16;
mod windows_1252;

pub use decoder::{Decoder, after_mark};
pub use encoding::{Encoding, EncodingFault};
pub use laws::worked_encodings;
pub use utf16::ByteOrder;
pub use windows_1252::char_of;
