//! The places of the fields of a CSV file (RFC 4180, section 2). [`Index::build`] reads the file once, 64 bytes at a time, and keeps
//! for each block of 64 bytes which of them part fields and end records, or answers the one thing that is first wrong with
//! the file; [`Index::cell`] then gives a field as a slice of the bytes, [`Index::fields`] one field after another, and
//! [`Raw::text`] what a field says. An [`IndexedText`] is a file with its index, seen as a header and rows of fields.
#![tactic(auto)]

mod blocks;
mod ends;
mod fault;
mod fields;
mod index;
mod indexed_text;
mod parts;
mod reading;
mod structure;
mod utf8;
mod widths;

pub use csv_fields::Raw;
pub use fault::TextFault;
pub use fields::Fields;
pub use index::Index;
pub use indexed_text::IndexedText;
pub use parts::{PART_ROWS, Parts};
pub use utf8::text_of;
