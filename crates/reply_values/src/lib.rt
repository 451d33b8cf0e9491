//! The texts of values in JSON (RFC 8259; OData 4.01 JSON Format) and in CSV (RFC 4180), each written into room that is there, and how many bytes each takes.
//! Values, and texts in JSON, are appended to a buffer, too.
#![tactic(auto)]

mod decimal;
mod digits;
mod lanes;
mod laws;
mod push;
mod put_numbers;
mod room;
mod runs;
mod text_sizes;
mod texts;
mod value;

pub use digits::number_room;
pub use laws::values_read_back;
pub use push::{push_number, push_text, push_text_member};
pub use room::{put_byte, put_piece};
pub use runs::is_plain;
pub use text_sizes::{plain_size, text_room, text_size};
pub use texts::{put_plain, put_text};
pub use value::{push_value, put_value, value_size};
