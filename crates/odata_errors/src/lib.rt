//! The codes of errors (OData 4.01 JSON Format, section 21.1): each has a status (RFC 9110, section 15), a name and a message.
#![tactic(auto)]

mod code;

pub use code::Code;
