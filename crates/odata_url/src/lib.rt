//! Request targets (RFC 9112, section 3.2) read as OData's URL Conventions 4.01 say. [`Target::read`] gives the decoded segments of the path and
//! the options of the query, or the first fault from left to right: a target is split before anything is decoded.
#![tactic(auto)]

mod cuts;
mod escapes;
mod fault;
mod laws;
mod option_name;
mod target;

pub use fault::UrlFault;
pub use laws::{
    escaping_is_undone, names_an_option, plain_stands_for_itself, reading_or_fault, reads_back,
    reads_targets, stands_for_octets, worked_targets,
};
pub use option_name::OptionName;
pub use target::Target;
