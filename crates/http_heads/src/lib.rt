//! The heads of requests (RFC 9112, section 2): a stream of bytes is cut into heads as its pieces come, up to one after which the connection
//! closes. The cut is a relation of the whole stream, and the laws say that a stream has one, whatever pieces it comes in.
#![tactic(auto)]

mod checked;
mod checks;
mod fields;
mod head;
mod laws;
mod method;
mod splitter;

pub use checked::CheckedHead;
pub use checks::{Checks, HeadFault, check_head};
pub use head::{Field, Head, MAX_FIELDS, MAX_HEAD};
pub use laws::{cuts_join, head_limits, hopeless_rests, one_cut};
pub use method::Method;
pub use splitter::{Cut, Splitter, Unreadable};
