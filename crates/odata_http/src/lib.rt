//! OData over HTTP/1.1 (RFC 9112; OData 4.01 Part 1, section 8): a stream of request bytes is cut into heads, each head is answered from a catalog, and
//! the replies are given in order, whatever pieces the stream comes in. [`run`] does so over devices, and a [`Session`] without.
#![tactic(auto)]

mod answer;
mod counted;
mod device;
mod exchange;
mod key_lookup;
mod laws;
mod lazy;
mod media;
mod query_run;
mod reply;
mod response;
mod runs;
mod session;
mod work;

pub use counted::Counted;
pub use device::{DeviceFault, Sink, Source, send};
pub use exchange::{Exchange, reply_to};
pub use http_heads::{CheckedHead, Field, Head, MAX_FIELDS, MAX_HEAD, Splitter, Unreadable};
pub use laws::{
    cuts_are_small, hopeless_ends, joins, one_length, one_reading, one_reply, statuses,
};
pub use lazy::LazyExchange;
pub use query_exec::{RunKept, Step};
pub use reply::reply_to_rest;
pub use reply_text::{Output, Reply};
pub use runs::{RunFault, run};
pub use session::{Session, SessionFault};
