//! Many connections in one activity, answered in turns: what each call of a hub does is one step of the connection that it names, and the laws say
//! what a connection is given in every schedule of calls.
#![tactic(auto)]

mod answers;
mod connection;
mod flight;
mod hub;
pub mod laws;
mod places;

pub use answers::{HubFault, Turned};
pub use hub::{Conn, Hub};
pub use odata_http::RunKept;
