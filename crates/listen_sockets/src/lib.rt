//! The sockets of a service, at the places of its hub: what the system says of each, what is kept of a place, how long a peer may take, and those that
//! are held open for a while once their connections are over.
#![tactic(auto)]

pub mod laws;
mod lingering;
mod noted;
mod peer;
mod poller;
mod rounds;
mod server;
mod slow;
mod sockets;
mod told;

pub use lingering::{Lingering, LingeringPeer};
pub use peer::Peer;
pub use poller::Poller;
pub use server::Server;
pub use slow::{Due, Seen, Taking, TimeLimits, Times};
pub use sockets::{Sockets, Wire};
