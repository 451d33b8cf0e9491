//! Where the connections of a service come from, over `mio`: a port, a Unix socket, or a socket that it was started with.
#![tactic(auto)]

mod listener;

pub use listener::ListeningSocket;
