//! Visits at the places of a hub: in each, output that waits is written, or the connection has a turn, or a piece is read. The sockets come by a trait, so
//! that visits run over scripts too; the laws say what a socket was given, whatever visits there were.
#![tactic(auto)]

mod answers;
pub mod laws;
mod peers;
mod places;
mod slot;
mod visits;

pub use answers::{PeerFault, SlotState};
pub use peers::Peers;
pub use places::visit_place;
pub use slot::Slot;
pub use visits::visit;
