//! What is kept of a place beside its connection.
use crate::answers::SlotState;

/// What became of a place at its last visit.
#[derive(Drop)]
pub struct Slot {
    pub state: SlotState,
}
