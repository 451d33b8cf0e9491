//! What a socket answers where it moves no bytes, and what became of a place.

/// Why a socket moved no bytes.
#[derive(Clone, Copy, PartialEq, Eq)]
pub enum PeerFault {
    /// It takes nothing, or has nothing, for now.
    Waits,
    /// The connection is lost.
    Lost,
}

/// What became of a place.
#[derive(Clone, Copy, PartialEq, Eq)]
pub enum SlotState {
    /// No connection is there.
    Free,
    /// Nothing is left to be done before its socket takes or has bytes.
    Rests,
    /// Something was done.
    Worked,
    /// The stream is over, and all replies were written.
    Answered,
    /// The connection is lost.
    Lost,
    /// Memory ran out.
    Failed,
}
