//! What the calls of a hub answer.

/// Why a call of a hub is refused.
#[derive(Clone, Copy, PartialEq, Eq)]
pub enum HubFault {
    /// Every place is taken.
    Full,
    /// The place is free, or there is none.
    NoSuchConnection,
    /// The connection's stream has ended.
    Ended,
    /// The connection ran out of memory before.
    Failed,
    /// Memory ran out, and the connection has failed.
    NoMemory,
}

/// What a turn did.
#[derive(Clone, Copy, PartialEq, Eq)]
pub enum Turned {
    /// Nothing was left to do.
    Idle,
    /// One step was made.
    Worked,
}
