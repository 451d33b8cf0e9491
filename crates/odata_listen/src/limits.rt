//! How much a query may keep before its reply begins.
ghost use Rattle.std.specs.Prelude.{◌≡◌};
ghost use Rattle.odata_listen.specs.Limits.{are_passed};

use listen_sockets::Poller;
use odata_hub::RunKept;

/// The most rows that a query keeps for an order, and the most groups that it has.
#[derive(Clone, Copy)]
pub struct KeptLimits {
    pub ordered: u64,
    pub groups: u64,
}

impl KeptLimits {
    /// Returns true if a query keeps more.
    pub fn are_passed(&self, kept: RunKept) -> bool
        ensures { result ≡ are_passed self.now kept }
    {
        match kept {
            RunKept::Nothing => false,
            RunKept::Ordered(rows) => rows > self.ordered,
            RunKept::Groups(groups) => groups > self.groups,
        }
    }
}

/// What a round of turns goes by: what the system said, and how much a query may keep.
#[derive(Clone, Copy)]
pub struct Terms<'p> {
    pub poller: &'p Poller,
    pub kept: KeptLimits,
}
