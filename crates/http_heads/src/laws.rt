//! What holds of the cut of every stream, and the numbers of the limits: each function is a theorem, and does nothing.
ghost use Rattle.http_heads.specs.Laws.{CutsJoin, HeadLimits, HopelessRests, OneCut};

/// A head has at most 8,192 bytes and 64 fields.
pub fn head_limits()
    ensures { HeadLimits }
{}

/// A stream has one cut.
pub fn one_cut()
    ensures { OneCut }
{}

/// Unless the connection closed, what follows a stream is cut as what follows its rest; if it closed, what follows is not cut.
pub fn cuts_join()
    ensures { CutsJoin }
{}

/// If a rest is hopeless no head is cut off what follows, so the stream has the heads that it had, and a rest without a head.
pub fn hopeless_rests()
    ensures { HopelessRests }
{}
