//! What is due of connections, worked out by hand. The function here is a theorem, and does nothing.
ghost use Rattle.listen_sockets.specs.SlowValues.{SlowValues};

/// When a query, a minute of a reply and a whole reply take too long.
pub fn slow_values()
    ensures { SlowValues }
{}
