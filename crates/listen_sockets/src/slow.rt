//! How long a peer may take: for a head, from its first byte to its last, for a reply, and for anything else that its connection waits for; and how long
//! the service works for a query.
ghost use Rattle.std.specs.Prelude.{◌≡◌, None};
ghost use Rattle.listen_sockets.specs.Slow.{due_by, due_of, first_taken, fresh_times, is_heavy, is_slow_taking, more_taken, takes_little, times_after_charge, times_after_read, times_after_turn, times_after_write};

/// The most seconds that a head may take, that a connection may stand still, that the service works for a query (0: no limit), and that a reply may take.
#[derive(Clone, Copy)]
pub struct TimeLimits {
    pub head: u32,
    pub idle: u32,
    pub query: u32,
    pub reply: u32,
}

/// A reply that is being taken: since when, and how many bytes the peer took since the minute began in which it is looked at.
#[derive(Clone, Copy)]
pub struct Taking {
    pub began: u64,
    pub minute: u64,
    pub bytes: u64,
    /// The peer took too few bytes in the last whole minute.
    pub little: bool,
}

/// When a connection last got on, when the first byte of a head came that is not whole yet, the reply that is being taken, and the microseconds that the
/// service worked for it since its last reply was all taken. All seconds are those of one clock.
#[derive(Clone, Copy)]
pub struct Times {
    pub active: u64,
    pub head: Option<u64>,
    pub taking: Option<Taking>,
    pub spent: u64,
}

/// What is known of a connection beside its times: whether another waits for its place, something came that was not looked at, and output waits.
#[derive(Clone, Copy)]
pub struct Seen {
    pub crowded: bool,
    pub awake: bool,
    pub waits: bool,
}

/// What is due of a connection.
#[derive(Clone, Copy)]
pub enum Due {
    /// Nothing.
    Nothing,
    /// Its stream is ended: a head took too long.
    End,
    /// It is dropped: it stood still for too long, or takes its reply too slowly.
    Drop,
    /// It is dropped: the service worked for its query for too long.
    TooLong,
}

/// The seconds in which a rate is looked at.
pub const RATE_SECONDS: u64 = 60;

/// The fewest bytes that a peer takes in them, while another waits for its place.
pub const RATE_BYTES: u64 = 60_000;

/// The microseconds of a second.
const MICROS: u64 = 1_000_000;

/// The microseconds from which on others go first.
pub const HEAVY_MICROS: u64 = 200;

impl Taking {
    /// Returns a reply of which the first bytes, `count`, were taken now.
    fn new(now: u64, count: u64) -> Taking
        ensures { result ≡ first_taken now count }
    {
        Taking {
            began: now,
            minute: now,
            bytes: count,
            little: false,
        }
    }

    /// Adds `count` more bytes of the reply, which begin a minute if the last one is over.
    fn took(&mut self, now: u64, count: u64)
        ensures { self.new ≡ more_taken now count self.old }
    {
        if now.saturating_sub(self.minute) >= RATE_SECONDS {
            self.little = self.bytes < RATE_BYTES;
            self.minute = now;
            self.bytes = count;
        } else {
            self.bytes = self.bytes.saturating_add(count);
        }
    }

    /// Returns whether the peer took too few bytes in a minute.
    fn takes_little(&self, now: u64) -> bool
        ensures { result ≡ takes_little now self.now }
    {
        let is_over = now.saturating_sub(self.minute) >= RATE_SECONDS;
        self.little || (is_over && self.bytes < RATE_BYTES)
    }
}

/// Returns whether a reply takes longer than `limits` allow, or its peer takes little while another waits for its place.
fn is_slow_taking(limits: &TimeLimits, crowded: bool, now: u64, taking: Option<Taking>) -> bool
    ensures { result ≡ is_slow_taking limits.now crowded now taking }
{
    match taking {
        Some(taking) => {
            now.saturating_sub(taking.began) >= u64::from(limits.reply)
                || (crowded && taking.takes_little(now))
        }
        None => false,
    }
}

impl Times {
    /// Returns a connection that was opened now.
    pub fn new(now: u64) -> Times
        ensures { result ≡ fresh_times now }
    {
        Times {
            active: now,
            head: None,
            taking: None,
            spent: 0,
        }
    }

    /// Notes that bytes were read: a head begins with them, unless one began before. A peer that sends a byte now and then does not get on by that.
    pub fn read(&mut self, now: u64)
        ensures { self.new ≡ times_after_read self.old now }
    {
        if self.head.is_none() {
            self.head = Some(now);
        }
    }

    /// Notes that `count` bytes were written, and whether more of the reply waits.
    pub fn wrote(&mut self, now: u64, count: u64, waits: bool)
        ensures { self.new ≡ times_after_write now count waits self.old }
    {
        self.active = now;
        if !waits {
            self.taking = None;
            self.spent = 0;
            return;
        }
        match &mut self.taking {
            Some(taking) => taking.took(now, count),
            None => self.taking = Some(Taking::new(now, count)),
        }
    }

    /// Notes that a turn did something: a head was whole.
    pub fn turned(&mut self, now: u64)
        ensures { self.new ≡ times_after_turn now self.old }
    {
        self.active = now;
        self.head = None;
    }

    /// Adds the microseconds that the service worked for the connection.
    pub fn charge(&mut self, micros: u64)
        ensures { self.new ≡ times_after_charge micros self.old }
    {
        self.spent = self.spent.saturating_add(micros);
    }

    /// Returns whether the service worked so long for the connection that others go before it.
    pub fn is_heavy(&self) -> bool
        ensures { result ≡ is_heavy self.now }
    {
        self.spent >= HEAVY_MICROS
    }

    /// Returns what stands still for too long. If bytes wait for the socket, that stands still, however far a head came.
    fn due_still(&self, limits: &TimeLimits, waits: bool, now: u64) -> Due
        ensures { result ≡ due_by limits.now waits now self.now self.now.head }
    {
        match self.head {
            Some(began) if !waits => {
                if now.saturating_sub(began) >= u64::from(limits.head) {
                    Due::End
                } else {
                    Due::Nothing
                }
            }
            _ => {
                if now.saturating_sub(self.active) >= u64::from(limits.idle) {
                    Due::Drop
                } else {
                    Due::Nothing
                }
            }
        }
    }

    /// Returns what is due now of a connection that is as `seen`.
    pub fn due(&self, limits: &TimeLimits, seen: Seen, now: u64) -> Due
        ensures { result ≡ due_of limits.now seen now self.now }
    {
        if limits.query != 0 && self.spent >= u64::from(limits.query) * MICROS {
            Due::TooLong
        } else if seen.waits && is_slow_taking(limits, seen.crowded, now, self.taking) {
            Due::Drop
        } else if seen.awake {
            Due::Nothing
        } else {
            self.due_still(limits, seen.waits, now)
        }
    }
}
