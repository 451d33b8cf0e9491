//! What the service did since the last line of a minute: the replies that it sent, and its longest turn.
ghost use Rattle.std.specs.Prelude.{◌≡◌};
ghost use Rattle.service_log.specs.Laws.{WorkedMinute};
ghost use Rattle.service_log.specs.Work.{no_work, work_after_charge, work_after_minute, work_after_send, work_after_turn};

/// What the service did since the last line of a minute.
#[derive(Clone, Copy)]
pub struct Work {
    /// The requests whose replies were sent to their ends, and the bytes that were sent.
    pub requests: u64,
    pub bytes: u64,
    /// The microseconds of the turn that goes on, and those of the longest turn.
    pub turn: u64,
    pub longest: u64,
}

/// What a minute comes to, and its line.
pub fn worked_minute()
    ensures { WorkedMinute }
{}

impl Work {
    /// Returns nothing that was done.
    pub fn new() -> Work
        ensures { result ≡ no_work }
    {
        Work {
            requests: 0,
            bytes: 0,
            turn: 0,
            longest: 0,
        }
    }

    /// Adds `micros` microseconds to the turn that goes on.
    pub fn charge(&mut self, micros: u64)
        ensures { self.new ≡ work_after_charge micros self.old }
    {
        self.turn = self.turn.saturating_add(micros);
    }

    /// Adds `count` bytes that were sent of a reply, and counts its request if no more of the reply waits.
    pub fn sent(&mut self, count: u64, waits: bool)
        ensures { self.new ≡ work_after_send count waits self.old }
    {
        if count == 0 {
            return;
        }
        self.bytes = self.bytes.saturating_add(count);
        if !waits {
            self.requests = self.requests.saturating_add(1);
        }
    }

    /// Ends the turn that goes on.
    pub fn end_turn(&mut self)
        ensures { self.new ≡ work_after_turn self.old }
    {
        self.longest = self.longest.max(self.turn);
        self.turn = 0;
    }

    /// Begins a minute.
    pub fn begin_minute(&mut self)
        ensures { self.new ≡ work_after_minute self.old }
    {
        self.requests = 0;
        self.bytes = 0;
        self.longest = 0;
    }
}
