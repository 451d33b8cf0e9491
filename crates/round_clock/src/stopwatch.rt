//! How long the service works for a connection, when it has to ask the system again, and when a load takes a step.
use std::io;
use std::rt::Clock;
use std::time::{CpuClock, Duration, Instant};

/// How long places are served before the system is asked again, in milliseconds.
const ROUND: u64 = 2;

/// From how many microseconds on the processor's time is asked: that costs one.
const LONG: u64 = 1_000;

/// After how many rounds in which nothing was done nobody is waited for.
const IDLE: u32 = 64;

/// The microseconds of a second.
const MICROS: u64 = 1_000_000;

/// Returns the whole microseconds of `time`.
fn micros_of(time: Duration) -> u64 {
    let micros = u64::from(time.subsec_micros());
    time.as_secs().saturating_mul(MICROS).saturating_add(micros)
}

/// When a round began, the last look at the clock, the processor time at the last look at that, and the microseconds since then in which it was not asked. Beside
/// them in how many rounds in a row nothing was done, when the last step of a load ended, and how long it took.
#[derive(Drop)]
pub struct Stopwatch<'a> {
    rt: &'a HostRuntime,
    began: Instant,
    last: Instant,
    cpu: Duration,
    short: u64,
    over: bool,
    idle: u32,
    ended: Instant,
    step: Duration,
}

impl<'a> Stopwatch<'a> {
    /// Begins a round.
    pub fn new(rt: &'a HostRuntime) -> io::Result<Stopwatch<'a>> {
        let now = Instant::now(rt)?;
        Ok(Stopwatch {
            rt,
            began: now,
            last: now,
            cpu: rt.thread_cpu_time()?,
            short: 0,
            over: false,
            idle: 0,
            ended: now,
            step: Duration::from_millis(0),
        })
    }

    /// Returns how many of `micros` by the clock the processor worked: all, unless they are many.
    fn worked(&mut self, micros: u64) -> u64 {
        if micros < LONG {
            self.short = self.short.saturating_add(micros);
            return micros;
        }
        let Ok(cpu) = self.rt.thread_cpu_time() else {
            return micros;
        };
        let used = micros_of(cpu.saturating_sub(self.cpu)).saturating_sub(self.short);
        self.cpu = cpu;
        self.short = 0;
        micros.min(used)
    }

    /// Returns the microseconds that the processor worked since the last look at the clock, 0 if the clock fails: then the round is over.
    pub fn lap(&mut self) -> u64 {
        let Ok(now) = Instant::now(self.rt) else {
            self.over = true;
            return 0;
        };
        let spent = now.duration_since(self.last);
        self.last = now;
        self.over = now.duration_since(self.began) >= Duration::from_millis(ROUND);
        self.worked(micros_of(spent))
    }

    /// Begins a round.
    pub fn begin(&mut self) {
        let _idle = self.lap();
        self.began = self.last;
        self.over = false;
    }

    /// Returns whether the round took its time at the last look at the clock.
    pub fn is_over(&self) -> bool {
        self.over
    }

    /// Returns true if a load takes its next step: connections had as long as its last step took, or nothing was done for them in many rounds.
    pub fn is_due(&mut self) -> bool {
        if self.last > self.began {
            self.idle = 0;
        } else {
            self.idle = self.idle.saturating_add(1);
        }
        self.idle > IDLE || self.last.duration_since(self.ended) >= self.step
    }

    /// Notes that a load took a step since the last look at the clock.
    pub fn end_step(&mut self) {
        let began = self.last;
        let _micros = self.lap();
        self.ended = self.last;
        self.step = self.ended.duration_since(began);
    }
}
