//! The lines that the service writes of itself: on standard output for each connection that is opened or ends, each reload and each minute, if there is a log;
//! and on standard error why a folder was not reloaded.
ghost use Rattle.std.specs.Prelude.{◌≡◌, ℕ, List, IfOk, string_bytes};
ghost use Rattle.service_log.specs.Laws.{TellsLines};
ghost use Rattle.service_log.specs.Log.{as_line, ended_text, opened_text, reason_text};

use crate::lines::Lines;
use crate::texts::{
    NOT_RELOADED, ended_line, minute_line, opened_line, refused_line, reloaded_line,
};
use crate::work::Work;
use exit_statuses::ProgramFault;
use libc::net::{POLLERR, POLLHUP, POLLNVAL, POLLOUT, poll};
use libc::types::pollfd;
use std::alloc::AllocError;
use std::io::{self, ErrorKind, Write};
use std::os::fd::AsRawFd;
use std::rt::Clock;
use std::time::Instant;

/// The most bytes of one write: a pipe that has room takes them at once.
const PIECE: usize = 4_096;

/// The most writes in a row.
const PIECES: u32 = 64;

/// The seconds from a line of the service's state to the next.
const MINUTE: u64 = 60;

/// Why a connection ended.
#[derive(Clone, Copy)]
pub enum CloseReason {
    /// Its stream was over, and all replies were written.
    Answered,
    /// It was lost.
    Lost,
    /// It stood still for too long, or its reply was taken too slowly.
    Slow,
    /// Its query took too long.
    TooLong,
    /// Memory ran out.
    NoMemory,
}

impl CloseReason {
    fn text(self) -> &'static str
        ensures { result.now ≡ reason_text self }
    {
        match self {
            CloseReason::Answered => "answered",
            CloseReason::Lost => "lost",
            CloseReason::Slow => "slow",
            CloseReason::TooLong => "too long",
            CloseReason::NoMemory => "out of memory",
        }
    }
}

/// What was loaded: how many tables and rows, and how long that took.
#[derive(Clone, Copy)]
pub struct LoadSummary {
    pub tables: u64,
    pub rows: u64,
    pub millis: u64,
}

/// What the service counts of itself.
#[derive(Clone, Copy)]
pub struct Tally {
    /// The connections that are open, and those that were opened since the start.
    pub places: u64,
    pub opened: u64,
    pub work: Work,
    pub reloads: u64,
    /// The seconds since the tables were loaded.
    pub age: u64,
}

/// Each line is one line.
pub fn tells_lines()
    ensures { TellsLines }
{
    exit_statuses::faults_are_one_line();
}

/// Returns true if a write to a descriptor returns at once: it has room, or it fails.
fn has_room(fd: i32) -> bool {
    let mut asked = [pollfd {
        fd,
        events: POLLOUT,
        revents: 0,
    }];
    poll(&mut asked, 0) > 0 && asked[0].revents & (POLLOUT | POLLERR | POLLHUP | POLLNVAL) != 0
}

/// The lines of a log. They wait until standard output has room.
#[derive(Drop)]
pub struct Log<'a> {
    rt: &'a HostRuntime,
    /// Lines are taken.
    pub writes: bool,
    pub lines: Lines,
    pub tally: Tally,
    /// When the tables were loaded.
    loaded: Option<Instant>,
    /// The age that the tables had when the minute began.
    pub minute: u64,
}

impl<'a> Log<'a> {
    ghost use Rattle.service_log.specs.Log.{Logs, LogsMinute, LogsReload, tally_after_end, tally_after_open, aged, no_tally};

    /// Returns a log without lines, which takes some if `writes` is true.
    pub fn new(rt: &'a HostRuntime, writes: bool) -> Log<'a>
        ensures writes { result.writes ≡ writes }
        ensures tally { result.tally ≡ no_tally }
        ensures minute { result.minute ≡ 0 }
    {
        Log {
            rt,
            writes,
            lines: Lines::new(rt.alloc()),
            tally: Tally {
                places: 0,
                opened: 0,
                work: Work::new(),
                reloads: 0,
                age: 0,
            },
            loaded: Instant::now(rt).ok(),
            minute: 0,
        }
    }

    /// Adds a line to those that wait, if there is a log, or counts it as left out.
    fn line(&mut self, line: Result<String, AllocError>)
        ensures { (text : List ℕ) → IfOk line (λ l. string_bytes l ≡ as_line text)
            → Logs text self.old.tally self.old.minute self.old self.new }
    {
        if !self.writes {
            return;
        }
        match line {
            Ok(line) => self.lines.put(line.as_str()),
            Err(_) => self.lines.leave_out(),
        }
    }

    /// Logs that a connection was opened at `place`.
    pub fn opened(&mut self, place: u32)
        ensures { Logs (opened_text place) (tally_after_open self.old.tally) self.old.minute
            self.old self.new }
    {
        self.tally.places = self.tally.places.saturating_add(1);
        self.tally.opened = self.tally.opened.saturating_add(1);
        self.line(opened_line(self.rt.alloc(), place));
    }

    /// Logs that the connection at `place` ended, and why.
    pub fn ended(&mut self, place: u32, reason: CloseReason)
        ensures { Logs (ended_text place (reason_text reason)) (tally_after_end self.old.tally)
            self.old.minute self.old self.new }
    {
        self.tally.places = self.tally.places.saturating_sub(1);
        self.line(ended_line(self.rt.alloc(), place, reason.text()));
    }

    /// Logs that a changed folder was reloaded; and says on standard error why it was not.
    pub fn reloaded(&mut self, end: Result<LoadSummary, ProgramFault>)
        ensures { LogsReload end self.old self.new }
    {
        match end {
            Ok(loaded) => {
                self.tally.reloads = self.tally.reloads.saturating_add(1);
                self.tally.age = 0;
                self.loaded = Instant::now(self.rt).ok();
                self.minute = 0;
                self.line(reloaded_line(self.rt.alloc(), &loaded));
            }
            Err(fault) => self.refused(&fault),
        }
    }

    /// Says on standard error why a changed folder was not reloaded, if there is room.
    fn refused(&self, fault: &ProgramFault) {
        if !has_room(self.rt.stderr().as_raw_fd()) {
            return;
        }
        let _ = match refused_line(self.rt.alloc(), fault) {
            Ok(line) => self.rt.eprintln(line),
            Err(_) => self.rt.eprintln(NOT_RELOADED),
        };
    }

    /// Returns the seconds since the tables were loaded, if there is a clock.
    fn age(&self) -> Option<u64> {
        let now = Instant::now(self.rt).ok()?;
        Some(now.duration_since(self.loaded?).as_secs())
    }

    /// Logs what the service counts, once a minute.
    pub fn each_second(&mut self)
        ensures { LogsMinute self.old self.new }
    {
        let Some(age) = self.age() else {
            return;
        };
        self.tally.age = age;
        if age.saturating_sub(self.minute) >= MINUTE {
            self.minute = age;
            let tally = self.tally;
            self.line(minute_line(self.rt.alloc(), &tally));
            self.tally.work.begin_minute();
        }
    }

    /// Writes the first bytes that wait, if standard output has room. True if it took all of them.
    fn write_piece(&mut self) -> bool
        ensures { self.new.tally ≡ self.old.tally }
    {
        if !has_room(self.rt.stdout().as_raw_fd()) {
            return false;
        }
        self.lines.note_left_out(self.rt.alloc());
        let waiting = self.lines.waiting();
        let piece = waiting.len().min(PIECE);
        match self.rt.stdout().write(&waiting[..piece]) {
            Ok(count) => self.lines.take(count),
            Err(error) if error.kind() == ErrorKind::WouldBlock => return false,
            // an output that is closed takes no more
            Err(_) => self.writes = false,
        }
        true
    }

    /// Writes the lines that wait, as long as standard output has room.
    pub fn flush(&mut self)
        ensures { self.new.tally ≡ self.old.tally }
    {
        for _piece in 0..PIECES {
            if !self.writes || (self.lines.waiting().is_empty() && self.lines.left_out == 0) {
                return;
            }
            if !self.write_piece() {
                return;
            }
        }
    }
}
