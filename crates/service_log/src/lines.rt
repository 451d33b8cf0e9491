//! Lines that wait to be written, in a bounded room. What does not fit is left out and counted, so that a log never stops what it logs.
ghost use Rattle.std.specs.Prelude.{◌≡◌, ◌⊎◌, IfErr, IfOk, string_bytes};
ghost use Rattle.service_log.specs.Lines.{AreSame, AddsLine, LeavesLineOut, IsNoted, NoRoom, left_out_text};

use std::alloc::{AllocError, Global};

/// The most bytes of lines that wait.
pub const MOST_WAITING: usize = 65_536;

/// Lines with the bytes of each and a line feed after it, how many of these bytes were written, and how many lines were left out after them.
#[derive(Drop)]
pub struct Lines {
    pub text: Vec<u8>,
    pub written: usize,
    pub left_out: u64,
}

/// Returns the line that says how many lines were left out.
fn left_out_line(alloc: Global, count: u64) -> Result<String, AllocError>
    ensures { IfOk result (λ line. string_bytes line ≡ left_out_text count) }
{
    format!(in alloc; "{count} lines left out\n")
}

impl Lines {
    ghost use Rattle.std.specs.Prelude.{[]};

    /// Returns no lines.
    pub fn new(alloc: Global) -> Lines
        ensures text { result.text.items ≡ [] }
        ensures left_out { result.left_out ≡ 0 }
    {
        Lines {
            text: Vec::new(alloc),
            written: 0,
            left_out: 0,
        }
    }

    /// Adds `line`, or counts it as left out: after another one that was, if there is no room, or if memory ran out.
    pub fn put(&mut self, line: &str)
        ensures { AddsLine line.now self.old self.new
            ⊎ (NoRoom line.now self.old × LeavesLineOut self.old self.new) }
    {
        let bytes = line.as_bytes();
        let fits = usize::saturating_add(self.text.len(), bytes.len()) <= MOST_WAITING;
        if self.left_out > 0 || !fits || self.text.extend_from_slice(bytes).is_err() {
            self.leave_out();
        }
    }

    /// Counts a line as left out.
    pub fn leave_out(&mut self)
        ensures { LeavesLineOut self.old self.new }
    {
        self.left_out = self.left_out.saturating_add(1);
    }

    /// Adds the line that says how many lines were left out, if any were and there is memory for it.
    pub fn note_left_out(&mut self, alloc: Global)
        ensures { AreSame self.old self.new ⊎ IsNoted self.old self.new }
    {
        if self.left_out == 0 {
            return;
        }
        if let Ok(line) = left_out_line(alloc, self.left_out) {
            if self.text.extend_from_slice(line.as_bytes()).is_ok() {
                self.left_out = 0;
            }
        }
    }

    /// Returns the bytes that wait.
    pub fn waiting(&self) -> &[u8] {
        &self.text[self.written.min(self.text.len())..]
    }

    /// Takes away the first `count` bytes that wait.
    pub fn take(&mut self, count: usize) {
        self.written = usize::saturating_add(self.written, count);
        if self.written >= self.text.len() {
            self.text.clear();
            self.written = 0;
        }
    }
}
