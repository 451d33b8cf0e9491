//! All that is refused of a folder, a line each.
ghost use Rattle.std.specs.Prelude.{◌≡◌, ◌++◌, ◌⊎◌, [], ◌∷◌, false, true, IfOk, map, option_map, string_bytes};
ghost use Rattle.table_store.specs.Fault.{load_fault_text};
ghost use Rattle.diagnostics.specs.Refusal.{first_with, said_lines, without_first};

use crate::line::Line;
use std::alloc::{AllocError, Global};
use table_store::LoadFault;

/// The most refusals that are reported.
pub const MOST_REFUSALS: usize = 20;

/// The lines of what is refused so far. If memory runs out that is kept in it, so that a refusal has no failure of its own.
#[derive(Drop)]
pub struct Report {
    pub alloc: Global,
    pub lines: Vec<String>,
    /// What helps, a line for each table.
    pub helps: Line,
    pub is_short: bool,
}

impl Report {
    pub fn new(alloc: Global) -> Report
        ensures lines { result.lines.items ≡ [] }
        ensures short { result.is_short ≡ false }
    {
        Report {
            alloc,
            lines: Vec::new(alloc),
            helps: Line::new(alloc),
            is_short: false,
        }
    }

    /// Returns true if there are as many refusals as are reported, or memory ran out.
    pub fn is_full(&self) -> bool {
        self.is_short || self.lines.len() >= MOST_REFUSALS
    }

    /// Returns a text of its own for a fault, empty if memory runs out.
    pub fn owned(&mut self, text: &str) -> String {
        match String::from_str(self.alloc, text) {
            Ok(text) => text,
            Err(_) => {
                self.is_short = true;
                String::new(self.alloc)
            }
        }
    }

    /// Returns a line that begins with a cause and a colon. If the cause is that memory ran out, the line keeps that.
    pub fn begin(&self, fault: LoadFault) -> Line {
        let mut line = Line::new(self.alloc);
        line.is_short = fault.is_memory();
        line.push_made(fault.text(self.alloc));
        line.push(": ");
        line
    }

    /// Adds a line, or memory ran out.
    pub fn put(&mut self, line: Line)
        ensures { (self.new.is_short ≡ true)
            ⊎ ((line.is_short ≡ false) × (self.new.is_short ≡ self.old.is_short)
            × (self.new.lines.items ≡ self.old.lines.items ++ line.text ∷ [])) }
    {
        if self.lines.push(line.text).is_err() || line.is_short {
            self.is_short = true;
        }
    }

    /// Adds a line, with what would be accepted after what it reports.
    pub(crate) fn put_accepted(&mut self, line: Line, accepted: &str) {
        let mut line = line;
        line.push_accepted(accepted);
        self.put(line);
    }

    /// Returns the lines of a folder that is refused for a cause, at most [`MOST_REFUSALS`]. The first is the one that says more of the cause, else the cause
    /// alone; the others follow in their order.
    pub fn end(self, cause: &LoadFault) -> Result<Vec<String>, AllocError>
        ensures { IfOk result (λ lines. map string_bytes lines.items
            ≡ said_lines (load_fault_text cause.now) (map string_bytes self.lines.items)) }
    {
        let cause = cause.text(self.alloc)?;
        let mut front = cause.clone()?;
        front.push_str(": ")?;
        let mut lines = self.lines;
        let first = take_first(&mut lines, front.as_str()).unwrap_or(cause);
        if lines.insert(0, first).is_err() || self.is_short {
            return Err(AllocError);
        }
        lines.truncate(MOST_REFUSALS);
        Ok(lines)
    }
}

/// Takes the first line with a front out of some, and returns it, if there is one.
fn take_first(lines: &mut Vec<String>, front: &str) -> Option<String>
    ensures first { option_map string_bytes result
        ≡ first_with front.now (map string_bytes lines.old.items) }
    ensures others { map string_bytes lines.new.items
        ≡ without_first front.now (map string_bytes lines.old.items) }
{
    for place in 0..lines.len() {
        if lines[place].as_bytes().starts_with(front.as_bytes()) {
            return Some(lines.remove(place));
        }
    }
    None
}
