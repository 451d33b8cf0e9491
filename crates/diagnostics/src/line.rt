//! What is reported, written piece by piece.
ghost use Rattle.std.specs.Prelude.{◌≡◌, ◌++◌, ◌⊎◌, true, string_bytes};

use crate::text::quoted;
use std::alloc::{AllocError, Global};

/// A text that grows. If memory runs out that is kept in it, so that a piece has no failure of its own.
#[derive(Drop)]
pub struct Line {
    pub alloc: Global,
    pub text: String,
    pub is_short: bool,
}

impl Line {
    pub fn new(alloc: Global) -> Line {
        Line {
            alloc,
            text: String::new(alloc),
            is_short: false,
        }
    }

    /// Appends a text, or memory runs out.
    pub fn push(&mut self, text: &str)
        ensures { (self.new.is_short ≡ true)
            ⊎ ((self.new.is_short ≡ self.old.is_short)
            × (string_bytes self.new.text ≡ string_bytes self.old.text ++ text.now)) }
    {
        if self.text.push_str(text).is_err() {
            self.is_short = true;
        }
    }

    pub fn push_number(&mut self, number: usize) {
        if write!(self.text, "{number}").is_err() {
            self.is_short = true;
        }
    }

    /// Appends a text and a number after it.
    pub(crate) fn push_with(&mut self, text: &str, number: usize) {
        self.push(text);
        self.push_number(number);
    }

    /// Appends the number of a line of a file and that of a column.
    pub(crate) fn push_place(&mut self, line: usize, column: usize) {
        self.push_with("line ", line);
        self.push_with(", column ", column);
    }

    /// Appends what would be accepted, after what is refused.
    pub(crate) fn push_accepted(&mut self, accepted: &str) {
        self.push("; accepted: ");
        self.push(accepted);
    }

    /// Appends a text that was made for it.
    pub fn push_made(&mut self, text: Result<String, AllocError>) {
        match text {
            Ok(text) => self.push(text.as_str()),
            Err(_) => self.is_short = true,
        }
    }

    /// Appends a text as a JSON text, cut.
    pub fn push_quoted(&mut self, text: &str) {
        self.push_made(quoted(self.alloc, text));
    }
}
