//! The line breaks of a text that is read in pieces.
ghost use Rattle.std.specs.Prelude.{◌≡◌, ◌++◌, ◌∷◌, ℕ, List, [], OnOk, false, if◌then◌else◌};
ghost use Rattle.csv_grammar.specs.Bytes.{line_feed};
ghost use Rattle.csv_records.specs.Lines.{FeedsText, begins_with_feed, fed, inside_after, is_lone, with_feeds};

use crate::lines::cut_first;
use std::alloc::AllocError;

/// A text that is read in pieces and written with an LF in the place of each CR outside double quotes that no LF follows. Its last byte is written after the next one is
/// read.
#[derive(Clone, Copy)]
pub struct LineFeeds {
    /// True if the last byte follows an odd number of double quotes.
    pub is_inside: bool,
    pub last: Option<u8>,
    /// How many such CRs there are.
    pub count: usize,
}

/// Returns a byte, or an LF in the place of a CR outside double quotes that no LF follows; and true if it is such a CR.
fn with_feed(is_inside: bool, byte: u8, is_fed: bool) -> (u8, bool)
    ensures { (text : List ℕ) → begins_with_feed text ≡ is_fed
        → result.0 ≡ (if is_lone is_inside byte text then line_feed else byte) }
{
    if byte == b'\r' && !is_inside && !is_fed {
        (b'\n', true)
    } else {
        (byte, false)
    }
}

/// Returns true if what follows a byte is inside double quotes.
fn is_inside_after(is_inside: bool, byte: u8) -> bool
    ensures { result ≡ inside_after is_inside byte }
{
    if byte == b'"' { !is_inside } else { is_inside }
}

impl LineFeeds {
    /// Returns the state before a text.
    pub fn new() -> LineFeeds
        ensures { (text : List ℕ) → fed result text ≡ with_feeds false text }
    {
        LineFeeds {
            is_inside: false,
            last: None,
            count: 0,
        }
    }

    /// Writes the last byte, before a text that begins with an LF or does not.
    fn put_last(&mut self, out: &mut Vec<u8>, is_fed: bool) -> Result<(), AllocError>
        ensures { OnOk result ((text : List ℕ) → begins_with_feed text ≡ is_fed
            → out.old.items ++ fed self.old text
            ≡ out.new.items ++ with_feeds self.new.is_inside text) }
    {
        let Some(byte) = self.last else {
            return Ok(());
        };
        let (written, is_lone) = with_feed(self.is_inside, byte, is_fed);
        out.push(written)?;
        self.count = self.count.saturating_add(usize::from(is_lone));
        self.is_inside = is_inside_after(self.is_inside, byte);
        Ok(())
    }

    /// Reads a byte.
    fn read_byte(&mut self, out: &mut Vec<u8>, byte: u8) -> Result<(), AllocError>
        ensures { OnOk result
            (FeedsText self.old self.new (byte ∷ []) out.old.items out.new.items) }
    {
        self.put_last(out, byte == b'\n')?;
        self.last = Some(byte);
        Ok(())
    }

    /// Reads a piece of the text, and appends what is written.
    pub fn read(&mut self, out: &mut Vec<u8>, text: &[u8]) -> Result<(), AllocError>
        ensures { OnOk result
            (FeedsText self.old self.new text.now out.old.items out.new.items) }
    {
        let mut left = text;
        while let Some((byte, rest)) = cut_first(left) {
            left = rest;
            self.read_byte(out, byte)?;
        }
        Ok(())
    }

    /// Appends what is written at the end of the text. Returns how many CRs had no LF after them.
    pub fn end(mut self, out: &mut Vec<u8>) -> Result<usize, AllocError>
        ensures { OnOk result (out.new.items ≡ out.old.items ++ fed self []) }
    {
        self.put_last(out, false)?;
        Ok(self.count)
    }
}
