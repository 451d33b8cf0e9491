//! The structure of a whole file (RFC 4180, section 2).
ghost use Rattle.std.specs.Prelude.{◌≡◌, ◌≤◌, ◌<◌, ◌+◌, ◌-◌, ◌*◌, ◌^◌, List, length, drop, true, false, Some, IfOk, IfErr, IsUtf8};
ghost use Rattle.std.specs.Str.{IsCharBoundary};
ghost use Rattle.csv_grammar.specs.Records.{Field};
ghost use Rattle.csv_grammar.specs.Faults.{cause_at};
ghost use Rattle.csv_grammar.specs.Files.{malformed, text_of};
ghost use Rattle.csv_index.specs.Blocks.{AreRanked};
ghost use Rattle.csv_index.specs.Fault.{text_cause, IsTextFault};
ghost use Rattle.csv_index.specs.Reading.{bytes_left, IsBlockReading};
ghost use Rattle.csv_index.specs.Structure.{ReadsAsRecords, HasTextFault};

use crate::blocks::ByteBlocks;
use crate::fault::TextFault;
use crate::reading::Reading;
use crate::widths::Widths;
use csv_grammar::{mark_len, one_structure};
use std::alloc::Global;

/// What is known of a file that is records.
#[derive(Drop)]
pub struct Structure {
    pub blocks: ByteBlocks,
    /// The end of a last record with no line break.
    pub last: Option<usize>,
    pub widths: Widths,
}

impl Structure {
    /// Returns what the reading of a whole file from its mark on says. The bytes are records, or the error is the first fault.
    pub fn of(reading: Reading, file: &[u8], mark: usize) -> Result<Structure, TextFault>
        requires utf8 { IsUtf8 file.now }
        requires within { mark ≤ length file.now }
        requires boundary { IsCharBoundary file.now mark }
        requires reads { IsBlockReading (drop mark file.now) reading }
        requires over { bytes_left (drop mark file.now) reading ≡ 0 }
        ensures records { IfOk result (λ s. (records : List (List Field))
            × ReadsAsRecords file.now mark records s.blocks.masks.items s.last s.widths) }
        ensures ranked { IfOk result
            (λ s. AreRanked s.blocks.masks.items s.blocks.before.items) }
        ensures fault { IfErr result (λ e. HasTextFault e file.now mark) }
    {
        one_structure();
        let Reading {
            blocks,
            carry,
            mut widths,
            unended,
        } = reading;
        let Ok(()) = carry.finish() else {
            return Err(TextFault::Unfinished { at: file.len() });
        };
        if unended {
            let at = widths.places;
            widths.end_record(at);
        }
        Ok(Structure {
            blocks,
            last: unended.then_some(file.len()),
            widths,
        })
    }
}

/// Begins to read a file from its mark on.
pub fn begin(alloc: Global, file: &[u8]) -> Result<Reading, TextFault>
    ensures reads { IfOk result (IsBlockReading (text_of file.now)) }
    ensures fault { IfErr result (IsTextFault file.now) }
{
    Ok(Reading::start(alloc, &file[mark_len(file)..])?)
}

/// Reads on in a file from its mark on, at most `most` blocks. The error is the first fault.
pub fn read_on(reading: Reading, file: &[u8], most: usize) -> Result<Reading, TextFault>
    requires utf8 { IsUtf8 file.now }
    requires reads { IsBlockReading (text_of file.now) reading }
    ensures reads { IfOk result (IsBlockReading (text_of file.now)) }
    ensures left { IfOk result (λ r. bytes_left (text_of file.now) r
        ≤ bytes_left (text_of file.now) reading - 64 * most) }
    ensures fault { IfErr result (IsTextFault file.now) }
{
    let mark = mark_len(file);
    let text = &file[mark..];
    match reading.go_on(text, most) {
        Ok(reading) => Ok(reading),
        Err(left) => Err(fault_at(text, text.len() - left, mark)),
    }
}

/// Returns why a byte of the text is refused, by that byte and the one before it.
fn fault_at(text: &[u8], place: usize, mark: usize) -> TextFault
    requires place { place < length text.now }
    requires room { mark + length text.now < 2 ^ 64 }
    ensures { text_cause result ≡ Some (malformed (cause_at text.now place) (mark + place)) }
{
    let at = mark + place;
    if text[place.saturating_sub(1)] == b'\r' {
        TextFault::BareCr { at }
    } else if text[place] == b'"' {
        TextFault::StrayQuote { at }
    } else {
        TextFault::AfterQuote { at }
    }
}
