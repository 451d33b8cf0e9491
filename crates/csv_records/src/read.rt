//! The records of a text, one by one.
ghost use Rattle.std.specs.Prelude.{◌≡◌, ◌≤◌, ◌∷◌, ◌++◌, [], IfOk, IfSome, MatchOption, OnOk, ◌==◌, length, map};
ghost use Rattle.std.specs.Cow.{cow_slice_items};
ghost use Rattle.std.specs.List.{position_or_len};
ghost use Rattle.csv_grammar.specs.Bytes.{double_quote};
ghost use Rattle.csv_grammar.specs.Records.{doubled};
ghost use Rattle.csv_records.specs.Exchange.{EndsRecord, IsFirstField, IsFirstRecord, IsPlainFront, exchanged};
ghost use Rattle.csv_records.specs.Written.{is_special};

use crate::exchanges::exchange;
use crate::fault::RecordFault;
use crate::lines::cut_first;
use crate::write::is_special;
use std::alloc::{AllocError, Global};
use std::borrow::CowSlice;

/// What a field says: a piece of its text, or bytes of its own if that text has double quotes within.
pub type RecordCell<'a> = CowSlice<'a, u8>;

/// A record at the front of a text: what its fields say, and what comes after it.
#[derive(Drop)]
pub struct Record<'a> {
    pub cells: Vec<RecordCell<'a>>,
    pub rest: &'a [u8],
}

/// A field at the front of a text: what it says, and what comes after it.
#[derive(Drop)]
struct Read<'a> {
    cell: RecordCell<'a>,
    rest: &'a [u8],
}

/// Returns the first byte of a text, with the comma and the separator exchanged, and the bytes after it; `None` if there is none.
fn cut_exchanged(separator: u8, text: &[u8]) -> Option<(u8, &[u8])>
    ensures { MatchOption result (text.now ≡ []) (λ parts. map (exchanged separator) text.now
        ≡ parts.0 ∷ map (exchanged separator) parts.1.now) }
{
    match cut_first(text) {
        Some((first, rest)) => Some((exchange(separator, first), rest)),
        None => None,
    }
}

/// Returns what comes after a byte at the front of a text; `None` if the text does not begin with it.
fn after_byte(separator: u8, byte: u8, text: &[u8]) -> Option<&[u8]>
    ensures { IfSome result (λ rest. map (exchanged separator) text.now
        ≡ byte ∷ map (exchanged separator) rest.now) }
{
    match cut_exchanged(separator, text) {
        Some((first, rest)) if first == byte => Some(rest),
        _ => None,
    }
}

/// Returns a byte inside double quotes, of which two are one, and what comes after it; `None` at a closing double quote.
fn inside_byte(separator: u8, text: &[u8]) -> Option<(u8, &[u8])>
    ensures { IfSome result (λ parts. map (exchanged separator) text.now
        ≡ doubled (parts.0 ∷ []) ++ map (exchanged separator) parts.1.now) }
{
    match cut_exchanged(separator, text) {
        Some((b'"', rest)) => Some((b'"', after_byte(separator, b'"', rest)?)),
        other => other,
    }
}

/// Appends a byte, with the comma and the separator exchanged.
fn push_exchanged(cell: &mut Vec<u8>, separator: u8, byte: u8) -> Result<(), AllocError>
    ensures { OnOk result (cell.new.items ≡ cell.old.items ++ exchanged separator byte ∷ []) }
{
    cell.push(exchange(separator, byte))?;
    Ok(())
}

/// Appends a cell to those of a record.
pub fn push_cell<'a>(
    cells: &mut Vec<RecordCell<'a>>,
    cell: RecordCell<'a>,
) -> Result<(), AllocError>
    ensures { OnOk result (map cow_slice_items cells.new.items
        ≡ map cow_slice_items cells.old.items ++ cow_slice_items cell.entry ∷ []) }
{
    cells.push(cell).or(Err(AllocError))
}

/// Returns the number of bytes before the first double quote.
fn quote_len(separator: u8, text: &[u8]) -> usize
    ensures within { result ≤ length text.now }
    ensures place { result ≡ position_or_len (λ byte. exchanged separator byte == double_quote)
        text.now }
{
    text.iter()
        .take_while(|byte| exchange(separator, **byte) != b'"')
        .count()
}

/// Reads a field with double quotes within, after its opening double quote.
fn read_doubled(alloc: Global, separator: u8, text: &[u8]) -> Result<Read<'_>, RecordFault>
    ensures { IfOk result (λ read. map (exchanged separator) text.now
        ≡ doubled (map (exchanged separator) (cow_slice_items read.cell))
        ++ double_quote ∷ map (exchanged separator) read.rest.now) }
{
    let mut cell = Vec::new(alloc);
    let mut left = text;
    while let Some((byte, rest)) = inside_byte(separator, left) {
        left = rest;
        push_exchanged(&mut cell, separator, byte)?;
    }
    let Some(rest) = after_byte(separator, b'"', left) else {
        return Err(RecordFault::Unfinished);
    };
    let cell = CowSlice::Owned(cell);
    Ok(Read { cell, rest })
}

/// Reads a field after its opening double quote.
fn read_quoted(alloc: Global, separator: u8, text: &[u8]) -> Result<Read<'_>, RecordFault>
    ensures { IfOk result (λ read. map (exchanged separator) text.now
        ≡ doubled (map (exchanged separator) (cow_slice_items read.cell))
        ++ double_quote ∷ map (exchanged separator) read.rest.now) }
{
    let (cell, closing) = text.split_at(quote_len(separator, text));
    let Some((_quote, rest)) = cut_first(closing) else {
        return Err(RecordFault::Unfinished);
    };
    if rest.starts_with(b"\"") {
        return read_doubled(alloc, separator, text);
    }
    let cell = CowSlice::Borrowed(cell);
    Ok(Read { cell, rest })
}

/// Returns the number of bytes before the first one that a field without double quotes does not have.
fn plain_len(separator: u8, text: &[u8]) -> usize
    ensures within { result ≤ length text.now }
    ensures place { result ≡ position_or_len (λ byte. is_special (exchanged separator byte))
        text.now }
{
    text.iter()
        .take_while(|byte| !is_special(exchange(separator, **byte)))
        .count()
}

/// Reads a field without double quotes.
fn read_plain(separator: u8, text: &[u8]) -> Read<'_>
    ensures { IsPlainFront separator (map (exchanged separator) text.now)
        (cow_slice_items result.cell) (map (exchanged separator) result.rest.now) }
{
    let (cell, rest) = text.split_at(plain_len(separator, text));
    Read {
        cell: CowSlice::Borrowed(cell),
        rest,
    }
}

/// Reads a field.
fn read_field(alloc: Global, separator: u8, text: &[u8]) -> Result<Read<'_>, RecordFault>
    ensures { IfOk result (λ read. IsFirstField separator (map (exchanged separator) text.now)
        (cow_slice_items read.cell) (map (exchanged separator) read.rest.now)) }
{
    match after_byte(separator, b'"', text) {
        Some(inside) => Ok(read_quoted(alloc, separator, inside)?),
        None => Ok(read_plain(separator, text)),
    }
}

/// Returns what comes after the end of a record; `None` if the record does not end here.
fn after_end(separator: u8, text: &[u8]) -> Option<&[u8]>
    ensures { IfSome result (λ rest. EndsRecord (map (exchanged separator) text.now)
        (map (exchanged separator) rest.now)) }
{
    if text.is_empty() {
        return Some(text);
    }
    match after_byte(separator, b'\r', text) {
        Some(rest) => after_byte(separator, b'\n', rest),
        None => after_byte(separator, b'\n', text),
    }
}

/// Returns why a record does not end here.
fn fault_at(text: &[u8]) -> RecordFault {
    match text {
        [b'"', ..] => RecordFault::StrayQuote,
        [b'\r', ..] => RecordFault::BareReturn,
        _ => RecordFault::AfterQuote,
    }
}

/// Reads the record at the front of a text whose fields a byte separates.
pub fn read_record(alloc: Global, separator: u8, text: &[u8]) -> Result<Record<'_>, RecordFault>
    ensures { IfOk result (λ read. IsFirstRecord separator (map (exchanged separator) text.now)
        (map cow_slice_items read.cells.items) (map (exchanged separator) read.rest.now)) }
{
    let mut cells = Vec::new(alloc);
    let mut left = text;
    loop {
        let read = read_field(alloc, separator, left)?;
        push_cell(&mut cells, read.cell)?;
        let Some(rest) = after_byte(separator, b',', read.rest) else {
            let Some(rest) = after_end(separator, read.rest) else {
                return Err(fault_at(read.rest));
            };
            return Ok(Record { cells, rest });
        };
        left = rest;
    }
}
