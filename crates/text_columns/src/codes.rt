//! The different texts of a block, where there are few: a code for each row.
ghost use Rattle.std.specs.Prelude.{◌≡◌, ◌<◌, true, IfOk, IfSome, length, option_map, slice_index_or};
ghost use Rattle.cell_types.specs.Value.{null};
ghost use Rattle.text_columns.specs.Codes.{AreCodes, AreCodeRows, HasCode, IsLook, KeepsCodes};
ghost use Rattle.text_columns.specs.declared.codes.TheConstants.{SLOTS};

use crate::column::TextColumn;
use std::alloc::{AllocError, Global};

/// How many codes a block may have, so that each fits in a byte and one number is left for a slot that is free.
pub const MOST_CODES: usize = 255;

/// How many slots propose codes.
const SLOTS: usize = 1024;

/// How many of them are looked at for one text.
const LOOKS: usize = 8;

/// A code for each row of a block, and for each code a row that has it. Rows of one code have the same text, or are all null.
#[derive(Drop)]
pub struct TextCodes {
    pub rows: Vec<usize>,
    pub codes: Vec<u8>,
}

/// What a look at the slots finds for a row.
#[derive(Clone, Copy)]
enum Look {
    /// The code of the row's text.
    Code(usize),
    /// A slot that is free.
    Free(usize),
    Nothing,
}

/// Returns true if both are the same text, or null.
#[inline(always)]
fn are_same(left: Option<&str>, right: Option<&str>) -> bool
    ensures { result ≡ true
        → option_map (λ t. t.now) left.entry ≡ option_map (λ t. t.now) right.entry }
{
    match (left, right) {
        (None, None) => true,
        (Some(left), Some(right)) => left == right,
        _ => false,
    }
}

/// Returns true if two rows are both null, or have the same text.
#[inline(always)]
fn have_same_text(column: &TextColumn<'_>, left: usize, right: usize) -> bool
    requires left { left < length column.now }
    requires right { right < length column.now }
    ensures { result ≡ true
        → slice_index_or column.now left null ≡ slice_index_or column.now right null }
{
    are_same(column.text(left), column.text(right))
}

/// Returns the slot at which a text is sought first. Texts may share it.
#[inline(always)]
fn slot_of(text: Option<&str>) -> usize
    ensures { result < SLOTS }
{
    let Some(text) = text else {
        return 0;
    };
    let bytes = text.as_bytes();
    let len = bytes.len();
    if len == 0 {
        return 1;
    }
    let ends = bytes[0] as usize | (bytes[len - 1] as usize) << 8 | (bytes[len / 2] as usize) << 16;
    let inner = bytes[len - len.min(2)] as usize
        | (bytes[1 % len] as usize) << 8
        | (len & 0xFF) << 16;
    ((ends.wrapping_mul(0x9E37_79B9) ^ inner.wrapping_mul(0x85EB_CA77)) >> 12) % SLOTS
}

/// Looks for the text of a row among those that slots propose. Slots may be wrong: the texts decide.
#[inline(always)]
fn look_for(column: &TextColumn<'_>, row: usize, slots: &[u8], rows: &[usize]) -> Look
    requires row { row < length column.now }
    requires slots { length slots.now ≡ SLOTS }
    requires rows { AreCodeRows rows.now column.now }
    ensures { IsLook column.now rows.now row result }
{
    let first = slot_of(column.text(row));
    for look in 0..LOOKS {
        let slot = (first + look) % SLOTS;
        let code = slots[slot] as usize;
        if code >= rows.len() {
            return Look::Free(slot);
        }
        if have_same_text(column, rows[code], row) {
            return Look::Code(code);
        }
    }
    Look::Nothing
}

/// Returns the code of the text of a row, which may be a new one; nothing if there is none left.
#[inline(always)]
fn code_of(
    column: &TextColumn<'_>,
    row: usize,
    slots: &mut Vec<u8>,
    rows: &mut Vec<usize>,
) -> Result<Option<usize>, AllocError>
    requires row { row < length column.now }
    requires slots { length slots.old.items ≡ SLOTS }
    requires rows { AreCodeRows rows.old.items column.now }
    ensures slots { length slots.new.items ≡ SLOTS }
    ensures rows { IfOk result (λ _. AreCodeRows rows.new.items column.now) }
    ensures kept { IfOk result (λ _. KeepsCodes rows.old.items rows.new.items) }
    ensures code { IfOk result (λ code. IfSome code (HasCode column.now rows.new.items row)) }
{
    match look_for(column, row, slots.as_slice(), rows.as_slice()) {
        Look::Code(code) => Ok(Some(code)),
        Look::Free(slot) if rows.len() < MOST_CODES => {
            let code = rows.len();
            slots[slot] = code as u8;
            rows.push(row)?;
            Ok(Some(code))
        }
        _ => Ok(None),
    }
}

/// Returns the codes of the texts of a column; nothing if it has too many different ones. Slots propose a code, and the texts decide.
pub fn codes_of(alloc: Global, column: &TextColumn<'_>) -> Result<Option<TextCodes>, AllocError>
    ensures { IfOk result (λ codes. IfSome codes (λ codes. AreCodes codes column.now)) }
{
    let mut slots = Vec::from_elem(alloc, u8::MAX, SLOTS)?;
    let mut rows = Vec::new(alloc);
    let mut codes = Vec::from_elem(alloc, 0u8, column.len())?;
    for row in 0..column.len() {
        let Some(code) = code_of(column, row, &mut slots, &mut rows)? else {
            return Ok(None);
        };
        codes[row] = code as u8;
    }
    Ok(Some(TextCodes { rows, codes }))
}
