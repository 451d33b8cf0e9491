//! Values packed to 16 bytes each.
ghost use Rattle.std.specs.Prelude.{◌≡◌, ◌+◌, ◌*◌, ◌^◌, ◌<◌, ℕ, List, IfOk, IfSome, length, string_bytes};
ghost use Rattle.cell_types.specs.Value.{value_view};
ghost use Rattle.value_rows.specs.Packed.{lent_value_view, slot_view, AreSpanned, Grow, Grows, GrowsByText, IsSlotOfValue, IsPlain, IsSlot, IsTextSlot};

use cell_types::{Value, owned};
use jiff_core::civil::Date;
use std::alloc::{AllocError, Global};
use std::borrow::CowStr;

/// Texts are packed as long as all of them have no more bytes than this.
const MOST_BYTES: usize = 0xFFFF_FFFF;

/// A value, as it is packed.
#[derive(Clone, Copy, Drop)]
pub(crate) enum Slot {
    Null,
    Integer(i64),
    /// In millionths.
    Decimal(i64),
    Boolean(bool),
    Date(Date),
    /// Where its text begins among all texts, and how many bytes it has.
    Text(u32, u32),
    /// Its place among the values that are not packed.
    Other(usize),
}

/// A value that is not packed, with its place in the list.
#[derive(Drop)]
pub(crate) struct Other {
    pub(crate) place: usize,
    pub(crate) value: Value<'static>,
}

/// A value of a list, as it is lent.
#[derive(Clone, Copy, Drop)]
pub enum LentValue<'a> {
    Null,
    Integer(i64),
    /// In millionths.
    Decimal(i64),
    Boolean(bool),
    Date(Date),
    Text(&'a str),
    /// A value that is not packed.
    Other(&'a Value<'static>),
}

/// Returns the value that is lent.
#[inline(always)]
pub(crate) fn value_of<'a>(lent: LentValue<'a>) -> Value<'a>
    ensures { value_view result ≡ lent_value_view lent.entry }
{
    match lent {
        LentValue::Null => Value::Null,
        LentValue::Integer(number) => Value::Int(number as i128),
        LentValue::Decimal(millionths) => Value::Decimal(millionths as i128),
        LentValue::Boolean(truth) => Value::Bool(truth),
        LentValue::Date(date) => Value::Date(date),
        LentValue::Text(text) => Value::Text(CowStr::Borrowed(text)),
        LentValue::Other(value) => cell_types::lent(value),
    }
}

/// Returns the value of a slot as it is lent, with the texts and the values that are not packed.
#[inline(always)]
pub(crate) fn lent_at<'a>(
    slot: Slot,
    texts: &'a String,
    others: &'a [Other],
    place: usize,
) -> LentValue<'a>
    requires { IsSlot (string_bytes texts.now) others.now place slot }
    ensures { lent_value_view result ≡ slot_view (string_bytes texts.now) others.now slot }
{
    match slot {
        Slot::Null => LentValue::Null,
        Slot::Integer(number) => LentValue::Integer(number),
        Slot::Decimal(millionths) => LentValue::Decimal(millionths),
        Slot::Boolean(truth) => LentValue::Boolean(truth),
        Slot::Date(date) => LentValue::Date(date),
        Slot::Text(start, len) => {
            let start = start as usize;
            LentValue::Text(&texts.as_str()[start..start + len as usize])
        }
        Slot::Other(other) => LentValue::Other(&others[other].value),
    }
}

/// Writes how many bytes each text has, of the slots from one on of which each comes `step` places after the one before. Returns the places between which all of them are among all
/// texts, or `None` if a slot is not that of a text, or its text begins before the one before it ends.
#[inline(always)]
pub(crate) fn text_lengths(
    slots: &[Slot],
    from: usize,
    step: usize,
    lengths: &mut [usize],
) -> Option<(usize, usize)>
    requires some { 0 < length lengths.old }
    requires few { length slots.now < 2 ^ 63 }
    requires within { (i : ℕ) → i < length lengths.old → from + i * step < length slots.now }
    ensures long { length lengths.new ≡ length lengths.old }
    ensures spanned { IfSome result
        (λ span. AreSpanned slots.now from step lengths.new span.0 span.1) }
{
    let Slot::Text(low, _) = slots[from] else {
        return None;
    };
    let low = low as usize;
    let mut high = low;
    for i in 0..lengths.len() {
        let Slot::Text(start, len) = slots[from + i * step] else {
            return None;
        };
        if (start as usize) < high {
            return None;
        }
        high = start as usize + len as usize;
        lengths[i] = len as usize;
    }
    Some((low, high))
}

/// Returns the slot of a value that is no text and no number beyond 64 bits.
#[inline(always)]
fn plain_slot(value: &Value<'_>) -> Option<Slot>
    ensures { IfSome result (IsPlain (value_view value.now)) }
{
    match value {
        Value::Null => Some(Slot::Null),
        Value::Int(number) => Some(Slot::Integer(i64::try_from(*number).ok()?)),
        Value::Decimal(millionths) => Some(Slot::Decimal(i64::try_from(*millionths).ok()?)),
        Value::Bool(truth) => Some(Slot::Boolean(*truth)),
        Value::Date(date) => Some(Slot::Date(*date)),
        Value::Text(_) => None,
    }
}

/// Returns the slot of a value that comes to `place`. A copy of it comes after the others if it is a text or a number beyond 64 bits.
#[inline(always)]
pub(crate) fn slot_of(
    others: &mut Vec<Other>,
    alloc: Global,
    place: usize,
    value: &Value<'_>,
) -> Result<Slot, AllocError>
    ensures grows { Grows others.old.items others.new.items }
    ensures slot { IfOk result (λ slot. (texts : List ℕ)
        → IsSlotOfValue texts others.new.items place (value_view value.now) slot) }
{
    if let Some(slot) = plain_slot(value) {
        return Ok(slot);
    }
    let other = others.len();
    others.push(Other {
        place,
        value: owned(alloc, value)?,
    })?;
    Ok(Slot::Other(other))
}

/// Returns the slot of a text, which comes after the others, or `None` if these would be too long.
#[inline(always)]
fn text_slot(texts: &mut String, text: &str) -> Result<Option<Slot>, AllocError>
    ensures grows { GrowsByText (string_bytes texts.old) (string_bytes texts.new) }
    ensures slot { IfOk result
        (λ slot. IfSome slot (IsTextSlot (string_bytes texts.new) text.now)) }
{
    let start = texts.len();
    if start > MOST_BYTES || text.len() > MOST_BYTES - start {
        return Ok(None);
    }
    texts.push_str(text)?;
    Ok(Some(Slot::Text(start as u32, text.len() as u32)))
}

/// Returns the slot of a value that comes to `place`. A copy of a text comes after the others, in one text with them.
#[inline(always)]
pub(crate) fn packed_slot(
    texts: &mut String,
    others: &mut Vec<Other>,
    alloc: Global,
    place: usize,
    value: &Value<'_>,
) -> Result<Slot, AllocError>
    ensures grow { Grow (string_bytes texts.old) others.old.items
        (string_bytes texts.new) others.new.items }
    ensures slot { IfOk result
        (IsSlotOfValue (string_bytes texts.new) others.new.items place (value_view value.now)) }
{
    let Value::Text(text) = value else {
        return slot_of(others, alloc, place, value);
    };
    match text_slot(texts, text.as_str())? {
        Some(slot) => Ok(slot),
        None => slot_of(others, alloc, place, value),
    }
}
