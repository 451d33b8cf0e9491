//! Numbers of the texts of a block: how many characters each has, and where parts begin in them (OData 4.01 URL Conventions, sections 5.1.1.5.4
//! and 5.1.1.5.6).

ghost use Rattle.std.specs.Prelude.{◌≡◌, ◌<◌, ℕ, IfOk, IsTrue, length};
ghost use Rattle.std.specs.Str.{chars};
ghost use Rattle.number_kernels.specs.Lanes.{number_at, unless_null, IsWanted};
ghost use Rattle.text_kernels.specs.Texts.{measured, text_lane, AreMeasured, AreMeasuresLong, AreTextsLong};

use crate::texts::Texts;
use number_kernels::{Fallback, Numbers};
use row_eval::index_in;
use std::alloc::Global;

/// What number of a text is asked for.
#[derive(Clone, Copy)]
pub enum TextMeasure<'a> {
    /// How many characters it has.
    Length,
    /// Where the part of the same row begins in it, in characters from 0; -1 if it is no part.
    IndexOf(Texts<'a>),
}

/// Returns how many characters a text has.
#[inline(always)]
fn char_count(text: &str) -> usize
    ensures { result ≡ length (chars text.now) }
{
    text.chars().count()
}

/// Returns the number of the text of a row; `None` beside a null.
#[inline(always)]
fn number_of(measure: TextMeasure<'_>, texts: Texts<'_>, row: usize) -> Option<i128>
    requires texts { (rows : ℕ) × (row < rows) × AreTextsLong rows texts }
    requires measure { (rows : ℕ) × (row < rows) × AreMeasuresLong rows measure }
    ensures { result ≡ measured measure.entry (text_lane texts.entry row) row }
{
    let text = texts.at(row)?;
    match measure {
        TextMeasure::Length => Some(char_count(text) as i128),
        TextMeasure::IndexOf(parts) => Some(index_in(text, parts.at(row)?)),
    }
}

/// Returns the number of the text of a row, if it is wanted. A number beyond 64 bits falls back.
#[inline(always)]
fn number_at_row(
    is_wanted: bool,
    measure: TextMeasure<'_>,
    texts: Texts<'_>,
    row: usize,
) -> Result<Option<i64>, Fallback>
    requires texts { (rows : ℕ) × (row < rows) × AreTextsLong rows texts }
    requires measure { (rows : ℕ) × (row < rows) × AreMeasuresLong rows measure }
    ensures { IfOk result (λ number. IsTrue is_wanted
        → number ≡ measured measure.entry (text_lane texts.entry row) row) }
{
    if !is_wanted {
        return Ok(None);
    }
    match number_of(measure, texts, row) {
        Some(number) => match i64::try_from(number) {
            Ok(number) => Ok(Some(number)),
            Err(_) => Err(Fallback::Rows),
        },
        None => Ok(None),
    }
}

/// Returns a number, any for null, and whether it is null.
#[inline(always)]
fn split(number: Option<i64>) -> (i64, bool)
    ensures { unless_null result.1 result.0 ≡ number }
{
    match number {
        Some(number) => (number, false),
        None => (0, true),
    }
}

/// Writes the numbers of the texts of the wanted rows, and which of them are null.
fn measure_each(
    measure: TextMeasure<'_>,
    texts: Texts<'_>,
    wanted: &[bool],
    values: &mut [i64],
    nulls: &mut [bool],
) -> Result<(), Fallback>
    requires texts { AreTextsLong (length wanted.now) texts }
    requires measure { AreMeasuresLong (length wanted.now) measure }
    requires values { length values.old ≡ length wanted.now }
    requires nulls { length nulls.old ≡ length wanted.now }
    ensures { IfOk result (λ _. (i : ℕ) → i < length wanted.now → IsWanted wanted.now i
        → number_at values.new nulls.new i ≡ measured measure.entry (text_lane texts.entry i) i) }
{
    for i in 0..wanted.len() {
        let (number, is_null) = split(number_at_row(wanted[i], measure, texts, i)?);
        values[i] = number;
        nulls[i] = is_null;
    }
    Ok(())
}

/// Returns the numbers of the texts of the wanted rows.
pub fn measure<'a>(
    alloc: Global,
    measure: TextMeasure<'_>,
    texts: Texts<'_>,
    wanted: &[bool],
) -> Result<Numbers<'a>, Fallback>
    requires texts { AreTextsLong (length wanted.now) texts }
    requires measure { AreMeasuresLong (length wanted.now) measure }
    ensures { IfOk result (AreMeasured measure.entry texts.entry wanted.now) }
{
    let mut values = Vec::from_elem(alloc, 0i64, wanted.len())?;
    let mut nulls = Vec::from_elem(alloc, true, wanted.len())?;
    measure_each(
        measure,
        texts,
        wanted,
        values.as_mut_slice(),
        nulls.as_mut_slice(),
    )?;
    Ok(Numbers::Computed(values, nulls))
}
