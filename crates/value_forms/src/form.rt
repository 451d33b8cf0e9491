//! The form of a column's cells, and the values of cells in it.
ghost use Rattle.std.specs.Prelude.{◌≡◌, IfOk, None, option_map};
ghost use Rattle.value_forms.specs.Forms.{IsMadeBy, IsNumberMade, IsRounded, alone_made, bare_number, cell_made, form_number, number_at_scale, timed_day};
ghost use Rattle.value_forms.specs.Rounding.{is_finer};

use crate::date::{DayForm, day_text};
use crate::number::{Marks, number_text};
use crate::rounding::rounded_text;
use crate::scale::{exponent_text, percent_text};
use crate::time::{is_midnight, split_time};
use crate::truth::{TruthWords, truth_text};
use crate::unit::{Unit, without_unit};
use std::alloc::{AllocError, Global};

/// What is done with a number once its marks are read.
#[derive(Clone, Copy, PartialEq, Eq)]
pub enum Scale {
    /// Nothing.
    Plain,
    /// The number before a percent sign is divided by a hundred.
    Percent,
    /// A number with an exponent of ten is written out; one without is as it is.
    Exponent,
}

/// How the numbers of a column are written.
#[derive(Clone, Copy)]
pub struct NumberForm<'a> {
    pub marks: Marks,
    pub scale: Scale,
    pub unit: Option<Unit<'a>>,
    /// Numbers are rounded to six decimal places.
    pub rounds: bool,
}

/// How the cells of a column are written.
#[derive(Clone, Copy)]
pub enum Form<'a> {
    /// As they are.
    Same,
    /// As numbers.
    Number(NumberForm<'a>),
    /// As numbers that are read as they are, and are rounded to six decimal places.
    Round,
    /// As days.
    Day(DayForm),
    /// As days with a time of day, which gets a column of its own.
    DayAndTime(DayForm),
    /// As days with a time of day that is midnight.
    Midnight(DayForm),
    /// As words of true and false.
    Truth(TruthWords<'a>),
}

/// The text of a cell's value.
#[derive(Drop)]
pub struct Made {
    pub text: Vec<u8>,
    /// The time of day, if it is written into a column of its own.
    pub time: Option<Vec<u8>>,
    /// How many billionths of a millionth the value is from that of the cell.
    pub difference: u64,
}

/// Returns a value without a time of day.
fn plain(text: Option<Vec<u8>>) -> Option<Made>
    ensures { option_map cell_made result ≡ option_map (λ text. alone_made text.items) text }
{
    match text {
        Some(text) => Some(Made {
            text,
            time: None,
            difference: 0,
        }),
        None => None,
    }
}

/// Returns the number of a text without its currency.
fn scaled_text(
    alloc: Global,
    form: NumberForm<'_>,
    text: &[u8],
) -> Result<Option<Vec<u8>>, AllocError>
    ensures { IfOk result (λ made. option_map (λ made. made.items) made
        ≡ number_at_scale form.entry.scale form.entry.marks text.now) }
{
    match form.scale {
        Scale::Plain => number_text(alloc, form.marks, text),
        Scale::Percent => percent_text(alloc, form.marks, text),
        Scale::Exponent => match exponent_text(alloc, form.marks, text)? {
            Some(number) => Ok(Some(number)),
            None => number_text(alloc, form.marks, text),
        },
    }
}

/// Returns a text without the currency of its form; `None` if it has another one.
pub(crate) fn bare_text<'a>(unit: Option<Unit<'_>>, text: &'a [u8]) -> Option<&'a [u8]>
    ensures { option_map (λ bare. bare.now) result ≡ bare_number unit.entry text.now }
{
    match unit {
        Some(unit) => without_unit(unit, text),
        None => Some(text),
    }
}

/// Returns the number that a text is in a form.
fn form_number(
    alloc: Global,
    form: NumberForm<'_>,
    text: &[u8],
) -> Result<Option<Vec<u8>>, AllocError>
    ensures { IfOk result (λ made. option_map (λ made. made.items) made
        ≡ form_number form.entry text.now) }
{
    match bare_text(form.unit, text) {
        Some(bare) => scaled_text(alloc, form, bare),
        None => Ok(None),
    }
}

/// Returns a number in six decimal places if it has more, and else `kept`.
fn round_made(alloc: Global, number: &[u8], kept: Option<Made>) -> Result<Option<Made>, AllocError>
    ensures { IfOk result (λ made. IsRounded (is_finer number.now) number.now
        (option_map cell_made kept) (option_map cell_made made)) }
{
    match rounded_text(alloc, number)? {
        Some(rounded) => Ok(Some(Made {
            text: rounded.text,
            time: None,
            difference: rounded.difference,
        })),
        None => Ok(kept),
    }
}

/// Returns the number of a text, rounded if the form asks for that.
fn number_made(alloc: Global, form: NumberForm<'_>, text: &[u8]) -> Result<Option<Made>, AllocError>
    ensures { IfOk result (λ made. IsNumberMade form.entry.rounds (form_number form.entry text.now)
        (option_map cell_made made)) }
{
    let Some(number) = form_number(alloc, form, text)? else {
        return Ok(None);
    };
    if !form.rounds {
        return Ok(plain(Some(number)));
    }
    let kept = Vec::from_slice(alloc, number.as_slice())?;
    round_made(alloc, number.as_slice(), plain(Some(kept)))
}

/// Returns the day of a text, and its time of day, if `keeps` says so.
#[tactic(auto, unfolding(crate::specs::Forms::timed_day))]
fn day_made(
    alloc: Global,
    form: DayForm,
    text: &[u8],
    keeps: bool,
) -> Result<Option<Made>, AllocError>
    ensures { IfOk result (λ made. option_map cell_made made ≡ timed_day keeps form text.now) }
{
    let Some((day, time)) = split_time(text) else {
        return Ok(None);
    };
    if !keeps && !is_midnight(time) {
        return Ok(None);
    }
    let Some(text) = day_text(alloc, form, day)? else {
        return Ok(None);
    };
    let time = if keeps {
        Some(Vec::from_slice(alloc, time)?)
    } else {
        None
    };
    Ok(Some(Made {
        text,
        time,
        difference: 0,
    }))
}

/// Returns the word of a boolean.
fn truth_made(alloc: Global, words: TruthWords<'_>, text: &[u8]) -> Result<Option<Made>, AllocError>
    ensures { IfOk result (λ made. IsMadeBy (Form.Truth words.entry) text.now
        (option_map cell_made made)) }
{
    match truth_text(words, text) {
        Some(true) => Ok(plain(Some(Vec::from_slice(alloc, b"true")?))),
        Some(false) => Ok(plain(Some(Vec::from_slice(alloc, b"false")?))),
        None => Ok(None),
    }
}

/// Returns the value of a text in a form; `None` if it is not of the form, or is left as it is.
pub fn made_by(alloc: Global, form: Form<'_>, text: &[u8]) -> Result<Option<Made>, AllocError>
    ensures { IfOk result (λ made. IsMadeBy form.entry text.now (option_map cell_made made)) }
{
    match form {
        Form::Same => Ok(None),
        Form::Number(form) => number_made(alloc, form, text),
        Form::Round => round_made(alloc, text, None),
        Form::Day(form) => Ok(plain(day_text(alloc, form, text)?)),
        Form::DayAndTime(form) => day_made(alloc, form, text, true),
        Form::Midnight(form) => day_made(alloc, form, text, false),
        Form::Truth(words) => truth_made(alloc, words, text),
    }
}
