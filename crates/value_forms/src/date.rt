//! Dates whose parts are in another order, or whose month is an English name.
ghost use Rattle.std.specs.Prelude.{◌≡◌, ◌-◌, ◌<◌, true, IfOk, option_map};
ghost use Rattle.std.specs.Char.{is_ascii_digit};
ghost use Rattle.cell_types.specs.Date.{date_text, is_date};
ghost use Rattle.cell_types.specs.declared.datatype.DateForm.TheVariants.{YearMonthDay};
ghost use Rattle.value_forms.specs.Dates.{day_among, digits_of_day, form_day, short_number, day_of_parts, is_month, month_among, month_name, month_number, named_month, text_of_day, year_among, year_number};

use crate::decimal::{are_digits, before_end, parts};
use jiff_core::civil::days_in_month;
use std::alloc::{AllocError, Global};

/// Which part of a date comes first.
#[derive(Clone, Copy, PartialEq, Eq)]
pub enum DateOrder {
    /// The year, the month, the day.
    YearFirst,
    /// The day, the month, the year.
    DayFirst,
    /// The month, the day, the year.
    MonthFirst,
}

/// How days are written: the order of the parts, the byte between them, and whether the month is a name.
#[derive(Clone, Copy, PartialEq, Eq)]
pub struct DayForm {
    pub order: DateOrder,
    pub separator: u8,
    pub is_named: bool,
}

/// Returns the number of a day or a month: one digit or two.
pub(crate) fn short_number(text: &[u8]) -> Option<u8>
    ensures { result ≡ short_number text.now }
{
    match text {
        [ones] if ones.is_ascii_digit() => Some(*ones - b'0'),
        [tens, ones] if tens.is_ascii_digit() && ones.is_ascii_digit() => {
            Some((*tens - b'0') * 10 + (*ones - b'0'))
        }
        _ => None,
    }
}

/// Returns the number of one digit.
fn digit(byte: u8) -> u16
    requires { is_ascii_digit byte ≡ true }
    ensures number { result ≡ byte - 48 }
    ensures below { result < 10 }
{
    u16::from(byte - b'0')
}

/// Returns the number of a year: four digits.
fn year_number(text: &[u8]) -> Option<u16>
    ensures { result ≡ year_number text.now }
{
    match text {
        [a, b, c, d] if are_digits(text) => {
            Some(digit(*a) * 1000 + digit(*b) * 100 + digit(*c) * 10 + digit(*d))
        }
        _ => None,
    }
}

/// Returns the English name of a month by its number.
fn month_name(number: u8) -> &'static [u8]
    ensures { result.now ≡ month_name number }
{
    match number {
        1 => b"january",
        2 => b"february",
        3 => b"march",
        4 => b"april",
        5 => b"may",
        6 => b"june",
        7 => b"july",
        8 => b"august",
        9 => b"september",
        10 => b"october",
        11 => b"november",
        _ => b"december",
    }
}

/// Returns true if a text is the English name of a month, or its first three letters.
fn is_month(number: u8, text: &[u8]) -> bool
    ensures { result ≡ is_month number text.now }
{
    let name = month_name(number);
    let front = &name[..name.len().min(3)];
    name.eq_ignore_ascii_case(text) || front.eq_ignore_ascii_case(text)
}

/// Returns the number of the month with an English name, or its first three letters.
#[tactic(auto, unfolding(crate::specs::Dates::named_month))]
fn named_month(text: &[u8]) -> Option<u8>
    ensures { result ≡ named_month text.now }
{
    for number in 1..13u8 {
        if is_month(number, text) {
            return Some(number);
        }
    }
    None
}

/// Returns the number of a month.
fn month_number(is_named: bool, text: &[u8]) -> Option<u8>
    ensures { result ≡ month_number is_named text.now }
{
    if is_named {
        named_month(text)
    } else {
        short_number(text)
    }
}

/// Returns the digits of a day, after which a comma may be if the month is a name.
fn digits_of_day(is_named: bool, text: &[u8]) -> &[u8]
    ensures { result.now ≡ digits_of_day is_named text.now }
{
    if is_named {
        before_end(b',', text).unwrap_or(text)
    } else {
        text
    }
}

/// Returns true if the calendar has a day.
fn is_date(year: u16, month: u8, day: u8) -> bool
    ensures { result ≡ is_date year month day }
{
    if year == 0 || year > 9999 || month == 0 || month > 12 {
        return false;
    }
    day > 0 && day <= days_in_month(year as i16, month)
}

/// Returns a day of the calendar as `yyyy-MM-dd`.
fn date_bytes(alloc: Global, year: u16, month: u8, day: u8) -> Result<Vec<u8>, AllocError>
    requires { is_date year month day ≡ true }
    ensures { IfOk result (λ made. made.items ≡ date_text YearMonthDay year month day) }
{
    let hundreds = (year / 100) as u8;
    let ones = (year % 100) as u8;
    let digits = [
        b'0' + hundreds / 10,
        b'0' + hundreds % 10,
        b'0' + ones / 10,
        b'0' + ones % 10,
        b'-',
        b'0' + month / 10,
        b'0' + month % 10,
        b'-',
        b'0' + day / 10,
        b'0' + day % 10,
    ];
    Vec::from_slice(alloc, &digits)
}

/// Returns a day as `yyyy-MM-dd`; `None` if it is none of the calendar.
fn day_of(
    alloc: Global,
    year: Option<u16>,
    month: Option<u8>,
    day: Option<u8>,
) -> Result<Option<Vec<u8>>, AllocError>
    ensures { IfOk result (λ made. option_map (λ made. made.items) made
        ≡ text_of_day year month day) }
{
    match (year, month, day) {
        (Some(year), Some(month), Some(day)) if is_date(year, month, day) => {
            Ok(Some(date_bytes(alloc, year, month, day)?))
        }
        _ => Ok(None),
    }
}

/// Returns the year, the month and the day among three parts of a date.
fn in_order<'a>(
    order: DateOrder,
    first: &'a [u8],
    second: &'a [u8],
    third: &'a [u8],
) -> (&'a [u8], &'a [u8], &'a [u8])
    ensures year { result.0.now ≡ year_among order first.now second.now third.now }
    ensures month { result.1.now ≡ month_among order first.now second.now third.now }
    ensures day { result.2.now ≡ day_among order first.now second.now third.now }
{
    match order {
        DateOrder::YearFirst => (first, second, third),
        DateOrder::DayFirst => (third, second, first),
        DateOrder::MonthFirst => (third, first, second),
    }
}

/// Returns the day of three parts as `yyyy-MM-dd`; `None` if it is none of the calendar.
fn day_of_parts(
    alloc: Global,
    form: DayForm,
    first: &[u8],
    second: &[u8],
    third: &[u8],
) -> Result<Option<Vec<u8>>, AllocError>
    ensures { IfOk result (λ made. option_map (λ made. made.items) made
        ≡ day_of_parts form first.now second.now third.now) }
{
    let (year, month, day) = in_order(form.order, first, second, third);
    let year = year_number(year);
    let month = month_number(form.is_named, month);
    let day = short_number(digits_of_day(form.is_named, day));
    day_of(alloc, year, month, day)
}

/// Returns true if a text is a day of the calendar in a form.
pub(crate) fn is_day(form: DayForm, text: &[u8]) -> bool {
    let (first, rest) = parts(form.separator, text);
    let (second, third) = parts(form.separator, rest);
    let (year, month, day) = in_order(form.order, first, second, third);
    let month = month_number(form.is_named, month);
    let day = short_number(digits_of_day(form.is_named, day));
    match (year_number(year), month, day) {
        (Some(year), Some(month), Some(day)) => {
            rest.contains(&form.separator) && is_date(year, month, day)
        }
        _ => false,
    }
}

/// Returns the day that a text is in a form, as `yyyy-MM-dd`; `None` if it is none of the calendar.
#[tactic(auto, unfolding(crate::specs::Dates::form_day))]
pub fn day_text(alloc: Global, form: DayForm, text: &[u8]) -> Result<Option<Vec<u8>>, AllocError>
    ensures { IfOk result (λ made. option_map (λ made. made.items) made ≡ form_day form text.now) }
{
    let (first, rest) = parts(form.separator, text);
    let (second, third) = parts(form.separator, rest);
    if text.contains(&form.separator) && rest.contains(&form.separator) {
        day_of_parts(alloc, form, first, second, third)
    } else {
        Ok(None)
    }
}
