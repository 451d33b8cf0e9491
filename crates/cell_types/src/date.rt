//! Dates (Model for Tabular Data and Metadata on the Web, section 6.4.4): just the digits of each part, and a day of the calendar in the
//! years 1 to 9999.
ghost use Rattle.std.specs.Prelude.{◌≡◌, ◌≢◌, ◌<◌, ℕ, MatchOption};
ghost use Rattle.cell_types.specs.Cell.{reading_view};
ghost use Rattle.cell_types.specs.Date.{HasDate, HasNoDate, HasNoNumbers, HasNoParts, HasDateNumbers, HasParts, date_of, four_digits, two_digits};

use crate::datatype::DateForm;
use crate::fault::CellFault;
use crate::value::Value;
use jiff_core::civil::Date;

/// Returns the digits of the year, the month and the day in a text of a form.
#[inline(always)]
fn parts(form: DateForm, text: &[u8]) -> Option<([u8; 4], [u8; 2], [u8; 2])>
    ensures { MatchOption result (HasNoParts form text.now)
        (λ p. HasParts form text.now p.0 p.1 p.2) }
{
    match (form, text) {
        (DateForm::YearMonthDay, &[a, b, c, d, b'-', m, n, b'-', x, y])
        | (DateForm::Compact, &[a, b, c, d, m, n, x, y])
        | (DateForm::DayMonthYear, &[x, y, b'/', m, n, b'/', a, b, c, d])
        | (DateForm::MonthDayYear, &[m, n, b'/', x, y, b'/', a, b, c, d])
        | (DateForm::Dotted, &[x, y, b'.', m, n, b'.', a, b, c, d]) => Some((
            [a, b, c, d],
            [m, n],
            [x, y],
        )),
        _ => None,
    }
}

/// Returns the number that two digits write.
#[inline(always)]
fn two_digit_number(digits: [u8; 2]) -> Option<u8>
    ensures { MatchOption result ((n : ℕ) → n < 100 → digits ≢ two_digits n) (λ n. (n < 100)
        × (digits ≡ two_digits n)) }
{
    let [tens, ones] = digits;
    if tens.is_ascii_digit() && ones.is_ascii_digit() {
        Some((tens - b'0') * 10 + (ones - b'0'))
    } else {
        None
    }
}

/// Returns the number that four digits write.
#[inline(always)]
fn four_digit_number(digits: [u8; 4]) -> Option<u16>
    ensures { MatchOption result ((n : ℕ) → n < 10_000 → digits ≢ four_digits n) (λ n. (n < 10_000)
        × (digits ≡ four_digits n)) }
{
    let [a, b, c, d] = digits;
    let hundreds = two_digit_number([a, b])?;
    let ones = two_digit_number([c, d])?;
    Some(u16::from(hundreds) * 100 + u16::from(ones))
}

/// Returns the year, the month and the day that a text writes in a form, whether the calendar has them or not.
#[inline(always)]
fn numbers(form: DateForm, text: &[u8]) -> Option<(u16, u8, u8)>
    ensures { MatchOption result (HasNoNumbers form text.now)
        (λ p. HasDateNumbers form text.now p.0 p.1 p.2) }
{
    let (year, month, day) = parts(form, text)?;
    let year = four_digit_number(year)?;
    let month = two_digit_number(month)?;
    let day = two_digit_number(day)?;
    Some((year, month, day))
}

/// Returns the day that a text writes in a form.
#[inline(always)]
pub fn date_in(form: DateForm, text: &str) -> Option<Date>
    ensures { MatchOption result (HasNoDate form text.now)
        (λ date. HasDate form text.now date.year date.month date.day) }
{
    let (year, month, day) = numbers(form, text.as_bytes())?;
    if year == 0 {
        return None;
    }
    Date::new(year as i16, month as i8, day as i8).ok()
}

/// Returns the value of a text in a form.
pub fn read_date<'a>(form: DateForm, text: &str) -> Result<Value<'a>, CellFault>
    ensures { reading_view result ≡ date_of form text.now }
{
    match date_in(form, text) {
        Some(date) => Ok(Value::Date(date)),
        None => Err(CellFault::NotDate),
    }
}
