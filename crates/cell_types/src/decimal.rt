//! Decimals (Metadata Vocabulary for Tabular Data, section 5.11.2): an optional sign and one or more digits with at most one point, in
//! whole millionths of 64 signed bits.
ghost use Rattle.std.specs.Prelude.{◌≡◌, ◌++◌, ◌-◌, ◌^◌, ◌<◌, ◌≤◌, ◌*◌, true, Ok, IfSome, SomeIff, length};
ghost use Rattle.std.specs.List.{after_first, before_first, list_all, position_or_len};
ghost use Rattle.std.specs.Str.Parse.{AllDigits, digits_value, digits_value_after};
ghost use Rattle.cell_types.specs.Cell.{reading_view};
ghost use Rattle.cell_types.specs.Decimal.{are_digits as are_parts_of_decimal, decimal_of, decimal_reading, is_point, is_zero, signed, six_places, value_of_millionths};

use crate::fault::CellFault;
use crate::integer::{are_digits, is_negative, short_value, with_sign, without_sign};
use crate::value::Value;

/// Returns how many bytes stand before the first point.
#[inline(always)]
fn whole_len(text: &[u8]) -> usize
    ensures within { result ≤ length text.now }
    ensures place { result ≡ position_or_len is_point text.now }
{
    text.iter().take_while(|byte| **byte != b'.').count()
}

/// Splits a text at its first point: what is before it, and what is after it.
#[inline(always)]
fn parts(text: &[u8]) -> (&[u8], &[u8])
    ensures whole { result.0.now ≡ before_first is_point text.now }
    ensures fraction { result.1.now ≡ after_first is_point text.now }
{
    let (whole, rest) = text.split_at(whole_len(text));
    match rest {
        [_, fraction @ ..] => (whole, fraction),
        [] => (whole, rest),
    }
}

/// Appends digits to those of a number, or returns `None` if the result exceeds 64 bits.
fn number_after(start: u64, digits: &[u8]) -> Option<u64>
    requires { AllDigits 10 digits.now }
    ensures { let after = digits_value_after 10 start digits.now in SomeIff result
        (after < 2 ^ 64) after }
{
    let mut number = start;
    for byte in digits {
        number = number
            .checked_mul(10)?
            .checked_add(u64::from(*byte - b'0'))?;
    }
    Some(number)
}

/// Returns the millionths that digits before the point and at most six after it write, or `None` if they exceed 64 bits.
fn number_of_millionths(whole: &[u8], places: &[u8]) -> Option<u64>
    requires short { length places.now ≤ 6 }
    requires whole_digits { AllDigits 10 whole.now }
    requires place_digits { AllDigits 10 places.now }
    ensures { let number = digits_value 10 (whole.now ++ six_places places.now) in SomeIff result
        (number < 2 ^ 64) number }
{
    let zeros: &[u8] = b"000000";
    let number = number_after(0, whole)?;
    let number = number_after(number, places)?;
    number_after(number, &zeros[..6 - places.len()])
}

/// Returns true if the texts before and after a point are digits, and at least one digit.
fn are_parts(whole: &[u8], fraction: &[u8]) -> bool
    ensures { result ≡ are_parts_of_decimal (whole.now ++ fraction.now) }
{
    if whole.is_empty() {
        return !fraction.is_empty() && are_digits(fraction);
    }
    are_digits(whole) && are_digits(fraction)
}

/// Returns true if each digit is 0.
fn are_zeros(digits: &[u8]) -> bool
    ensures { result ≡ list_all is_zero digits.now }
{
    digits.iter().all(|digit| *digit == b'0')
}

/// Returns a number of millionths, if it is one of 64 signed bits.
fn number_in_range(is_negative: bool, number: u64) -> Result<i64, CellFault>
    ensures { decimal_reading result ≡ value_of_millionths (signed is_negative number) }
{
    let number = i128::from(number);
    let millionths = if is_negative { -number } else { number };
    match i64::try_from(millionths) {
        Ok(millionths) => Ok(millionths),
        Err(_) => Err(CellFault::OutOfRange),
    }
}

/// Returns what one to six decimal places, whose number is `value`, write in six.
#[inline(always)]
fn filled(value: u64, places: usize) -> u64
    requires value { value < 1_000_000 }
    requires places { (0 < places) × (places ≤ 6) }
    ensures small { result < 10 ^ 11 }
    ensures value { result ≡ value * 10 ^ (6 - places) }
{
    match places {
        1 => value * 100_000,
        2 => value * 10_000,
        3 => value * 1_000,
        4 => value * 100,
        5 => value * 10,
        _ => value,
    }
}

/// Returns the millionths that a few digits and one to six decimal places write, or `None` if either part is empty or has another byte.
#[inline(always)]
fn short_number(whole: &[u8], fraction: &[u8]) -> Option<u64>
    requires whole { length whole.now ≤ 11 }
    requires fraction { length fraction.now ≤ 6 }
    ensures parts { IfSome result
        (λ _. are_parts_of_decimal (whole.now ++ fraction.now) ≡ true) }
    ensures small { IfSome result (λ number. number < 10 ^ 18) }
    ensures value { IfSome result
        (λ number. number ≡ digits_value 10 (whole.now ++ six_places fraction.now)) }
{
    let ones = short_value(whole)?;
    let value = short_value(fraction)?;
    Some(ones * 1_000_000 + filled(value, fraction.len()))
}

/// Returns the number of the millionths of a text, if few digits are on both sides of its point. Of another text it returns `None`.
#[inline(always)]
fn short_millionths(text: &str) -> Option<i64>
    ensures { IfSome result (λ number. decimal_reading (Ok number) ≡ decimal_of text.now) }
{
    let bytes = text.as_bytes();
    let (whole, fraction) = parts(without_sign(bytes));
    if whole.len() > 11 || fraction.len() > 6 {
        return None;
    }
    let number = short_number(whole, fraction)?;
    Some(with_sign(is_negative(bytes), number))
}

/// Returns the number of a text's millionths.
#[inline(always)]
pub fn millionths_of(text: &str) -> Result<i64, CellFault>
    ensures { decimal_reading result ≡ decimal_of text.now }
{
    match short_millionths(text) {
        Some(number) => Ok(number),
        None => any_millionths(text),
    }
}

/// Does what [`millionths_of`] does, for a text of any form.
#[inline(never)]
fn any_millionths(text: &str) -> Result<i64, CellFault>
    ensures { decimal_reading result ≡ decimal_of text.now }
{
    let bytes = text.as_bytes();
    let (whole, fraction) = parts(without_sign(bytes));
    if !are_parts(whole, fraction) {
        return Err(CellFault::NotDecimal);
    }
    let (places, finer) = fraction.split_at(fraction.len().min(6));
    if !are_zeros(finer) {
        return Err(CellFault::TooFine);
    }
    match number_of_millionths(whole, places) {
        Some(number) => number_in_range(is_negative(bytes), number),
        None => Err(CellFault::OutOfRange),
    }
}

/// Returns the value of a text.
pub fn read_decimal<'a>(text: &str) -> Result<Value<'a>, CellFault>
    ensures { reading_view result ≡ decimal_of text.now }
{
    match millionths_of(text) {
        Ok(number) => Ok(Value::Decimal(i128::from(number))),
        Err(fault) => Err(fault),
    }
}
