//! The texts of numbers, dates and booleans, which JSON and CSV write alike, written into room that is there.
ghost use Rattle.std.specs.Prelude.{◌≡◌, ◌+◌, ◌++◌, ◌<◌, ◌≤◌, length, take};
ghost use Rattle.std.specs.Fmt.{decimal, signed_decimal};
ghost use Rattle.jiff_fmt.specs.Text.{date_text};
ghost use Rattle.cell_types.specs.Decimal.{decimal_text, fraction_text, millionths_text};
ghost use Rattle.reply_values.specs.Printed.{printed_date};
ghost use Rattle.reply_values.specs.Value.{bool_text};
ghost use Rattle.reply_values.specs.Size.{IsWrittenAt};

use crate::decimal::{ONE, four_digits, six_digits, two_digits, without_last_zeros};
use crate::room::{put_block, put_byte, put_piece};
use itoa::Buffer;
use jiff_core::civil::Date;

/// Writes a number below 10,000 in decimal digits.
#[inline(always)]
#[tactic(auto, using(crate::proofs::DigitLemmas::digits_one, crate::proofs::DigitLemmas::digits_two, crate::proofs::DigitLemmas::digits_three, crate::proofs::DigitLemmas::digits_four))]
fn put_short(out: &mut [u8], at: usize, number: u64) -> usize
    requires few { number < 10_000 }
    requires room { at + length (decimal number) ≤ length out.old }
    ensures { IsWrittenAt out.old out.new at result (decimal number) }
{
    let [a, b, c, d] = four_digits(number);
    if number < 10 {
        put_block::<1>(out, at, &[d])
    } else if number < 100 {
        put_block::<2>(out, at, &[c, d])
    } else if number < 1_000 {
        put_block::<3>(out, at, &[b, c, d])
    } else {
        put_block::<4>(out, at, &[a, b, c, d])
    }
}

/// Writes a number in decimal digits, four at a time.
pub fn put_number(out: &mut [u8], at: usize, number: u64) -> usize
    requires { at + length (decimal number) ≤ length out.old }
    ensures { IsWrittenAt out.old out.new at result (decimal number) }
{
    if number < 10_000 {
        return put_short(out, at, number);
    }
    let end = put_number(out, at, number / 10_000);
    put_block::<4>(out, end, &four_digits(number % 10_000))
}

/// Writes a whole number in decimal digits, with a `-` if it is negative.
#[inline(always)]
pub fn put_integer(out: &mut [u8], at: usize, number: i128) -> usize
    requires { at + length (signed_decimal number) ≤ length out.old }
    ensures { IsWrittenAt out.old out.new at result (signed_decimal number) }
{
    match i64::try_from(number) {
        Ok(short) if short >= 0 => put_number(out, at, short.unsigned_abs()),
        Ok(short) => {
            let end = put_byte(out, at, b'-');
            put_number(out, end, short.unsigned_abs())
        }
        Err(_) => put_piece(out, at, Buffer::new().format(number).as_bytes()),
    }
}

/// Writes a point and decimal places, or nothing if each is 0.
#[inline(always)]
fn put_fraction(out: &mut [u8], at: usize, number: u32) -> usize
    requires few { number < 1_000_000 }
    requires room { at + length (fraction_text number) ≤ length out.old }
    ensures { IsWrittenAt out.old out.new at result (fraction_text number) }
{
    if number == 0 {
        return at;
    }
    let end = put_byte(out, at, b'.');
    put_piece(out, end, without_last_zeros(&six_digits(number)))
}

/// Writes a number of millionths, whose divisions are quick if it has 64 bits.
#[inline(always)]
fn put_millionths(out: &mut [u8], at: usize, number: u128) -> usize
    requires { at + length (millionths_text number) ≤ length out.old }
    ensures { IsWrittenAt out.old out.new at result (millionths_text number) }
{
    match u64::try_from(number) {
        Ok(short) => {
            let end = put_number(out, at, short / ONE);
            put_fraction(out, end, (short % ONE) as u32)
        }
        Err(_) => {
            let one = u128::from(ONE);
            let end = put_piece(out, at, Buffer::new().format(number / one).as_bytes());
            put_fraction(out, end, (number % one) as u32)
        }
    }
}

/// Writes a decimal of that many millionths: a `-` if it is negative, the whole part, and the decimal places as far as the last that is not 0.
#[inline(always)]
pub fn put_decimal(out: &mut [u8], at: usize, millionths: i128) -> usize
    requires { at + length (decimal_text millionths) ≤ length out.old }
    ensures { IsWrittenAt out.old out.new at result (decimal_text millionths) }
{
    if millionths >= 0 {
        return put_millionths(out, at, millionths.unsigned_abs());
    }
    let end = put_byte(out, at, b'-');
    put_millionths(out, end, millionths.unsigned_abs())
}

/// Writes a boolean's word.
#[inline(always)]
pub fn put_bool(out: &mut [u8], at: usize, truth: bool) -> usize
    requires { at + length (bool_text truth) ≤ length out.old }
    ensures { IsWrittenAt out.old out.new at result (bool_text truth) }
{
    if truth {
        put_block::<4>(out, at, b"true")
    } else {
        put_block::<5>(out, at, b"false")
    }
}

/// Writes a date as `yyyy-MM-dd`, or with a `-` and six digits of the year if that is negative.
#[inline(always)]
fn put_day(out: &mut [u8], at: usize, date: Date) -> usize
    requires { at + length (date_text date) ≤ length out.old }
    ensures { IsWrittenAt out.old out.new at result (date_text date) }
{
    let year = date.year.unsigned_abs();
    let [a, b] = two_digits((year / 100) as u8);
    let [c, d] = two_digits((year % 100) as u8);
    let [e, f] = two_digits(date.month);
    let [g, h] = two_digits(date.day);
    if date.year < 0 {
        put_block::<13>(
            out,
            at,
            &[b'-', b'0', b'0', a, b, c, d, b'-', e, f, b'-', g, h],
        )
    } else {
        put_block::<10>(out, at, &[a, b, c, d, b'-', e, f, b'-', g, h])
    }
}

/// Writes a date, in JSON in double quotes.
#[inline(always)]
pub fn put_date<const JSON: bool>(out: &mut [u8], at: usize, date: Date) -> usize
    requires { at + length (printed_date JSON (date_text date)) ≤ length out.old }
    ensures { IsWrittenAt out.old out.new at result (printed_date JSON (date_text date)) }
{
    if !JSON {
        return put_day(out, at, date);
    }
    let start = put_byte(out, at, b'"');
    let end = put_day(out, start, date);
    put_byte(out, end, b'"')
}
