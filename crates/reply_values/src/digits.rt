//! How many bytes the texts of values take that JSON and CSV write alike. None is written.
ghost use Rattle.std.specs.Prelude.{◌≡◌, ◌<◌, ◌≤◌, length};
ghost use Rattle.std.specs.Fmt.{decimal, signed_decimal};
ghost use Rattle.jiff_fmt.specs.Text.{date_text};
ghost use Rattle.cell_types.specs.Decimal.{decimal_text, fraction_text, millionths_text};
ghost use Rattle.cell_types.specs.Kind.{typed_cell};
ghost use Rattle.reply_values.specs.Printed.{printed_date, printed_value};
ghost use Rattle.reply_values.specs.Value.{bool_text};

use crate::decimal::{ONE, six_digits, without_last_zeros};
use cell_types::NumberKind;
use itoa::Buffer;
use jiff_core::civil::Date;

/// Returns how many decimal digits a number below 10,000 has.
fn short_size(number: u64) -> usize
    requires { number < 10_000 }
    ensures { result ≡ length (decimal number) }
{
    if number < 10 {
        1
    } else if number < 100 {
        2
    } else if number < 1_000 {
        3
    } else {
        4
    }
}

/// Returns how many decimal digits a number has.
pub fn number_size(number: u64) -> usize
    ensures { result ≡ length (decimal number) }
{
    if number < 10_000 {
        short_size(number)
    } else if number < 100_000_000 {
        4 + short_size(number / 10_000)
    } else if number < 1_000_000_000_000 {
        8 + short_size(number / 100_000_000)
    } else if number < 10_000_000_000_000_000 {
        12 + short_size(number / 1_000_000_000_000)
    } else {
        16 + short_size(number / 10_000_000_000_000_000)
    }
}

/// Returns how many bytes a whole number takes, with its `-` if it is negative.
pub fn integer_size(number: i128) -> usize
    ensures { result ≡ length (signed_decimal number) }
{
    match i64::try_from(number) {
        Ok(short) => usize::from(short < 0) + number_size(short.unsigned_abs()),
        Err(_) => Buffer::new().format(number).len(),
    }
}

/// Returns how many bytes a point and decimal places take.
fn fraction_size(number: u32) -> usize
    requires { number < 1_000_000 }
    ensures { result ≡ length (fraction_text number) }
{
    if number == 0 {
        0
    } else {
        1 + without_last_zeros(&six_digits(number)).len()
    }
}

/// Returns how many bytes a number of millionths takes, whose divisions are quick if it has 64 bits.
fn millionths_size(number: u128) -> usize
    ensures { result ≡ length (millionths_text number) }
{
    match u64::try_from(number) {
        Ok(short) => number_size(short / ONE) + fraction_size((short % ONE) as u32),
        Err(_) => {
            let one = u128::from(ONE);
            Buffer::new().format(number / one).len() + fraction_size((number % one) as u32)
        }
    }
}

/// Returns how many bytes a decimal of that many millionths takes.
pub fn decimal_size(millionths: i128) -> usize
    ensures { result ≡ length (decimal_text millionths) }
{
    if millionths >= 0 {
        return millionths_size(millionths.unsigned_abs());
    }
    1 + millionths_size(millionths.unsigned_abs())
}

/// Returns how many bytes a boolean's word takes.
pub fn bool_size(truth: bool) -> usize
    ensures { result ≡ length (bool_text truth) }
{
    if truth { 4 } else { 5 }
}

/// Returns how many bytes a date takes: `yyyy-MM-dd`, three more for a negative year, and in JSON two for its double quotes.
pub fn date_size<const JSON: bool>(date: Date) -> usize
    ensures { result ≡ length (printed_date JSON (date_text date)) }
{
    let day = if date.year < 0 { 13 } else { 10 };
    if JSON { day + 2 } else { day }
}

/// Returns a number of bytes that the text of no number of a kind passes, in JSON or in CSV.
#[inline(always)]
#[tactic(auto, using(crate::proofs::RoomLemmas::kind_few))]
pub fn number_room<const JSON: bool>(kind: NumberKind, number: i64) -> usize
    ensures { length (printed_value JSON (typed_cell kind number)) ≤ result }
{
    let _ = kind;
    let _ = number;
    22
}
