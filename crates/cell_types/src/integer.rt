//! Integers (Metadata Vocabulary for Tabular Data, section 5.11.2): an optional sign and one or more digits, in 64 signed bits. One of at most
//! eighteen digits is read in one pass, in which no sum can leave 64 bits.
ghost use Rattle.std.specs.Prelude.{◌≡◌, ◌^◌, ◌<◌, ◌≤◌, length, SomeIff};
ghost use Rattle.std.specs.Char.{is_ascii_digit};
ghost use Rattle.std.specs.List.{list_all};
ghost use Rattle.std.specs.Str.Parse.{IsNumeral, digits_value, signed_digits_value, starts_with_minus, without_leading_sign};
ghost use Rattle.cell_types.specs.Cell.{reading_view};
ghost use Rattle.cell_types.specs.Decimal.{signed};
ghost use Rattle.cell_types.specs.Integer.{integer_of, is_integer as is_integer_text, IsShortInteger};

use crate::fault::CellFault;
use crate::value::Value;

/// A number of at most this many digits fits 64 signed bits.
const SHORT: usize = 18;

/// Returns a text without its sign.
#[inline(always)]
pub fn without_sign(text: &[u8]) -> &[u8]
    ensures { result.now ≡ without_leading_sign text.now }
{
    match text {
        [b'+' | b'-', digits @ ..] => digits,
        _ => text,
    }
}

/// Returns true if a text begins with a minus.
#[inline(always)]
pub fn is_negative(text: &[u8]) -> bool
    ensures { result ≡ starts_with_minus text.now }
{
    matches!(text, [b'-', ..])
}

/// Returns true if each byte is a digit.
pub fn are_digits(text: &[u8]) -> bool
    ensures { result ≡ list_all is_ascii_digit text.now }
{
    text.iter().all(|byte| byte.is_ascii_digit())
}

/// Returns true if a text is an optional sign and one or more digits.
fn is_integer(text: &str) -> bool
    ensures { result ≡ is_integer_text text.now }
{
    let digits = without_sign(text.as_bytes());
    !digits.is_empty() && are_digits(digits)
}

/// Returns the number that a few digits write.
#[inline(always)]
pub fn short_value(digits: &[u8]) -> Option<u64>
    requires { length digits.now ≤ SHORT }
    ensures { SomeIff result (IsNumeral 10 digits.now) (digits_value 10 digits.now) }
{
    if digits.is_empty() {
        return None;
    }
    let mut value = 0u64;
    for byte in digits {
        let digit = byte.wrapping_sub(b'0');
        if digit > 9 {
            return None;
        }
        value = value * 10 + u64::from(digit);
    }
    Some(value)
}

/// Returns a number of at most 63 bits, or the negative one.
#[inline(always)]
pub fn with_sign(is_negative: bool, number: u64) -> i64
    requires { number < 2 ^ 63 }
    ensures { result ≡ signed is_negative number }
{
    let number = number as i64;
    if is_negative { -number } else { number }
}

/// Returns the number that a sign and a few digits write; none of another text.
#[inline(always)]
pub fn short_integer(text: &str) -> Option<i64>
    ensures { SomeIff result (IsShortInteger text.now) (signed_digits_value 10 text.now) }
{
    let bytes = text.as_bytes();
    let digits = without_sign(bytes);
    if digits.len() > SHORT {
        return None;
    }
    let value = short_value(digits)?;
    Some(with_sign(is_negative(bytes), value))
}

/// Returns the number that a text writes.
pub fn read_integer<'a>(text: &str) -> Result<Value<'a>, CellFault>
    ensures { reading_view result ≡ integer_of text.now }
{
    if !is_integer(text) {
        return Err(CellFault::NotInteger);
    }
    match text.parse::<i64>() {
        Ok(number) => Ok(Value::Int(i128::from(number))),
        Err(_) => Err(CellFault::OutOfRange),
    }
}
