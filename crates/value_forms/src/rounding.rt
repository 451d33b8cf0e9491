//! Decimals in six places, rounded half to even.
ghost use Rattle.std.specs.Prelude.{◌≡◌, ◌<◌, ◌+◌, ◌-◌, ◌*◌, ◌^◌, ◌++◌, if◌then◌else◌, true, length, IfOk, IfSome, is_some};
ghost use Rattle.std.specs.Str.Parse.{AllDigits, digits_value};
ghost use Rattle.cell_types.specs.Decimal.{signed};
ghost use Rattle.value_forms.specs.Rounding.{are_zeros, in_six_places, is_fine, is_finer, nearest_even};

use crate::decimal::{are_digits, is_negative, parts, without_sign};
use cell_types::Value;
use reply_values::push_value;
use std::alloc::{AllocError, Global};

/// The decimal places of a column of CSVW that is served.
const PLACES: usize = 6;

/// The most digits before the point of a number that is rounded.
const MOST_WHOLE: usize = 12;

/// A number in six decimal places.
#[derive(Drop)]
pub struct Rounded {
    pub text: Vec<u8>,
    /// How many billionths of a millionth it is from the number; a part of one counts as one.
    pub difference: u64,
}

/// Returns the number that digits write.
fn number_of(digits: &[u8]) -> u64
    requires digits { AllDigits 10 digits.now }
    requires fits { digits_value 10 digits.now < 2 ^ 64 }
    ensures { result ≡ digits_value 10 digits.now }
{
    let mut number = 0u64;
    for byte in digits {
        number = number * 10 + u64::from(*byte - b'0');
    }
    number
}

/// Returns true if each digit is 0.
fn are_zeros(digits: &[u8]) -> bool
    ensures { result ≡ are_zeros digits.now }
{
    digits.iter().all(|digit| *digit == b'0')
}

/// Returns true if the digits after the last place of a number are more than half of one, or half of an odd one.
fn goes_up(number: u64, tail: &[u8]) -> bool
    requires { AllDigits 10 tail.now }
    ensures { number + (if result then 1 else 0)
        ≡ nearest_even (number * 10 ^ length tail.now + digits_value 10 tail.now)
        (10 ^ length tail.now) }
{
    let Some((first, rest)) = tail.split_first() else {
        return false;
    };
    if *first == b'5' {
        !are_zeros(rest) || number % 2 == 1
    } else {
        *first > b'5'
    }
}

/// Returns how many billionths of one the digits after the last place are from the nearest number, which is above them if `up`. A part of a billionth counts as one.
fn billionths(tail: &[u8], up: bool) -> u64
    requires { AllDigits 10 tail.now }
{
    let (front, rest) = tail.split_at(tail.len().min(9));
    let missing = (9 - front.len()) as u32;
    let below = number_of(front).saturating_mul(10u64.saturating_pow(missing));
    if up {
        1_000_000_000u64.saturating_sub(below)
    } else {
        below.saturating_add(u64::from(!are_zeros(rest)))
    }
}

/// Returns true if there are more than six places that are not all zeros, and not too many digits before the point.
fn is_fine(whole: &[u8], places: &[u8]) -> bool
    ensures { result ≡ is_fine whole.now places.now }
{
    places.len() > PLACES
        && are_digits(places)
        && are_digits(whole)
        && whole.len() <= MOST_WHOLE
        && !are_zeros(&places[PLACES..])
}

/// Returns the number after one if `up`, and else that one.
fn next_if(up: bool, number: u64) -> u64
    requires { number + 1 < 2 ^ 64 }
    ensures { result ≡ number + (if up then 1 else 0) }
{
    if up { number + 1 } else { number }
}

/// Returns the millionths nearest to the digits before a point and after it, and how many billionths of one they are from them.
fn nearest(whole: &[u8], places: &[u8]) -> (u64, u64)
    requires { is_fine whole.now places.now ≡ true }
    ensures { result.0 ≡ nearest_even (digits_value 10 (whole.now ++ places.now))
        (10 ^ (length places.now - 6)) }
{
    let (places, tail) = places.split_at(PLACES);
    let cut = number_of(whole) * 1_000_000 + number_of(places);
    let up = goes_up(cut, tail);
    (next_if(up, cut), billionths(tail, up))
}

/// Returns a number, or the negative one.
fn with_sign(is_negative: bool, number: u64) -> i128
    ensures { result ≡ signed is_negative number }
{
    let number = i128::from(number);
    if is_negative { -number } else { number }
}

/// Returns a decimal in six places; `None` if it has none more, or too many digits before the point.
pub fn rounded_text(alloc: Global, number: &[u8]) -> Result<Option<Rounded>, AllocError>
    ensures made { IfOk result (λ made. is_some made ≡ is_finer number.now) }
    ensures text { IfOk result (λ made. IfSome made
        (λ rounded. rounded.text.items ≡ in_six_places number.now)) }
{
    let (whole, places) = parts(b'.', without_sign(number));
    if !is_fine(whole, places) {
        return Ok(None);
    }
    let (millionths, difference) = nearest(whole, places);
    let mut text = Vec::new(alloc);
    let millionths = with_sign(is_negative(number), millionths);
    push_value::<false>(&mut text, &Value::Decimal(millionths))?;
    Ok(Some(Rounded { text, difference }))
}
