//! The parts of a decimal.
ghost use Rattle.std.specs.Prelude.{◌≡◌, ◌==◌, ◌≤◌, IfOk, OnOk, ◌++◌, length, option_map};
ghost use Rattle.std.specs.Char.{is_ascii_digit};
ghost use Rattle.std.specs.List.{after_first, before_first, list_all, position_or_len};
ghost use Rattle.std.specs.Str.Parse.{starts_with_minus, without_leading_sign};
ghost use Rattle.value_forms.specs.Numbers.{before_end, places_text, sign_text};

use std::alloc::{AllocError, Global};

/// Returns what is before a byte at the end of a text; `None` if the text ends otherwise.
pub(crate) fn before_end(byte: u8, text: &[u8]) -> Option<&[u8]>
    ensures { option_map (λ front. front.now) result ≡ before_end byte text.now }
{
    if text.ends_with(&[byte]) {
        Some(&text[..text.len() - 1])
    } else {
        None
    }
}

/// Returns a text without its sign.
pub(crate) fn without_sign(text: &[u8]) -> &[u8]
    ensures { result.now ≡ without_leading_sign text.now }
{
    match text {
        [b'+' | b'-', digits @ ..] => digits,
        _ => text,
    }
}

/// Returns true if a text begins with a minus.
pub(crate) fn is_negative(text: &[u8]) -> bool
    ensures { result ≡ starts_with_minus text.now }
{
    text.starts_with(b"-")
}

/// Returns true if each byte is a digit.
pub(crate) fn are_digits(text: &[u8]) -> bool
    ensures { result ≡ list_all is_ascii_digit text.now }
{
    text.iter().all(|byte| byte.is_ascii_digit())
}

/// Returns the number of bytes before the first one that is `point`.
fn whole_len(point: u8, text: &[u8]) -> usize
    ensures within { result ≤ length text.now }
    ensures place { result ≡ position_or_len (λ byte. byte == point) text.now }
{
    text.iter().take_while(|byte| **byte != point).count()
}

/// Returns the bytes before the first one that is `point`, and those after it.
pub(crate) fn parts(point: u8, text: &[u8]) -> (&[u8], &[u8])
    ensures whole { result.0.now ≡ before_first (λ byte. byte == point) text.now }
    ensures fraction { result.1.now ≡ after_first (λ byte. byte == point) text.now }
{
    let (whole, rest) = text.split_at(whole_len(point, text));
    match rest {
        [_, fraction @ ..] => (whole, fraction),
        [] => (whole, rest),
    }
}

/// Returns a minus if a text begins with one, and else nothing.
pub(crate) fn sign_of(alloc: Global, text: &[u8]) -> Result<Vec<u8>, AllocError>
    ensures { IfOk result (λ made. made.items ≡ sign_text text.now) }
{
    match text {
        [b'-', ..] => Vec::from_slice(alloc, b"-"),
        _ => Ok(Vec::new(alloc)),
    }
}

/// Appends a point and the decimal places, or nothing if there are none.
pub(crate) fn push_fraction(made: &mut Vec<u8>, fraction: &[u8]) -> Result<(), AllocError>
    ensures { OnOk result (made.new.items ≡ made.old.items ++ places_text fraction.now) }
{
    if fraction.is_empty() {
        return Ok(());
    }
    made.extend_from_slice(b".")?;
    made.extend_from_slice(fraction)
}
