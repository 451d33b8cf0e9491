//! Days with a time of day after them.
ghost use Rattle.std.specs.Prelude.{◌≡◌, ◌≤◌, IfSome, is_some, length};
ghost use Rattle.std.specs.List.{after_last, before_last};
ghost use Rattle.value_forms.specs.Times.{are_seconds, are_two_digits, ends_in_time, is_between, is_clock, is_midnight, is_minute, is_second, is_time, last_part_len};

use crate::decimal::{are_digits, before_end};

/// Returns true if two bytes are digits.
fn are_two_digits(tens: u8, ones: u8) -> bool
    ensures { result ≡ are_two_digits tens ones }
{
    tens.is_ascii_digit() && ones.is_ascii_digit()
}

/// Returns true if two bytes are the digits of a number below 60.
fn is_second(tens: u8, ones: u8) -> bool
    ensures { result ≡ is_second tens ones }
{
    are_two_digits(tens, ones) && tens < b'6'
}

/// Returns true if a text is a number of seconds below 60, or with a fraction.
fn are_seconds(text: &[u8]) -> bool
    ensures { result ≡ are_seconds text.now }
{
    match text {
        [tens, ones] => is_second(*tens, *ones),
        [tens, ones, b'.', rest @ ..] => {
            !rest.is_empty() && is_second(*tens, *ones) && are_digits(rest)
        }
        _ => false,
    }
}

/// Returns true if digits are an hour below 24 and a minute below 60.
fn is_minute(h: u8, i: u8, m: u8, n: u8) -> bool
    ensures { result ≡ is_minute h i m n }
{
    are_two_digits(h, i) && are_two_digits(m, n) && m < b'6' && (h < b'2' || h == b'2' && i < b'4')
}

/// Returns true if a text is a time of day without a zone: `HH:mm`, `HH:mm:ss` or with a fraction of seconds.
fn is_clock(text: &[u8]) -> bool
    ensures { result ≡ is_clock text.now }
{
    match text {
        [h, i, b':', m, n] => is_minute(*h, *i, *m, *n),
        [h, i, b':', m, n, b':', rest @ ..] => is_minute(*h, *i, *m, *n) && are_seconds(rest),
        _ => false,
    }
}

/// Returns true if a text is a time of day: `HH:mm`, `HH:mm:ss` or with a fraction of seconds, and perhaps a `Z`.
#[tactic(auto, unfolding(crate::specs::Times::is_time))]
pub fn is_time(text: &[u8]) -> bool
    ensures { result ≡ is_time text.now }
{
    is_clock(before_end(b'Z', text).unwrap_or(text))
}

/// Returns true if a time of day is that at which the day begins.
pub fn is_midnight(text: &[u8]) -> bool
    ensures { result ≡ is_midnight text.now }
{
    text.iter().all(|byte| *byte == b'0' || *byte == b':' || *byte == b'.' || *byte == b'Z')
}

/// Returns the number of bytes after the last space or `T`.
fn last_part_len(text: &[u8]) -> usize
    ensures within { result ≤ length text.now }
    ensures len { result ≡ last_part_len text.now }
{
    text.iter()
        .rev()
        .take_while(|byte| !(**byte == b' ' || **byte == b'T'))
        .count()
}

/// Returns the day and the time of day of a text with both, and a space or a `T` between them; `None` if it has no time.
pub fn split_time(text: &[u8]) -> Option<(&[u8], &[u8])>
    ensures found { is_some result ≡ ends_in_time text.now }
    ensures parts { IfSome result (λ parts. (parts.0.now ≡ before_last is_between text.now)
        × (parts.1.now ≡ after_last is_between text.now)) }
{
    let place = text.len() - last_part_len(text);
    if place == 0 {
        return None;
    }
    let time = &text[place..];
    if is_time(time) {
        Some((&text[..place - 1], time))
    } else {
        None
    }
}
