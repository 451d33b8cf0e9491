//! Numbers whose point is to be moved: those with a percent sign, and those with an exponent of ten.
ghost use Rattle.std.specs.Prelude.{◌≡◌, ◌++◌, ◌≤◌, IfOk, IfSome, OnOk, is_some, length, nat_lt, option_map};
ghost use Rattle.std.specs.List.{after_first, before_first};
ghost use Rattle.value_forms.specs.Scale.{exponent_moves, exponent_number, few, is_letter, letter_place, moved, percent_number, spread, trimmed_end, whole_digits, zeros};

use crate::date::short_number;
use crate::decimal::{before_end, parts, push_fraction, sign_of, without_sign};
use crate::number::{Marks, number_text};
use std::alloc::{AllocError, Global};

/// The most digits by which an exponent moves a point.
const MOST_MOVED: u8 = 30;

/// Appends zeros.
fn push_zeros(made: &mut Vec<u8>, count: usize) -> Result<(), AllocError>
    ensures { OnOk result (made.new.items ≡ made.old.items ++ zeros count) }
{
    for _zero in 0..count {
        made.push(b'0')?;
    }
    Ok(())
}

/// Appends digits without the zeros before them, or a zero if there is no other digit.
fn push_whole(made: &mut Vec<u8>, digits: &[u8]) -> Result<(), AllocError>
    ensures { OnOk result (made.new.items ≡ made.old.items ++ whole_digits digits.now) }
{
    let mut left = digits;
    while let [b'0', rest @ ..] = left {
        left = rest;
    }
    if left.is_empty() {
        return made.extend_from_slice(b"0");
    }
    made.extend_from_slice(left)
}

/// Returns the digits of a number, after `front` zeros, with zeros at the end so that `back` digits are after its point.
fn all_digits(
    alloc: Global,
    parts: (&[u8], &[u8]),
    front: usize,
    back: usize,
) -> Result<Vec<u8>, AllocError>
    ensures { IfOk result (λ made. made.items ≡ spread front back parts.entry.0.now parts.entry.1.now) }
{
    let (whole, fraction) = parts;
    let mut digits = Vec::new(alloc);
    push_zeros(&mut digits, front)?;
    digits.extend_from_slice(whole)?;
    digits.extend_from_slice(fraction)?;
    push_zeros(&mut digits, back.saturating_sub(fraction.len()))?;
    Ok(digits)
}

/// Returns a number that is divided by ten `front` times and multiplied by ten `back` times: its digits with the zeros that this needs, and the point at another place.
fn moved_text(
    alloc: Global,
    number: &[u8],
    front: usize,
    back: usize,
) -> Result<Vec<u8>, AllocError>
    ensures { IfOk result (λ made. made.items ≡ moved front back number.now) }
{
    let (whole, fraction) = parts(b'.', without_sign(number));
    let digits = all_digits(alloc, (whole, fraction), front, back)?;
    let point = whole.len().saturating_add(back).min(digits.len());
    let (before, after) = digits.as_slice().split_at(point);
    let mut made = sign_of(alloc, number)?;
    push_whole(&mut made, before)?;
    push_fraction(&mut made, after)?;
    Ok(made)
}

/// Returns a text without the white space at its end.
pub(crate) fn trimmed_end(text: &[u8]) -> &[u8]
    ensures { result.now ≡ trimmed_end text.now }
{
    text.trim_ascii_end()
}

/// Returns the hundredth part of the number before a percent sign; `None` if the text is no such number.
#[tactic(auto, unfolding(crate::specs::Scale::percent_number))]
pub fn percent_text(alloc: Global, marks: Marks, text: &[u8]) -> Result<Option<Vec<u8>>, AllocError>
    ensures { IfOk result (λ made. option_map (λ made. made.items) made
        ≡ percent_number marks text.now) }
{
    let Some(front) = before_end(b'%', text) else {
        return Ok(None);
    };
    match number_text(alloc, marks, trimmed_end(front))? {
        Some(number) => Ok(Some(moved_text(alloc, number.as_slice(), 2, 0)?)),
        None => Ok(None),
    }
}

/// Returns the number of an exponent's digits, if it is not too great.
fn few(digits: &[u8]) -> Option<u8>
    ensures { result ≡ few digits.now }
{
    match short_number(digits) {
        Some(number) if number <= MOST_MOVED => Some(number),
        _ => None,
    }
}

/// Returns by how many digits an exponent moves the point to the left, and to the right. One without a sign moves it only if `has_point` says that its number has a point.
pub(crate) fn exponent_moves(has_point: bool, exponent: &[u8]) -> Option<(u8, u8)>
    ensures { result ≡ exponent_moves has_point exponent.now }
{
    match exponent {
        [b'-', digits @ ..] => Some((few(digits)?, 0)),
        [b'+', digits @ ..] => Some((0, few(digits)?)),
        [_, ..] if has_point => Some((0, few(exponent)?)),
        _ => None,
    }
}

/// Returns the number of bytes before the first `e`.
fn letter_place(text: &[u8]) -> usize
    ensures within { result ≤ length text.now }
    ensures place { result ≡ letter_place text.now }
{
    text.iter()
        .take_while(|byte| !(**byte == b'e' || **byte == b'E'))
        .count()
}

/// Returns the number before an `e`, and the exponent after it.
pub(crate) fn cut_at_letter(text: &[u8]) -> Option<(&[u8], &[u8])>
    ensures found { is_some result ≡ nat_lt (letter_place text.now) (length text.now) }
    ensures parts { IfSome result (λ cut. (cut.0.now ≡ before_first is_letter text.now)
        × (cut.1.now ≡ after_first is_letter text.now)) }
{
    let place = letter_place(text);
    if place < text.len() {
        Some((&text[..place], &text[place + 1..]))
    } else {
        None
    }
}

/// Returns a number whose point is moved.
fn moved_number(
    alloc: Global,
    moves: (u8, u8),
    number: Option<Vec<u8>>,
) -> Result<Option<Vec<u8>>, AllocError>
    ensures { IfOk result (λ made. option_map (λ made. made.items) made
        ≡ option_map (moved moves.0 moves.1) (option_map (λ number. number.items) number)) }
{
    let Some(number) = number else {
        return Ok(None);
    };
    let (front, back) = moves;
    let made = moved_text(
        alloc,
        number.as_slice(),
        usize::from(front),
        usize::from(back),
    )?;
    Ok(Some(made))
}

/// Returns the value of a number with an exponent of ten after `e`; `None` if the text is no such number. An exponent without a sign needs a mark of the point before it, so
/// that a code such as `0E8` is none.
#[tactic(auto, unfolding(crate::specs::Scale::exponent_number))]
pub fn exponent_text(
    alloc: Global,
    marks: Marks,
    text: &[u8],
) -> Result<Option<Vec<u8>>, AllocError>
    ensures { IfOk result (λ made. option_map (λ made. made.items) made
        ≡ exponent_number marks text.now) }
{
    let Some((number, exponent)) = cut_at_letter(text) else {
        return Ok(None);
    };
    let Some(moves) = exponent_moves(number.contains(&marks.point), exponent) else {
        return Ok(None);
    };
    moved_number(alloc, moves, number_text(alloc, marks, number)?)
}
