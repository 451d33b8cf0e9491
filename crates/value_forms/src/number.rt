//! Numbers with marks of their own for the decimal point and between thousands.
ghost use Rattle.std.specs.Prelude.{◌≡◌, ◌++◌, IfOk, OnOk, filter, option_map};
ghost use Rattle.std.specs.Char.{is_ascii_digit};
ghost use Rattle.value_forms.specs.Numbers.{is_grouped, is_whole, marked_number};

use crate::decimal::{are_digits, parts, push_fraction, sign_of, without_sign};
use std::alloc::{AllocError, Global};

/// The marks of numbers.
#[derive(Clone, Copy, PartialEq, Eq)]
pub struct Marks {
    /// The byte in the place of the decimal point.
    pub point: u8,
    /// The byte between thousands.
    pub group: u8,
}

/// Returns true if each fourth byte from the right is the mark, and each other one a digit.
fn is_grouped(group: u8, whole: &[u8]) -> bool
    ensures { result ≡ is_grouped group whole.now }
{
    let mut left = whole;
    while let [first, rest @ ..] = left {
        let is_mark = left.len() % 4 == 0;
        if is_mark && *first != group || !is_mark && !first.is_ascii_digit() {
            return false;
        }
        left = rest;
    }
    true
}

/// Returns true if a text is the digits before a decimal point, with a mark between thousands or with none.
pub(crate) fn is_whole(group: u8, whole: &[u8]) -> bool
    ensures { result ≡ is_whole group whole.now }
{
    match whole {
        [] => false,
        [first, ..] => first.is_ascii_digit() && (are_digits(whole) || is_grouped(group, whole)),
    }
}

/// Appends the digits of a text.
fn push_digits(made: &mut Vec<u8>, whole: &[u8]) -> Result<(), AllocError>
    ensures { OnOk result (made.new.items ≡ made.old.items ++ filter is_ascii_digit whole.now) }
{
    for byte in whole {
        if byte.is_ascii_digit() {
            made.push(*byte)?;
        }
    }
    Ok(())
}

/// Returns the number that a text is with these marks, with a decimal point and no marks between thousands; `None` if it is no such number.
pub fn number_text(alloc: Global, marks: Marks, text: &[u8]) -> Result<Option<Vec<u8>>, AllocError>
    ensures { IfOk result (λ made. option_map (λ made. made.items) made
        ≡ marked_number marks text.now) }
{
    let (whole, fraction) = parts(marks.point, without_sign(text));
    if !is_whole(marks.group, whole) || !are_digits(fraction) {
        return Ok(None);
    }
    let mut made = sign_of(alloc, text)?;
    push_digits(&mut made, whole)?;
    push_fraction(&mut made, fraction)?;
    Ok(Some(made))
}
