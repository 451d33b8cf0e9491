//! The numbers whose marks are true, by words of 64 bits.
ghost use Rattle.std.specs.Prelude.{◌≡◌, ◌+◌, ◌<◌, ◌≤◌, ◌^◌, ◌++◌, ◌∷◌, ℕ, IfOk, OnOk, false, length, slice_index_or};
ghost use Rattle.row_selection.specs.Marks.{marked_numbers, bit_numbers};

use std::alloc::{AllocError, Global};

/// How many marks a word has bits for.
const WORD_BITS: usize = 64;

/// Returns true if one of the marks is true. All are looked at, so that it runs in lanes.
fn any_of(marks: &[bool]) -> bool
    ensures { result ≡ false → (k : ℕ) → k < length marks.now
        → slice_index_or marks.now k false ≡ false }
{
    let mut any = false;
    for place in 0..marks.len() {
        any = any | marks[place];
    }
    any
}

/// Returns the word whose bits are set if the marks in their places are true.
fn word_of(marks: &[bool]) -> u64
    requires { length marks.now ≤ 64 }
    ensures { (start : ℕ) → bit_numbers start result 64 ≡ marked_numbers start marks.now }
{
    let mut word = 0;
    if !any_of(marks) {
        return word;
    }
    for place in 0..marks.len() {
        word |= u64::from(marks[place]) << place;
    }
    word
}

/// Returns the place of the lowest set bit of a word, and the word without it.
#[inline(always)]
fn lowest(word: u64) -> (usize, u64)
    requires { 0 < word }
    ensures within { result.0 < 64 }
    ensures bits { (start : ℕ) → bit_numbers start word 64
        ≡ (start + result.0) ∷ bit_numbers start result.1 64 }
{
    let place = word.trailing_zeros();
    (place as usize, word & !(1 << place))
}

/// Appends the numbers that the set bits of a word stand for, from `start` on.
fn push_word(numbers: &mut Vec<u16>, start: usize, word: u64) -> Result<(), AllocError>
    requires { start + 64 ≤ 2 ^ 16 }
    ensures { OnOk result (numbers.new.items ≡ numbers.old.items ++ bit_numbers start word 64) }
{
    let mut left = word;
    while left != 0 {
        let (place, rest) = lowest(left);
        numbers.push((start + place) as u16)?;
        left = rest;
    }
    Ok(())
}

/// Returns the places of the marks that are true, for which there is room if they are `count`.
pub(crate) fn numbers_of(
    alloc: Global,
    marks: &[bool],
    count: usize,
) -> Result<Vec<u16>, AllocError>
    requires { length marks.now ≤ 2 ^ 16 }
    ensures { IfOk result (λ numbers. numbers.items ≡ marked_numbers 0 marks.now) }
{
    let len = (marks.len() + WORD_BITS - 1) / WORD_BITS;
    let mut numbers = Vec::with_capacity(alloc, count)?;
    for word in 0..len {
        let from = word * WORD_BITS;
        let end = marks.len().min(from + WORD_BITS);
        push_word(&mut numbers, from, word_of(&marks[from..end]))?;
    }
    Ok(numbers)
}
