//! The cells of a column, as far as they are read.
ghost use Rattle.std.specs.Cow.{cow_slice_items};
ghost use Rattle.std.specs.Prelude.{◌≡◌, ◌<◌, [], IfOk, IfSome, MatchOption, is_some, slice_index_or};
ghost use Rattle.column_forms.specs.CellsSeen.{BeginsWithSpace, HasPlainSpaces, IsPlainByte, IsSeen, is_null_word, null_texts};

use crate::candidates::candidates_of;
use std::alloc::{AllocError, Global};
use std::borrow::CowSlice;
use value_forms::{Form, is_of_form};

/// The texts that may stand for null.
pub const NULLS: [&str; 9] = ["NA", "N/A", "n/a", "NULL", "null", "-", ".", "..", "#N/A"];

/// The cells of a column so far.
#[derive(Drop)]
pub struct CellsSeen {
    alloc: Global,
    /// The forms that all cells so far have, by the first of them.
    pub forms: Vec<Form<'static>>,
    /// How many cells are neither empty nor a text that may stand for null.
    pub cells: usize,
    /// How many cells are each text of [`NULLS`].
    pub nulls: Vec<usize>,
    /// A cell has a point, and one has a comma.
    pub has_mark: bool,
    /// A cell begins as a code does.
    pub is_code: bool,
    /// The first cell, and whether another one is different.
    first: Vec<u8>,
    pub is_even: bool,
}

/// Returns what comes after a space of another width; `None` if a text does not begin with one.
fn after_space(text: &[u8]) -> Option<&[u8]>
    ensures { IfSome result (λ rest. BeginsWithSpace text.now rest.now) }
{
    match text {
        [0xC2, 0xA0, rest @ ..] => Some(rest),
        [0xE2, 0x80, 0xAF, rest @ ..] => Some(rest),
        [0xE2, 0x80, 0x89, rest @ ..] => Some(rest),
        _ => None,
    }
}

/// Returns the first byte of a text, or a plain space in the place of another one, and what comes after it.
fn plain_byte(text: &[u8]) -> Option<(u8, &[u8])>
    ensures { MatchOption result (text.now ≡ [])
        (λ parts. IsPlainByte text.now parts.0 parts.1.now) }
{
    if let Some(rest) = after_space(text) {
        return Some((b' ', rest));
    }
    let (first, rest) = text.split_first()?;
    Some((*first, rest))
}

/// Returns a cell with plain spaces.
fn plain_spaces(alloc: Global, cell: &[u8]) -> Result<Vec<u8>, AllocError>
    ensures { IfOk result (λ made. HasPlainSpaces cell.now made.items) }
{
    let mut made = Vec::with_capacity(alloc, cell.len())?;
    let mut left = cell;
    while let Some((byte, rest)) = plain_byte(left) {
        left = rest;
        made.push(byte)?;
    }
    Ok(made)
}

/// Returns a cell with plain spaces, and without spaces at its ends.
pub fn seen_text(alloc: Global, cell: &[u8]) -> Result<CowSlice<'_, u8>, AllocError>
    ensures { IfOk result (λ made. IsSeen cell.now (cow_slice_items made)) }
{
    if !cell.iter().any(|byte| matches!(*byte, 0xC2 | 0xE2)) {
        return Ok(CowSlice::Borrowed(cell.trim_ascii()));
    }
    let made = plain_spaces(alloc, cell)?;
    let text = Vec::from_slice(alloc, made.as_slice().trim_ascii())?;
    Ok(CowSlice::Owned(text))
}

/// Returns the text of [`NULLS`] with a number.
fn null_text(place: usize) -> &'static str
    requires { place < 9 }
    ensures { result.now ≡ slice_index_or null_texts place [] }
{
    NULLS[place]
}

/// Returns the number of the text of [`NULLS`] that a cell is; `None` if it is none of them.
pub fn null_place(cell: &[u8]) -> Option<usize>
    ensures { is_some result ≡ is_null_word cell.now }
{
    for place in 0..NULLS.len() {
        if null_text(place).as_bytes() == cell {
            return Some(place);
        }
    }
    None
}

/// Returns true if a cell begins as codes and telephone numbers do: a zero before a digit or a space, or a plus before digits with spaces.
fn is_code(cell: &[u8]) -> bool {
    match cell {
        [b'0', b'0'..=b'9' | b' ' | b'\'', ..] => true,
        [b'+', rest @ ..] => rest.contains(&b' '),
        _ => false,
    }
}

/// Returns true if a cell has a form. A column of codes has no numbers.
fn fits(form: Form<'_>, is_code: bool, cell: &[u8]) -> bool {
    let is_number = matches!(form, Form::Number(_));
    !(is_number && is_code) && is_of_form(form, cell)
}

impl CellsSeen {
    /// Returns what is known of no cell.
    pub fn new(alloc: Global) -> Result<CellsSeen, AllocError> {
        Ok(CellsSeen {
            alloc,
            forms: Vec::new(alloc),
            cells: 0,
            nulls: Vec::from_elem(alloc, 0, NULLS.len())?,
            has_mark: false,
            is_code: false,
            first: Vec::new(alloc),
            is_even: true,
        })
    }

    /// Returns true if no cell that is read may change what is known.
    pub fn is_text(&self) -> bool {
        self.cells > 0 && self.forms.is_empty()
    }

    /// Keeps the forms that a cell has.
    fn filter(&mut self, cell: &[u8]) {
        let is_code = self.is_code;
        self.forms.retain(|form| fits(*form, is_code, cell));
    }

    /// Reads a cell.
    pub fn read(&mut self, cell: &[u8]) -> Result<(), AllocError> {
        if cell.is_empty() {
            return Ok(());
        }
        if let Some(place) = null_place(cell) {
            if let Some(count) = self.nulls.get_mut(place) {
                *count = count.saturating_add(1);
            }
            return Ok(());
        }
        if self.is_text() {
            self.cells = self.cells.saturating_add(1);
            return Ok(());
        }
        let text = seen_text(self.alloc, cell)?;
        let text = text.as_slice();
        if self.cells == 0 {
            let first = std::str::from_utf8(text).unwrap_or("");
            self.forms = candidates_of(self.alloc, first)?;
            self.first = Vec::from_slice(self.alloc, text)?;
        } else if self.is_even && self.first.as_slice() != text {
            self.is_even = false;
        }
        self.cells = self.cells.saturating_add(1);
        self.has_mark |= text.iter().any(|byte| matches!(*byte, b'.' | b','));
        self.is_code |= is_code(text);
        self.filter(text);
        Ok(())
    }
}
