//! The texts of a column, read one after another until they fill a block.
ghost use Rattle.std.specs.Prelude.{◌≡◌, ◌<◌, ◌≤◌, ◌==◌, ◌&&◌, [], IfOk, OnOk, OnErr, IsUtf8, length, string_bytes, take};
ghost use Rattle.cell_types.specs.Value.{null, text as text_cell};
ghost use Rattle.text_columns.specs.Buffer.{content_cell, field_content, with_text_cell};
ghost use Rattle.text_columns.specs.Texts.{AreNullMarks};

use crate::block::{PlainTexts, TextBlock};
use crate::content::{copy_content, copy_text};
use crate::places::places_of;
use crate::room::make_room;
use std::alloc::{AllocError, Global};
use std::marker::Model;
use std::mem::replace;

/// How many bytes the texts of a block have at most if they are copied.
const COPIED: usize = 0x10_0000;

/// The texts of a column that are read one after another, until they fill a block.
#[derive(Drop)]
pub struct TextBuffer {
    /// The texts, one after the other, and what is still free after them.
    bytes: Vec<u8>,
    /// Where the last text ends.
    at: usize,
    /// Where each text ends.
    ends: Vec<usize>,
    nulls: Vec<bool>,
    len: usize,
}

impl Model for TextBuffer {
    ghost use Rattle.text_columns.specs.Buffer.{TextBufferOf, buffer_view, IsBuffer};

    ghost Value = { TextBufferOf };

    ghost view = { buffer_view };

    ghost invariant = { IsBuffer };
}

/// Returns true if a text of `len` bytes is null, given whether an empty one is.
#[inline(always)]
fn is_null(empty_is_null: bool, len: usize) -> bool
    ensures { result ≡ (empty_is_null && len == 0) }
{
    empty_is_null && len == 0
}

/// Returns the first `len` bytes as a text, which takes as much memory as it has bytes. They are known to be UTF-8. A short text is a copy, so that the memory
/// of `bytes` never moves and leaves no gaps between blocks; a long one takes that memory over.
fn text_of(alloc: Global, bytes: &mut Vec<u8>, len: usize) -> Result<String, AllocError>
    requires within { len ≤ length bytes.old.items }
    requires utf8 { IsUtf8 (take len bytes.old.items) }
    ensures text { IfOk result (λ text. string_bytes text ≡ take len bytes.old.items) }
    ensures err { OnErr result (bytes.new ≡ bytes.old) }
{
    if len <= COPIED {
        let copy = Vec::from_slice(alloc, &bytes.as_slice()[..len])?;
        return Ok(unsafe { String::from_utf8_unchecked(copy) });
    }
    // The next texts are likely to be as long as these, so their memory rarely has to grow.
    let mut taken = replace(bytes, Vec::with_capacity(alloc, len)?);
    taken.truncate(len);
    taken.shrink_to_fit();
    Ok(unsafe { String::from_utf8_unchecked(taken) })
}

/// Returns the marks of nulls that are kept: none, if no row is null.
fn marks_of(alloc: Global, nulls: &[bool]) -> Result<Vec<bool>, AllocError>
    ensures { IfOk result (λ kept. AreNullMarks nulls.now kept.items) }
{
    if nulls.contains(&true) {
        Vec::from_slice(alloc, nulls)
    } else {
        Ok(Vec::new(alloc))
    }
}

impl TextBuffer {
    /// Returns an empty buffer with room for `room` cells.
    pub fn new(alloc: Global, room: usize) -> Result<TextBuffer, AllocError>
        ensures { IfOk result (λ buffer. buffer ≡ record { room = room; cells = [] }) }
    {
        Ok(TextBuffer {
            bytes: Vec::new(alloc),
            at: 0,
            ends: Vec::from_elem(alloc, 0, room)?,
            nulls: Vec::from_elem(alloc, false, room)?,
            len: 0,
        })
    }

    /// Returns how many cells there are.
    #[inline(always)]
    pub fn len(&self) -> usize
        ensures { result ≡ length self.now.cells }
    {
        self.len
    }

    /// Adds a null.
    #[inline(always)]
    pub fn push_null(&mut self)
        requires { length self.old.cells < self.old.room }
        ensures { self.new ≡ with_text_cell self.old null }
    {
        self.nulls[self.len] = true;
        self.ends[self.len] = self.at;
        self.len += 1;
    }

    /// Adds a text.
    #[inline(always)]
    pub fn push(&mut self, text: &str) -> Result<(), AllocError>
        requires { length self.old.cells < self.old.room }
        ensures more { OnOk result (self.new ≡ with_text_cell self.old (text_cell text.now)) }
        ensures err { OnErr result (self.new ≡ self.old) }
    {
        make_room(&mut self.bytes, self.at, text.len())?;
        copy_text(text.as_bytes(), self.bytes.as_mut_slice(), self.at);
        let end = self.at + text.len();
        self.nulls[self.len] = false;
        self.ends[self.len] = end;
        self.at = end;
        self.len += 1;
        Ok(())
    }

    /// Adds what a field says, which is null if it is empty and an empty text stands for null. `rest` is the file from the field's bytes on:
    /// where that is long enough, a short field is copied without a loop.
    #[inline(always)]
    pub fn push_field(
        &mut self,
        text: &str,
        quoted: bool,
        rest: &[u8],
        empty_is_null: bool,
    ) -> Result<(), AllocError>
        requires rest { take (length text.now) rest.now ≡ text.now }
        requires room { length self.old.cells < self.old.room }
        ensures more { OnOk result (self.new ≡ with_text_cell self.old
            (content_cell empty_is_null (field_content quoted text.now))) }
        ensures err { OnErr result (self.new ≡ self.old) }
    {
        make_room(&mut self.bytes, self.at, text.len())?;
        let to = copy_content(text, quoted, rest, self.bytes.as_mut_slice(), self.at);
        self.nulls[self.len] = is_null(empty_is_null, to - self.at);
        self.ends[self.len] = to;
        self.at = to;
        self.len += 1;
        Ok(())
    }

    /// Returns the cells as a block and empties the buffer; a long block takes over its memory. After an error the cells may be lost.
    pub fn pack(&mut self, alloc: Global) -> Result<TextBlock, AllocError>
        ensures block { IfOk result (λ block. block ≡ self.old.cells) }
        ensures anew { OnOk result (self.new ≡ record self.old { cells = [] }) }
        ensures err { OnErr result ((self.new.room ≡ self.old.room)
            × (length self.new.cells ≤ length self.old.cells)) }
    {
        let ends = places_of(alloc, &self.ends.as_slice()[..self.len], self.at)?;
        let nulls = marks_of(alloc, &self.nulls.as_slice()[..self.len])?;
        let bytes = text_of(alloc, &mut self.bytes, self.at)?;
        self.at = 0;
        self.len = 0;
        TextBlock::of_texts(alloc, PlainTexts { bytes, ends, nulls })
    }
}
