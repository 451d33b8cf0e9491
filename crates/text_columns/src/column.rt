//! The texts of a column of a block, as they are lent.
ghost use Rattle.std.specs.Prelude.{◌≡◌, ◌+◌, ◌<◌, ◌≤◌, false, IfSome, IsTrue, MatchOption, length, slice_index_or};
ghost use Rattle.cell_types.specs.Value.{null, text as text_cell, value_view};
ghost use Rattle.text_columns.specs.Codes.{AreCodes};
ghost use Rattle.text_columns.specs.Search.{HaveTexts};
ghost use Rattle.text_columns.specs.Texts.{AreTextLengths};

use crate::codes::TextCodes;
use crate::places::{Places, count_of, lengths_of, place_at, start_at};
use crate::plain::PlainParts;
use cell_types::Value;
use std::borrow::CowStr;
use std::marker::Model;

/// The texts and nulls of the rows of a block.
#[derive(Drop)]
pub struct TextColumn<'t> {
    pub(crate) bytes: &'t str,
    /// Where each text ends.
    pub(crate) ends: &'t Places,
    /// Which rows are null; nothing if none is.
    pub(crate) nulls: &'t [bool],
    /// The codes of the texts, if there are few different ones.
    pub(crate) codes: Option<&'t TextCodes>,
    /// Which parts are plain, if that is known.
    pub(crate) plain: Option<&'t PlainParts>,
}

impl<'t> Model for TextColumn<'t> {
    ghost use Rattle.std.specs.Prelude.{List};
    ghost use Rattle.cell_types.specs.Value.{CellValue};

    ghost Value = { List CellValue };

    ghost use Rattle.text_columns.specs.Places.{place_list};
    ghost use Rattle.text_columns.specs.Codes.{AreCodedTexts};
    ghost use Rattle.text_columns.specs.PlainParts.{HaveKnownParts};
    ghost use Rattle.text_columns.specs.Texts.{text_block_cells};
    ghost use Rattle.std.specs.Option.{option_copied};

    ghost view = { λ c. text_block_cells c.nulls.now (place_list c.ends.now) c.bytes.now };

    ghost invariant = { λ c. AreCodedTexts c.nulls.now (place_list c.ends.now) c.bytes.now
        (option_copied c.codes)
        × HaveKnownParts (text_block_cells c.nulls.now (place_list c.ends.now) c.bytes.now)
        (option_copied c.plain) };
}

/// Returns true if a row is null; none is, past the end of the marks.
#[inline(always)]
pub(crate) fn is_marked(nulls: &[bool], row: usize) -> bool
    ensures { result ≡ slice_index_or nulls.now row false }
{
    match nulls.get(row) {
        Some(is_null) => *is_null,
        None => false,
    }
}

impl<'t> TextColumn<'t> {
    /// Returns how many rows there are.
    #[inline(always)]
    pub fn len(&self) -> usize
        ensures { result ≡ length self.now }
    {
        count_of(self.ends)
    }

    /// Returns the codes of the texts, if there are few different ones.
    #[inline(always)]
    pub fn codes(&self) -> Option<&'t TextCodes>
        ensures { IfSome result (λ codes. AreCodes codes.now self.now) }
    {
        self.codes
    }

    /// Returns the text of a row, or `None` if it is null.
    #[inline(always)]
    pub fn text(&self, row: usize) -> Option<&'t str>
        requires { row < length self.now }
        ensures { MatchOption result (slice_index_or self.now row null ≡ null)
            (λ t. slice_index_or self.now row null ≡ text_cell t.now) }
    {
        if is_marked(self.nulls, row) {
            return None;
        }
        let start = start_at(self.ends, row);
        let end = place_at(self.ends, row);
        Some(&self.bytes[start..end])
    }

    /// Writes how many bytes the text of each row has, from `first` on, and returns true, or returns false if a row of the block is null, or the block is long.
    #[inline(always)]
    pub fn lengths(&self, first: usize, out: &mut [usize]) -> bool
        requires { first + length out.old ≤ length self.now }
        ensures long { length out.new ≡ length out.old }
        ensures each { IsTrue result → AreTextLengths self.now first out.new }
    {
        self.nulls.is_empty() && lengths_of(self.ends, first, out)
    }

    /// Returns bytes that have the texts of the rows from `first` to `last`.
    #[inline(always)]
    pub(crate) fn bytes_of(&self, first: usize, last: usize) -> &'t [u8]
        requires order { first ≤ last }
        requires within { last < length self.now }
        ensures { HaveTexts result.now self.now first last }
    {
        let start = start_at(self.ends, first);
        let end = place_at(self.ends, last);
        &self.bytes.as_bytes()[start..end]
    }

    /// Returns the value of a row.
    #[inline(always)]
    pub fn value(&self, row: usize) -> Value<'t>
        requires { row < length self.now }
        ensures { value_view result ≡ slice_index_or self.now row null }
    {
        match self.text(row) {
            Some(text) => Value::Text(CowStr::Borrowed(text)),
            None => Value::Null,
        }
    }
}
