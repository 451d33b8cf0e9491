//! The texts of a column of a block, as they are kept.
ghost use Rattle.std.specs.Prelude.{◌≡◌, IfOk};
ghost use Rattle.text_columns.specs.Bounds.{AreTextBounds};
ghost use Rattle.text_columns.specs.Plain.{plain_cells, ArePlainTexts};

use crate::bounds::{TextBounds, bounds_of};
use crate::codes::{TextCodes, codes_of};
use crate::column::TextColumn;
use crate::places::Places;
use crate::plain::PlainParts;
use std::alloc::{AllocError, Global};
use std::marker::Model;

/// The texts of a column of a block, of which nothing is known yet.
#[derive(Drop)]
pub(crate) struct PlainTexts {
    pub bytes: String,
    /// Where each text ends.
    pub ends: Places,
    /// Which rows are null; nothing if none is.
    pub nulls: Vec<bool>,
}

/// Returns the cells of `texts`, to be read.
fn column_of(texts: &PlainTexts) -> TextColumn<'_>
    requires { ArePlainTexts texts.now }
    ensures { result ≡ plain_cells texts.now }
{
    TextColumn {
        bytes: texts.bytes.as_str(),
        ends: &texts.ends,
        nulls: texts.nulls.as_slice(),
        codes: None,
        plain: None,
    }
}

/// The texts of a column of a block, in memory of their own.
#[derive(Drop)]
pub struct TextBlock {
    pub(crate) bytes: String,
    /// Where each text ends.
    pub(crate) ends: Places,
    /// Which rows are null; nothing if none is.
    pub(crate) nulls: Vec<bool>,
    /// The codes of the texts, if there are few different ones.
    pub(crate) codes: Option<TextCodes>,
    bounds: TextBounds,
    plain: PlainParts,
}

impl Model for TextBlock {
    ghost use Rattle.std.specs.Prelude.{List, string_bytes};
    ghost use Rattle.cell_types.specs.Value.{CellValue};

    ghost Value = { List CellValue };

    ghost use Rattle.text_columns.specs.Places.{place_list};
    ghost use Rattle.text_columns.specs.Bounds.{AreTextBounds};
    ghost use Rattle.text_columns.specs.Codes.{AreCodedTexts};
    ghost use Rattle.text_columns.specs.PlainParts.{HavePlainParts};
    ghost use Rattle.text_columns.specs.Texts.{text_block_cells};

    ghost view = { λ b. text_block_cells b.nulls.items (place_list b.ends) (string_bytes b.bytes) };

    ghost invariant = { λ b. AreCodedTexts b.nulls.items (place_list b.ends)
        (string_bytes b.bytes) b.codes
        × AreTextBounds (text_block_cells b.nulls.items (place_list b.ends) (string_bytes b.bytes))
        b.bounds
        × HavePlainParts (text_block_cells b.nulls.items (place_list b.ends) (string_bytes b.bytes))
        b.plain };
}

impl TextBlock {
    /// Returns the cells, to be read.
    #[inline(always)]
    pub fn column(&self) -> TextColumn<'_>
        ensures { result ≡ self.now }
    {
        TextColumn {
            bytes: self.bytes.as_str(),
            ends: &self.ends,
            nulls: self.nulls.as_slice(),
            codes: self.codes.as_ref(),
            plain: Some(&self.plain),
        }
    }

    /// Returns the rows of the least and of the greatest text, and how many rows are null.
    pub fn bounds(&self) -> TextBounds
        ensures { AreTextBounds self.now result }
    {
        self.bounds
    }

    /// Returns the block of `texts`.
    pub(crate) fn of_texts(alloc: Global, texts: PlainTexts) -> Result<TextBlock, AllocError>
        requires { ArePlainTexts texts }
        ensures { IfOk result (λ block. block ≡ plain_cells texts) }
    {
        let column = column_of(&texts);
        let bounds = bounds_of(&column);
        let codes = codes_of(alloc, &column)?;
        let plain = PlainParts::of(&column);
        Ok(TextBlock {
            bytes: texts.bytes,
            ends: texts.ends,
            nulls: texts.nulls,
            codes,
            bounds,
            plain,
        })
    }
}
