//! The cells of a column of texts, as the rows of a file are read.
ghost use Rattle.std.specs.Prelude.{◌≡◌, ◌<◌, ◌≤◌, ◌+◌, ◌++◌, ◌⊎◌, true, Ok, Err, [], ◌∷◌, IfOk, IfErr, OnOk, OnErr, length, option_map, take};
ghost use Rattle.std.specs.Cow.{cow_str_bytes};
ghost use Rattle.block_summary.specs.declared.block.TheConstants.{BLOCK_ROWS};
ghost use Rattle.cell_types.specs.Column.{column_view};
ghost use Rattle.cell_types.specs.Datatype as datatype;
ghost use Rattle.cell_types.specs.Datatype.{datatype_view};
ghost use Rattle.csv_fields.specs.Raw.{raw_view};
ghost use Rattle.csv_fields.specs.Values.{value_in, value_or_null, HasValue};
ghost use Rattle.column_blocks.specs.Parts.{part_cells, EmptyIsNull, HasCellFault, PartHasValues};
ghost use Rattle.column_blocks.specs.Readers.{text_or_null, texts_with, texts_with_cells};
ghost use Rattle.text_columns.specs.Buffer.{content_cell, field_content};
ghost use Rattle.column_blocks.specs.TypedColumn.{cells_in, AreBlocks};

use block_summary::BLOCK_ROWS;
use cell_types::{CellFault, Column, string_of};
use csv_fields::{Part, Raw};
use std::alloc::{AllocError, Global};
use std::borrow::CowStr;
use std::marker::Model;
use text_columns::{TextBlock, TextBuffer};

/// The cells of a column of texts that are read one after another.
#[derive(Drop)]
pub struct TextReader {
    /// How many cells there are to be.
    rows: usize,
    /// The blocks that are full.
    blocks: Vec<TextBlock>,
    /// The cells after them.
    buffer: TextBuffer,
}

impl Model for TextReader {
    ghost use Rattle.column_blocks.specs.Readers.{TextReaderOf};

    ghost Value = { TextReaderOf };

    ghost use Rattle.std.specs.Prelude.{◌≡◌, ◌≤◌, ◌++◌, length, min};
    ghost use Rattle.block_summary.specs.declared.block.TheConstants.{BLOCK_ROWS};
    ghost use Rattle.column_blocks.specs.TypedColumn.{cells_in, AreFull};

    ghost view = { λ r. record {
      rows = r.rows;
      cells = cells_in r.blocks.items ++ r.buffer.cells;
    } };

    ghost invariant = { λ r. AreFull BLOCK_ROWS r.blocks.items
        × (r.buffer.room ≡ min r.rows BLOCK_ROWS)
        × (length r.buffer.cells ≤ BLOCK_ROWS) };
}

impl TextReader {
    /// Returns a reader of `rows` cells, none of which is read.
    pub fn new(alloc: Global, rows: usize) -> Result<TextReader, AllocError>
        ensures { IfOk result (λ reader. reader ≡ record { rows = rows; cells = [] }) }
    {
        let buffer = TextBuffer::new(alloc, rows.min(BLOCK_ROWS))?;
        Ok(TextReader {
            rows,
            blocks: Vec::new(alloc),
            buffer,
        })
    }

    /// Adds a text, or a null.
    #[inline(always)]
    fn push(&mut self, alloc: Global, text: &Option<CowStr<'_>>) -> Result<(), AllocError>
        requires { length self.old.cells < self.old.rows }
        ensures { OnOk result (self.new
            ≡ texts_with self.old (text_or_null (option_map cow_str_bytes text.now))) }
    {
        if self.buffer.len() == BLOCK_ROWS {
            end_block(alloc, &mut self.blocks, &mut self.buffer)?;
        }
        match text {
            Some(text) => self.buffer.push(text.as_str()),
            None => {
                self.buffer.push_null();
                Ok(())
            }
        }
    }

    /// Reads the field of the next row.
    #[inline(always)]
    fn read(&mut self, alloc: Global, column: &Column, raw: Raw<'_>) -> Result<(), CellFault>
        requires column { datatype_view column.now.datatype ≡ datatype.text }
        requires room { length self.old.cells < self.old.rows }
        ensures value { OnOk result (HasValue (column_view column.now) (raw_view raw.entry)) }
        ensures cells { OnOk result (self.new ≡ texts_with self.old
            (value_or_null (value_in (column_view column.now, raw_view raw.entry)))) }
        ensures fault { IfErr result (λ e. (e ≡ CellFault.NoMemory)
            ⊎ (value_in (column_view column.now, raw_view raw.entry) ≡ Err e)) }
    {
        let text = field_text(alloc, column, raw)?;
        self.push(alloc, &text)?;
        Ok(())
    }

    /// Adds what a field says, or a null if that is empty. `rest` is the file from the field's bytes on.
    #[inline(always)]
    fn push_field(
        &mut self,
        alloc: Global,
        text: &str,
        quoted: bool,
        rest: &[u8],
    ) -> Result<(), AllocError>
        requires rest { take (length text.now) rest.now ≡ text.now }
        requires room { length self.old.cells < self.old.rows }
        ensures { OnOk result (self.new
            ≡ texts_with self.old (content_cell true (field_content quoted text.now))) }
    {
        if self.buffer.len() == BLOCK_ROWS {
            end_block(alloc, &mut self.blocks, &mut self.buffer)?;
        }
        self.buffer.push_field(text, quoted, rest, true)
    }

    /// Reads the field of the next row, if the empty text alone is null: no text is compared. `rest` is the file from the field's bytes on.
    #[inline(always)]
    fn read_plain(
        &mut self,
        alloc: Global,
        column: &Column,
        raw: Raw<'_>,
        rest: &[u8],
    ) -> Result<(), CellFault>
        requires column { datatype_view column.now.datatype ≡ datatype.text }
        requires plain { EmptyIsNull (column_view column.now) }
        requires rest { take (length raw.bytes.now) rest.now ≡ raw.bytes.now }
        requires room { length self.old.cells < self.old.rows }
        ensures value { OnOk result (HasValue (column_view column.now) (raw_view raw.entry)) }
        ensures cells { OnOk result (self.new ≡ texts_with self.old
            (value_or_null (value_in (column_view column.now, raw_view raw.entry)))) }
        ensures fault { IfErr result (λ e. e ≡ CellFault.NoMemory) }
    {
        self.push_field(alloc, raw.bytes, raw.quoted, rest)?;
        Ok(())
    }

    /// Reads the fields of a column in the rows of a part, if the empty text alone is null.
    fn read_plain_part(
        &mut self,
        alloc: Global,
        column: &Column,
        part: &Part<'_, '_>,
        col: usize,
    ) -> Result<(), CellFault>
        requires column { datatype_view column.now.datatype ≡ datatype.text }
        requires plain { EmptyIsNull (column_view column.now) }
        requires room { length self.old.cells + length part.now.rows ≤ self.old.rows }
        requires col { col < part.now.width }
        ensures values { OnOk result (PartHasValues (column_view column.now) col part.now.rows) }
        ensures cells { OnOk result (self.new ≡ texts_with_cells self.old
            (part_cells (column_view column.now) col part.now.rows)) }
        ensures fault { IfErr result (λ e. e ≡ CellFault.NoMemory) }
    {
        for row in 0..part.rows() {
            let (raw, rest) = part.field_and_rest(row, col);
            self.read_plain(alloc, column, raw, rest)?;
        }
        Ok(())
    }

    /// Reads the fields of a column in the rows of a part.
    pub fn read_part(
        &mut self,
        alloc: Global,
        column: &Column,
        part: &Part<'_, '_>,
        col: usize,
    ) -> Result<(), CellFault>
        requires column { datatype_view column.now.datatype ≡ datatype.text }
        requires room { length self.old.cells + length part.now.rows ≤ self.old.rows }
        requires col { col < part.now.width }
        ensures values { OnOk result (PartHasValues (column_view column.now) col part.now.rows) }
        ensures cells { OnOk result (self.new ≡ texts_with_cells self.old
            (part_cells (column_view column.now) col part.now.rows)) }
        ensures fault { IfErr result (λ e. (e ≡ CellFault.NoMemory)
            ⊎ HasCellFault (column_view column.now) col part.now.rows e) }
    {
        if empty_is_null(column) {
            return self.read_plain_part(alloc, column, part, col);
        }
        for row in 0..part.rows() {
            match self.read(alloc, column, part.field(row, col)) {
                Ok(()) => {}
                Err(fault) => return Err(fault),
            }
        }
        Ok(())
    }

    /// Returns the blocks of the cells that were read.
    pub fn finish(self, alloc: Global) -> Result<Vec<TextBlock>, AllocError>
        ensures cells { IfOk result (λ blocks. cells_in blocks.items ≡ self.cells) }
        ensures blocks { IfOk result (λ blocks. AreBlocks BLOCK_ROWS blocks.items) }
    {
        let TextReader {
            mut blocks,
            mut buffer,
            ..
        } = self;
        if buffer.len() > 0 {
            blocks.push(buffer.pack(alloc)?)?;
        }
        Ok(blocks)
    }
}

/// Moves the cells of a buffer into a block after others. After an error the cells may be lost.
#[inline(never)]
fn end_block(
    alloc: Global,
    blocks: &mut Vec<TextBlock>,
    buffer: &mut TextBuffer,
) -> Result<(), AllocError>
    ensures blocks { OnOk result
        (blocks.new.items ≡ blocks.old.items ++ buffer.old.cells ∷ []) }
    ensures buffer { OnOk result (buffer.new ≡ record buffer.old { cells = [] }) }
    ensures kept { OnErr result ((blocks.new.items ≡ blocks.old.items)
        × (buffer.new.room ≡ buffer.old.room)
        × (length buffer.new.cells ≤ length buffer.old.cells)) }
{
    let block = buffer.pack(alloc)?;
    blocks.push(block)?;
    Ok(())
}

/// Returns true if the empty text alone is null, and no other text and no fault stands for it.
pub fn empty_is_null(column: &Column) -> bool
    ensures { result ≡ true → EmptyIsNull (column_view column.now) }
{
    column.nulls.len() == 1
        && column.nulls[0].is_empty()
        && column.default.is_empty()
        && !column.required
}

/// Returns the text of the value of a field in a column of texts; nothing for a null.
#[inline(always)]
fn field_text<'a>(
    alloc: Global,
    column: &'a Column,
    raw: Raw<'a>,
) -> Result<Option<CowStr<'a>>, CellFault>
    requires { datatype_view column.now.datatype ≡ datatype.text }
    ensures value { IfOk result (λ text. value_in (column_view column.now, raw_view raw.entry)
        ≡ Ok (text_or_null (option_map cow_str_bytes text))) }
    ensures fault { IfErr result (λ e. (e ≡ CellFault.NoMemory)
        ⊎ (value_in (column_view column.now, raw_view raw.entry) ≡ Err e)) }
{
    let content = raw.text(alloc)?;
    match string_of(column, content) {
        Some(text) => Ok(Some(text)),
        None if column.required => Err(CellFault::Missing),
        None => Ok(None),
    }
}
