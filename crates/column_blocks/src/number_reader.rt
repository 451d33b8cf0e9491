//! The cells of a column of numbers, as the rows of a file are read.
ghost use Rattle.std.specs.Prelude.{◌≡◌, ◌<◌, ◌≤◌, ◌+◌, ◌++◌, ◌⊎◌, true, Ok, Err, [], ◌∷◌, IfOk, IfErr, OnOk, OnErr, length};
ghost use Rattle.std.specs.Option.{ForSome};
ghost use Rattle.cell_types.specs.Kind.{cell_of, kind_of, IsNumberOf};
ghost use Rattle.cell_types.specs.declared.kind.ColumnKind.TheVariants.{Number};
ghost use Rattle.block_summary.specs.declared.block.TheConstants.{BLOCK_ROWS};
ghost use Rattle.cell_types.specs.Column.{column_view};
ghost use Rattle.cell_types.specs.Datatype.{datatype_view};
ghost use Rattle.csv_fields.specs.Raw.{raw_view};
ghost use Rattle.csv_fields.specs.Values.{value_in, value_or_null, HasValue};
ghost use Rattle.column_blocks.specs.Parts.{part_cells, EmptyIsNull, HasCellFault, PartHasValues};
ghost use Rattle.column_blocks.specs.Readers.{numbers_with, numbers_with_cells};
ghost use Rattle.column_blocks.specs.TypedColumn.{cells_in, AreBlocks};

use crate::text_reader::empty_is_null;
use block_summary::{BLOCK_ROWS, CellBuffer, PackedColumn};
use cell_types::{CellFault, Column, NumberKind, read_number};
use csv_fields::{Part, Raw};
use std::alloc::{AllocError, Global};
use std::marker::Model;

/// The cells of a column of numbers that are read one after another.
#[derive(Drop)]
pub struct NumberReader {
    kind: NumberKind,
    /// How many cells there are to be.
    rows: usize,
    /// The blocks that are full.
    blocks: Vec<PackedColumn>,
    /// The cells after them.
    buffer: CellBuffer,
}

impl Model for NumberReader {
    ghost use Rattle.column_blocks.specs.Readers.{NumberReaderOf};

    ghost Value = { NumberReaderOf };

    ghost use Rattle.std.specs.Prelude.{◌≡◌, ◌≤◌, ◌++◌, length, min};
    ghost use Rattle.block_summary.specs.declared.block.TheConstants.{BLOCK_ROWS};
    ghost use Rattle.column_blocks.specs.TypedColumn.{cells_in, AreFull};

    ghost view = { λ r. record {
      kind = r.kind;
      rows = r.rows;
      cells = cells_in r.blocks.items ++ r.buffer.cells;
    } };

    ghost invariant = { λ r. AreFull BLOCK_ROWS r.blocks.items
        × (r.buffer.kind ≡ r.kind)
        × (r.buffer.room ≡ min r.rows BLOCK_ROWS)
        × (length r.buffer.cells ≤ BLOCK_ROWS) };
}

impl NumberReader {
    /// Returns a reader of `rows` cells, none of which is read.
    pub fn new(alloc: Global, kind: NumberKind, rows: usize) -> Result<NumberReader, AllocError>
        ensures { IfOk result
            (λ reader. reader ≡ record { kind = kind; rows = rows; cells = [] }) }
    {
        let buffer = CellBuffer::new(alloc, kind, rows.min(BLOCK_ROWS))?;
        Ok(NumberReader {
            kind,
            rows,
            blocks: Vec::new(alloc),
            buffer,
        })
    }

    pub fn kind(&self) -> NumberKind
        ensures { result ≡ self.now.kind }
    {
        self.kind
    }

    /// Adds the cell of a number, or a null.
    #[inline(always)]
    fn push(&mut self, alloc: Global, number: Option<i64>) -> Result<(), AllocError>
        requires room { length self.old.cells < self.old.rows }
        requires number { ForSome number (IsNumberOf self.old.kind) }
        ensures { OnOk result
            (self.new ≡ numbers_with self.old (cell_of self.old.kind number)) }
    {
        if self.buffer.len() == BLOCK_ROWS {
            end_block(alloc, &mut self.blocks, &mut self.buffer)?;
        }
        self.buffer.push(number);
        Ok(())
    }

    /// Reads the field of the next row. If `empty_is_null`, the empty text is a null, and no fault.
    #[inline(always)]
    fn read(
        &mut self,
        alloc: Global,
        column: &Column,
        raw: Raw<'_>,
        empty_is_null: bool,
    ) -> Result<(), CellFault>
        requires column { kind_of (datatype_view column.now.datatype)
            ≡ Number self.old.kind }
        requires room { length self.old.cells < self.old.rows }
        requires plain { empty_is_null ≡ true → EmptyIsNull (column_view column.now) }
        ensures value { OnOk result (HasValue (column_view column.now) (raw_view raw.entry)) }
        ensures cells { OnOk result (self.new ≡ numbers_with self.old
            (value_or_null (value_in (column_view column.now, raw_view raw.entry)))) }
        ensures fault { IfErr result (λ e. (e ≡ CellFault.NoMemory)
            ⊎ (value_in (column_view column.now, raw_view raw.entry) ≡ Err e)) }
    {
        let number = field_number(alloc, column, self.kind, raw, empty_is_null)?;
        self.push(alloc, number)?;
        Ok(())
    }

    /// Reads the fields of a column in the rows of a part.
    pub fn read_part(
        &mut self,
        alloc: Global,
        column: &Column,
        part: &Part<'_, '_>,
        col: usize,
    ) -> Result<(), CellFault>
        requires column { kind_of (datatype_view column.now.datatype)
            ≡ Number self.old.kind }
        requires room { length self.old.cells + length part.now.rows ≤ self.old.rows }
        requires col { col < part.now.width }
        ensures values { OnOk result (PartHasValues (column_view column.now) col part.now.rows) }
        ensures cells { OnOk result (self.new ≡ numbers_with_cells self.old
            (part_cells (column_view column.now) col part.now.rows)) }
        ensures fault { IfErr result (λ e. (e ≡ CellFault.NoMemory)
            ⊎ HasCellFault (column_view column.now) col part.now.rows e) }
    {
        let plain = empty_is_null(column);
        for row in 0..part.rows() {
            match self.read(alloc, column, part.field(row, col), plain) {
                Ok(()) => {}
                Err(fault) => return Err(fault),
            }
        }
        Ok(())
    }

    /// Returns the blocks of the cells that were read.
    pub fn finish(self, alloc: Global) -> Result<Vec<PackedColumn>, AllocError>
        ensures cells { IfOk result (λ blocks. cells_in blocks.items ≡ self.cells) }
        ensures blocks { IfOk result (λ blocks. AreBlocks BLOCK_ROWS blocks.items) }
    {
        let mut blocks = self.blocks;
        if self.buffer.len() > 0 {
            blocks.push(self.buffer.pack(alloc)?)?;
        }
        Ok(blocks)
    }
}

/// Moves the cells of a buffer into a block after others.
#[inline(never)]
fn end_block(
    alloc: Global,
    blocks: &mut Vec<PackedColumn>,
    buffer: &mut CellBuffer,
) -> Result<(), AllocError>
    ensures blocks { OnOk result
        (blocks.new.items ≡ blocks.old.items ++ buffer.old.cells ∷ []) }
    ensures buffer { OnOk result (buffer.new ≡ record buffer.old { cells = [] }) }
    ensures kept { OnErr result ((blocks.new.items ≡ blocks.old.items)
        × (buffer.new ≡ buffer.old)) }
{
    blocks.push(buffer.pack(alloc)?)?;
    buffer.clear();
    Ok(())
}

/// Returns the number of the value of a field, or null. If `empty_is_null`, the empty text is a null, and no fault.
#[inline(always)]
fn field_number(
    alloc: Global,
    column: &Column,
    kind: NumberKind,
    raw: Raw<'_>,
    empty_is_null: bool,
) -> Result<Option<i64>, CellFault>
    requires column { kind_of (datatype_view column.now.datatype) ≡ Number kind }
    requires plain { empty_is_null ≡ true → EmptyIsNull (column_view column.now) }
    ensures value { IfOk result (λ number.
        value_in (column_view column.now, raw_view raw.entry) ≡ Ok (cell_of kind number)) }
    ensures number { IfOk result (λ number. ForSome number (IsNumberOf kind)) }
    ensures fault { IfErr result (λ e. (e ≡ CellFault.NoMemory)
        ⊎ (value_in (column_view column.now, raw_view raw.entry) ≡ Err e)) }
{
    if empty_is_null && raw.bytes.is_empty() {
        return Ok(None);
    }
    if !raw.quoted {
        return read_number(alloc, column, kind, raw.bytes);
    }
    quoted_number(alloc, column, kind, raw)
}

/// Does what [`field_number`] does, for a field in double quotes.
#[inline(never)]
fn quoted_number(
    alloc: Global,
    column: &Column,
    kind: NumberKind,
    raw: Raw<'_>,
) -> Result<Option<i64>, CellFault>
    requires { kind_of (datatype_view column.now.datatype) ≡ Number kind }
    ensures value { IfOk result (λ number.
        value_in (column_view column.now, raw_view raw.entry) ≡ Ok (cell_of kind number)) }
    ensures number { IfOk result (λ number. ForSome number (IsNumberOf kind)) }
    ensures fault { IfErr result (λ e. (e ≡ CellFault.NoMemory)
        ⊎ (value_in (column_view column.now, raw_view raw.entry) ≡ Err e)) }
{
    let text = raw.text(alloc)?;
    read_number(alloc, column, kind, text.as_str())
}
