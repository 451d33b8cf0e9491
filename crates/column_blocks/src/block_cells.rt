//! The cells of a column in one block.
ghost use Rattle.std.specs.Prelude.{◌≡◌, IfOk, length, option_map, slice_index_or};
ghost use Rattle.std.specs.Option.{option_copied};
ghost use Rattle.block_summary.specs.Ranges.{IsRangeOf};
ghost use Rattle.cell_types.specs.Value.{null, value_view};
ghost use Rattle.cell_types.specs.declared.kind.ColumnKind.TheVariants.{Number, Text};
ghost use Rattle.column_blocks.specs.TypedColumn.{blocks_of, cells_of_numbers, cells_of_texts};

use block_summary::{PackedColumn, Range};
use cell_types::{NumberKind, Value};
use std::alloc::{AllocError, Global};
use std::marker::Model;
use std::rc::Rc;
use text_columns::{TextBlock, TextColumn};

/// Numbers, and what they stand for, or texts.
#[derive(Drop)]
pub(crate) enum Kept {
    Numbers(NumberKind, Rc<PackedColumn>),
    Texts(Rc<TextBlock>),
}

/// The cells of a column in one block. They are not copied for another owner, and stay as long as one of their owners does.
#[derive(Drop)]
pub struct BlockCells {
    pub(crate) kept: Kept,
}

impl Model for BlockCells {
    ghost use Rattle.column_blocks.specs.ColumnCells.{ColumnCells};

    ghost Value = { ColumnCells };

    ghost use Rattle.column_blocks.specs.BlockCells.{kept_cells};

    ghost view = { λ c. kept_cells c.kept };
}

/// Returns the value of a row of texts; null past the end.
#[inline(always)]
fn text_value<'t>(texts: &TextColumn<'t>, row: usize) -> Value<'t>
    ensures { value_view result ≡ slice_index_or texts.now row null }
{
    if row >= texts.len() {
        return Value::Null;
    }
    texts.value(row)
}

/// Returns the value of row `row` of `texts`, if a row is given.
fn bound_value<'t>(texts: &TextColumn<'t>, row: Option<usize>) -> Option<Value<'t>>
    ensures { option_map value_view result
        ≡ option_map (λ row. slice_index_or texts.now row null) row }
{
    match row {
        Some(row) => Some(text_value(texts, row)),
        None => None,
    }
}

/// Returns the range of `texts`.
fn text_range(alloc: Global, texts: &TextBlock) -> Result<Range, AllocError>
    ensures { IfOk result (λ range. IsRangeOf range texts.now) }
{
    let column = texts.column();
    let bounds = texts.bounds();
    let least = bound_value(&column, bounds.least);
    let greatest = bound_value(&column, bounds.greatest);
    let range = Range::of_values(alloc, least, greatest, bounds.null_count)?;
    Ok(range)
}

impl BlockCells {
    /// Returns the value of a row; null past the end.
    #[inline(always)]
    pub fn value(&self, row: usize) -> Value<'_>
        ensures { value_view result ≡ slice_index_or self.now.cells row null }
    {
        match &self.kept {
            Kept::Numbers(_, numbers) => numbers.value(row),
            Kept::Texts(texts) => text_value(&texts.column(), row),
        }
    }

    /// Returns the cells as they are packed; nothing for texts.
    #[inline(always)]
    pub fn packed(&self) -> Option<&PackedColumn>
        ensures { option_copied result ≡ cells_of_numbers self.now.kind self.now.cells }
    {
        match &self.kept {
            Kept::Numbers(_, numbers) => Some(numbers.as_ref()),
            Kept::Texts(_) => None,
        }
    }

    /// Returns the texts and nulls; nothing for numbers.
    #[inline(always)]
    pub fn texts(&self) -> Option<TextColumn<'_>>
        ensures { result ≡ cells_of_texts self.now.kind self.now.cells }
    {
        match &self.kept {
            Kept::Numbers(..) => None,
            Kept::Texts(texts) => Some(texts.column()),
        }
    }

    /// Returns the range of the cells.
    pub fn range(&self, alloc: Global) -> Result<Range, AllocError>
        ensures { IfOk result (λ range. IsRangeOf range self.now.cells) }
    {
        match &self.kept {
            Kept::Numbers(_, numbers) => Ok(Range::of_column(numbers)),
            Kept::Texts(texts) => text_range(alloc, texts),
        }
    }

    /// Returns the same cells, for another owner. It takes no memory.
    pub fn shared(&self) -> Result<BlockCells, AllocError>
        ensures { IfOk result (λ shared. shared ≡ self.now) }
    {
        let kept = match &self.kept {
            Kept::Numbers(kind, numbers) => Kept::Numbers(*kind, numbers.clone()?),
            Kept::Texts(texts) => Kept::Texts(texts.clone()?),
        };
        Ok(BlockCells { kept })
    }
}

/// Blocks of numbers, each for any owners.
pub(crate) fn number_blocks(
    alloc: Global,
    kind: NumberKind,
    columns: Vec<PackedColumn>,
) -> Result<Vec<BlockCells>, AllocError>
    ensures { IfOk result (λ blocks. blocks.items ≡ blocks_of (Number kind) columns.items) }
{
    let mut blocks = Vec::with_capacity(alloc, columns.len())?;
    for column in columns {
        let kept = Kept::Numbers(kind, Rc::new(alloc, column)?);
        blocks.push(BlockCells { kept })?;
    }
    Ok(blocks)
}

/// Blocks of texts, each for any owners.
pub(crate) fn text_blocks(
    alloc: Global,
    columns: Vec<TextBlock>,
) -> Result<Vec<BlockCells>, AllocError>
    ensures { IfOk result (λ blocks. blocks.items ≡ blocks_of Text columns.items) }
{
    let mut blocks = Vec::with_capacity(alloc, columns.len())?;
    for column in columns {
        let kept = Kept::Texts(Rc::new(alloc, column)?);
        blocks.push(BlockCells { kept })?;
    }
    Ok(blocks)
}
