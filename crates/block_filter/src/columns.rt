//! The columns of a block, for conditions.
ghost use Rattle.std.specs.Prelude.{◌<◌, IfOk, IfSome, length};
ghost use Rattle.block_filter.specs.Lanes.{AreColumnsOf, AreTextsOf, IsColumnOf};

use block_eval::BlockColumn;
use std::alloc::{AllocError, Global};
use table_store::Block;
use text_columns::TextColumn;

/// Returns the columns of texts of a block, each at its place.
pub(crate) fn block_texts<'t>(
    alloc: Global,
    block: &Block<'t>,
) -> Result<Vec<Option<TextColumn<'t>>>, AllocError>
    ensures { IfOk result (λ texts. AreTextsOf block.now.rows texts.items) }
{
    block.values_fit();
    let width = block.schema().columns.len();
    let mut texts = Vec::with_capacity(alloc, width)?;
    for col in 0..width {
        texts.push(block.texts(col))?;
    }
    Ok(texts)
}

/// Returns a column of a block, or `None` if the block has neither numbers nor texts of it.
fn column_at<'a, 't>(
    block: &Block<'t>,
    texts: &'a [Option<TextColumn<'t>>],
    col: usize,
) -> Option<BlockColumn<'a>>
    requires col { col < length block.now.schema.columns }
    requires texts { AreTextsOf block.now.rows texts.now }
    ensures { IfSome result (IsColumnOf block.now.rows col) }
{
    block.values_fit();
    if let Some(column) = block.packed(col) {
        return Some(BlockColumn::Packed(column));
    }
    match texts.get(col) {
        Some(Some(texts)) => Some(BlockColumn::Texts(texts)),
        Some(None) | None => None,
    }
}

/// Returns the columns of a block, each at its place.
pub(crate) fn block_columns<'a, 't>(
    alloc: Global,
    block: &Block<'t>,
    texts: &'a [Option<TextColumn<'t>>],
) -> Result<Vec<BlockColumn<'a>>, AllocError>
    requires { AreTextsOf block.now.rows texts.now }
    ensures { IfOk result (λ columns. AreColumnsOf block.now.rows columns.items) }
{
    block.values_fit();
    let width = block.schema().columns.len();
    let mut columns = Vec::with_capacity(alloc, width)?;
    for col in 0..width {
        let Some(column) = column_at(block, texts, col) else {
            return Ok(columns);
        };
        columns.push(column)?;
    }
    Ok(columns)
}
