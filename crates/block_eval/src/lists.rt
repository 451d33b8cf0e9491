//! Lists of values on the rows of a block (`in`, OData 4.01 URL Conventions, section 5.1.1.1.11): a value is in a list where it equals one
//! of the items. The value is evaluated once.

ghost use Rattle.std.specs.Prelude.{IfOk, map};
ghost use Rattle.typed_trees.specs.TypedTree.{number_in as number_in_of, number_view, optional_text, text_in as text_in_of, text_view};
ghost use Rattle.block_eval.specs.Lanes.{AreOutcomes};

use crate::columns::BlockColumn;
use crate::items::among;
use crate::numbers::bounded_numbers;
use crate::texts::eval_texts;
use number_kernels::Fallback;
use row_eval::Truth;
use std::alloc::Global;
use text_kernels::texts_among;
use typed_trees::{NumberExpr, TextExpr};

/// Returns whether numbers are in a list, on the wanted rows of a block.
pub fn numbers_in(
    alloc: Global,
    operand: &NumberExpr,
    items: &[Option<i128>],
    columns: &[BlockColumn<'_>],
    wanted: &[bool],
) -> Result<Vec<Truth>, Fallback>
    ensures { IfOk result (λ truths. AreOutcomes
        (number_in_of (number_view operand.now) items.now) columns.now wanted.now truths.items) }
{
    let numbers = bounded_numbers(alloc, operand, columns, wanted)?;
    let truths = among(alloc, &numbers, items, wanted.len())?;
    Ok(truths)
}

/// Returns whether texts are in a list, on the wanted rows of a block.
pub fn texts_in(
    alloc: Global,
    operand: &TextExpr,
    items: &[Option<String>],
    columns: &[BlockColumn<'_>],
    wanted: &[bool],
) -> Result<Vec<Truth>, Fallback>
    ensures { IfOk result (λ truths. AreOutcomes
        (text_in_of (text_view operand.now) (map optional_text items.now)) columns.now wanted.now
        truths.items) }
{
    let texts = eval_texts(operand, columns, wanted)?;
    let truths = texts_among(alloc, texts, items, wanted)?;
    Ok(truths)
}
