//! A condition on the rows of a block, a column at a time.

ghost use Rattle.std.specs.Prelude.{◌≡◌, ℕ, false, IfOk, IsTrue, slice_index_or};
ghost use Rattle.typed_trees.specs.TypedTree.{truth_view};
ghost use Rattle.block_eval.specs.Lanes.{AreOutcomesWithin};

use crate::columns::BlockColumn;
use crate::leaf::eval_leaf;
use crate::truths::{compare_truths, truths_among};
use block_summary::Summary;
use number_kernels::{Fallback, conjunction, disjunction, negation, open_rows, same_truth};
use row_eval::Truth;
use std::alloc::Global;
use typed_trees::TruthExpr;
use zone_maps::known_truth;

/// Returns the truths of a condition that has no condition as a part on the wanted rows of a block. If the ranges of the block decide its truth, no
/// column is read.
fn leaf_truths(
    alloc: Global,
    expr: &TruthExpr,
    columns: &[BlockColumn<'_>],
    summary: &Summary,
    wanted: &[bool],
) -> Result<Vec<Truth>, Fallback>
    ensures { IfOk result (λ truths. AreOutcomesWithin (truth_view expr.now) summary.now columns.now
        wanted.now truths.items) }
{
    if let Some(truth) = known_truth(expr, summary) {
        let truths = same_truth(alloc, truth, wanted)?;
        return Ok(truths);
    }
    let truths = eval_leaf(alloc, expr, columns, wanted)?;
    Ok(truths)
}

/// Returns true if no row is wanted.
fn none_is_wanted(wanted: &[bool]) -> bool
    ensures { IsTrue result → (row : ℕ) → slice_index_or wanted.now row false ≡ false }
{
    for is_wanted in wanted {
        if *is_wanted {
            return false;
        }
    }
    true
}

/// Returns the truths of a condition on the wanted rows of a block. If it falls back, the rows are to be evaluated one by one; nothing says
/// when it does. The right side of `and` is evaluated on those rows alone whose left side is not false, that of `or` on those whose left
/// side is not true. Nothing is evaluated if no row is wanted.
pub fn eval_block(
    alloc: Global,
    expr: &TruthExpr,
    columns: &[BlockColumn<'_>],
    summary: &Summary,
    wanted: &[bool],
) -> Result<Vec<Truth>, Fallback>
    ensures { IfOk result (λ truths. AreOutcomesWithin (truth_view expr.now) summary.now columns.now
        wanted.now truths.items) }
{
    if none_is_wanted(wanted) {
        return Ok(same_truth(alloc, Truth::False, wanted)?);
    }
    match expr {
        TruthExpr::Not(operand) => {
            let truths = eval_block(alloc, operand, columns, summary, wanted)?;
            Ok(negation(truths))
        }
        TruthExpr::And(left, right) => {
            let left = eval_block(alloc, left, columns, summary, wanted)?;
            let asked = open_rows(alloc, wanted, left.as_slice(), Truth::False)?;
            let right = eval_block(alloc, right, columns, summary, asked.as_slice())?;
            Ok(conjunction(left, right))
        }
        TruthExpr::Or(left, right) => {
            let left = eval_block(alloc, left, columns, summary, wanted)?;
            let asked = open_rows(alloc, wanted, left.as_slice(), Truth::True)?;
            let right = eval_block(alloc, right, columns, summary, asked.as_slice())?;
            Ok(disjunction(left, right))
        }
        TruthExpr::CompareTruths(operator, left, right) => {
            let left = eval_block(alloc, left, columns, summary, wanted)?;
            let right = eval_block(alloc, right, columns, summary, wanted)?;
            compare_truths(alloc, *operator, left.as_slice(), right.as_slice())
        }
        TruthExpr::TruthIn(operand, items) => {
            let truths = eval_block(alloc, operand, columns, summary, wanted)?;
            truths_among(alloc, truths.as_slice(), items)
        }
        _ => leaf_truths(alloc, expr, columns, summary, wanted),
    }
}
