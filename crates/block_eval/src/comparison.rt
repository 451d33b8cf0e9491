//! Comparisons of numbers on the wanted rows of a block.

ghost use Rattle.std.specs.Prelude.{IfOk};
ghost use Rattle.typed_trees.specs.TypedTree.{compare_numbers as numbers_compared, number_view};
ghost use Rattle.block_eval.specs.Lanes.{AreOutcomesOf};

use crate::columns::WantedRows;
use crate::numbers::eval_numbers;
use crate::spans::{column_and_span, compare_span};
use cell_types::ComparisonOperator;
use number_kernels::{Fallback, compare};
use row_eval::Truth;
use std::alloc::Global;
use typed_trees::NumberExpr;

/// Returns whether a comparison holds between numbers, on the wanted rows of a block.
pub fn compare_numbers(
    alloc: Global,
    operator: ComparisonOperator,
    left: &NumberExpr,
    right: &NumberExpr,
    rows: WantedRows<'_, '_>,
) -> Result<Vec<Truth>, Fallback>
    ensures { IfOk result (λ truths. AreOutcomesOf
        (numbers_compared operator (number_view left.now) (number_view right.now)) rows.entry
        truths.items) }
{
    let WantedRows { columns, wanted } = rows;
    if let Some((column, span)) = column_and_span(left, right, columns, wanted.len()) {
        let truths = compare_span(alloc, operator, column, span)?;
        return Ok(truths);
    }
    let left = eval_numbers(alloc, left, columns, wanted)?;
    let right = eval_numbers(alloc, right, columns, wanted)?;
    let truths = compare(alloc, operator, &left, &right, wanted.len())?;
    Ok(truths)
}
