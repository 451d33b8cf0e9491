//! Conditions that have no condition as a part.

ghost use Rattle.std.specs.Prelude.{IfOk};
ghost use Rattle.typed_trees.specs.TypedTree.{truth_view};
ghost use Rattle.block_eval.specs.Lanes.{AreOutcomes};

use crate::columns::{BlockColumn, WantedRows};
use crate::comparison::compare_numbers;
use crate::lists::{numbers_in, texts_in};
use crate::relation::{compare_texts, test_texts};
use crate::truths::truths_in;
use number_kernels::{Fallback, same_truth};
use row_eval::{Truth, truth_of};
use std::alloc::Global;
use typed_trees::TruthExpr;

/// Returns the truths of such a condition on the wanted rows of a block; for any other it falls back.
pub fn eval_leaf(
    alloc: Global,
    expr: &TruthExpr,
    columns: &[BlockColumn<'_>],
    wanted: &[bool],
) -> Result<Vec<Truth>, Fallback>
    ensures { IfOk result
        (λ truths. AreOutcomes (truth_view expr.now) columns.now wanted.now truths.items) }
{
    let rows = WantedRows { columns, wanted };
    match expr {
        TruthExpr::Null => {
            let truths = same_truth(alloc, Truth::Null, wanted)?;
            Ok(truths)
        }
        TruthExpr::Literal(value) => {
            let truths = same_truth(alloc, truth_of(*value), wanted)?;
            Ok(truths)
        }
        TruthExpr::Column(place) => truths_in(alloc, columns, *place, wanted),
        TruthExpr::CompareNumbers(operator, left, right) => {
            compare_numbers(alloc, *operator, left, right, rows)
        }
        TruthExpr::CompareTexts(operator, left, right) => {
            compare_texts(alloc, *operator, left, right, rows)
        }
        TruthExpr::TestText(test, text, part) => test_texts(alloc, *test, text, part, rows),
        TruthExpr::NumberIn(operand, items) => numbers_in(alloc, operand, items, columns, wanted),
        TruthExpr::TextIn(operand, items) => texts_in(alloc, operand, items, columns, wanted),
        _ => Err(Fallback::Rows),
    }
}
