//! What comparisons, `contains`, `startswith` and `endswith` say of texts on the wanted rows of a block.

ghost use Rattle.std.specs.Prelude.{IfOk};
ghost use Rattle.typed_trees.specs.TypedTree.{compare_texts as texts_compared, test_text as text_tested, text_view};
ghost use Rattle.block_eval.specs.Lanes.{AreOutcomesOf};

use crate::columns::WantedRows;
use crate::texts::eval_texts;
use cell_types::ComparisonOperator;
use number_kernels::Fallback;
use row_eval::Truth;
use std::alloc::Global;
use text_kernels::{TextRelation, relate};
use typed_trees::{TextExpr, TextTest};

/// Returns whether a comparison holds between texts, on the wanted rows of a block.
pub fn compare_texts(
    alloc: Global,
    operator: ComparisonOperator,
    left: &TextExpr,
    right: &TextExpr,
    rows: WantedRows<'_, '_>,
) -> Result<Vec<Truth>, Fallback>
    ensures { IfOk result (λ truths. AreOutcomesOf
        (texts_compared operator (text_view left.now) (text_view right.now)) rows.entry
        truths.items) }
{
    let WantedRows { columns, wanted } = rows;
    let left = eval_texts(left, columns, wanted)?;
    let right = eval_texts(right, columns, wanted)?;
    let relation = TextRelation::Comparison(operator);
    let truths = relate(alloc, relation, left, right, wanted)?;
    Ok(truths)
}

/// Returns what `contains`, `startswith` and `endswith` say of texts, on the wanted rows of a block.
pub fn test_texts(
    alloc: Global,
    test: TextTest,
    text: &TextExpr,
    part: &TextExpr,
    rows: WantedRows<'_, '_>,
) -> Result<Vec<Truth>, Fallback>
    ensures { IfOk result (λ truths. AreOutcomesOf
        (text_tested test (text_view text.now) (text_view part.now)) rows.entry truths.items) }
{
    let WantedRows { columns, wanted } = rows;
    let texts = eval_texts(text, columns, wanted)?;
    let parts = eval_texts(part, columns, wanted)?;
    let truths = relate(alloc, TextRelation::Test(test), texts, parts, wanted)?;
    Ok(truths)
}
