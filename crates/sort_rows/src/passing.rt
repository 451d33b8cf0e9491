//! The rows that pass a filter (OData 4.01 URL Conventions, section 5.1.2).
ghost use Rattle.std.specs.Prelude.{◌<◌, [], true, length, slice_index_or};
ghost use Rattle.std.specs.List.{All};
ghost use Rattle.typed_trees.specs.TypedTree.{truth_view};
ghost use Rattle.row_eval.specs.Bounds.{TruthFits};
ghost use Rattle.query_meaning.specs.Filter.{passing};
ghost use Rattle.row_eval.specs.Outcome.{truth_outcome};
ghost use Rattle.row_eval.specs.Result.{Evaluates};
ghost use Rattle.row_columns.specs.Picked.{numbered};
ghost use Rattle.sort_rows.specs.Numbers.{GivesOrder};

use query_meaning::true_rows_pass;
use row_columns::Columns;
use row_eval::{EvalFault, Truth, eval_truth};
use std::alloc::{AllocError, Global};
use typed_trees::TruthExpr;

/// Returns whether a condition is true on a row.
fn truth_on(
    alloc: Global,
    columns: &Columns,
    number: usize,
    condition: &TruthExpr,
) -> Result<Truth, EvalFault>
    requires within { number < length columns.now.rows }
    requires fits { TruthFits (truth_view condition.now)
        (slice_index_or columns.now.rows number []) }
    ensures { Evaluates (λ t. t) (truth_outcome (truth_view condition.now)
        (slice_index_or columns.now.rows number [])) true result }
{
    let row = columns.row(alloc, number)?;
    Ok(eval_truth(alloc, condition, row.as_slice())?)
}

/// Returns the numbers of those rows on which a condition is true, in their order; a division by zero if there is one on any of the rows.
pub fn passing_numbers(
    alloc: Global,
    columns: &Columns,
    numbers: &[usize],
    condition: &TruthExpr,
) -> Result<Vec<usize>, EvalFault>
    requires within { All (λ n. n < length columns.now.rows) numbers.now }
    requires fits { All (TruthFits (truth_view condition.now))
        (numbered numbers.now columns.now.rows) }
    ensures { GivesOrder (passing (truth_view condition.now)) columns.now.rows numbers.now result }
{
    true_rows_pass();
    let mut passing = Vec::new(alloc);
    for number in numbers {
        match truth_on(alloc, columns, *number, condition)? {
            Truth::True => passing.push(*number).map_err(AllocError::from)?,
            Truth::False => {}
            Truth::Null => {}
        }
    }
    Ok(passing)
}
