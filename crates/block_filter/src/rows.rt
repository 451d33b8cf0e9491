//! A condition on the wanted rows of a block, one row after another.
ghost use Rattle.std.specs.Prelude.{◌≡◌, ◌<◌, [], IfOk, OnOk, length, map, slice_index_or};
ghost use Rattle.cell_types.specs.Value.{value_view};
ghost use Rattle.typed_trees.specs.TypedTree.{truth_view};
ghost use Rattle.row_eval.specs.Bounds.{TruthFits};
ghost use Rattle.row_eval.specs.Outcome.{truth_outcome};
ghost use Rattle.row_eval.specs.Row.{row_view};
ghost use Rattle.query_meaning.specs.Filter.{is_true as is_true_outcome};
ghost use Rattle.block_filter.specs.Marks.{HoldsOnMarked};
ghost use Rattle.block_filter.specs.Passing.{Narrows};

use cell_types::Value;
use row_eval::{EvalFault, Truth, eval_truth};
use std::alloc::{AllocError, Global};
use table_store::Block;
use typed_trees::TruthExpr;

/// Returns the truth of a condition on a row, or `None` if it divides by zero.
fn outcome_at(
    alloc: Global,
    condition: &TruthExpr,
    row: &[Value<'_>],
) -> Result<Option<Truth>, AllocError>
    requires { TruthFits (truth_view condition.now) (row_view row.now) }
    ensures { IfOk result (λ outcome.
        outcome ≡ truth_outcome (truth_view condition.now) (row_view row.now)) }
{
    match eval_truth(alloc, condition, row) {
        Ok(truth) => Ok(Some(truth)),
        Err(EvalFault::DivisionByZero) => Ok(None),
        Err(EvalFault::NoMemory) => Err(AllocError),
    }
}

/// Returns true if an outcome is true: null is not, and a division by zero is not.
fn is_true(outcome: Option<Truth>) -> bool
    ensures { result ≡ is_true_outcome outcome }
{
    matches!(outcome, Some(Truth::True))
}

/// Reads the values of a row of a block, counted from 0, in place of the values that were read before.
fn read_row<'t>(
    alloc: Global,
    block: &Block<'t>,
    row: usize,
    values: &mut Vec<Value<'t>>,
) -> Result<(), AllocError>
    requires { row < length block.now.rows }
    ensures { OnOk result
        (map value_view values.new.items ≡ slice_index_or block.now.rows row []) }
{
    block.values_fit();
    values.clear();
    for col in 0..block.schema().columns.len() {
        values.push(block.value(alloc, row, col)?)?;
    }
    Ok(())
}

/// Leaves those rows of a block wanted on which a condition is true. Returns whether the condition divides by zero on a wanted row.
pub(crate) fn narrow_by_rows(
    alloc: Global,
    condition: &TruthExpr,
    block: &Block<'_>,
    wanted: &mut [bool],
) -> Result<bool, AllocError>
    requires long { length wanted.old ≡ length block.now.rows }
    requires fits { HoldsOnMarked (TruthFits (truth_view condition.now)) wanted.old block.now.rows }
    ensures { IfOk result
        (Narrows (truth_view condition.now) block.now.rows wanted.old wanted.new) }
{
    let mut values = Vec::new(alloc);
    let mut faulted = false;
    for row in 0..wanted.len() {
        if wanted[row] {
            read_row(alloc, block, row, &mut values)?;
            let outcome = outcome_at(alloc, condition, &values)?;
            wanted[row] = is_true(outcome);
            faulted = faulted | outcome.is_none();
        }
    }
    Ok(faulted)
}
