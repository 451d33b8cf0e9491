//! The rows of a block that pass the conditions of a plan, found a column at a time.
ghost use Rattle.std.specs.Prelude.{◌≡◌, ◌<◌, ◌&&◌, ℕ, IfOk, length, map, replicate, slice_index_or, false, true};
ghost use Rattle.std.specs.List.{All, count_by};
ghost use Rattle.block_eval.specs.Lanes.{truth_lane};
ghost use Rattle.typed_trees.specs.TypedTree.{boxed_truth, truth_view};
ghost use Rattle.row_eval.specs.Bounds.{TruthFits};
ghost use Rattle.block_filter.specs.Conditions.{ConditionsFit};
ghost use Rattle.block_filter.specs.Lanes.{AreColumnsOf};
ghost use Rattle.block_filter.specs.Marks.{is_marked, keeps_row, HoldsOnMarked};
ghost use Rattle.block_filter.specs.Passing.{IsNarrowedBy, Narrows};

use crate::columns::{block_columns, block_texts};
use crate::rows::narrow_by_rows;
use block_eval::{BlockColumn, Fallback, eval_block};
use row_eval::Truth;
use std::alloc::{AllocError, Global};
use table_store::Block;
use typed_trees::TruthExpr;

/// The rows of a block that conditions leave.
#[derive(Drop)]
pub(crate) struct Narrowed {
    /// A mark for each row: true if all of the conditions are true on it.
    pub(crate) wanted: Vec<bool>,
    /// True if one of the conditions, in turn, divides by zero on a row.
    pub(crate) faulted: bool,
}

/// Leaves those rows wanted whose truth is true.
fn keep_true(truths: &[Truth], wanted: &mut [bool])
    requires { length truths.now ≡ length wanted.old }
    ensures { (row : ℕ) → row < length wanted.old → slice_index_or wanted.new row false
        ≡ (slice_index_or wanted.old row false && keeps_row (truth_lane truths.now row)) }
{
    for row in 0..wanted.len() {
        wanted[row] = wanted[row] & (truths[row] == Truth::True);
    }
}

/// Leaves those rows of a block wanted on which a condition is true: column by column if possible, else one wanted row after another. Returns whether the
/// condition divides by zero on a wanted row.
pub(crate) fn narrow_by(
    alloc: Global,
    condition: &TruthExpr,
    block: &Block<'_>,
    columns: &[BlockColumn<'_>],
    wanted: &mut [bool],
) -> Result<bool, AllocError>
    requires columns { AreColumnsOf block.now.rows columns.now }
    requires long { length wanted.old ≡ length block.now.rows }
    requires fits { HoldsOnMarked (TruthFits (truth_view condition.now)) wanted.old block.now.rows }
    ensures { IfOk result
        (Narrows (truth_view condition.now) block.now.rows wanted.old wanted.new) }
{
    block.values_fit();
    match eval_block(alloc, condition, columns, block.summary(), wanted) {
        Ok(truths) => {
            keep_true(truths.as_slice(), wanted);
            Ok(false)
        }
        Err(Fallback::Rows) => narrow_by_rows(alloc, condition, block, wanted),
        Err(Fallback::NoMemory) => Err(AllocError),
    }
}

/// Returns how many rows are wanted.
pub(crate) fn count_of(wanted: &[bool]) -> usize
    ensures { result ≡ count_by is_marked wanted.now }
{
    let mut count = 0;
    for is_wanted in wanted {
        count += usize::from(*is_wanted);
    }
    count
}

/// Narrows the rows of a block, all of which are wanted, by conditions in turn. Without conditions no room is made.
pub(crate) fn passing_rows(
    alloc: Global,
    conditions: &[Box<TruthExpr>],
    block: &Block<'_>,
    mut wanted: Vec<bool>,
) -> Result<Narrowed, AllocError>
    requires wanted { wanted.items ≡ replicate (length block.now.rows) true }
    requires fits { All (ConditionsFit (map boxed_truth conditions.now)) block.now.rows }
    ensures { IfOk result (IsNarrowedBy (map boxed_truth conditions.now) block.now.rows) }
{
    let mut faulted = false;
    if conditions.is_empty() {
        return Ok(Narrowed { wanted, faulted });
    }
    let texts = block_texts(alloc, block)?;
    let columns = block_columns(alloc, block, texts.as_slice())?;
    for condition in conditions {
        if count_of(&wanted) == 0 {
            return Ok(Narrowed { wanted, faulted });
        }
        let faults = narrow_by(alloc, condition, block, &columns, wanted.as_mut_slice())?;
        faulted = faulted | faults;
    }
    Ok(Narrowed { wanted, faulted })
}
