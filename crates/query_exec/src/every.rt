//! The rows of a block that go on where a plan begins with no condition: all of them.
ghost use Rattle.std.specs.Prelude.{◌≡◌, IfOk, false, map};
ghost use Rattle.std.specs.List.{All};
ghost use Rattle.typed_trees.specs.TypedTree.{boxed_truth};
ghost use Rattle.block_filter.specs.Conditions.{ConditionsFit};
ghost use Rattle.block_filter.specs.Passing.{ArePassing};
ghost use Rattle.row_selection.specs.Numbers.{numbers_from};

use block_filter::{Passed, filter_block};
use row_selection::Selection;
use std::alloc::{AllocError, Global};
use table_store::Block;
use typed_trees::TruthExpr;

/// Returns all rows, as they are found. It takes no memory.
fn every_row(rows: usize) -> Passed
    ensures rows { result.rows ≡ numbers_from 0 rows }
    ensures count { result.count ≡ rows }
    ensures faulted { result.faulted ≡ false }
{
    Passed {
        rows: Selection::all(rows),
        count: rows,
        faulted: false,
    }
}

/// Returns what conditions make of the rows of a block, as [`filter_block`] finds it. Without conditions no row is looked at, unless a limit counts them.
pub(crate) fn found_rows(
    alloc: Global,
    conditions: &[Box<TruthExpr>],
    block: &Block<'_>,
    most: Option<u64>,
) -> Result<Passed, AllocError>
    requires { All (ConditionsFit (map boxed_truth conditions.now)) block.now.rows }
    ensures { IfOk result (ArePassing (map boxed_truth conditions.now) most block.now.rows) }
{
    if conditions.is_empty() && most.is_none() {
        return Ok(every_row(block.rows()));
    }
    filter_block(alloc, conditions, block, most)
}
