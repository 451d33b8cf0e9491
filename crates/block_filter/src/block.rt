//! The rows of a block that pass conditions.
ghost use Rattle.std.specs.Prelude.{◌≡◌, ◌≤◌, IfOk, List, length, map, take};
ghost use Rattle.std.specs.List.{All};
ghost use Rattle.cell_types.specs.Value.{CellValue};
ghost use Rattle.typed_trees.specs.TypedTree.{boxed_truth};
ghost use Rattle.query_meaning.specs.Meaning.{first_rows};
ghost use Rattle.block_filter.specs.Conditions.{ConditionsFit};
ghost use Rattle.block_filter.specs.Passing.{ArePassing};

use crate::passing::{Narrowed, count_of, passing_rows};
use row_selection::Selection;
use std::alloc::{AllocError, Global};
use table_store::Block;
use typed_trees::TruthExpr;

/// What conditions make of the rows of a block.
#[derive(Drop)]
pub struct Passed {
    /// The first of the rows on which all of them are true.
    pub rows: Selection,
    /// How many rows there are on which all of them are true.
    pub count: usize,
    /// Whether one of them, in turn, divides by zero on a row.
    pub faulted: bool,
}

/// Returns how many of `rows` rows are the first ones that are asked for: all of them if there is no limit.
fn limit_of(most: Option<u64>, rows: usize) -> usize
    ensures { (xs : List (List CellValue)) → length xs ≤ rows
        → take result xs ≡ first_rows most xs }
{
    match most {
        Some(most) if most < rows as u64 => most as usize,
        Some(_) | None => rows,
    }
}

/// Returns what conditions make of the rows of a block, with the first `most` rows that pass, or all of them if `most` is `None`. Each condition is
/// evaluated column by column if possible, else one by one on the rows that the conditions before it left.
pub fn filter_block(
    alloc: Global,
    conditions: &[Box<TruthExpr>],
    block: &Block<'_>,
    most: Option<u64>,
) -> Result<Passed, AllocError>
    requires { All (ConditionsFit (map boxed_truth conditions.now)) block.now.rows }
    ensures { IfOk result (ArePassing (map boxed_truth conditions.now) most block.now.rows) }
{
    block.rows_are_few();
    let limit = limit_of(most, block.rows());
    let all = Vec::from_elem(alloc, true, block.rows())?;
    let Narrowed { wanted, faulted } = passing_rows(alloc, conditions, block, all)?;
    let count = count_of(&wanted);
    let rows = Selection::of_marks(alloc, &wanted, count, limit)?;
    Ok(Passed {
        rows,
        count,
        faulted,
    })
}
