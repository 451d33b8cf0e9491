//! One more condition on selected rows of a block.
ghost use Rattle.std.specs.Prelude.{◌≡◌, ◌<◌, ◌≤◌, ◌^◌, [], IfOk, false, filter, length, slice_index_or, true};
ghost use Rattle.std.specs.List.{All};
ghost use Rattle.typed_trees.specs.TypedTree.{truth_view};
ghost use Rattle.row_eval.specs.Bounds.{TruthFits};
ghost use Rattle.query_meaning.specs.Filter.{passes};

use crate::columns::{block_columns, block_texts};
use crate::passing::narrow_by;
use row_selection::Selection;
use std::alloc::{AllocError, Global};
use table_store::Block;
use typed_trees::TruthExpr;

/// Returns a mark for each row of a block of `rows` rows: true if its number is among some.
fn marks_of(alloc: Global, numbers: &Selection, rows: usize) -> Result<Vec<bool>, AllocError>
    requires { All (λ number. number < rows) numbers.now }
    ensures long { IfOk result (λ marks. length marks.items ≡ rows) }
    ensures marked { IfOk result
        (λ marks. All (λ number. slice_index_or marks.items number false ≡ true) numbers.now) }
{
    if numbers.len() == rows {
        return Vec::from_elem(alloc, true, rows);
    }
    let mut marks = Vec::from_elem(alloc, false, rows)?;
    for place in 0..numbers.len() {
        marks[numbers.at(place)] = true;
    }
    Ok(marks)
}

/// Returns the numbers whose marks are true.
fn marked_numbers(
    alloc: Global,
    numbers: &Selection,
    marks: &[bool],
) -> Result<Selection, AllocError>
    requires few { length marks.now ≤ 2 ^ 16 }
    requires within { All (λ number. number < length marks.now) numbers.now }
    ensures { IfOk result (λ made. made
        ≡ filter (λ number. slice_index_or marks.now number false) numbers.now) }
{
    let mut made = Vec::with_capacity(alloc, numbers.len())?;
    for place in 0..numbers.len() {
        let number = numbers.at(place);
        if marks[number] {
            made.push(number as u16)?;
        }
    }
    Ok(Selection::few(made))
}

/// Returns the numbers of those of the rows on which a condition is true: null is not, and a division by zero is not.
pub fn passing_numbers(
    alloc: Global,
    condition: &TruthExpr,
    block: &Block<'_>,
    numbers: &Selection,
) -> Result<Selection, AllocError>
    requires within { All (λ number. number < length block.now.rows) numbers.now }
    requires fits { All (TruthFits (truth_view condition.now)) block.now.rows }
    ensures { IfOk result (λ made. made ≡ filter (λ number. passes (truth_view condition.now)
        (slice_index_or block.now.rows number [])) numbers.now) }
{
    block.rows_are_few();
    let mut wanted = marks_of(alloc, numbers, block.rows())?;
    let texts = block_texts(alloc, block)?;
    let columns = block_columns(alloc, block, texts.as_slice())?;
    let _faults = narrow_by(alloc, condition, block, &columns, wanted.as_mut_slice())?;
    marked_numbers(alloc, numbers, wanted.as_slice())
}
