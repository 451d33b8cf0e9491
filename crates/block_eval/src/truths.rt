//! The truths of a column, and truths as values: compared with one another, and in lists. Both sides of a comparison are evaluated, and what it says is never null.

ghost use Rattle.std.specs.Prelude.{◌≡◌, ◌<◌, ℕ, true, Some, IfOk, length, map, option_map};
ghost use Rattle.std.specs.Ordering.{bool_cmp};
ghost use Rattle.row_eval.specs.Comparison.{is_among};
ghost use Rattle.row_eval.specs.Logic.{option_of_truth, truth_of, truth_of_option};
ghost use Rattle.row_eval.specs.Row.{boolean_in, cell};
ghost use Rattle.block_eval.specs.Columns.{number_at};
ghost use Rattle.block_eval.specs.Lanes.{truth_lane, GivesTruths, HasTruths};
ghost use Rattle.cell_types.specs.Kind.{number_of_truth};
ghost use Rattle.block_eval.specs.Truths.{truth_comparison, AreTruthNumbers};

use crate::bounded::Bounded;
use crate::columns::BlockColumn;
use crate::items::among;
use crate::packed::{Unpacked, unpacked_at};
use cell_types::{ComparisonOperator, NumberKind};
use number_kernels::{Fallback, Numbers, compare, truths_of};
use row_eval::Truth;
use std::alloc::{AllocError, Global};

/// Returns the number of a boolean.
#[inline(always)]
fn number_of(value: bool) -> i64
    ensures { result ≡ number_of_truth value }
{
    if value { 1 } else { 0 }
}

/// Writes the numbers of truths, and which of them are null.
fn number_each(truths: &[Truth], values: &mut [i64], nulls: &mut [bool])
    requires values { length values.old ≡ length truths.now }
    requires nulls { length nulls.old ≡ length truths.now }
    ensures { (i : ℕ) → i < length truths.now → number_at values.new nulls.new i
        ≡ option_map number_of_truth (option_of_truth (truth_lane truths.now i)) }
{
    for i in 0..truths.len() {
        values[i] = number_of(truths[i] == Truth::True);
        nulls[i] = truths[i] == Truth::Null;
    }
}

/// Truths as numbers.
fn truth_numbers<'a>(alloc: Global, truths: &[Truth]) -> Result<Numbers<'a>, Fallback>
    ensures { IfOk result (AreTruthNumbers truths.now) }
{
    let mut values = Vec::from_elem(alloc, 0i64, truths.len())?;
    let mut nulls = Vec::from_elem(alloc, true, truths.len())?;
    number_each(truths, values.as_mut_slice(), nulls.as_mut_slice());
    Ok(Numbers::Computed(values, nulls))
}

/// Returns the number of an item.
fn truth_item(item: Option<bool>) -> Option<i128>
    ensures { result ≡ option_map number_of_truth item }
{
    match item {
        Some(value) => Some(i128::from(number_of(value))),
        None => None,
    }
}

/// Returns the numbers of the items.
fn truth_items(alloc: Global, items: &[Option<bool>]) -> Result<Vec<Option<i128>>, AllocError>
    ensures { IfOk result (λ numbers. numbers.items ≡ map (option_map number_of_truth) items.now) }
{
    let mut numbers = Vec::with_capacity(alloc, items.len())?;
    for item in items {
        numbers.push(truth_item(*item))?;
    }
    Ok(numbers)
}

/// Returns whether a comparison holds between truths, row by row.
pub fn compare_truths(
    alloc: Global,
    operator: ComparisonOperator,
    left: &[Truth],
    right: &[Truth],
) -> Result<Vec<Truth>, Fallback>
    requires { length left.now ≡ length right.now }
    ensures { IfOk result (λ truths. HasTruths (length right.now)
        (λ row. truth_comparison operator (truth_lane left.now row) (truth_lane right.now row))
        truths.items) }
{
    let rows = right.len();
    let left = truth_numbers(alloc, left)?;
    let right = truth_numbers(alloc, right)?;
    let truths = compare(alloc, operator, &left, &right, rows)?;
    Ok(truths)
}

/// Returns whether truths are in a list, row by row.
pub fn truths_among(
    alloc: Global,
    truths: &[Truth],
    items: &[Option<bool>],
) -> Result<Vec<Truth>, Fallback>
    ensures { IfOk result (λ found. HasTruths (length truths.now)
        (λ row. truth_of (is_among bool_cmp (option_of_truth (truth_lane truths.now row))
        items.now)) found.items) }
{
    let items = truth_items(alloc, items)?;
    let numbers = truth_numbers(alloc, truths)?;
    let numbers = Bounded {
        numbers,
        bounds: None,
    };
    let found = among(alloc, &numbers, items.as_slice(), truths.len())?;
    Ok(found)
}

/// Returns the truths of a column.
pub fn truths_in(
    alloc: Global,
    columns: &[BlockColumn<'_>],
    place: usize,
    wanted: &[bool],
) -> Result<Vec<Truth>, Fallback>
    ensures { IfOk result (λ truths. GivesTruths
        (λ cells. Some (truth_of_option (cell boolean_in cells place))) columns.now wanted.now
        truths.items) }
{
    let Unpacked { values, nulls, .. } = unpacked_at(
        alloc,
        columns,
        place,
        NumberKind::Boolean,
        wanted.len(),
    )?;
    let truths = truths_of(alloc, values.as_slice(), nulls.as_slice())?;
    Ok(truths)
}
