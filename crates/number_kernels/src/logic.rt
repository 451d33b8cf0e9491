//! Three-valued logic on the rows of a block.

ghost use Rattle.std.specs.Prelude.{◌≡◌, ◌≢◌, ◌<◌, ℕ, pos, true, false, IfOk, IsTrue, length, slice_index_or};
ghost use Rattle.row_eval.specs.Logic.{greatest as greatest_of, least as least_of, opposite as opposite_of};
ghost use Rattle.number_kernels.specs.Lanes.{truth_in, truth_lane, AreAsked, HasTruths};

use crate::fallback::Fallback;
use row_eval::{Truth, greatest, least, opposite, truth_of};
use std::alloc::Global;

/// Joins truths by `and`, in place of the left sides.
fn least_each(left: &mut [Truth], right: &[Truth])
    requires { length left.old ≡ length right.now }
    ensures { (i : ℕ) → i < length left.new → truth_lane left.new i
        ≡ least_of (truth_lane left.old i) (truth_lane right.now i) }
{
    for i in 0..left.len() {
        left[i] = least(left[i], right[i]);
    }
}

/// Joins truths by `or`, in place of the left sides.
fn greatest_each(left: &mut [Truth], right: &[Truth])
    requires { length left.old ≡ length right.now }
    ensures { (i : ℕ) → i < length left.new → truth_lane left.new i
        ≡ greatest_of (truth_lane left.old i) (truth_lane right.now i) }
{
    for i in 0..left.len() {
        left[i] = greatest(left[i], right[i]);
    }
}

/// Turns truths by `not`, in place.
fn opposite_each(truths: &mut [Truth])
    ensures { (i : ℕ) → i < length truths.new → truth_lane truths.new i
        ≡ opposite_of (truth_lane truths.old i) }
{
    for i in 0..truths.len() {
        truths[i] = opposite(truths[i]);
    }
}

/// Takes out of the wanted rows those whose truth is this one.
fn close_each(wanted: &mut [bool], truths: &[Truth], closed: Truth)
    requires { length wanted.old ≡ length truths.now }
    ensures open { (i : ℕ) → IsTrue (slice_index_or wanted.old i false)
        → truth_lane truths.now i ≢ closed → IsTrue (slice_index_or wanted.new i false) }
    ensures alone { (i : ℕ) → IsTrue (slice_index_or wanted.new i false)
        → IsTrue (slice_index_or wanted.old i false) × (truth_lane truths.now i ≢ closed) }
{
    for i in 0..wanted.len() {
        wanted[i] = wanted[i] & (truths[i] != closed);
    }
}

/// Returns the wanted rows whose truth is another than this one.
pub fn open_rows(
    alloc: Global,
    wanted: &[bool],
    truths: &[Truth],
    closed: Truth,
) -> Result<Vec<bool>, Fallback>
    requires { length truths.now ≡ length wanted.now }
    ensures { IfOk result (λ asked. AreAsked wanted.now truths.now closed asked.items) }
{
    let mut asked = Vec::from_slice(alloc, wanted)?;
    close_each(asked.as_mut_slice(), truths, closed);
    Ok(asked)
}

/// Returns the `and` of truths, row by row.
pub fn conjunction(mut left: Vec<Truth>, right: Vec<Truth>) -> Vec<Truth>
    requires { length left.items ≡ length right.items }
    ensures { HasTruths (length right.items)
        (λ row. least_of (truth_lane left.items row) (truth_lane right.items row)) result.items }
{
    least_each(left.as_mut_slice(), right.as_slice());
    left
}

/// Returns the `or` of truths, row by row.
pub fn disjunction(mut left: Vec<Truth>, right: Vec<Truth>) -> Vec<Truth>
    requires { length left.items ≡ length right.items }
    ensures { HasTruths (length right.items)
        (λ row. greatest_of (truth_lane left.items row) (truth_lane right.items row)) result.items }
{
    greatest_each(left.as_mut_slice(), right.as_slice());
    left
}

/// Returns the `not` of truths, row by row.
pub fn negation(mut truths: Vec<Truth>) -> Vec<Truth>
    ensures { HasTruths (length truths.items) (λ row. opposite_of (truth_lane truths.items row))
        result.items }
{
    opposite_each(truths.as_mut_slice());
    truths
}

/// Returns the same truth on each row.
pub fn same_truth(alloc: Global, truth: Truth, wanted: &[bool]) -> Result<Vec<Truth>, Fallback>
    ensures { IfOk result (λ truths. HasTruths (length wanted.now) (λ row. truth) truths.items) }
{
    Ok(Vec::from_elem(alloc, truth, wanted.len())?)
}

/// Returns the truth that a number stands for, with a mark that it is null.
#[inline(always)]
fn truth_at(null: bool, number: i64) -> Truth
    ensures { result ≡ truth_in null number }
{
    let truth = truth_of(number == 1);
    if null { Truth::Null } else { truth }
}

/// Writes the truths that numbers stand for, row by row.
fn truth_each(values: &[i64], nulls: &[bool], out: &mut [Truth])
    requires values { length values.now ≡ length out.old }
    requires nulls { length nulls.now ≡ length out.old }
    ensures { (i : ℕ) → i < length out.new → truth_lane out.new i
        ≡ truth_in (slice_index_or nulls.now i true) (slice_index_or values.now i (pos 0)) }
{
    for i in 0..out.len() {
        out[i] = truth_at(nulls[i], values[i]);
    }
}

/// Returns the truths that numbers stand for.
pub fn truths_of(alloc: Global, values: &[i64], nulls: &[bool]) -> Result<Vec<Truth>, Fallback>
    requires { length nulls.now ≡ length values.now }
    ensures { IfOk result (λ truths. HasTruths (length values.now)
        (λ row. truth_in (slice_index_or nulls.now row true)
        (slice_index_or values.now row (pos 0))) truths.items) }
{
    let mut truths = Vec::from_elem(alloc, Truth::False, values.len())?;
    truth_each(values, nulls, truths.as_mut_slice());
    Ok(truths)
}
