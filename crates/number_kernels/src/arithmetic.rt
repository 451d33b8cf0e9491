//! Sums, differences and products on the rows of a block (OData 4.01 URL Conventions, section 5.1.1.2). Where it is not known that they fit
//! 64 bits, one pass tells whether all numbers are small; the loop that joins them then cannot leave 64 bits.

ghost use Rattle.std.specs.Prelude.{◌≡◌, ◌<◌, ◌||◌, ℕ, true, IfOk, IsTrue, FitsSigned, length, slice_index_or, unsigned_abs};
ghost use Rattle.std.specs.Int.{w64};
ghost use Rattle.number_kernels.specs.Arithmetic.{exact as exact_of, operator_of, AllFit, AreExact, HasNulls, HasValues};
ghost use Rattle.number_kernels.specs.Lanes.{AreComputed, AreComputedFitting, AreLong};
ghost use Rattle.number_kernels.specs.Operands.{null_at, lane_value, IsLong};

use crate::fallback::Fallback;
use crate::numbers::Numbers;
use crate::operand::Operand;
use std::alloc::Global;

/// Sums and differences of numbers whose sizes are below this fit 64 bits.
const SUM_LIMIT: u64 = 4_611_686_018_427_387_904;

/// Products of numbers whose sizes are below this fit 64 bits.
const PRODUCT_LIMIT: u64 = 2_147_483_648;

/// The operators that join any two numbers.
#[derive(Clone, Copy)]
pub enum ExactOperator {
    Add,
    Sub,
    Mul,
}

/// Returns a sum, difference or product; if it does not fit, any number.
#[inline(always)]
fn exact(operator: ExactOperator, left: i64, right: i64) -> i64
    ensures { FitsSigned w64 (exact_of operator left right)
        → result ≡ exact_of operator left right }
{
    match operator {
        ExactOperator::Add => left.wrapping_add(right),
        ExactOperator::Sub => left.wrapping_sub(right),
        ExactOperator::Mul => left.wrapping_mul(right),
    }
}

/// Returns true if the size of each number is below the limit.
#[inline(always)]
fn each_below(operand: Operand<'_>, rows: usize, limit: u64) -> bool
    requires { IsLong rows operand }
    ensures { IsTrue result → (i : ℕ) → i < rows → unsigned_abs (lane_value operand.entry i) < limit }
{
    let mut below = true;
    for i in 0..rows {
        below &= operand.value(i).unsigned_abs() < limit;
    }
    below
}

/// Returns the same, with a loop of its own for the numbers of a column.
fn are_below(operand: Operand<'_>, rows: usize, limit: u64) -> bool
    requires { IsLong rows operand }
    ensures { IsTrue result → (i : ℕ) → i < rows → unsigned_abs (lane_value operand.entry i) < limit }
{
    match operand {
        Operand::Each(values, nulls) => each_below(Operand::Each(values, nulls), rows, limit),
        _ => each_below(operand, rows, limit),
    }
}

#[inline(always)]
fn compute_each(operator: ExactOperator, left: Operand<'_>, right: Operand<'_>, out: &mut [i64])
    requires left { IsLong (length out.old) left }
    requires right { IsLong (length out.old) right }
    ensures { AreExact operator left.entry right.entry out.new }
{
    for i in 0..out.len() {
        let left_value = left.value(i);
        let right_value = right.value(i);
        out[i] = exact(operator, left_value, right_value);
    }
}

/// Does what `compute_each` does, with a loop of its own for each shape of the sides.
#[inline(always)]
fn compute_shaped(operator: ExactOperator, left: Operand<'_>, right: Operand<'_>, out: &mut [i64])
    requires left { IsLong (length out.old) left }
    requires right { IsLong (length out.old) right }
    ensures { AreExact operator left.entry right.entry out.new }
{
    match (left, right) {
        (Operand::Each(a, a_nulls), Operand::Each(b, b_nulls)) => {
            compute_each(
                operator,
                Operand::Each(a, a_nulls),
                Operand::Each(b, b_nulls),
                out,
            )
        }
        (Operand::Each(a, a_nulls), Operand::Same(b)) => {
            compute_each(operator, Operand::Each(a, a_nulls), Operand::Same(b), out)
        }
        (Operand::Same(a), Operand::Each(b, b_nulls)) => {
            compute_each(operator, Operand::Same(a), Operand::Each(b, b_nulls), out)
        }
        _ => compute_each(operator, left, right, out),
    }
}

/// Marks the rows that have a null on a side.
#[inline(always)]
fn either_null_each(left: Operand<'_>, right: Operand<'_>, out: &mut [bool])
    requires left { IsLong (length out.old) left }
    requires right { IsLong (length out.old) right }
    ensures { (i : ℕ) → i < length out.new → slice_index_or out.new i true
        ≡ (null_at left.entry i || null_at right.entry i) }
{
    for i in 0..out.len() {
        out[i] = left.is_null(i) | right.is_null(i);
    }
}

/// Does what `either_null_each` does, with a loop of its own for each shape of the sides.
fn either_null_shaped(left: Operand<'_>, right: Operand<'_>, out: &mut [bool])
    requires left { IsLong (length out.old) left }
    requires right { IsLong (length out.old) right }
    ensures { (i : ℕ) → i < length out.new → slice_index_or out.new i true
        ≡ (null_at left.entry i || null_at right.entry i) }
{
    match (left, right) {
        (Operand::Each(a, a_nulls), Operand::Each(b, b_nulls)) => {
            either_null_each(Operand::Each(a, a_nulls), Operand::Each(b, b_nulls), out)
        }
        (Operand::Each(a, a_nulls), Operand::Same(b)) => {
            either_null_each(Operand::Each(a, a_nulls), Operand::Same(b), out)
        }
        (Operand::Same(a), Operand::Each(b, b_nulls)) => {
            either_null_each(Operand::Same(a), Operand::Each(b, b_nulls), out)
        }
        _ => either_null_each(left, right, out),
    }
}

/// Sums, differences or products; of what does not fit, any number.
fn exact_each(operator: ExactOperator, left: Operand<'_>, right: Operand<'_>, out: &mut [i64])
    requires left { IsLong (length out.old) left }
    requires right { IsLong (length out.old) right }
    ensures { AreExact operator left.entry right.entry out.new }
{
    match operator {
        ExactOperator::Add => compute_shaped(ExactOperator::Add, left, right, out),
        ExactOperator::Sub => compute_shaped(ExactOperator::Sub, left, right, out),
        ExactOperator::Mul => compute_shaped(ExactOperator::Mul, left, right, out),
    }
}

/// Returns true if the numbers of each row are so small that their sum, difference or product fits.
fn are_small(operator: ExactOperator, left: Operand<'_>, right: Operand<'_>, rows: usize) -> bool
    requires left { IsLong rows left }
    requires right { IsLong rows right }
    ensures { IsTrue result → AllFit rows operator left.entry right.entry }
{
    let limit = match operator {
        ExactOperator::Add | ExactOperator::Sub => SUM_LIMIT,
        ExactOperator::Mul => PRODUCT_LIMIT,
    };
    are_below(left, rows, limit) && are_below(right, rows, limit)
}

/// Returns which rows have a null on a side.
pub fn nulls_of(
    alloc: Global,
    left: Operand<'_>,
    right: Operand<'_>,
    rows: usize,
) -> Result<Vec<bool>, Fallback>
    requires left { IsLong rows left }
    requires right { IsLong rows right }
    ensures { IfOk result (λ nulls. HasNulls rows left.entry right.entry nulls.items) }
{
    let mut nulls = Vec::from_elem(alloc, true, rows)?;
    either_null_shaped(left, right, nulls.as_mut_slice());
    Ok(nulls)
}

/// Sums, differences or products; of what does not fit, any number.
fn exact_values(
    alloc: Global,
    operator: ExactOperator,
    left: Operand<'_>,
    right: Operand<'_>,
    rows: usize,
) -> Result<Vec<i64>, Fallback>
    requires left { IsLong rows left }
    requires right { IsLong rows right }
    ensures { IfOk result (λ values. HasValues rows operator left.entry right.entry values.items) }
{
    let mut values = Vec::from_elem(alloc, 0i64, rows)?;
    exact_each(operator, left, right, values.as_mut_slice());
    Ok(values)
}

/// Returns the sums, differences or products of numbers on the wanted rows, if they fit; null beside a null. None is checked.
pub fn compute_fitting<'a>(
    alloc: Global,
    operator: ExactOperator,
    left: &Numbers<'_>,
    right: &Numbers<'_>,
    wanted: &[bool],
) -> Result<Numbers<'a>, Fallback>
    requires left { AreLong (length wanted.now) left.now }
    requires right { AreLong (length wanted.now) right.now }
    ensures { IfOk result
        (AreComputedFitting (operator_of operator) left.now right.now wanted.now) }
{
    let left = left.operand();
    let right = right.operand();
    let nulls = nulls_of(alloc, left, right, wanted.len())?;
    let values = exact_values(alloc, operator, left, right, wanted.len())?;
    Ok(Numbers::Computed(values, nulls))
}

/// Returns the sums, differences or products of numbers on the wanted rows; null beside a null. If one may not fit, it falls back.
pub fn compute<'a>(
    alloc: Global,
    operator: ExactOperator,
    left: &Numbers<'_>,
    right: &Numbers<'_>,
    wanted: &[bool],
) -> Result<Numbers<'a>, Fallback>
    requires left { AreLong (length wanted.now) left.now }
    requires right { AreLong (length wanted.now) right.now }
    ensures { IfOk result (AreComputed (operator_of operator) left.now right.now wanted.now) }
{
    if !are_small(operator, left.operand(), right.operand(), wanted.len()) {
        return Err(Fallback::Rows);
    }
    let numbers = compute_fitting(alloc, operator, left, right, wanted)?;
    Ok(numbers)
}
