//! Comparisons of numbers on the rows of a block. Each loop reads all that it needs of a row, computes one value without a branch and
//! writes it, so that it runs in lanes.

ghost use Rattle.std.specs.Prelude.{◌≡◌, ◌<◌, ℕ, IfOk, length};
ghost use Rattle.std.specs.Ordering.{int_cmp};
ghost use Rattle.row_eval.specs.Comparison.{compared as compared_of, holds as holds_of};
ghost use Rattle.number_kernels.specs.Lanes.{unless_null};
ghost use Rattle.number_kernels.specs.Lanes.{comparison, number_lane, truth_lane, AreLong, HasTruths};
ghost use Rattle.number_kernels.specs.Operands.{operand_lane, IsLong};

use crate::fallback::Fallback;
use crate::numbers::Numbers;
use crate::operand::Operand;
use cell_types::ComparisonOperator;
use row_eval::{Truth, truth_of};
use std::alloc::Global;

/// Returns true if a comparison holds between two numbers, each with a mark that it is null.
#[inline(always)]
fn holds(
    operator: ComparisonOperator,
    left_null: bool,
    left: i64,
    right_null: bool,
    right: i64,
) -> bool
    ensures { result ≡ holds_of operator
        (compared_of int_cmp (unless_null left_null left) (unless_null right_null right)) }
{
    let both = !left_null & !right_null;
    let equal = (left_null & right_null) | (both & (left == right));
    let greater = both & (left > right);
    let less = both & (left < right);
    match operator {
        ComparisonOperator::Equal => equal,
        ComparisonOperator::NotEqual => !equal,
        ComparisonOperator::GreaterThan => greater,
        ComparisonOperator::GreaterOrEqual => greater | equal,
        ComparisonOperator::LessThan => less,
        ComparisonOperator::LessOrEqual => less | equal,
    }
}

#[inline(always)]
fn compare_each(
    operator: ComparisonOperator,
    left: Operand<'_>,
    right: Operand<'_>,
    out: &mut [Truth],
)
    requires left { IsLong (length out.old) left }
    requires right { IsLong (length out.old) right }
    ensures { (i : ℕ) → i < length out.new → truth_lane out.new i
        ≡ comparison operator (operand_lane left.entry i) (operand_lane right.entry i) }
{
    for i in 0..out.len() {
        let left_null = left.is_null(i);
        let left_value = left.value(i);
        let right_null = right.is_null(i);
        let right_value = right.value(i);
        out[i] = truth_of(holds(operator, left_null, left_value, right_null, right_value));
    }
}

/// Does what `compare_each` does, with a loop of its own for each shape of the sides.
#[inline(always)]
fn compare_shaped(
    operator: ComparisonOperator,
    left: Operand<'_>,
    right: Operand<'_>,
    out: &mut [Truth],
)
    requires left { IsLong (length out.old) left }
    requires right { IsLong (length out.old) right }
    ensures { (i : ℕ) → i < length out.new → truth_lane out.new i
        ≡ comparison operator (operand_lane left.entry i) (operand_lane right.entry i) }
{
    match (left, right) {
        (Operand::Each(a, a_nulls), Operand::Each(b, b_nulls)) => {
            compare_each(
                operator,
                Operand::Each(a, a_nulls),
                Operand::Each(b, b_nulls),
                out,
            )
        }
        (Operand::Each(a, a_nulls), Operand::Same(b)) => {
            compare_each(operator, Operand::Each(a, a_nulls), Operand::Same(b), out)
        }
        (Operand::Same(a), Operand::Each(b, b_nulls)) => {
            compare_each(operator, Operand::Same(a), Operand::Each(b, b_nulls), out)
        }
        _ => compare_each(operator, left, right, out),
    }
}

/// Does what `compare_shaped` does, with loops of its own for each operator.
fn compare_by(
    operator: ComparisonOperator,
    left: Operand<'_>,
    right: Operand<'_>,
    out: &mut [Truth],
)
    requires left { IsLong (length out.old) left }
    requires right { IsLong (length out.old) right }
    ensures { (i : ℕ) → i < length out.new → truth_lane out.new i
        ≡ comparison operator (operand_lane left.entry i) (operand_lane right.entry i) }
{
    match operator {
        ComparisonOperator::Equal => { compare_shaped(ComparisonOperator::Equal, left, right, out) }
        ComparisonOperator::NotEqual => {
            compare_shaped(ComparisonOperator::NotEqual, left, right, out)
        }
        ComparisonOperator::GreaterThan => {
            compare_shaped(ComparisonOperator::GreaterThan, left, right, out)
        }
        ComparisonOperator::GreaterOrEqual => {
            compare_shaped(ComparisonOperator::GreaterOrEqual, left, right, out)
        }
        ComparisonOperator::LessThan => {
            compare_shaped(ComparisonOperator::LessThan, left, right, out)
        }
        ComparisonOperator::LessOrEqual => {
            compare_shaped(ComparisonOperator::LessOrEqual, left, right, out)
        }
    }
}

/// Returns whether a comparison holds between two sides, row by row.
fn truths_between(
    alloc: Global,
    operator: ComparisonOperator,
    left: Operand<'_>,
    right: Operand<'_>,
    rows: usize,
) -> Result<Vec<Truth>, Fallback>
    requires left { IsLong rows left }
    requires right { IsLong rows right }
    ensures { IfOk result (λ truths. HasTruths rows
        (λ row. comparison operator (operand_lane left.entry row) (operand_lane right.entry row))
        truths.items) }
{
    let mut truths = Vec::from_elem(alloc, Truth::False, rows)?;
    compare_by(operator, left, right, truths.as_mut_slice());
    Ok(truths)
}

/// Returns whether a comparison holds between numbers.
pub fn compare(
    alloc: Global,
    operator: ComparisonOperator,
    left: &Numbers<'_>,
    right: &Numbers<'_>,
    rows: usize,
) -> Result<Vec<Truth>, Fallback>
    requires left { AreLong rows left.now }
    requires right { AreLong rows right.now }
    ensures { IfOk result (λ truths. HasTruths rows
        (λ row. comparison operator (number_lane left.now row) (number_lane right.now row))
        truths.items) }
{
    let truths = truths_between(alloc, operator, left.operand(), right.operand(), rows)?;
    Ok(truths)
}
