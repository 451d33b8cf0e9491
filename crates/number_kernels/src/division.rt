//! Quotients and remainders on the rows of a block (OData 4.01 URL Conventions, section 5.1.1.2): `div` truncates towards zero, and `mod` has
//! the sign of the left number. Of rows that are not wanted, and of those with a null on a side, nothing is computed.

ghost use Rattle.std.specs.Prelude.{◌≡◌, Some, IfOk, IfSome, IsTrue, OnOk, length};
ghost use Rattle.row_eval.specs.Outcome.{operation};
ghost use Rattle.number_kernels.specs.Arithmetic.{operator_of_quotient, AreQuotients, AreSidesLong, HasQuotients};
ghost use Rattle.number_kernels.specs.Lanes.{AreComputed, AreLong};

use crate::arithmetic::nulls_of;
use crate::fallback::Fallback;
use crate::numbers::Numbers;
use crate::operand::Operand;
use std::alloc::Global;

/// The operators that divide.
#[derive(Clone, Copy)]
pub enum QuotientOperator {
    Div,
    Mod,
}

/// Returns a quotient or a remainder, or `None` if the divisor is zero, and if it may not fit.
fn quotient(operator: QuotientOperator, left: i64, right: i64) -> Option<i64>
    ensures { IfSome result (λ n. operation (operator_of_quotient operator) left right ≡ Some n) }
{
    match operator {
        QuotientOperator::Div => left.checked_div(right),
        QuotientOperator::Mod => left.checked_rem(right),
    }
}

/// Returns the same, of a row that is asked for; of another any number.
#[inline(always)]
fn quotient_where(is_asked: bool, operator: QuotientOperator, left: i64, right: i64) -> Option<i64>
    ensures { IsTrue is_asked
        → IfSome result (λ n. operation (operator_of_quotient operator) left right ≡ Some n) }
{
    if !is_asked {
        return Some(0);
    }
    quotient(operator, left, right)
}

/// The two sides of a division, and which rows have a null on one of them.
#[derive(Clone, Copy)]
pub struct DivisionSides<'v> {
    left: Operand<'v>,
    right: Operand<'v>,
    nulls: &'v [bool],
}

/// Quotients or remainders of the wanted rows that have no null, unless a divisor is zero or one may not fit.
fn divide_each(
    operator: QuotientOperator,
    sides: DivisionSides<'_>,
    wanted: &[bool],
    out: &mut [i64],
) -> Result<(), Fallback>
    requires sides { AreSidesLong (length out.old) sides }
    requires wanted { length wanted.now ≡ length out.old }
    ensures { OnOk result (AreQuotients operator sides.entry wanted.now out.new) }
{
    for i in 0..out.len() {
        let left_value = sides.left.value(i);
        let right_value = sides.right.value(i);
        let is_asked = wanted[i] & !sides.nulls[i];
        match quotient_where(is_asked, operator, left_value, right_value) {
            Some(number) => out[i] = number,
            None => return Err(Fallback::Rows),
        }
    }
    Ok(())
}

/// Quotients or remainders.
fn quotients(
    alloc: Global,
    operator: QuotientOperator,
    sides: DivisionSides<'_>,
    wanted: &[bool],
) -> Result<Vec<i64>, Fallback>
    requires { AreSidesLong (length wanted.now) sides }
    ensures { IfOk result (λ values. HasQuotients operator sides.entry wanted.now values.items) }
{
    let mut values = Vec::from_elem(alloc, 0i64, wanted.len())?;
    divide_each(operator, sides, wanted, values.as_mut_slice())?;
    Ok(values)
}

/// Returns the quotients or remainders of numbers on the wanted rows; null beside a null.
pub fn divide<'a>(
    alloc: Global,
    operator: QuotientOperator,
    left: &Numbers<'_>,
    right: &Numbers<'_>,
    wanted: &[bool],
) -> Result<Numbers<'a>, Fallback>
    requires left { AreLong (length wanted.now) left.now }
    requires right { AreLong (length wanted.now) right.now }
    ensures { IfOk result
        (AreComputed (operator_of_quotient operator) left.now right.now wanted.now) }
{
    let left = left.operand();
    let right = right.operand();
    let nulls = nulls_of(alloc, left, right, wanted.len())?;
    let sides = DivisionSides {
        left,
        right,
        nulls: nulls.as_slice(),
    };
    let values = quotients(alloc, operator, sides, wanted)?;
    Ok(Numbers::Computed(values, nulls))
}
