//! Numbers joined by the operators of arithmetic (OData 4.01 URL Conventions, section 5.1.1.2).
ghost use Rattle.std.specs.Prelude.{IfOk, length};
ghost use Rattle.number_kernels.specs.Lanes.{AreComputed, AreComputedFitting, AreLong};

use crate::arithmetic::{ExactOperator, compute, compute_fitting};
use crate::division::{QuotientOperator, divide};
use crate::fallback::Fallback;
use crate::numbers::Numbers;
use std::alloc::Global;
use typed_trees::ArithmeticOperator;

/// Returns two vectors joined by an operator, on the wanted rows.
pub fn join<'a>(
    alloc: Global,
    operator: ArithmeticOperator,
    left: &Numbers<'_>,
    right: &Numbers<'_>,
    wanted: &[bool],
) -> Result<Numbers<'a>, Fallback>
    requires left { AreLong (length wanted.now) left.now }
    requires right { AreLong (length wanted.now) right.now }
    ensures { IfOk result (AreComputed operator left.now right.now wanted.now) }
{
    match operator {
        ArithmeticOperator::Add => compute(alloc, ExactOperator::Add, left, right, wanted),
        ArithmeticOperator::Sub => compute(alloc, ExactOperator::Sub, left, right, wanted),
        ArithmeticOperator::Mul => compute(alloc, ExactOperator::Mul, left, right, wanted),
        ArithmeticOperator::Div => divide(alloc, QuotientOperator::Div, left, right, wanted),
        ArithmeticOperator::Mod => divide(alloc, QuotientOperator::Mod, left, right, wanted),
    }
}

/// Returns two vectors joined by an operator, on the wanted rows if what it makes of them fits 64 bits. No sum, difference or product is checked.
pub fn join_fitting<'a>(
    alloc: Global,
    operator: ArithmeticOperator,
    left: &Numbers<'_>,
    right: &Numbers<'_>,
    wanted: &[bool],
) -> Result<Numbers<'a>, Fallback>
    requires left { AreLong (length wanted.now) left.now }
    requires right { AreLong (length wanted.now) right.now }
    ensures { IfOk result (AreComputedFitting operator left.now right.now wanted.now) }
{
    match operator {
        ArithmeticOperator::Add => compute_fitting(alloc, ExactOperator::Add, left, right, wanted),
        ArithmeticOperator::Sub => compute_fitting(alloc, ExactOperator::Sub, left, right, wanted),
        ArithmeticOperator::Mul => compute_fitting(alloc, ExactOperator::Mul, left, right, wanted),
        ArithmeticOperator::Div | ArithmeticOperator::Mod => {
            let numbers = join(alloc, operator, left, right, wanted)?;
            Ok(numbers)
        }
    }
}
