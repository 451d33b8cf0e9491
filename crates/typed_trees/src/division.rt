//! Expressions that may divide by zero: a `div` or `mod` has a right side other than a number literal that is not zero, perhaps after
//! one `-`.

ghost use Rattle.std.specs.Prelude.{◌≡◌};
ghost use Rattle.typed_trees.specs.CanFault.{can_fault as can_fault_of, divides as divides_of, is_nonzero as is_nonzero_of, is_safe_divisor as is_safe_divisor_of, number_can_fault as number_can_fault_of, truth_can_fault as truth_can_fault_of};
ghost use Rattle.typed_trees.specs.TypedTree.{number_view, truth_view, typed_view};

use crate::operator::ArithmeticOperator;
use crate::tree::{NumberExpr, TruthExpr, TypedExpr};

/// Returns true if an operator divides.
fn divides(operator: ArithmeticOperator) -> bool
    ensures { result ≡ divides_of operator }
{
    matches!(operator, ArithmeticOperator::Div | ArithmeticOperator::Mod)
}

/// Returns true if an expression is a number literal that is not zero.
fn is_nonzero(expr: &NumberExpr) -> bool
    ensures { result ≡ is_nonzero_of (number_view expr.now) }
{
    match expr {
        NumberExpr::Literal(number) => *number != 0,
        _ => false,
    }
}

/// Returns true if an expression is such a literal, perhaps after one `-`.
fn is_safe_divisor(expr: &NumberExpr) -> bool
    ensures { result ≡ is_safe_divisor_of (number_view expr.now) }
{
    match expr {
        NumberExpr::Negate(operand) => is_nonzero(operand),
        expr => is_nonzero(expr),
    }
}

/// Returns true if a number may have a division by zero on some row.
fn number_can_fault(expr: &NumberExpr) -> bool
    ensures { result ≡ number_can_fault_of (number_view expr.now) }
{
    match expr {
        NumberExpr::Negate(operand) | NumberExpr::Scaled(operand) => number_can_fault(operand),
        NumberExpr::Arithmetic(operator, left, right) => {
            divides(*operator) && !is_safe_divisor(right)
                || number_can_fault(left)
                || number_can_fault(right)
        }
        _ => false,
    }
}

/// Returns true if a condition may have a division by zero on some row.
pub fn truth_can_fault(expr: &TruthExpr) -> bool
    ensures { result ≡ truth_can_fault_of (truth_view expr.now) }
{
    match expr {
        TruthExpr::Not(operand) | TruthExpr::TruthIn(operand, _) => truth_can_fault(operand),
        TruthExpr::And(left, right)
        | TruthExpr::Or(left, right)
        | TruthExpr::CompareTruths(_, left, right) => {
            truth_can_fault(left) || truth_can_fault(right)
        }
        TruthExpr::CompareNumbers(_, left, right) => {
            number_can_fault(left) || number_can_fault(right)
        }
        TruthExpr::NumberIn(operand, _) => number_can_fault(operand),
        _ => false,
    }
}

/// Returns true if an expression may have a division by zero on some row.
pub fn can_fault(expr: &TypedExpr) -> bool
    ensures { result ≡ can_fault_of (typed_view expr.now) }
{
    match expr {
        TypedExpr::Integer(expr, _) | TypedExpr::Decimal(expr, _) => number_can_fault(expr),
        TypedExpr::Boolean(expr) => truth_can_fault(expr),
        _ => false,
    }
}
