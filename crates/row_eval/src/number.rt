//! Numbers on a row (OData 4.01 URL Conventions, sections 5.1.1.2, 5.1.1.5 and 5.1.1.8).

ghost use Rattle.std.specs.Prelude.{◌≡◌, false, IfSome, FitsSigned};
ghost use Rattle.std.specs.Int.{w128};
ghost use Rattle.typed_trees.specs.TypedTree.{number_view};
ghost use Rattle.row_eval.specs.Bounds.{Fits, NumberFits};
ghost use Rattle.row_eval.specs.Memory.{number_concatenates};
ghost use Rattle.row_eval.specs.Outcome.{computed as computed_of, number_outcome, operation as operation_of};
ghost use Rattle.row_eval.specs.Result.{Evaluates};
ghost use Rattle.row_eval.specs.Row.{cell, number_in as number_in_of, row_view};

use crate::date::eval_part;
use crate::fault::EvalFault;
use crate::text::{eval_text, index_in, length_in};
use cell_types::{NumberKind, Value, number_in};
use std::alloc::Global;
use typed_trees::{ArithmeticOperator, MILLIONTHS, NumberExpr};

/// Returns two numbers joined by an operator; none for a division by zero.
fn operation(operator: ArithmeticOperator, left: i128, right: i128) -> Option<i128>
    requires { IfSome (operation_of operator left right) (FitsSigned w128) }
    ensures { result ≡ operation_of operator left right }
{
    match operator {
        ArithmeticOperator::Add => Some(left + right),
        ArithmeticOperator::Sub => Some(left - right),
        ArithmeticOperator::Mul => Some(left * right),
        ArithmeticOperator::Div => {
            if right == 0 {
                return None;
            }
            Some(left / right)
        }
        ArithmeticOperator::Mod => {
            if right == 0 {
                return None;
            }
            Some(left.wrapping_rem(right))
        }
    }
}

/// Returns two numbers or nulls joined by an operator.
fn computed(
    operator: ArithmeticOperator,
    left: Option<i128>,
    right: Option<i128>,
) -> Result<Option<i128>, EvalFault>
    requires { Fits (computed_of operator left right) }
    ensures { Evaluates (λ n. n) (computed_of operator left right) false result }
{
    match (left, right) {
        (Some(left), Some(right)) => match operation(operator, left, right) {
            Some(number) => Ok(Some(number)),
            None => Err(EvalFault::DivisionByZero),
        },
        _ => Ok(None),
    }
}

/// Returns the number in a column of the kind; none for null.
fn number_at(row: &[Value<'_>], kind: NumberKind, place: usize) -> Option<i128>
    ensures { result ≡ cell (number_in_of kind) (row_view row.now) place }
{
    match row.get(place) {
        Some(value) => number_in(kind, value),
        None => None,
    }
}

/// Returns a number on a row; none for null.
pub fn eval_number(
    alloc: Global,
    expr: &NumberExpr,
    row: &[Value<'_>],
) -> Result<Option<i128>, EvalFault>
    requires { NumberFits (number_view expr.now) (row_view row.now) }
    ensures { Evaluates (λ n. n) (number_outcome (number_view expr.now) (row_view row.now))
        (number_concatenates (number_view expr.now)) result }
{
    match expr {
        NumberExpr::Null => Ok(None),
        NumberExpr::Column(kind, place) => Ok(number_at(row, *kind, *place)),
        NumberExpr::Literal(number) => Ok(Some(*number)),
        NumberExpr::Negate(operand) => match eval_number(alloc, operand, row)? {
            Some(number) => Ok(Some(-number)),
            None => Ok(None),
        },
        NumberExpr::Arithmetic(operator, left, right) => {
            let left = eval_number(alloc, left, row)?;
            let right = eval_number(alloc, right, row)?;
            computed(*operator, left, right)
        }
        NumberExpr::Length(text) => match eval_text(alloc, text, &*row)? {
            Some(text) => Ok(Some(length_in(text.as_str()))),
            None => Ok(None),
        },
        NumberExpr::IndexOf(text, part) => {
            let text = eval_text(alloc, text, &*row)?;
            let part = eval_text(alloc, part, &*row)?;
            match (text, part) {
                (Some(text), Some(part)) => Ok(Some(index_in(text.as_str(), part.as_str()))),
                _ => Ok(None),
            }
        }
        NumberExpr::PartOf(part, date) => Ok(eval_part(*part, date, row)),
        NumberExpr::Scaled(number) => match eval_number(alloc, number, row)? {
            Some(number) => Ok(Some(number * MILLIONTHS as i128)),
            None => Ok(None),
        },
    }
}
