//! Operands where a type is asked for.

ghost use Rattle.std.specs.Prelude.{◌≡◌, ◌*◌};
ghost use Rattle.typed_trees.specs.TypedTree.{boxed_number, boxed_text, boxed_truth, date_view, number_of_date as number_of_date_in, number_view, sized_number, typed_view};
ghost use Rattle.odata_types.specs.Typing.{as_integer, as_decimal, as_number, as_text, as_date, as_truth, type_of, within};
ghost use Rattle.odata_types.specs.Result.{Gives};

use crate::fault::TypeFault;
use crate::types::{ExprType, MOST_SIZE};
use cell_types::{NumberKind, day_number};
use std::alloc::Global;
use typed_trees::{DateExpr, MILLIONTHS, NumberExpr, TextExpr, TruthExpr, TypedExpr};

/// Returns the size, if a number may grow to it.
pub fn within(size: u128) -> Result<u128, TypeFault>
    ensures { result ≡ within size size }
{
    if size <= MOST_SIZE {
        Ok(size)
    } else {
        Err(TypeFault::TooLarge)
    }
}

/// Returns the size of a decimal of a number of wholes.
pub fn scaled(size: u128) -> Result<u128, TypeFault>
    ensures { result ≡ within (size * MILLIONTHS) (size * MILLIONTHS) }
{
    match size.checked_mul(MILLIONTHS) {
        Some(size) => within(size),
        None => Err(TypeFault::TooLarge),
    }
}

/// Returns the type of an expression.
pub(crate) fn expr_type(expr: &TypedExpr) -> ExprType
    ensures { result ≡ type_of (typed_view expr.now) }
{
    match expr {
        TypedExpr::Null => ExprType::Null,
        TypedExpr::Integer(_, _) => ExprType::Integer,
        TypedExpr::Text(_) => ExprType::Text,
        TypedExpr::Boolean(_) => ExprType::Boolean,
        TypedExpr::Date(_) => ExprType::Date,
        TypedExpr::Decimal(_, _) => ExprType::Decimal,
    }
}

/// Returns the expression if an integer is asked for, and its bound.
pub(crate) fn integer_operand(
    alloc: Global,
    expr: TypedExpr,
) -> Result<(Box<NumberExpr>, u128), TypeFault>
    ensures { Gives sized_number (as_integer (typed_view expr)) result }
{
    match expr {
        TypedExpr::Null => Ok((Box::new(alloc, NumberExpr::Null)?, 0)),
        TypedExpr::Integer(expr, bound) => Ok((expr, bound)),
        other => {
            drop(other);
            Err(TypeFault::Mismatch)
        }
    }
}

/// Returns the expression if a decimal is asked for, and its bound: an integer is scaled.
pub(crate) fn decimal_operand(
    alloc: Global,
    expr: TypedExpr,
) -> Result<(Box<NumberExpr>, u128), TypeFault>
    ensures { Gives sized_number (as_decimal (typed_view expr)) result }
{
    match expr {
        TypedExpr::Null => Ok((Box::new(alloc, NumberExpr::Null)?, 0)),
        TypedExpr::Integer(expr, bound) => {
            let bound = scaled(bound)?;
            Ok((Box::new(alloc, NumberExpr::Scaled(expr))?, bound))
        }
        TypedExpr::Decimal(expr, bound) => Ok((expr, bound)),
        other => {
            drop(other);
            Err(TypeFault::Mismatch)
        }
    }
}

/// Returns the expression if a text is asked for.
pub(crate) fn text_operand(alloc: Global, expr: TypedExpr) -> Result<Box<TextExpr>, TypeFault>
    ensures { Gives boxed_text (as_text (typed_view expr)) result }
{
    match expr {
        TypedExpr::Null => Ok(Box::new(alloc, TextExpr::Null)?),
        TypedExpr::Text(expr) => Ok(expr),
        other => {
            drop(other);
            Err(TypeFault::Mismatch)
        }
    }
}

/// Returns the expression if a date is asked for.
pub(crate) fn date_operand(expr: TypedExpr) -> Result<DateExpr, TypeFault>
    ensures { Gives date_view (as_date (typed_view expr)) result }
{
    match expr {
        TypedExpr::Null => Ok(DateExpr::Null),
        TypedExpr::Date(expr) => Ok(expr),
        other => {
            drop(other);
            Err(TypeFault::Mismatch)
        }
    }
}

/// Returns a date as a number.
fn number_of_date(date: DateExpr) -> NumberExpr
    ensures { number_view result ≡ number_of_date_in (date_view date) }
{
    match date {
        DateExpr::Null => NumberExpr::Null,
        DateExpr::Column(place) => NumberExpr::Column(NumberKind::Date, place),
        DateExpr::Literal(date) => NumberExpr::Literal(i128::from(day_number(date))),
    }
}

/// Returns the expression if a number of a type stands beside others: a date is numbered.
pub(crate) fn number_operand(
    alloc: Global,
    wanted: ExprType,
    expr: TypedExpr,
) -> Result<Box<NumberExpr>, TypeFault>
    ensures { Gives boxed_number (as_number wanted (typed_view expr)) result }
{
    match wanted {
        ExprType::Decimal => {
            let (number, _) = decimal_operand(alloc, expr)?;
            Ok(number)
        }
        ExprType::Date => {
            let date = date_operand(expr)?;
            Ok(Box::new(alloc, number_of_date(date))?)
        }
        _ => {
            let (number, _) = integer_operand(alloc, expr)?;
            Ok(number)
        }
    }
}

/// Returns the expression if a truth is asked for.
pub(crate) fn truth_operand(alloc: Global, expr: TypedExpr) -> Result<Box<TruthExpr>, TypeFault>
    ensures { Gives boxed_truth (as_truth (typed_view expr)) result }
{
    match expr {
        TypedExpr::Null => Ok(Box::new(alloc, TruthExpr::Null)?),
        TypedExpr::Boolean(expr) => Ok(expr),
        other => {
            drop(other);
            Err(TypeFault::Mismatch)
        }
    }
}
