//! Expressions of any type on a row.

ghost use Rattle.std.specs.Prelude.{◌≡◌, option_map};
ghost use Rattle.cell_types.specs.Value.{value_view, integer, decimal, text as text_cell, boolean};
ghost use Rattle.std.specs.Cow.{cow_str_bytes};
ghost use Rattle.typed_trees.specs.TypedTree.{optional_day, typed_view};
ghost use Rattle.row_eval.specs.Bounds.{NumbersFit};
ghost use Rattle.row_eval.specs.Memory.{concatenates};
ghost use Rattle.row_eval.specs.Outcome.{or_null, day_value, outcome};
ghost use Rattle.row_eval.specs.Result.{Evaluates};
ghost use Rattle.row_eval.specs.Row.{row_view};

use crate::condition::eval_truth;
use crate::date::eval_date;
use crate::fault::EvalFault;
use crate::number::eval_number;
use crate::text::eval_text;
use crate::truth::truth_value;
use cell_types::Value;
use jiff_core::civil::Date;
use std::alloc::Global;
use std::borrow::CowStr;
use typed_trees::TypedExpr;

fn integer_value<'a>(number: Option<i128>) -> Value<'a>
    ensures { value_view result ≡ or_null integer number }
{
    match number {
        Some(number) => Value::Int(number),
        None => Value::Null,
    }
}

fn decimal_value<'a>(number: Option<i128>) -> Value<'a>
    ensures { value_view result ≡ or_null decimal number }
{
    match number {
        Some(number) => Value::Decimal(number),
        None => Value::Null,
    }
}

fn text_value<'a>(text: Option<CowStr<'a>>) -> Value<'a>
    ensures { value_view result ≡ or_null text_cell (option_map cow_str_bytes text.entry) }
{
    match text {
        Some(text) => Value::Text(text),
        None => Value::Null,
    }
}

fn boolean_value<'a>(truth: Option<bool>) -> Value<'a>
    ensures { value_view result ≡ or_null boolean truth }
{
    match truth {
        Some(truth) => Value::Bool(truth),
        None => Value::Null,
    }
}

fn date_value<'a>(date: Option<Date>) -> Value<'a>
    ensures { value_view result ≡ or_null day_value (optional_day date) }
{
    match date {
        Some(date) => Value::Date(date),
        None => Value::Null,
    }
}

/// Returns the value of an expression on a row. The right side of `and` is not evaluated if the left one is false, nor that of `or` if it
/// is true; every other operand is, the left one first.
pub fn eval<'r>(
    alloc: Global,
    expr: &'r TypedExpr,
    row: &'r [Value<'_>],
) -> Result<Value<'r>, EvalFault>
    requires { NumbersFit (typed_view expr.now) (row_view row.now) }
    ensures { Evaluates value_view (outcome (typed_view expr.now) (row_view row.now))
        (concatenates (typed_view expr.now)) result }
{
    match expr {
        TypedExpr::Null => Ok(Value::Null),
        TypedExpr::Integer(expr, _) => Ok(integer_value(eval_number(alloc, expr, row)?)),
        TypedExpr::Text(expr) => Ok(text_value(eval_text(alloc, expr, row)?)),
        TypedExpr::Boolean(expr) => Ok(boolean_value(truth_value(eval_truth(alloc, expr, row)?))),
        TypedExpr::Date(expr) => Ok(date_value(eval_date(expr, row))),
        TypedExpr::Decimal(expr, _) => Ok(decimal_value(eval_number(alloc, expr, row)?)),
    }
}
