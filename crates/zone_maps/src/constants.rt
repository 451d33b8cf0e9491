//! Expressions that have one value on all rows: literals, numbers perhaps with signs before them, since a literal has none, and integers
//! as decimals.

ghost use Rattle.std.specs.Prelude.{◌≡◌, ◌*ℤ◌, neg_ℤ, pos, IfSome, option_map};
ghost use Rattle.cell_types.specs.Value.{value_view};
ghost use Rattle.typed_trees.specs.TypedTree.{number_view, text_view};
ghost use Rattle.zone_maps.specs.Known.{IsConstantNumber, IsConstantText};

use cell_types::Value;
use std::borrow::CowStr;
use typed_trees::{MILLIONTHS, NumberExpr, TextExpr};

/// Returns a number with the other sign, if it fits.
fn opposite_number(number: Option<i128>) -> Option<Option<i128>>
    ensures { IfSome result (λ opposite. opposite ≡ option_map neg_ℤ number) }
{
    match number {
        Some(number) => Some(Some(number.checked_neg()?)),
        None => Some(None),
    }
}

/// Returns an integer as a decimal, if it fits.
fn scaled_number(number: Option<i128>) -> Option<Option<i128>>
    ensures { IfSome result (λ scaled. scaled ≡ option_map (λ n. n *ℤ pos MILLIONTHS) number) }
{
    match number {
        Some(number) => Some(Some(number.checked_mul(MILLIONTHS as i128)?)),
        None => Some(None),
    }
}

/// Returns the number of an expression on each row.
pub fn constant_number(expr: &NumberExpr) -> Option<Option<i128>>
    ensures { IfSome result (IsConstantNumber (number_view expr.now)) }
{
    match expr {
        NumberExpr::Null => Some(None),
        NumberExpr::Literal(number) => Some(Some(*number)),
        NumberExpr::Negate(operand) => opposite_number(constant_number(operand)?),
        NumberExpr::Scaled(operand) => scaled_number(constant_number(operand)?),
        _ => None,
    }
}

/// Returns a text, or null.
pub fn constant_text(expr: &TextExpr) -> Option<Value<'_>>
    ensures { IfSome result (λ value. IsConstantText (text_view expr.now) (value_view value)) }
{
    match expr {
        TextExpr::Null => Some(Value::Null),
        TextExpr::Literal(text) => Some(Value::Text(CowStr::Borrowed(text.as_str()))),
        _ => None,
    }
}
