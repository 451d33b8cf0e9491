//! Conditions on a row. The right side of `and` is not evaluated where the left one is false, nor that of `or` where it is true (OData 4.01
//! URL Conventions, sections 5.1.1.1.7 to 5.1.1.1.9); every other operand is, the left one first.

ghost use Rattle.std.specs.Prelude.{◌≡◌};
ghost use Rattle.std.specs.Ordering.{bool_cmp};
ghost use Rattle.typed_trees.specs.TypedTree.{truth_view};
ghost use Rattle.row_eval.specs.Bounds.{TruthFits};
ghost use Rattle.row_eval.specs.Comparison.{compared, holds as holds_of};
ghost use Rattle.row_eval.specs.Logic.{option_of_truth, truth_of as truth_of_bool};
ghost use Rattle.row_eval.specs.Memory.{truth_concatenates};
ghost use Rattle.row_eval.specs.Outcome.{truth_outcome};
ghost use Rattle.row_eval.specs.Result.{Evaluates};
ghost use Rattle.row_eval.specs.Row.{boolean_in, cell, row_view};

use crate::comparison::{boolean_among, boolean_order, holds};
use crate::fault::EvalFault;
use crate::relation::{number_is_in, numbers_hold, text_is_in, text_test_holds, texts_hold};
use crate::truth::{Truth, greatest, least, opposite, optional_truth, truth_of, truth_value};
use cell_types::{ComparisonOperator, Value};
use std::alloc::Global;
use typed_trees::TruthExpr;

/// Returns the truth in a column.
fn boolean_at(row: &[Value<'_>], place: usize) -> Option<bool>
    ensures { result ≡ cell boolean_in (row_view row.now) place }
{
    match row.get(place) {
        Some(Value::Bool(truth)) => Some(*truth),
        _ => None,
    }
}

/// Returns a comparison of truths.
fn truths_hold(operator: ComparisonOperator, left: Truth, right: Truth) -> Truth
    ensures { result ≡ truth_of_bool
        (holds_of operator (compared bool_cmp (option_of_truth left) (option_of_truth right))) }
{
    let order = boolean_order(truth_value(left), truth_value(right));
    truth_of(holds(operator, order))
}

/// Returns a condition on a row.
pub fn eval_truth(alloc: Global, expr: &TruthExpr, row: &[Value<'_>]) -> Result<Truth, EvalFault>
    requires { TruthFits (truth_view expr.now) (row_view row.now) }
    ensures { Evaluates (λ t. t) (truth_outcome (truth_view expr.now) (row_view row.now))
        (truth_concatenates (truth_view expr.now)) result }
{
    match expr {
        TruthExpr::Null => Ok(Truth::Null),
        TruthExpr::Column(place) => Ok(optional_truth(boolean_at(row, *place))),
        TruthExpr::Literal(truth) => Ok(truth_of(*truth)),
        TruthExpr::Not(operand) => Ok(opposite(eval_truth(alloc, operand, row)?)),
        TruthExpr::And(left, right) => match eval_truth(alloc, left, row)? {
            Truth::False => Ok(Truth::False),
            left => Ok(least(left, eval_truth(alloc, right, row)?)),
        },
        TruthExpr::Or(left, right) => match eval_truth(alloc, left, row)? {
            Truth::True => Ok(Truth::True),
            left => Ok(greatest(left, eval_truth(alloc, right, row)?)),
        },
        TruthExpr::CompareNumbers(operator, a, b) => numbers_hold(alloc, *operator, a, b, row),
        TruthExpr::CompareTexts(operator, a, b) => texts_hold(alloc, *operator, a, b, row),
        TruthExpr::CompareTruths(operator, left, right) => {
            let left = eval_truth(alloc, left, row)?;
            let right = eval_truth(alloc, right, row)?;
            Ok(truths_hold(*operator, left, right))
        }
        TruthExpr::NumberIn(operand, items) => number_is_in(alloc, operand, items, row),
        TruthExpr::TextIn(operand, items) => text_is_in(alloc, operand, items, row),
        TruthExpr::TruthIn(operand, items) => {
            let value = truth_value(eval_truth(alloc, operand, row)?);
            Ok(truth_of(boolean_among(value, items)))
        }
        TruthExpr::TestText(test, text, part) => text_test_holds(alloc, *test, text, part, row),
    }
}
