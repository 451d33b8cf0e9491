//! Conditions whose truth the ranges of a block tell, without a look at its rows.

ghost use Rattle.std.specs.Prelude.{IfSome};
ghost use Rattle.typed_trees.specs.TypedTree.{compare_numbers, compare_texts, number_view, text_view, truth_column, truth_view};
ghost use Rattle.zone_maps.specs.Known.{IsKnown};

use crate::constants::{constant_number, constant_text};
use crate::tests::{is_each, known_comparison};
use block_summary::Summary;
use cell_types::{ColumnKind, ComparisonOperator, Value, numbers_stand_for_cells, value_of_number};
use row_eval::{Truth, truth_of};
use typed_trees::{NumberExpr, TextExpr, TruthExpr};

/// Returns a column of numbers, compared with a number.
fn known_numbers(
    summary: &Summary,
    operator: ComparisonOperator,
    left: &NumberExpr,
    right: &NumberExpr,
) -> Option<Truth>
    ensures { IfSome result (IsKnown
        (compare_numbers operator (number_view left.now) (number_view right.now)) summary.now) }
{
    numbers_stand_for_cells();
    let NumberExpr::Column(kind, place) = left else {
        return None;
    };
    let number = constant_number(right)?;
    let literal = value_of_number(*kind, number)?;
    known_comparison(
        summary,
        ColumnKind::Number(*kind),
        operator,
        *place,
        literal,
    )
}

/// Returns a column of texts, compared with a literal.
fn known_texts(
    summary: &Summary,
    operator: ComparisonOperator,
    left: &TextExpr,
    right: &TextExpr,
) -> Option<Truth>
    ensures { IfSome result (IsKnown
        (compare_texts operator (text_view left.now) (text_view right.now)) summary.now) }
{
    let TextExpr::Column(place) = left else {
        return None;
    };
    let literal = constant_text(right)?;
    known_comparison(summary, ColumnKind::Text, operator, *place, literal)
}

/// Returns a column of truths.
fn known_column(summary: &Summary, place: usize) -> Option<Truth>
    ensures { IfSome result (IsKnown (truth_column place) summary.now) }
{
    if is_each(summary, place, Value::Bool(true)) {
        Some(Truth::True)
    } else if is_each(summary, place, Value::Bool(false)) {
        Some(Truth::False)
    } else if is_each(summary, place, Value::Null) {
        Some(Truth::Null)
    } else {
        None
    }
}

/// Returns the truth that a condition has on each row of a block with these ranges, or `None` if the ranges do not tell. Nothing says when they do; of a
/// condition that has a condition as a part they never do.
pub fn known_truth(expr: &TruthExpr, summary: &Summary) -> Option<Truth>
    ensures { IfSome result (IsKnown (truth_view expr.now) summary.now) }
{
    match expr {
        TruthExpr::Null => Some(Truth::Null),
        TruthExpr::Literal(value) => Some(truth_of(*value)),
        TruthExpr::Column(place) => known_column(summary, *place),
        TruthExpr::CompareNumbers(operator, left, right) => {
            known_numbers(summary, *operator, left, right)
        }
        TruthExpr::CompareTexts(operator, left, right) => {
            known_texts(summary, *operator, left, right)
        }
        _ => None,
    }
}
