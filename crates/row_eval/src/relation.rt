//! What a condition says of operands that are no truths themselves: comparisons, `in` lists and `contains`, `startswith` and `endswith`
//! (OData 4.01 URL Conventions, sections 5.1.1.1.1 to 5.1.1.1.6, 5.1.1.1.11 and 5.1.1.5). The left operand is evaluated first, then the right one.

ghost use Rattle.std.specs.Prelude.{◌≡◌, map, option_map};
ghost use Rattle.std.specs.Cow.{cow_str_bytes};
ghost use Rattle.typed_trees.specs.TypedTree.{compare_numbers, compare_texts, number_in, number_view, optional_text, test_text, text_in, text_view};
ghost use Rattle.row_eval.specs.Bounds.{NumberFits};
ghost use Rattle.row_eval.specs.Outcome.{joined};
ghost use Rattle.row_eval.specs.Result.{Decides};
ghost use Rattle.row_eval.specs.Row.{row_view};
ghost use Rattle.row_eval.specs.Text.{text_passes as text_passes_of};

use crate::comparison::{holds, number_among, number_order, text_among, text_order};
use crate::fault::EvalFault;
use crate::number::eval_number;
use crate::text::{eval_text, text_passes};
use crate::truth::{Truth, optional_truth, truth_of};
use cell_types::{ComparisonOperator, Value};
use std::alloc::Global;
use std::borrow::CowStr;
use typed_trees::{NumberExpr, TextExpr, TextTest};

/// Returns the text, if there is one.
fn borrowed<'t>(text: &'t Option<CowStr<'_>>) -> Option<&'t str>
    ensures { option_map (λ t. t.now) result ≡ option_map cow_str_bytes text.now }
{
    match text {
        Some(text) => Some(text.as_str()),
        None => None,
    }
}

/// Returns what `contains`, `startswith` or `endswith` is of texts; null beside a null.
fn test_texts(test: TextTest, text: Option<&str>, part: Option<&str>) -> Option<bool>
    ensures { result ≡ joined (text_passes_of test) (option_map (λ t. t.now) text.entry)
        (option_map (λ t. t.now) part.entry) }
{
    match (text, part) {
        (Some(text), Some(part)) => Some(text_passes(test, text, part)),
        _ => None,
    }
}

/// Returns a comparison of numbers.
pub(crate) fn numbers_hold(
    alloc: Global,
    operator: ComparisonOperator,
    left: &NumberExpr,
    right: &NumberExpr,
    row: &[Value<'_>],
) -> Result<Truth, EvalFault>
    requires { NumberFits (number_view left.now) (row_view row.now)
        × NumberFits (number_view right.now) (row_view row.now) }
    ensures { Decides (compare_numbers operator (number_view left.now) (number_view right.now))
        (row_view row.now) result }
{
    let left = eval_number(alloc, left, row)?;
    let right = eval_number(alloc, right, row)?;
    Ok(truth_of(holds(operator, number_order(left, right))))
}

/// Returns a comparison of texts.
pub(crate) fn texts_hold(
    alloc: Global,
    operator: ComparisonOperator,
    left: &TextExpr,
    right: &TextExpr,
    row: &[Value<'_>],
) -> Result<Truth, EvalFault>
    ensures { Decides (compare_texts operator (text_view left.now) (text_view right.now))
        (row_view row.now) result }
{
    let left = eval_text(alloc, left, &*row)?;
    let right = eval_text(alloc, right, &*row)?;
    let order = text_order(borrowed(&left), borrowed(&right));
    Ok(truth_of(holds(operator, order)))
}

/// Returns whether a number is one of a list.
pub(crate) fn number_is_in(
    alloc: Global,
    operand: &NumberExpr,
    items: &[Option<i128>],
    row: &[Value<'_>],
) -> Result<Truth, EvalFault>
    requires { NumberFits (number_view operand.now) (row_view row.now) }
    ensures { Decides (number_in (number_view operand.now) items.now)
        (row_view row.now) result }
{
    let value = eval_number(alloc, operand, row)?;
    Ok(truth_of(number_among(value, items)))
}

/// Returns whether a text is one of a list.
pub(crate) fn text_is_in(
    alloc: Global,
    operand: &TextExpr,
    items: &[Option<String>],
    row: &[Value<'_>],
) -> Result<Truth, EvalFault>
    ensures { Decides (text_in (text_view operand.now) (map optional_text items.now))
        (row_view row.now) result }
{
    let value = eval_text(alloc, operand, &*row)?;
    Ok(truth_of(text_among(borrowed(&value), items)))
}

/// Returns what `contains`, `startswith` or `endswith` is on a row.
pub(crate) fn text_test_holds(
    alloc: Global,
    test: TextTest,
    text: &TextExpr,
    part: &TextExpr,
    row: &[Value<'_>],
) -> Result<Truth, EvalFault>
    ensures { Decides (test_text test (text_view text.now) (text_view part.now))
        (row_view row.now) result }
{
    let text = eval_text(alloc, text, &*row)?;
    let part = eval_text(alloc, part, &*row)?;
    Ok(optional_truth(test_texts(test, borrowed(&text), borrowed(&part))))
}
