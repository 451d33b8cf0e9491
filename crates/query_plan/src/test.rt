//! Conditions that compare a column with a literal.
ghost use Rattle.std.specs.Prelude.{◌≡◌, IfOk, neg_ℤ, option_map, unsigned_abs};
ghost use Rattle.cell_types.specs.Value.{value_view};
ghost use Rattle.typed_trees.specs.TypedTree.{compare_numbers, compare_texts, compare_truths, negated, number_view, text_view, truth_view};
ghost use Rattle.query_plan.specs.Scan.{test_view};
ghost use Rattle.query_plan.specs.Tests.{compared_with, literal_number, number_value as number_value_of, scaled_number as scaled_number_of, sized, test_of as test_of_condition, text_value as text_value_of, truth_value as truth_value_of};

use crate::scan::ColumnTest;
use block_summary::Test;
use cell_types::{ComparisonOperator, NumberKind, Value, value_of_number};
use odata_types::{MOST_SIZE, scaled};
use std::alloc::{AllocError, Global};
use std::borrow::CowStr;
use typed_trees::{MILLIONTHS, NumberExpr, TextExpr, TruthExpr};

/// Returns a number after a `-`, if it is at most 2 to the 126 in size.
fn opposite(number: i128) -> Option<Option<i128>>
    ensures { result ≡ sized (unsigned_abs number) (neg_ℤ number) }
{
    if number.unsigned_abs() <= MOST_SIZE {
        Some(Some(-number))
    } else {
        None
    }
}

/// Returns the millionths of a whole number, if they are at most 2 to the 126, or null.
fn scaled_number(number: Option<i128>) -> Option<Option<i128>>
    ensures { result ≡ scaled_number_of number }
{
    let Some(number) = number else {
        return Some(None);
    };
    match scaled(number.unsigned_abs()) {
        Ok(_) => Some(Some(number * MILLIONTHS as i128)),
        Err(_) => None,
    }
}

/// Returns the number of a literal after a `-`.
fn opposite_of(operand: &NumberExpr) -> Option<Option<i128>>
    ensures { result ≡ literal_number (negated (number_view operand.now)) }
{
    match operand {
        NumberExpr::Literal(number) => opposite(*number),
        _ => None,
    }
}

/// Returns the number of a literal, perhaps after one `-`, or null; of an integer as a decimal its millionths.
fn number_of(expr: &NumberExpr) -> Option<Option<i128>>
    ensures { result ≡ literal_number (number_view expr.now) }
{
    match expr {
        NumberExpr::Null => Some(None),
        NumberExpr::Literal(number) => Some(Some(*number)),
        NumberExpr::Negate(operand) => opposite_of(operand),
        NumberExpr::Scaled(operand) => match number_of(operand) {
            Some(number) => scaled_number(number),
            None => None,
        },
        _ => None,
    }
}

/// Returns the value of a literal of a type: of null, too.
fn literal_value(kind: NumberKind, expr: &NumberExpr) -> Option<Value<'static>>
    ensures { option_map value_view result ≡ number_value_of kind (number_view expr.now) }
{
    match number_of(expr) {
        Some(number) => value_of_number(kind, number),
        None => None,
    }
}

fn text_value(alloc: Global, expr: &TextExpr) -> Result<Option<Value<'static>>, AllocError>
    ensures { IfOk result (λ value. option_map value_view value ≡ text_value_of (text_view expr.now)) }
{
    match expr {
        TextExpr::Null => Ok(Some(Value::Null)),
        TextExpr::Literal(text) => {
            let text = String::from_str(alloc, text.as_str())?;
            Ok(Some(Value::Text(CowStr::Owned(text))))
        }
        _ => Ok(None),
    }
}

fn truth_value(expr: &TruthExpr) -> Option<Value<'static>>
    ensures { option_map value_view result ≡ truth_value_of (truth_view expr.now) }
{
    match expr {
        TruthExpr::Null => Some(Value::Null),
        TruthExpr::Literal(truth) => Some(Value::Bool(*truth)),
        _ => None,
    }
}

/// Returns the test of a column, if there is a literal.
fn column_test(
    column: usize,
    operator: ComparisonOperator,
    literal: Option<Value<'static>>,
) -> Option<ColumnTest>
    ensures { option_map test_view result
        ≡ compared_with column operator (option_map value_view literal.entry) }
{
    match literal {
        Some(literal) => Some(ColumnTest {
            column,
            test: Test {
                op: operator,
                literal,
            },
        }),
        None => None,
    }
}

fn number_test(
    operator: ComparisonOperator,
    left: &NumberExpr,
    right: &NumberExpr,
) -> Option<ColumnTest>
    ensures { option_map test_view result ≡ test_of_condition
        (compare_numbers operator (number_view left.now) (number_view right.now)) }
{
    match left {
        NumberExpr::Column(kind, column) => {
            column_test(*column, operator, literal_value(*kind, right))
        }
        _ => None,
    }
}

fn text_test(
    alloc: Global,
    operator: ComparisonOperator,
    left: &TextExpr,
    right: &TextExpr,
) -> Result<Option<ColumnTest>, AllocError>
    ensures { IfOk result (λ test. option_map test_view test ≡ test_of_condition
        (compare_texts operator (text_view left.now) (text_view right.now))) }
{
    match left {
        TextExpr::Column(column) => {
            let literal = text_value(alloc, right)?;
            Ok(column_test(*column, operator, literal))
        }
        _ => Ok(None),
    }
}

fn truth_test(
    operator: ComparisonOperator,
    left: &TruthExpr,
    right: &TruthExpr,
) -> Option<ColumnTest>
    ensures { option_map test_view result ≡ test_of_condition
        (compare_truths operator (truth_view left.now) (truth_view right.now)) }
{
    match left {
        TruthExpr::Column(column) => column_test(*column, operator, truth_value(right)),
        _ => None,
    }
}

/// Returns the test that a condition is, if it compares a column with a literal.
pub fn test_of(alloc: Global, condition: &TruthExpr) -> Result<Option<ColumnTest>, AllocError>
    ensures { IfOk result (λ test.
        option_map test_view test ≡ test_of_condition (truth_view condition.now)) }
{
    match condition {
        TruthExpr::CompareNumbers(operator, left, right) => Ok(number_test(*operator, left, right)),
        TruthExpr::CompareTexts(operator, left, right) => text_test(alloc, *operator, left, right),
        TruthExpr::CompareTruths(operator, left, right) => Ok(truth_test(*operator, left, right)),
        _ => Ok(None),
    }
}
