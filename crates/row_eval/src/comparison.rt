//! Comparisons (OData 4.01 URL Conventions, sections 5.1.1.1.1 to 5.1.1.1.6 and 5.1.1.1.11). They are never null.

ghost use Rattle.std.specs.Prelude.{◌≡◌, map, option_map};
ghost use Rattle.std.specs.Cmp.Lexicographic.{slice_cmp};
ghost use Rattle.std.specs.Ordering.{bool_cmp, int_cmp, nat_cmp};
ghost use Rattle.typed_trees.specs.TypedTree.{optional_text};
ghost use Rattle.row_eval.specs.Comparison.{compared, holds as holds_of, is_among, is_equal as is_equal_of};

use cell_types::ComparisonOperator;
use std::cmp::Ordering;

/// Returns true if a comparison holds of values in an order; none stands for a value beside null.
pub fn holds(operator: ComparisonOperator, order: Option<Ordering>) -> bool
    ensures { result ≡ holds_of operator order }
{
    match operator {
        ComparisonOperator::Equal => matches!(order, Some(Ordering::Equal)),
        ComparisonOperator::NotEqual => !matches!(order, Some(Ordering::Equal)),
        ComparisonOperator::GreaterThan => matches!(order, Some(Ordering::Greater)),
        ComparisonOperator::GreaterOrEqual => {
            matches!(order, Some(Ordering::Greater | Ordering::Equal))
        }
        ComparisonOperator::LessThan => matches!(order, Some(Ordering::Less)),
        ComparisonOperator::LessOrEqual => matches!(order, Some(Ordering::Less | Ordering::Equal)),
    }
}

/// Returns the order of numbers.
pub(crate) fn number_order(left: Option<i128>, right: Option<i128>) -> Option<Ordering>
    ensures { result ≡ compared int_cmp left right }
{
    match (left, right) {
        (None, None) => Some(Ordering::Equal),
        (Some(left), Some(right)) => Some(left.cmp(&right)),
        _ => None,
    }
}

/// Returns the order of truths.
pub(crate) fn boolean_order(left: Option<bool>, right: Option<bool>) -> Option<Ordering>
    ensures { result ≡ compared bool_cmp left right }
{
    match (left, right) {
        (None, None) => Some(Ordering::Equal),
        (Some(left), Some(right)) => Some(left.cmp(&right)),
        _ => None,
    }
}

/// Returns the order of texts, by their characters.
pub(crate) fn text_order(left: Option<&str>, right: Option<&str>) -> Option<Ordering>
    ensures { result ≡ compared (slice_cmp nat_cmp) (option_map (λ t. t.now) left.entry)
        (option_map (λ t. t.now) right.entry) }
{
    match (left, right) {
        (None, None) => Some(Ordering::Equal),
        (Some(left), Some(right)) => Some(left.cmp(&right)),
        _ => None,
    }
}

/// Returns true if the order is that of equal values.
fn is_equal(order: Option<Ordering>) -> bool
    ensures { result ≡ is_equal_of order }
{
    matches!(order, Some(Ordering::Equal))
}

/// Returns true if a number is one of a list.
pub(crate) fn number_among(value: Option<i128>, items: &[Option<i128>]) -> bool
    ensures { result ≡ is_among int_cmp value items.now }
{
    for item in items {
        if is_equal(number_order(value, *item)) {
            return true;
        }
    }
    false
}

/// Returns true if a truth is one of a list.
pub(crate) fn boolean_among(value: Option<bool>, items: &[Option<bool>]) -> bool
    ensures { result ≡ is_among bool_cmp value items.now }
{
    for item in items {
        if is_equal(boolean_order(value, *item)) {
            return true;
        }
    }
    false
}

/// Returns the text of an item.
fn item_text(item: &Option<String>) -> Option<&str>
    ensures { option_map (λ t. t.now) result ≡ optional_text item.now }
{
    match item {
        Some(text) => Some(text.as_str()),
        None => None,
    }
}

/// Returns true if a text is one of a list.
pub(crate) fn text_among(value: Option<&str>, items: &[Option<String>]) -> bool
    ensures { result ≡ is_among (slice_cmp nat_cmp) (option_map (λ t. t.now) value.entry)
        (map optional_text items.now) }
{
    for item in items {
        if is_equal(text_order(value, item_text(item))) {
            return true;
        }
    }
    false
}
