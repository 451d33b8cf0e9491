//! What a comparison, `contains`, `startswith` and `endswith` say of two texts. Texts are ordered by code points, as their bytes are.

ghost use Rattle.std.specs.Prelude.{◌≡◌, option_map};
ghost use Rattle.std.specs.Cmp.Lexicographic.{slice_cmp};
ghost use Rattle.std.specs.Ordering.{nat_cmp};
ghost use Rattle.std.specs.Str.{bytes_eq};
ghost use Rattle.row_eval.specs.Comparison.{compared, holds as holds_of, is_equal};
ghost use Rattle.text_kernels.specs.Texts.{related};

use cell_types::ComparisonOperator;
use row_eval::{Truth, holds, text_passes, truth_of};
use std::cmp::Ordering;
use typed_trees::TextTest;

/// What two texts are asked for.
#[derive(Clone, Copy)]
pub enum TextRelation {
    Comparison(ComparisonOperator),
    Test(TextTest),
}

/// Returns the order of texts.
fn text_order(left: Option<&str>, right: Option<&str>) -> Option<Ordering>
    ensures { result ≡ compared (slice_cmp nat_cmp) (option_map (λ t. t.now) left.entry)
        (option_map (λ t. t.now) right.entry) }
{
    match (left, right) {
        (None, None) => Some(Ordering::Equal),
        (Some(left), Some(right)) => Some(left.cmp(right)),
        _ => None,
    }
}

/// Returns true if two texts are the same. Of texts of different lengths no byte is looked at.
#[inline(always)]
fn is_same_text(left: &str, right: &str) -> bool
    ensures { result ≡ bytes_eq left.now right.now }
{
    if left.len() != right.len() {
        return false;
    }
    left == right
}

/// Returns true if both are the same text, or null.
#[inline(always)]
pub(crate) fn are_same(left: Option<&str>, right: Option<&str>) -> bool
    ensures { result ≡ is_equal (compared (slice_cmp nat_cmp) (option_map (λ t. t.now) left.entry)
        (option_map (λ t. t.now) right.entry)) }
{
    match (left, right) {
        (None, None) => true,
        (Some(left), Some(right)) => is_same_text(left, right),
        _ => false,
    }
}

/// Returns true if a comparison holds of two texts.
fn texts_hold(operator: ComparisonOperator, left: Option<&str>, right: Option<&str>) -> bool
    ensures { result ≡ holds_of operator (compared (slice_cmp nat_cmp)
        (option_map (λ t. t.now) left.entry) (option_map (λ t. t.now) right.entry)) }
{
    match operator {
        ComparisonOperator::Equal => are_same(left, right),
        ComparisonOperator::NotEqual => !are_same(left, right),
        _ => holds(operator, text_order(left, right)),
    }
}

/// Returns what `contains`, `startswith` or `endswith` is of texts; null beside a null.
fn test_of(test: TextTest, text: Option<&str>, part: Option<&str>) -> Truth
    ensures { result ≡ related (TextRelation.Test test) (option_map (λ t. t.now) text.entry)
        (option_map (λ t. t.now) part.entry) }
{
    match (text, part) {
        (Some(text), Some(part)) => truth_of(text_passes(test, text, part)),
        _ => Truth::Null,
    }
}

/// Returns what a relation says of two texts.
pub(crate) fn relation_of(relation: TextRelation, left: Option<&str>, right: Option<&str>) -> Truth
    ensures { result ≡ related relation (option_map (λ t. t.now) left.entry)
        (option_map (λ t. t.now) right.entry) }
{
    match relation {
        TextRelation::Comparison(operator) => truth_of(texts_hold(operator, left, right)),
        TextRelation::Test(test) => test_of(test, left, right),
    }
}
