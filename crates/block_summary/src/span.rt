//! The numbers that pass a comparison with a literal.

ghost use Rattle.std.specs.Prelude.{◌≡◌};
ghost use Rattle.block_summary.specs.Passing.{is_turned as is_turned_of, SpansPassing};

use crate::bounds::Bounds;
use cell_types::ComparisonOperator;

/// Between these lies no number.
const NO_NUMBERS: Bounds = Bounds {
    least: i64::MAX,
    greatest: i64::MIN,
};

/// Returns two numbers between which those lie that are greater than a literal.
fn span_above(literal: i64) -> Bounds
    ensures { SpansPassing ComparisonOperator.GreaterThan literal result }
{
    match literal.checked_add(1) {
        Some(least) => Bounds {
            least,
            greatest: i64::MAX,
        },
        None => NO_NUMBERS,
    }
}

/// Returns two numbers between which those lie that are less than a literal.
fn span_below(literal: i64) -> Bounds
    ensures { SpansPassing ComparisonOperator.LessThan literal result }
{
    match literal.checked_sub(1) {
        Some(greatest) => Bounds {
            least: i64::MIN,
            greatest,
        },
        None => NO_NUMBERS,
    }
}

/// Returns true if those pass that do not lie between the two numbers.
pub fn is_turned(op: ComparisonOperator) -> bool
    ensures { result ≡ is_turned_of op }
{
    matches!(op, ComparisonOperator::NotEqual)
}

/// Returns two numbers between which those lie that pass a comparison with a literal; for `ne`, those that are equal.
pub fn span_of(op: ComparisonOperator, literal: i64) -> Bounds
    ensures { SpansPassing op literal result }
{
    match op {
        ComparisonOperator::Equal | ComparisonOperator::NotEqual => Bounds {
            least: literal,
            greatest: literal,
        },
        ComparisonOperator::GreaterThan => span_above(literal),
        ComparisonOperator::GreaterOrEqual => Bounds {
            least: literal,
            greatest: i64::MAX,
        },
        ComparisonOperator::LessThan => span_below(literal),
        ComparisonOperator::LessOrEqual => Bounds {
            least: i64::MIN,
            greatest: literal,
        },
    }
}
