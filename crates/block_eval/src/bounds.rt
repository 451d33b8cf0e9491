//! Two numbers between which others lie, and what operators make of those.

ghost use Rattle.std.specs.Prelude.{SomeIff};
ghost use Rattle.block_eval.specs.Bounds.{bounds_of, difference_bounds as difference_bounds_of, product_bounds as product_bounds_of, sum_bounds as sum_bounds_of, AreFitting, Fit};

use block_summary::Bounds;
use typed_trees::ArithmeticOperator;

/// Returns the bounds of sums, if they fit.
fn sum_bounds(left: Bounds, right: Bounds) -> Option<Bounds>
    ensures { SomeIff result (Fit (sum_bounds_of left right)) (sum_bounds_of left right) }
{
    let least = left.least.checked_add(right.least)?;
    let greatest = left.greatest.checked_add(right.greatest)?;
    Some(Bounds { least, greatest })
}

/// Returns the bounds of differences, if they fit.
fn difference_bounds(left: Bounds, right: Bounds) -> Option<Bounds>
    ensures { SomeIff result (Fit (difference_bounds_of left right))
        (difference_bounds_of left right) }
{
    let least = left.least.checked_sub(right.greatest)?;
    let greatest = left.greatest.checked_sub(right.least)?;
    Some(Bounds { least, greatest })
}

/// Returns the bounds of products, if they fit: among the products of the bounds are the least and the greatest.
fn product_bounds(left: Bounds, right: Bounds) -> Option<Bounds>
    ensures { SomeIff result (Fit (product_bounds_of left right)) (product_bounds_of left right) }
{
    let least_least = left.least.checked_mul(right.least)?;
    let least_greatest = left.least.checked_mul(right.greatest)?;
    let greatest_least = left.greatest.checked_mul(right.least)?;
    let greatest_greatest = left.greatest.checked_mul(right.greatest)?;
    Some(Bounds {
        least: least_least
            .min(least_greatest)
            .min(greatest_least.min(greatest_greatest)),
        greatest: least_least
            .max(least_greatest)
            .max(greatest_least.max(greatest_greatest)),
    })
}

/// Returns the bounds of what an operator makes of numbers between bounds, if they fit 64 bits.
pub fn joined_bounds(operator: ArithmeticOperator, left: Bounds, right: Bounds) -> Option<Bounds>
    ensures { AreFitting (bounds_of operator left right) result }
{
    match operator {
        ArithmeticOperator::Add => sum_bounds(left, right),
        ArithmeticOperator::Sub => difference_bounds(left, right),
        ArithmeticOperator::Mul => product_bounds(left, right),
        ArithmeticOperator::Div | ArithmeticOperator::Mod => None,
    }
}
