//! Numbers on the rows of a block, with bounds where such are known. Where the bounds of what an operator makes fit 64 bits, no number is checked.

ghost use Rattle.std.specs.Prelude.{None, Some, IfOk, length};
ghost use Rattle.block_eval.specs.Bounded.{joined_bounds as joined_bounds_of, AreJoined, IsSame};
ghost use Rattle.block_eval.specs.Bounds.{AreFitting};
ghost use Rattle.block_eval.specs.Lanes.{AreLong};

use crate::bounds::joined_bounds;
use block_summary::Bounds;
use number_kernels::{Fallback, Numbers, join, join_fitting};
use std::alloc::Global;
use typed_trees::ArithmeticOperator;

/// A number or null for each row, and two numbers between which all lie, if such are known.
#[derive(Drop)]
pub struct Bounded<'a> {
    pub numbers: Numbers<'a>,
    pub bounds: Option<Bounds>,
}

/// Returns null on each row.
pub fn nulls<'a>() -> Bounded<'a>
    ensures { IsSame None result }
{
    Bounded {
        numbers: Numbers::Null,
        bounds: Some(Bounds {
            least: 0,
            greatest: 0,
        }),
    }
}

/// Returns the same number on each row.
pub fn constant<'a>(number: i64) -> Bounded<'a>
    ensures { IsSame (Some number) result }
{
    Bounded {
        numbers: Numbers::Same(number),
        bounds: Some(Bounds {
            least: number,
            greatest: number,
        }),
    }
}

/// Returns the same number on each row, if it fits.
pub fn same<'a>(number: i128) -> Result<Bounded<'a>, Fallback>
    ensures { IfOk result (IsSame (Some number)) }
{
    match i64::try_from(number) {
        Ok(number) => Ok(constant(number)),
        Err(_) => Err(Fallback::Rows),
    }
}

/// Returns the bounds of what an operator makes of two vectors, if they fit 64 bits.
fn bounds_between(
    operator: ArithmeticOperator,
    left: &Bounded<'_>,
    right: &Bounded<'_>,
) -> Option<Bounds>
    ensures { AreFitting (joined_bounds_of operator left.now right.now) result }
{
    match (left.bounds, right.bounds) {
        (Some(left), Some(right)) => joined_bounds(operator, left, right),
        _ => None,
    }
}

/// Returns two vectors joined by an operator, on the wanted rows. If the bounds of what it makes fit 64 bits, none is checked.
pub fn join_bounded<'a>(
    alloc: Global,
    operator: ArithmeticOperator,
    left: &Bounded<'_>,
    right: &Bounded<'_>,
    wanted: &[bool],
) -> Result<Bounded<'a>, Fallback>
    requires left { AreLong (length wanted.now) left.now.numbers }
    requires right { AreLong (length wanted.now) right.now.numbers }
    ensures { IfOk result (AreJoined operator left.now right.now wanted.now) }
{
    match bounds_between(operator, left, right) {
        Some(bounds) => {
            let numbers = join_fitting(alloc, operator, &left.numbers, &right.numbers, wanted)?;
            Ok(Bounded {
                numbers,
                bounds: Some(bounds),
            })
        }
        None => {
            let numbers = join(alloc, operator, &left.numbers, &right.numbers, wanted)?;
            Ok(Bounded {
                numbers,
                bounds: None,
            })
        }
    }
}
