//! Numbers on the rows of a block.

ghost use Rattle.std.specs.Prelude.{Some, IfOk};
ghost use Rattle.typed_trees.specs.TypedTree.{number_view};
ghost use Rattle.row_eval.specs.Outcome.{number_outcome};
ghost use Rattle.row_eval.specs.Row.{cell, number_in};
ghost use Rattle.block_eval.specs.Bounded.{GivesBounded};
ghost use Rattle.block_eval.specs.Lanes.{AreNumbers};

use crate::bounded::{Bounded, constant, join_bounded, nulls, same};
use crate::columns::BlockColumn;
use crate::measures::{lengths_in, places_in};
use crate::packed::{Unpacked, unpacked_at};
use crate::parts::parts_in;
use cell_types::NumberKind;
use number_kernels::{Fallback, Numbers};
use std::alloc::Global;
use typed_trees::{ArithmeticOperator, MILLIONTHS, NumberExpr};

/// Returns the numbers of a column of a kind.
fn numbers_at<'a>(
    alloc: Global,
    columns: &[BlockColumn<'_>],
    kind: NumberKind,
    place: usize,
    wanted: &[bool],
) -> Result<Bounded<'a>, Fallback>
    ensures { IfOk result
        (GivesBounded (λ cells. Some (cell (number_in kind) cells place)) columns.now wanted.now) }
{
    let Unpacked {
        values,
        nulls,
        bounds,
    } = unpacked_at(alloc, columns, place, kind, wanted.len())?;
    Ok(Bounded {
        numbers: Numbers::Computed(values, nulls),
        bounds,
    })
}

/// Returns the numbers of an expression on the wanted rows of a block, with their bounds.
pub fn bounded_numbers<'a>(
    alloc: Global,
    expr: &NumberExpr,
    columns: &[BlockColumn<'a>],
    wanted: &[bool],
) -> Result<Bounded<'a>, Fallback>
    ensures { IfOk result
        (GivesBounded (number_outcome (number_view expr.now)) columns.now wanted.now) }
{
    match expr {
        NumberExpr::Null => Ok(nulls()),
        NumberExpr::Column(kind, place) => numbers_at(alloc, columns, *kind, *place, wanted),
        NumberExpr::Literal(number) => {
            let numbers = same(*number)?;
            Ok(numbers)
        }
        NumberExpr::Negate(operand) => {
            let numbers = bounded_numbers(alloc, operand, columns, wanted)?;
            let zero = constant(0);
            let negated = join_bounded(alloc, ArithmeticOperator::Sub, &zero, &numbers, wanted)?;
            Ok(negated)
        }
        NumberExpr::Arithmetic(operator, left, right) => {
            let left = bounded_numbers(alloc, left, columns, wanted)?;
            let right = bounded_numbers(alloc, right, columns, wanted)?;
            let numbers = join_bounded(alloc, *operator, &left, &right, wanted)?;
            Ok(numbers)
        }
        NumberExpr::Scaled(operand) => {
            let numbers = bounded_numbers(alloc, operand, columns, wanted)?;
            let unit = constant(MILLIONTHS as i64);
            let scaled = join_bounded(alloc, ArithmeticOperator::Mul, &numbers, &unit, wanted)?;
            Ok(scaled)
        }
        NumberExpr::Length(text) => lengths_in(alloc, text, columns, wanted),
        NumberExpr::IndexOf(text, part) => places_in(alloc, text, part, columns, wanted),
        NumberExpr::PartOf(part, date) => parts_in(alloc, *part, date, columns, wanted),
    }
}

/// Returns the numbers of an expression on the wanted rows of a block.
pub fn eval_numbers<'a>(
    alloc: Global,
    expr: &NumberExpr,
    columns: &[BlockColumn<'a>],
    wanted: &[bool],
) -> Result<Numbers<'a>, Fallback>
    ensures { IfOk result (AreNumbers (number_view expr.now) columns.now wanted.now) }
{
    let Bounded { numbers, .. } = bounded_numbers(alloc, expr, columns, wanted)?;
    Ok(numbers)
}
