//! The years, months and days of dates on the rows of a block (OData 4.01 URL Conventions, sections 5.1.1.6.1 to 5.1.1.6.3).

ghost use Rattle.std.specs.Prelude.{◌≡◌, ◌<◌, ℕ, pos, Some, IfOk, length, option_map, slice_index_or};
ghost use Rattle.typed_trees.specs.TypedTree.{date_view};
ghost use Rattle.row_eval.specs.Outcome.{date_outcome, part_in};
ghost use Rattle.row_eval.specs.Row.{cell, day_in};
ghost use Rattle.block_eval.specs.Bounded.{GivesBounded};
ghost use Rattle.block_eval.specs.Parts.{day_part};

use crate::bounded::Bounded;
use crate::columns::BlockColumn;
use crate::packed::{Unpacked, unpacked_at};
use cell_types::NumberKind;
use number_kernels::{Fallback, Numbers};
use std::alloc::Global;
use typed_trees::{DateExpr, DatePart};

/// Returns a part of the day that a number stands for.
#[inline(always)]
fn part_of(part: DatePart, number: i64) -> i64
    ensures { result ≡ day_part part number }
{
    let place = number.rem_euclid(512) as u64;
    match part {
        DatePart::Year => number.div_euclid(512),
        DatePart::Month => (place / 32) as i64,
        DatePart::Day => (place % 32) as i64,
    }
}

/// Writes a part of each day in its place.
fn part_each(part: DatePart, days: &mut [i64])
    ensures { (i : ℕ) → i < length days.new → slice_index_or days.new i (pos 0)
        ≡ day_part part (slice_index_or days.old i (pos 0)) }
{
    for i in 0..days.len() {
        days[i] = part_of(part, days[i]);
    }
}

/// Returns a part of each date of a column.
fn parts_at<'a>(
    alloc: Global,
    part: DatePart,
    place: usize,
    columns: &[BlockColumn<'_>],
    wanted: &[bool],
) -> Result<Bounded<'a>, Fallback>
    ensures { IfOk result (GivesBounded
        (λ cells. Some (option_map (part_in part) (cell day_in cells place)))
        columns.now wanted.now) }
{
    let Unpacked {
        mut values,
        nulls,
        ..
    } = unpacked_at(alloc, columns, place, NumberKind::Date, wanted.len())?;
    part_each(part, values.as_mut_slice());
    Ok(Bounded {
        numbers: Numbers::Computed(values, nulls),
        bounds: None,
    })
}

/// Returns a part of each date of an expression, on the wanted rows of a block.
pub fn parts_in<'a>(
    alloc: Global,
    part: DatePart,
    date: &DateExpr,
    columns: &[BlockColumn<'_>],
    wanted: &[bool],
) -> Result<Bounded<'a>, Fallback>
    ensures { IfOk result (GivesBounded
        (λ cells. Some (option_map (part_in part) (date_outcome (date_view date.now) cells)))
        columns.now wanted.now) }
{
    match date {
        DateExpr::Column(place) => parts_at(alloc, part, *place, columns, wanted),
        _ => Err(Fallback::Rows),
    }
}
