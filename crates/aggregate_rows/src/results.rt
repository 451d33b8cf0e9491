//! What is computed of the rows of a group, to which more may join (OData Data Aggregation 4.0, section 3.1.3): nulls are passed over.
ghost use Rattle.std.specs.Prelude.{◌≡◌, ◌<◌, ◌≤◌, ◌+◌, ◌++◌, ℕ, [], pos, IfOk, List, None, OnOk, length, map};
ghost use Rattle.std.specs.List.{filter_map, All};
ghost use Rattle.cell_types.specs.Kind.{cell_of};
ghost use Rattle.cell_types.specs.Value.{CellValue, integer, value_view};
ghost use Rattle.cell_types.specs.declared.kind.NumberKind.TheVariants.{Decimal, Integer};
ghost use Rattle.query_meaning.specs.Apply.{computed_value};
ghost use Rattle.row_columns.specs.Picked.{numbered};
ghost use Rattle.aggregate_rows.specs.Computed.{aggregate_of};
ghost use Rattle.aggregate_rows.specs.Sums.{numbers_in, sum_of, MaySum};
ghost use Rattle.aggregate_rows.specs.Distinct.{distinct_place};
ghost use Rattle.aggregate_rows.specs.Table.{results_from, value_or, IsPartPut};
ghost use Rattle.aggregate_rows.specs.Tallies.{JoinsSet, MayTally, MayTallyEach, Tallies, TalliesFrom};

use crate::computed::{Extreme, extreme_in, wins};
use crate::distinct::Distinct;
use crate::groups::RowsAt;
use crate::kept::sum_of_rows;
use crate::sums::joined_sum;
use cell_types::{NumberKind, Value, number_in};
use odata_query::Aggregate;
use std::alloc::{AllocError, Global};
use value_rows::PackedValues;

/// Returns the place of the column whose distinct values an aggregate counts, if it counts such.
pub(crate) fn distinct_place(aggregate: Aggregate) -> Option<usize>
    ensures { result ≡ distinct_place aggregate }
{
    match aggregate {
        Aggregate::CountDistinct(place) => Some(place),
        Aggregate::Count
        | Aggregate::SumOfIntegers(_)
        | Aggregate::SumOfDecimals(_)
        | Aggregate::Min(_)
        | Aggregate::Max(_) => None,
    }
}

/// Returns what an aggregate computes of no rows.
pub(crate) fn result_of_none(aggregate: Aggregate) -> Value<'static>
    ensures { value_view result ≡ computed_value [] aggregate }
{
    match aggregate {
        Aggregate::Count | Aggregate::CountDistinct(_) => Value::Int(0),
        Aggregate::SumOfIntegers(_)
        | Aggregate::SumOfDecimals(_)
        | Aggregate::Min(_)
        | Aggregate::Max(_) => Value::Null,
    }
}

/// Returns how many of the aggregates count distinct values.
pub(crate) fn distinct_count(aggregates: &[Aggregate]) -> usize
    ensures { result ≡ length (filter_map distinct_place aggregates.now) }
{
    let mut count = 0;
    for aggregate in aggregates {
        if distinct_place(*aggregate).is_some() {
            count += 1;
        }
    }
    count
}

/// Joins rows to those of a group: to those of which its results are computed, which are the values from a place on, and of whose values there are sets.
pub(crate) fn join_each(
    alloc: Global,
    values: &mut PackedValues,
    from: usize,
    sets: &mut [Distinct],
    rows: RowsAt<'_>,
) -> Result<(), AllocError>
    requires within { All (λ number. number < length rows.columns.now.rows) rows.numbers.now }
    requires room { from + length rows.aggregates.now ≤ length values.old }
    requires joins { MayTallyEach rows.aggregates.now (length rows.columns.now.kinds)
        (results_from from rows.aggregates.now values.old sets.old)
        (numbered rows.numbers.now rows.columns.now.rows) }
    ensures values { IsPartPut from (length rows.entry.aggregates.now) values.old values.new }
    ensures sets { length sets.new ≡ length sets.old }
    ensures joins { OnOk result (TalliesFrom from rows.entry.aggregates.now
        values.old sets.old values.new sets.new
        (numbered rows.entry.numbers.now rows.entry.columns.now.rows)) }
{
    values.are_few();
    let mut set = 0;
    for i in 0..rows.aggregates.len() {
        match distinct_place(rows.aggregates[i]) {
            Some(place) => {
                let count = join_set(alloc, &mut sets[set], rows, place)?;
                values.set(alloc, from + i, &count)?;
                set += 1;
            }
            None => {
                let new = joined_value(&values.value(from + i), rows.aggregates[i], rows);
                if let Some(new) = new {
                    values.set(alloc, from + i, &new)?;
                }
            }
        }
    }
    Ok(())
}

/// Adds the values that the rows with these numbers have in a column. Returns how many there are.
fn join_set(
    alloc: Global,
    set: &mut Distinct,
    rows: RowsAt<'_>,
    place: usize,
) -> Result<Value<'static>, AllocError>
    requires within { All (λ number. number < length rows.columns.now.rows) rows.numbers.now }
    requires place { place < length rows.columns.now.kinds }
    ensures { IfOk result (JoinsSet place set.old set.new
        (numbered rows.entry.numbers.now rows.entry.columns.now.rows)) }
{
    set.join(alloc, rows.columns, rows.numbers, place)?;
    Ok(Value::Int(set.values.len() as i128))
}

/// Returns what becomes of a value that is computed of some rows when those with these numbers join, or `None` if it stays.
#[inline(always)]
fn joined_value<'a>(value: &Value<'_>, aggregate: Aggregate, rows: RowsAt<'a>) -> Option<Value<'a>>
    requires within { All (λ number. number < length rows.columns.now.rows) rows.numbers.now }
    requires other { distinct_place aggregate ≡ None }
    requires joins { MayTally aggregate (length rows.columns.now.kinds) (value_view value.now)
        (numbered rows.numbers.now rows.columns.now.rows) }
    ensures { Tallies aggregate (value_view value.now) (value_or result (value_view value.now))
        (numbered rows.entry.numbers.now rows.entry.columns.now.rows) }
{
    match aggregate {
        Aggregate::Count => Some(Value::Int(count_of(value) + rows.numbers.len() as i128)),
        Aggregate::SumOfIntegers(place) => {
            let sum = number_in(NumberKind::Integer, value);
            Some(integer_or_null(sum_behind(sum, rows, place, NumberKind::Integer)))
        }
        Aggregate::SumOfDecimals(place) => {
            let sum = number_in(NumberKind::Decimal, value);
            Some(decimal_or_null(sum_behind(sum, rows, place, NumberKind::Decimal)))
        }
        Aggregate::Min(place) => better_extreme(value, rows, place, Extreme::Least),
        Aggregate::Max(place) => better_extreme(value, rows, place, Extreme::Greatest),
        Aggregate::CountDistinct(_) => None,
    }
}

/// Returns the number that a value is; 0 if it is none.
fn count_of(value: &Value<'_>) -> i128
    ensures { (n : ℕ) → value_view value.now ≡ integer (pos n) → result ≡ pos n }
{
    match value {
        Value::Int(number) => *number,
        _ => 0,
    }
}

/// Returns an integer, or null.
fn integer_or_null(number: Option<i128>) -> Value<'static>
    ensures { value_view result ≡ cell_of Integer number }
{
    match number {
        Some(number) => Value::Int(number),
        None => Value::Null,
    }
}

/// Returns a decimal, given in millionths, or null.
fn decimal_or_null(millionths: Option<i128>) -> Value<'static>
    ensures { value_view result ≡ cell_of Decimal millionths }
{
    match millionths {
        Some(millionths) => Value::Decimal(millionths),
        None => Value::Null,
    }
}

/// Returns the sum of the numbers that some rows and then these have in a column.
fn sum_behind(sum: Option<i128>, rows: RowsAt<'_>, place: usize, kind: NumberKind) -> Option<i128>
    requires within { All (λ number. number < length rows.columns.now.rows) rows.numbers.now }
    requires place { place < length rows.columns.now.kinds }
    requires joins { MaySum kind place sum (numbered rows.numbers.now rows.columns.now.rows) }
    ensures { (some : List (List CellValue)) → sum ≡ sum_of (numbers_in kind place some)
        → result ≡ sum_of (numbers_in kind place
        (some ++ numbered rows.entry.numbers.now rows.entry.columns.now.rows)) }
{
    joined_sum(sum, sum_of_rows(rows.columns, rows.numbers, place, kind))
}

/// Returns the least value that the rows with these numbers have in a column, or the greatest if that is asked for, if it wins over another value; null is none.
fn better_extreme<'a>(
    value: &Value<'_>,
    rows: RowsAt<'a>,
    place: usize,
    extreme: Extreme,
) -> Option<Value<'a>>
    requires within { All (λ number. number < length rows.columns.now.rows) rows.numbers.now }
    requires place { place < length rows.columns.now.kinds }
    ensures { Tallies (aggregate_of extreme place) (value_view value.now)
        (value_or result (value_view value.now))
        (numbered rows.entry.numbers.now rows.entry.columns.now.rows) }
{
    cell_types::values_are_ordered();
    let other = extreme_in(rows.columns, rows.numbers, place, extreme);
    if wins(&other, value, extreme) {
        return Some(other);
    }
    None
}
