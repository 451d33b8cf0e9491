//! What is known of the cells of one column of a block.

ghost use Rattle.std.specs.Prelude.{◌≡◌, ◌<◌, ◌≤◌, ◌+◌, IfOk, IsErr, OnOk, OnErr, option_map, Some};
ghost use Rattle.cell_types.specs.Value.{value_view};
ghost use Rattle.block_summary.specs.Ranges.{greater, greater_of, joined_range, lesser, lesser_of, no_range, taken, widened, IsRangeOf, IsTextCell};
ghost use Rattle.block_summary.specs.Tests.{admits as admits_test, order_to};

use crate::packed::PackedColumn;
use crate::test::Test;
use cell_types::{ComparisonOperator, Value, owned};
use std::alloc::{AllocError, Global};
use std::cmp::Ordering;
use std::marker::Model;

/// The least and the greatest cell of a column of a block that are not null, and how many of its cells are null.
#[derive(Drop)]
pub struct Range {
    pub(crate) least: Option<Value<'static>>,
    pub(crate) greatest: Option<Value<'static>>,
    pub(crate) null_count: usize,
}

impl Model for Range {
    ghost use Rattle.block_summary.specs.Ranges.{RangeOf};

    ghost Value = { RangeOf };

    ghost use Rattle.std.specs.Prelude.{option_map};
    ghost use Rattle.cell_types.specs.Value.{value_view};

    ghost view = { λ r. record { least = option_map value_view r.least; greatest = option_map value_view r.greatest; null_count = r.null_count } };
}

/// Returns how the least or the greatest, if there is one, lies to a literal.
fn order_of(bound: &Option<Value<'static>>, literal: &Value<'_>) -> Option<Ordering>
    ensures { result ≡ order_to (option_map value_view bound.now) (value_view literal.now) }
{
    cell_types::values_compare_as_their_views();
    match bound {
        Some(value) => Some(value.cmp(literal)),
        None => None,
    }
}

/// Returns a copy of `bound` that lives on its own.
fn owned_bound(
    alloc: Global,
    bound: &Option<Value<'_>>,
) -> Result<Option<Value<'static>>, AllocError>
    ensures { IfOk result
        (λ copy. option_map value_view copy ≡ option_map value_view bound.now) }
{
    match bound {
        Some(value) => Ok(Some(owned(alloc, value)?)),
        None => Ok(None),
    }
}

/// Returns a copy of a value that is to take the place of the least.
fn new_least(
    alloc: Global,
    least: &Option<Value<'static>>,
    value: &Value<'_>,
) -> Result<Option<Value<'static>>, AllocError>
    ensures place { IfOk result
        (λ new. taken (option_map value_view least.now) (option_map value_view new)
        ≡ Some (lesser (option_map value_view least.now) (value_view value.now))) }
    ensures memory { IsErr result → IsTextCell (value_view value.now) }
{
    match order_of(least, value) {
        None | Some(Ordering::Greater) => Ok(Some(owned(alloc, value)?)),
        _ => Ok(None),
    }
}

/// Returns a copy of a value that is to take the place of the greatest.
fn new_greatest(
    alloc: Global,
    greatest: &Option<Value<'static>>,
    value: &Value<'_>,
) -> Result<Option<Value<'static>>, AllocError>
    ensures place { IfOk result
        (λ new. taken (option_map value_view greatest.now) (option_map value_view new)
        ≡ Some (greater (option_map value_view greatest.now) (value_view value.now))) }
    ensures memory { IsErr result → IsTextCell (value_view value.now) }
{
    match order_of(greatest, value) {
        None | Some(Ordering::Less) => Ok(Some(owned(alloc, value)?)),
        _ => Ok(None),
    }
}

/// Puts a copy of `other` in the place of `least` if it is less.
fn join_least(
    alloc: Global,
    least: &mut Option<Value<'static>>,
    other: &Option<Value<'static>>,
) -> Result<(), AllocError>
    ensures { OnOk result (option_map value_view least.new
        ≡ lesser_of (option_map value_view least.old) (option_map value_view other.now)) }
{
    if let Some(value) = other {
        let new = new_least(alloc, least, value)?;
        take_place(least, new);
    }
    Ok(())
}

/// Puts a copy of `other` in the place of `greatest` if it is greater.
fn join_greatest(
    alloc: Global,
    greatest: &mut Option<Value<'static>>,
    other: &Option<Value<'static>>,
) -> Result<(), AllocError>
    ensures { OnOk result (option_map value_view greatest.new
        ≡ greater_of (option_map value_view greatest.old) (option_map value_view other.now)) }
{
    if let Some(value) = other {
        let new = new_greatest(alloc, greatest, value)?;
        take_place(greatest, new);
    }
    Ok(())
}

/// Puts a value, if there is one, in the place of another.
fn take_place(place: &mut Option<Value<'static>>, value: Option<Value<'static>>)
    ensures { option_map value_view place.new
        ≡ taken (option_map value_view place.old) (option_map value_view value.entry) }
{
    if let Some(value) = value {
        *place = Some(value);
    }
}

impl Range {
    /// Returns the range of no cells.
    pub fn new() -> Range
        ensures { result ≡ no_range }
    {
        Range {
            least: None,
            greatest: None,
            null_count: 0,
        }
    }

    /// Returns the range of a column.
    pub fn of_column(column: &PackedColumn) -> Range
        ensures { IsRangeOf result column.now }
    {
        let (least, greatest) = column.ends();
        Range {
            least,
            greatest,
            null_count: column.null_count(),
        }
    }

    /// Returns the range with copies of `least` and `greatest`, and with `null_count` nulls.
    pub fn of_values(
        alloc: Global,
        least: Option<Value<'_>>,
        greatest: Option<Value<'_>>,
        null_count: usize,
    ) -> Result<Range, AllocError>
        ensures { IfOk result (λ range. range ≡ record {
          least = option_map value_view least.entry;
          greatest = option_map value_view greatest.entry;
          null_count = null_count;
        }) }
    {
        Ok(Range {
            least: owned_bound(alloc, &least)?,
            greatest: owned_bound(alloc, &greatest)?,
            null_count,
        })
    }

    /// Takes in one more cell; a text that is the least or the greatest so far is copied, and nothing else takes memory.
    pub fn add(&mut self, alloc: Global, value: &Value<'_>) -> Result<(), AllocError>
        requires { self.old.null_count < usize.MAX }
        ensures added { OnOk result (self.new ≡ widened self.old (value_view value.now)) }
        ensures err { OnErr result (self.new ≡ self.old) }
        ensures memory { IsErr result → IsTextCell (value_view value.now) }
    {
        if matches!(value, Value::Null) {
            self.null_count += 1;
            return Ok(());
        }
        let least = new_least(alloc, &self.least, value)?;
        let greatest = new_greatest(alloc, &self.greatest, value)?;
        take_place(&mut self.least, least);
        take_place(&mut self.greatest, greatest);
        Ok(())
    }

    /// Takes in the cells of another range. If memory ran out, the bounds may be those of either.
    pub fn join(&mut self, alloc: Global, other: &Range) -> Result<(), AllocError>
        requires { self.old.null_count + other.now.null_count ≤ usize.MAX }
        ensures { OnOk result (self.new ≡ joined_range self.old other.now) }
    {
        join_least(alloc, &mut self.least, &other.least)?;
        join_greatest(alloc, &mut self.greatest, &other.greatest)?;
        self.null_count += other.null_count;
        Ok(())
    }

    /// Returns the least cell that is not null, or `None` if all are.
    pub fn least(&self) -> Option<&Value<'static>>
        ensures { option_map (λ v. value_view v.now) result ≡ self.now.least }
    {
        self.least.as_ref()
    }

    /// Returns the greatest cell that is not null, or `None` if all are.
    pub fn greatest(&self) -> Option<&Value<'static>>
        ensures { option_map (λ v. value_view v.now) result ≡ self.now.greatest }
    {
        self.greatest.as_ref()
    }

    /// Returns how many cells are null.
    pub fn null_count(&self) -> usize
        ensures { result ≡ self.now.null_count }
    {
        self.null_count
    }

    /// Returns true if a column of this range can have a cell that passes the test.
    pub fn admits(&self, test: &Test<'_>) -> bool
        ensures { result ≡ admits_test test.now.op self.now (value_view test.now.literal) }
    {
        if matches!(test.literal, Value::Null) {
            return match test.op {
                ComparisonOperator::GreaterThan | ComparisonOperator::LessThan => false,
                ComparisonOperator::NotEqual => self.least.is_some(),
                _ => self.null_count > 0,
            };
        }
        let least = order_of(&self.least, &test.literal);
        let greatest = order_of(&self.greatest, &test.literal);
        match test.op {
            ComparisonOperator::Equal => {
                matches!(least, Some(Ordering::Less | Ordering::Equal))
                    && matches!(greatest, Some(Ordering::Greater | Ordering::Equal))
            }
            ComparisonOperator::NotEqual => {
                self.null_count > 0
                    || matches!(least, Some(Ordering::Less | Ordering::Greater))
                    || matches!(greatest, Some(Ordering::Less | Ordering::Greater))
            }
            ComparisonOperator::GreaterThan => matches!(greatest, Some(Ordering::Greater)),
            ComparisonOperator::GreaterOrEqual => {
                matches!(greatest, Some(Ordering::Greater | Ordering::Equal))
            }
            ComparisonOperator::LessThan => matches!(least, Some(Ordering::Less)),
            ComparisonOperator::LessOrEqual => matches!(
                least,
                Some(Ordering::Less | Ordering::Equal)
            ),
        }
    }
}
