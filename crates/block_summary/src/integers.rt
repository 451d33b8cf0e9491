//! The integers of one column of a block.

ghost use Rattle.std.specs.Prelude.{◌≡◌, ◌<◌, ◌≤ℤ◌, ℕ, false, None, IfOk, length, map, slice_index_or};
ghost use Rattle.std.specs.List.{count_by};
ghost use Rattle.std.specs.Option.{is_none};
ghost use Rattle.block_summary.specs.Cells.{cells_of, AreMarks, AreUnpacked, AreWithin, HaveBounds};
ghost use Rattle.block_summary.specs.Passing.{lies_between, number_passes};
ghost use Rattle.block_summary.specs.Sums.{number_sum};

use crate::bounds::Bounds;
use crate::lanes::{bounds_of, null_count_of, total_of};
use crate::span::{is_turned, span_of};
use cell_types::ComparisonOperator;
use frame_of_reference::{
    Offsets, add_each, mark_each, offset_at, offsets_of, rows_of, sum_of, turn_each, unmark_nulls,
};
use std::alloc::{AllocError, Global};
use std::marker::Model;

/// The integers and nulls of the rows of a block.
#[derive(Drop)]
pub struct Integers {
    bounds: Option<Bounds>,
    null_count: usize,
    /// The sum of the integers.
    sum: i128,
    /// What the offsets are added to.
    least: i64,
    /// Which rows are null; nothing if none is.
    nulls: Vec<bool>,
    offsets: Offsets,
}

impl Model for Integers {
    ghost use Rattle.std.specs.Prelude.{◌≡◌, ◌⊎◌, [], List, Option, ℤ, length};
    ghost use Rattle.std.specs.List.{count_by};
    ghost use Rattle.std.specs.Option.{is_none};
    ghost use Rattle.block_summary.specs.Cells.{cells_of, sums, AreBelow, HaveBounds};
    ghost use Rattle.frame_of_reference.specs.OffsetList.{offset_list};
    ghost use Rattle.block_summary.specs.Sums.{number_sum};

    ghost Value = { List (Option ℤ) };

    ghost view = { λ c. cells_of c.nulls.items (sums c.least (offset_list c.offsets)) };

    ghost invariant = { λ c. AreBelow c.least (offset_list c.offsets)
        × ((c.nulls.items ≡ []) ⊎ (length c.nulls.items ≡ length (offset_list c.offsets)))
        × HaveBounds c.bounds (cells_of c.nulls.items (sums c.least (offset_list c.offsets)))
        × (c.null_count ≡ count_by is_none (cells_of c.nulls.items (sums c.least (offset_list c.offsets))))
        × (c.sum ≡ number_sum (cells_of c.nulls.items (sums c.least (offset_list c.offsets)))) };
}

/// Returns the marks of nulls that are kept: none, if no row is null.
fn kept_nulls(alloc: Global, nulls: &[bool], null_count: usize) -> Result<Vec<bool>, AllocError>
    requires { null_count ≡ count_by (λ is_null. is_null) nulls.now }
    ensures { IfOk result (λ kept. AreMarks nulls.now kept.items) }
{
    if null_count == 0 {
        return Ok(Vec::new(alloc));
    }
    Vec::from_slice(alloc, nulls)
}

/// Returns true if a row is null; none is, past the marks.
#[inline(always)]
fn is_null_at(nulls: &[bool], row: usize) -> bool
    ensures { result ≡ slice_index_or nulls.now row false }
{
    match nulls.get(row) {
        Some(is_null) => *is_null,
        None => false,
    }
}

/// Returns the offsets of values from a least one.
fn kept(
    alloc: Global,
    bounds: Option<Bounds>,
    least: i64,
    greatest: i64,
    values: &[i64],
    nulls: &[bool],
) -> Result<Integers, AllocError>
    requires nulls_long { length nulls.now ≡ length values.now }
    requires ordered { least ≤ℤ greatest }
    requires within { AreWithin least greatest nulls.now values.now }
    requires bounds { HaveBounds bounds (cells_of nulls.now values.now) }
    ensures { IfOk result (λ column. column ≡ cells_of nulls.now values.now) }
{
    let null_count = null_count_of(nulls);
    let sum = total_of(values, nulls);
    let nulls_kept = kept_nulls(alloc, nulls, null_count)?;
    let offsets = offsets_of(alloc, least, greatest, values, nulls)?;
    Ok(Integers {
        bounds,
        null_count,
        sum,
        least,
        nulls: nulls_kept,
        offsets,
    })
}

impl Integers {
    /// Keeps values, of which some are null. What stands in the place of a null does not matter.
    pub fn pack(alloc: Global, values: &[i64], nulls: &[bool]) -> Result<Integers, AllocError>
        requires { length nulls.now ≡ length values.now }
        ensures { IfOk result (λ column. column ≡ cells_of nulls.now values.now) }
    {
        match bounds_of(values, nulls) {
            Some(bounds) => kept(
                alloc,
                Some(bounds),
                bounds.least,
                bounds.greatest,
                values,
                nulls,
            ),
            None => kept(alloc, None, 0, 0, values, nulls),
        }
    }

    /// Returns how many rows there are.
    pub fn len(&self) -> usize
        ensures { result ≡ length self.now }
    {
        rows_of(&self.offsets)
    }

    /// Returns the number of a row, or null; null past the end.
    pub fn get(&self, row: usize) -> Option<i64>
        ensures { result ≡ slice_index_or self.now row None }
    {
        if is_null_at(self.nulls.as_slice(), row) {
            return None;
        }
        match offset_at(&self.offsets, row) {
            Some(offset) => Some(sum_of(self.least, offset)),
            None => None,
        }
    }

    /// Writes the number of each row; at a null, any.
    pub fn unpack(&self, out: &mut [i64])
        requires { length out.old ≡ length self.now }
        ensures { AreUnpacked self.now out.new }
    {
        add_each(self.least, &self.offsets, out);
    }

    /// Marks the rows that are null.
    pub fn unpack_nulls(&self, out: &mut [bool])
        requires { length out.old ≡ length self.now }
        ensures { out.new ≡ map is_none self.now }
    {
        let nulls = self.nulls.as_slice();
        if nulls.is_empty() {
            out.fill(false);
        } else {
            out.copy_from_slice(nulls);
        }
    }

    /// Returns the least and the greatest number, or `None` if each row is null.
    pub fn bounds(&self) -> Option<Bounds>
        ensures { HaveBounds result self.now }
    {
        self.bounds
    }

    /// Returns how many rows are null.
    pub fn null_count(&self) -> usize
        ensures { result ≡ count_by is_none self.now }
    {
        self.null_count
    }

    /// Returns the sum of the numbers; nulls are passed over.
    pub fn sum(&self) -> i128
        ensures { result ≡ number_sum self.now }
    {
        self.sum
    }

    /// Marks the rows whose numbers lie between two: the offsets are looked at as they are kept.
    fn mark_between(&self, bounds: Bounds, out: &mut [bool])
        requires { length out.old ≡ length self.now }
        ensures { (i : ℕ) → i < length out.new → slice_index_or out.new i false
            ≡ lies_between bounds (slice_index_or self.now i None) }
    {
        if bounds.greatest < self.least {
            out.fill(false);
            return;
        }
        let low = bounds.least.max(self.least).abs_diff(self.least);
        let high = bounds.greatest.abs_diff(self.least);
        mark_each(&self.offsets, low, high, out);
        unmark_nulls(self.nulls.as_slice(), out);
    }

    /// Marks the rows whose numbers pass a comparison with a literal.
    pub fn mark_passing(&self, op: ComparisonOperator, literal: i64, out: &mut [bool])
        requires { length out.old ≡ length self.now }
        ensures { out.new ≡ map (number_passes op literal) self.now }
    {
        let _least = self.least;
        self.mark_between(span_of(op, literal), out);
        if is_turned(op) {
            turn_each(out);
        }
    }
}
