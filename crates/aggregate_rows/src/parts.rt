//! Rows by their groups, before they join.
ghost use Rattle.std.specs.Prelude.{◌≡◌, ◌<◌, ◌≤◌, ◌^◌, ℕ, [], IfOk, IfSome, List, None, OnOk, Some, length, slice_index_or};
ghost use Rattle.std.specs.List.{All, AllByRecursion};
ghost use Rattle.query_meaning.specs.Apply.{values_at};
ghost use Rattle.row_columns.specs.Picked.{numbered};
ghost use Rattle.aggregate_rows.specs.Gathered.{keys_held, HasGroupMore, IsGroupOf};
ghost use Rattle.aggregate_rows.specs.Parts.{AreGroupsOf, ArePartsFrom, BeginsGroups, JoinsParts, MayJoinParts};
ghost use Rattle.aggregate_rows.specs.Table.{IsShaped};

use crate::groups::{Groups, RowsAt};
use crate::joins::{Grouping, read_key};
use cell_types::Value;
use odata_query::Aggregate;
use row_codes::key_codes;
use row_columns::Columns;
use row_selection::Selection;
use std::alloc::{AllocError, Global};

/// Up to this many groups, rows are separated by them before they join.
const MOST_PARTS: usize = 1024;

/// Rows of at most this many are separated.
const PART_ROWS: usize = 1 << 16;

/// A row of columns.
#[derive(Clone, Copy)]
pub(crate) struct RowAt<'a> {
    pub(crate) columns: &'a Columns,
    pub(crate) number: usize,
}

impl Groups {
    /// Returns the groups of the rows with these numbers, each looked up by the code of its values if there are such codes and few groups.
    #[inline(never)]
    pub(crate) fn groups_of(
        &mut self,
        alloc: Global,
        columns: &Columns,
        numbers: &Selection,
        grouping: Grouping<'_>,
    ) -> Result<Option<Vec<usize>>, AllocError>
        requires within { All (λ number. number < length columns.now.rows) numbers.now }
        requires places { All (λ place. place < length columns.now.kinds) grouping.places.now }
        requires shape { IsShaped self.old grouping.places.now grouping.aggregates.now }
        ensures none { IfOk result (λ groups. groups ≡ None → self.new ≡ self.old) }
        ensures few { IfOk result (λ groups. IfSome groups
            (λ _. length columns.now.rows ≤ 2 ^ 16)) }
        ensures groups { IfOk result (λ groups. IfSome groups (λ groups. AreGroupsOf self.new
            grouping.entry.places.now (numbered numbers.now columns.now.rows) groups.items)) }
        ensures begun { IfOk result (λ groups. IfSome groups (λ groups. BeginsGroups
            grouping.entry.places.now grouping.entry.aggregates.now self.old self.new
            (numbered numbers.now columns.now.rows))) }
    {
        cell_types::values_are_ordered();
        if self.len() > MOST_PARTS || columns.len() > PART_ROWS {
            return Ok(None);
        }
        let Some(codes) = key_codes(alloc, columns, numbers, grouping.places)? else {
            return Ok(None);
        };
        let mut groups = Vec::with_capacity(alloc, numbers.len())?;
        let mut known = none_known(alloc, codes.count)?;
        for i in 0..numbers.len() {
            let code = usize::from(codes.codes[i]);
            let number = numbers.at(i);
            let row = RowAt { columns, number };
            let group = self.group_of_row(alloc, row, grouping, &mut known[code])?;
            groups.push(group)?;
        }
        Ok(Some(groups))
    }

    /// Returns the group of a row, which is known, or looked up by the row's values; it is known from then on.
    #[inline(always)]
    fn group_of_row(
        &mut self,
        alloc: Global,
        row: RowAt<'_>,
        grouping: Grouping<'_>,
        known: &mut Option<usize>,
    ) -> Result<usize, AllocError>
        requires row { row.number < length row.columns.now.rows }
        requires places { All (λ place. place < length row.columns.now.kinds) grouping.places.now }
        requires shape { IsShaped self.old grouping.places.now grouping.aggregates.now }
        requires known { IfSome known.old (IsGroupOf self.old (values_at grouping.places.now
            (slice_index_or row.columns.now.rows row.number []))) }
        ensures group { IfOk result (IsGroupOf self.new (values_at grouping.entry.places.now
            (slice_index_or row.entry.columns.now.rows row.entry.number []))) }
        ensures more { OnOk result (HasGroupMore grouping.entry.aggregates.now self.old self.new
            (values_at grouping.entry.places.now
            (slice_index_or row.entry.columns.now.rows row.entry.number []))) }
        ensures known { IfOk result (λ group. known.new ≡ Some group) }
    {
        cell_types::values_are_ordered();
        match *known {
            Some(group) => Ok(group),
            None => {
                let group = self.group_of_values(alloc, row.columns, row.number, grouping)?;
                *known = Some(group);
                Ok(group)
            }
        }
    }

    /// Returns the group of the values of a row.
    #[inline(never)]
    fn group_of_values<'a>(
        &mut self,
        alloc: Global,
        columns: &'a Columns,
        number: usize,
        grouping: Grouping<'_>,
    ) -> Result<usize, AllocError>
        requires row { number < length columns.now.rows }
        requires places { All (λ place. place < length columns.now.kinds) grouping.places.now }
        requires shape { IsShaped self.old grouping.places.now grouping.aggregates.now }
        ensures group { IfOk result (IsGroupOf self.new (values_at grouping.entry.places.now
            (slice_index_or columns.now.rows number []))) }
        ensures more { OnOk result (HasGroupMore grouping.entry.aggregates.now self.old self.new
            (values_at grouping.entry.places.now (slice_index_or columns.now.rows number []))) }
    {
        let mut key: Vec<Value<'a>> = Vec::with_capacity(alloc, grouping.places.len())?;
        read_key(&mut key, columns, number, grouping.places)?;
        self.group_of(alloc, &key, grouping.aggregates)
    }

    /// Joins to each group the rows of its part.
    pub(crate) fn join_parts(
        &mut self,
        alloc: Global,
        columns: &Columns,
        parts: Vec<Vec<u16>>,
        aggregates: &[Aggregate],
    ) -> Result<(), AllocError>
        requires within { AllByRecursion (λ part.
            All (λ number. number < length columns.now.rows) part.items) parts.items }
        requires joins { MayJoinParts aggregates.now (length columns.now.kinds) self.old
            columns.now.rows parts.items }
        ensures shape { OnOk result (self.new.shape ≡ self.old.shape) }
        ensures keys { OnOk result (keys_held self.new ≡ keys_held self.old) }
        ensures joins { OnOk result (JoinsParts aggregates.now self.old self.new
            columns.now.rows parts.items) }
    {
        let mut place = 0;
        for part in parts {
            let numbers = &Selection::few(part);
            let rows = RowsAt {
                aggregates,
                columns,
                numbers,
            };
            self.join_group(alloc, place, rows)?;
            place += 1;
        }
        Ok(())
    }
}

/// Returns the numbers of the rows of each group.
#[inline(never)]
pub(crate) fn parts_of(
    alloc: Global,
    len: usize,
    numbers: &Selection,
    groups: &[usize],
) -> Result<Vec<Vec<u16>>, AllocError>
    requires long { length numbers.now ≡ length groups.now }
    requires few { All (λ number. number < 2 ^ 16) numbers.now }
    requires within { All (λ group. group < len) groups.now }
    ensures long { IfOk result (λ parts. length parts.items ≡ len) }
    ensures parts { IfOk result (λ parts.
        ArePartsFrom 0 numbers.now groups.now parts.items) }
{
    let mut parts = no_parts(alloc, len, numbers.len() / (len / 2 + 1))?;
    for i in 0..numbers.len() {
        parts[groups[i]].push(numbers.at(i) as u16)?;
    }
    Ok(parts)
}

/// Returns no known group for any of `count` codes.
fn none_known(alloc: Global, count: usize) -> Result<Vec<Option<usize>>, AllocError>
    ensures long { IfOk result (λ known. length known.items ≡ count) }
    ensures none { IfOk result (λ known.
        (code : ℕ) → slice_index_or known.items code None ≡ None) }
{
    let mut known = Vec::with_capacity(alloc, count)?;
    for _ in 0..count {
        known.push(None)?;
    }
    Ok(known)
}

/// Returns parts without rows, each with room.
fn no_parts(alloc: Global, len: usize, room: usize) -> Result<Vec<Vec<u16>>, AllocError>
    ensures long { IfOk result (λ parts. length parts.items ≡ len) }
    ensures none { IfOk result (λ parts.
        AllByRecursion (λ part. part.items ≡ []) parts.items) }
{
    let mut parts = Vec::with_capacity(alloc, len)?;
    for _ in 0..len {
        let part = Vec::with_capacity(alloc, room)?;
        parts.push(part)?;
    }
    Ok(parts)
}
