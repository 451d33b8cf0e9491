//! Groups one after another: the values of their keys with what is computed of their rows.
ghost use Rattle.std.specs.Prelude.{◌≡◌, ◌<◌, ◌+◌, ◌^◌, ◌++◌, [], ℕ, false, IfOk, IfSome, IsTrue, None, OnOk, length, map, replicate, slice_index_or, take};
ghost use Rattle.std.specs.Cmp.Lexicographic.{pointwise};
ghost use Rattle.std.specs.Hash as fed;
ghost use Rattle.std.specs.List.{list_any, All};
ghost use Rattle.cell_types.specs.Value.{value_view};
ghost use Rattle.insertion_map.specs.Places.{hash_value};
ghost use Rattle.query_meaning.specs.Apply.{computed_value, same_values};
ghost use Rattle.row_columns.specs.Kinds.{any};
ghost use Rattle.row_columns.specs.Numbers.{numbers_from};
ghost use Rattle.row_columns.specs.Picked.{numbered};
ghost use Rattle.aggregate_rows.specs.Gathered.{keys_held, HaveShown, IsGroupOf, IsPushed, JoinsGroup, MakesRows, MayJoinGroup};
ghost use Rattle.aggregate_rows.specs.Table.{shape_of};
ghost use Rattle.aggregate_rows.specs.Tallies.{HasSetsMore};

use crate::distinct::Distinct;
use crate::results::{distinct_count, distinct_place, join_each, result_of_none};
use cell_types::Value;
use insertion_map::HashPlaces;
use odata_query::Aggregate;
use row_columns::Columns;
use row_selection::Selection;
use std::alloc::{AllocError, Global};
use std::hash::Hash;
use std::marker::Model;
use value_rows::PackedValues;

/// Rows of columns, and what is computed of them.
#[derive(Clone, Copy)]
pub(crate) struct RowsAt<'a> {
    pub(crate) aggregates: &'a [Aggregate],
    pub(crate) columns: &'a Columns,
    pub(crate) numbers: &'a Selection,
}

/// Groups in the order of their first rows. Each has the values of its key, and after them what is computed of its rows.
#[derive(Drop)]
pub(crate) struct Groups {
    /// The place of each group by the hash of its key.
    places: HashPlaces,
    /// How many values make a key.
    key_width: usize,
    /// How many values a group has.
    width: usize,
    /// The values of all groups, one group after another. What is after them is of no group.
    values: PackedValues,
    /// How many aggregates count distinct values.
    set_count: usize,
    /// The distinct values of each group and each such aggregate, one group after another.
    sets: Vec<Distinct>,
}

impl Model for Groups {
    ghost use Rattle.aggregate_rows.specs.Inside.{groups_view, AreGroups};
    ghost use Rattle.aggregate_rows.specs.Table.{GroupsOf};

    ghost Value = { GroupsOf };

    ghost view = { groups_view };

    ghost invariant = { AreGroups ⟦<Value<'static> as Hash>⟧.hash_input };
}

impl Groups {
    /// Returns no groups.
    pub(crate) fn none(alloc: Global, key_width: usize, aggregates: &[Aggregate]) -> Groups
        requires { key_width + length aggregates.now < 2 ^ 62 }
        ensures shape { result.shape ≡ shape_of key_width aggregates.now }
        ensures groups { result.groups ≡ [] }
    {
        Groups {
            places: HashPlaces::new(alloc),
            key_width,
            width: key_width + aggregates.len(),
            values: PackedValues::new(alloc),
            set_count: distinct_count(aggregates),
            sets: Vec::new(alloc),
        }
    }

    /// Returns how many groups there are.
    pub(crate) fn len(&self) -> usize
        ensures { result ≡ length self.now.groups }
    {
        self.places.len()
    }

    /// Returns true if the group at `place` has this key.
    #[inline(always)]
    fn has_key(&self, place: usize, key: &[Value<'_>]) -> bool
        requires { place < length self.now.groups }
        ensures { result ≡ same_values (slice_index_or (keys_held self.now) place [])
            (map value_view key.now) }
    {
        self.values.are_few();
        self.values.are_at(place * self.width, self.key_width, key)
    }

    /// Returns the place of the group with a key, given with its hash.
    pub(crate) fn place_of<'a>(&self, key: &[Value<'a>], hash: u32) -> Option<usize>
        requires { hash ≡ hash_value (fed.slice ⟦<Value<'a> as Hash>⟧.hash_input key.now) }
        ensures some { IfSome result (IsGroupOf self.now (map value_view key.now)) }
        ensures none { result ≡ None
            → list_any (same_values (map value_view key.now)) (keys_held self.now) ≡ false }
    {
        cell_types::values_are_ordered();
        cell_types::values_compare_as_their_views();
        let has_key = |place: usize| -> bool
            requires { place < length self.now.groups }
            ensures { result ≡ same_values (slice_index_or (keys_held self.entry.now) place [])
                (map value_view key.entry.now) }
        { self.has_key(place, key) };
        self.places.find(hash, has_key)
    }

    /// Appends a group of no rows, with a key given with its hash.
    pub(crate) fn push<'a>(
        &mut self,
        alloc: Global,
        key: &[Value<'a>],
        hash: u32,
        aggregates: &[Aggregate],
    ) -> Result<(), AllocError>
        requires hash { hash ≡ hash_value (fed.slice ⟦<Value<'a> as Hash>⟧.hash_input key.now) }
        requires shape { self.old.shape ≡ shape_of (length key.now) aggregates.now }
        ensures shape { self.new.shape ≡ self.old.shape }
        ensures groups { OnOk result (IsPushed aggregates.now (map value_view key.now)
            self.old.groups self.new.groups) }
    {
        cell_types::values_compare_as_their_views();
        self.values.are_few();
        let count = self.places.len();
        let end = count * self.width;
        let set_end = count * self.set_count;
        self.values.truncate(end);
        self.sets.truncate(set_end);
        push_copies(&mut self.values, alloc, key)?;
        push_results(&mut self.values, &mut self.sets, alloc, aggregates)?;
        self.places.push(hash)
    }

    /// Joins rows to those of the group at `place`.
    pub(crate) fn join_group(
        &mut self,
        alloc: Global,
        place: usize,
        rows: RowsAt<'_>,
    ) -> Result<(), AllocError>
        requires within { All (λ number. number < length rows.columns.now.rows) rows.numbers.now }
        requires joins { MayJoinGroup rows.aggregates.now self.old place
            (length rows.columns.now.kinds) (numbered rows.numbers.now rows.columns.now.rows) }
        ensures { OnOk result (JoinsGroup rows.entry.aggregates.now self.old self.new place
            (numbered rows.entry.numbers.now rows.entry.columns.now.rows)) }
    {
        self.values.are_few();
        let from = place * self.width + self.key_width;
        let set = place * self.set_count;
        let sets = &mut self.sets.as_mut_slice()[set..set + self.set_count];
        join_each(alloc, &mut self.values, from, sets, rows)
    }

    /// Returns a row for each group: the values of its key, and what is computed of its rows by the aggregates at `shown`.
    pub(crate) fn into_rows(self, alloc: Global, shown: &[usize]) -> Result<Columns, AllocError>
        requires { HaveShown self shown.now }
        ensures kinds { IfOk result (λ made.
            made.kinds ≡ replicate (self.shape.key + length shown.now) any) }
        ensures rows { IfOk result (λ made. MakesRows self shown.now made.rows) }
    {
        let count = self.len();
        let key_width = self.key_width;
        let width = self.width;
        let Groups { values, .. } = self;
        let columns = Columns::of_values(alloc, width, count, values)?;
        if are_all(shown, width - key_width) {
            return Ok(columns);
        }
        let places = shown_places(alloc, key_width, shown)?;
        let numbers = Selection::all(count).to_vec(alloc)?;
        columns.picked(alloc, &places, &numbers)
    }
}

/// Appends copies of values.
fn push_copies(
    values: &mut PackedValues,
    alloc: Global,
    others: &[Value<'_>],
) -> Result<(), AllocError>
    ensures front { take (length values.old) values.new ≡ values.old }
    ensures values { OnOk result (values.new ≡ values.old ++ map value_view others.now) }
{
    for value in others {
        values.push(alloc, value)?;
    }
    Ok(())
}

/// Appends what each aggregate computes of no rows, and a set of no values for each that counts distinct ones.
fn push_results(
    values: &mut PackedValues,
    sets: &mut Vec<Distinct>,
    alloc: Global,
    aggregates: &[Aggregate],
) -> Result<(), AllocError>
    ensures front { take (length values.old) values.new ≡ values.old }
    ensures sets_front { take (length sets.old.items) sets.new.items ≡ sets.old.items }
    ensures values { OnOk result
        (values.new ≡ values.old ++ map (computed_value []) aggregates.now) }
    ensures sets { OnOk result (HasSetsMore aggregates.now sets.old.items sets.new.items) }
{
    for aggregate in aggregates {
        values.push(alloc, &result_of_none(*aggregate))?;
        if distinct_place(*aggregate).is_some() {
            sets.push(Distinct::none(alloc))?;
        }
    }
    Ok(())
}

/// Returns the places of the values of a key, and of those after it at `shown`.
fn shown_places(alloc: Global, key_width: usize, shown: &[usize]) -> Result<Vec<usize>, AllocError>
    requires { All (λ place. key_width + place < 2 ^ 64) shown.now }
    ensures { IfOk result (λ made. made.items
        ≡ numbers_from 0 key_width ++ map (λ place. key_width + place) shown.now) }
{
    let mut places = Selection::all(key_width).to_vec(alloc)?;
    for place in shown {
        places.push(key_width + *place)?;
    }
    Ok(places)
}

/// Returns true if the places are those of `count` results, each once and in their order.
fn are_all(shown: &[usize], count: usize) -> bool
    ensures { IsTrue result → (length shown.now ≡ count)
        × ((i : ℕ) → i < count → slice_index_or shown.now i 0 ≡ i) }
{
    if shown.len() != count {
        return false;
    }
    for i in 0..count {
        if shown[i] != i {
            return false;
        }
    }
    true
}
