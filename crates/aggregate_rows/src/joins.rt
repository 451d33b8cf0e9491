//! Groups of rows, by their values in some columns, while rows come.
ghost use Rattle.std.specs.Prelude.{◌≡◌, ◌<◌, [], ℕ, IfOk, List, None, OnOk, Option, Some, length, map, slice_index_or};
ghost use Rattle.std.specs.List.{All};
ghost use Rattle.cell_types.specs.Value.{value_view};
ghost use Rattle.query_meaning.specs.Apply.{values_at};
ghost use Rattle.row_columns.specs.Picked.{numbered};
ghost use Rattle.aggregate_rows.specs.Gathered.{HasGroupMore, HasGroups, IsGroupOf, JoinsGroups, MayJoinGroups};
ghost use Rattle.aggregate_rows.specs.Table.{shape_of};

use crate::groups::{Groups, RowsAt};
use crate::parts::parts_of;
use cell_types::Value;
use insertion_map::hash_of_items;
use odata_query::Aggregate;
use row_columns::Columns;
use row_selection::Selection;
use std::alloc::{AllocError, Global};

/// The places of the columns by whose values rows are grouped, and what is computed of each group.
#[derive(Clone, Copy)]
pub(crate) struct Grouping<'a> {
    pub(crate) places: &'a [usize],
    pub(crate) aggregates: &'a [Aggregate],
}

impl Groups {
    /// Returns all rows as one group, of which there are none.
    pub(crate) fn whole(alloc: Global, aggregates: &[Aggregate]) -> Result<Groups, AllocError>
        ensures { IfOk result (λ groups. HasGroups None aggregates.now groups []) }
    {
        let mut groups = Groups::none(alloc, 0, aggregates);
        let key: [Value<'static>; 0] = [];
        groups.push(alloc, &key, hash_of_items(&key), aggregates)?;
        Ok(groups)
    }

    /// Joins the rows with these numbers to the groups of their values.
    pub(crate) fn join_rows(
        &mut self,
        alloc: Global,
        columns: &Columns,
        numbers: &Selection,
        grouping: Grouping<'_>,
    ) -> Result<(), AllocError>
        requires within { All (λ number. number < length columns.now.rows) numbers.now }
        requires places { All (λ place. place < length columns.now.kinds) grouping.places.now }
        requires joins { MayJoinGroups (Some grouping.places.now) grouping.aggregates.now
            (length columns.now.kinds) self.old (numbered numbers.now columns.now.rows) }
        ensures { OnOk result (JoinsGroups (Some grouping.entry.places.now)
            grouping.entry.aggregates.now self.old self.new
            (numbered numbers.now columns.now.rows)) }
    {
        cell_types::values_are_ordered();
        query_meaning::rows_are_in_groups();
        if let Some(groups) = self.groups_of(alloc, columns, numbers, grouping)? {
            let parts = parts_of(alloc, self.len(), numbers, &groups)?;
            return self.join_parts(alloc, columns, parts, grouping.aggregates);
        }
        self.join_each_row(alloc, columns, numbers, grouping)
    }

    /// Joins the rows with these numbers to the groups of their values, one after another.
    fn join_each_row(
        &mut self,
        alloc: Global,
        columns: &Columns,
        numbers: &Selection,
        grouping: Grouping<'_>,
    ) -> Result<(), AllocError>
        requires within { All (λ number. number < length columns.now.rows) numbers.now }
        requires places { All (λ place. place < length columns.now.kinds) grouping.places.now }
        requires joins { MayJoinGroups (Some grouping.places.now) grouping.aggregates.now
            (length columns.now.kinds) self.old (numbered numbers.now columns.now.rows) }
        ensures { OnOk result (JoinsGroups (Some grouping.entry.places.now)
            grouping.entry.aggregates.now self.old self.new
            (numbered numbers.now columns.now.rows)) }
    {
        cell_types::values_are_ordered();
        query_meaning::rows_are_in_groups();
        let Grouping { places, aggregates } = grouping;
        let mut key = Vec::with_capacity(alloc, places.len())?;
        for i in 0..numbers.len() {
            let number = numbers.at(i);
            read_key(&mut key, columns, number, places)?;
            let numbers = &Selection::one(number);
            let place = self.group_of(alloc, &key, aggregates)?;
            let rows = RowsAt {
                aggregates,
                columns,
                numbers,
            };
            self.join_group(alloc, place, rows)?;
        }
        Ok(())
    }

    /// Returns the place of the group of a key. One of no rows comes after the others if the key is none of theirs; the key is looked up before it is copied.
    pub(crate) fn group_of(
        &mut self,
        alloc: Global,
        key: &[Value<'_>],
        aggregates: &[Aggregate],
    ) -> Result<usize, AllocError>
        requires { self.old.shape ≡ shape_of (length key.now) aggregates.now }
        ensures group { IfOk result (IsGroupOf self.new (map value_view key.now)) }
        ensures more { OnOk result (HasGroupMore aggregates.now self.old self.new
            (map value_view key.now)) }
    {
        cell_types::values_are_ordered();
        cell_types::values_compare_as_their_views();
        let hash = hash_of_items(key);
        match self.place_of(key, hash) {
            Some(place) => Ok(place),
            None => {
                let place = self.len();
                self.push(alloc, key, hash, aggregates)?;
                Ok(place)
            }
        }
    }
}

/// Reads the values that a row has in the columns with these places as a key, in the place of the one before.
pub(crate) fn read_key<'a>(
    key: &mut Vec<Value<'a>>,
    columns: &'a Columns,
    number: usize,
    places: &[usize],
) -> Result<(), AllocError>
    requires row { number < length columns.now.rows }
    requires places { All (λ place. place < length columns.now.kinds) places.now }
    ensures { OnOk result (map value_view key.new.items
        ≡ values_at places.now (slice_index_or columns.now.rows number [])) }
{
    key.clear();
    for place in places {
        key.push(columns.value(number, *place))?;
    }
    Ok(())
}
