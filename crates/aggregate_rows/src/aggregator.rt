//! Rows of `aggregate` and of `groupby` (OData Data Aggregation 4.0, sections 3.2.1 and 3.2.3), gathered while the rows come.
ghost use Rattle.std.specs.Prelude.{◌≡◌, ◌≢◌, ◌↔◌, ◌<◌, ◌≤◌, ℕ, [], IfOk, IfSome, IsTrue, List, OnOk, Option, length, map, slice_index_or};
ghost use Rattle.std.specs.List.{All};
ghost use Rattle.cell_types.specs.Value.{CellValue};
ghost use Rattle.odata_query.specs.declared.aggregate.Aggregate.TheVariants.{Count};
ghost use Rattle.odata_query.specs.Aggregate.{named_view, NamedAggregateOf};
ghost use Rattle.row_columns.specs.Picked.{numbered};
ghost use Rattle.aggregate_rows.specs.Gathered.{gathered_rows, gathered_width, lent_places, plain_aggregates, AreOnce, Gathers, HasGatheredRows, HasGatheredWidth, HasGroupCount, Adjoins, MayJoin};
ghost use Rattle.aggregate_rows.specs.Tallies.{FitsAll};

use crate::groups::{Groups, RowsAt};
use crate::joins::Grouping;
use odata_query::{Aggregate, NamedAggregate};
use row_columns::Columns;
use row_selection::Selection;
use std::alloc::{AllocError, Global};

/// What rows come to, of which more may come: it keeps no row.
#[derive(Drop)]
pub struct Aggregator {
    /// The columns by whose values rows are grouped; without them all rows are one group.
    pub(crate) places: Option<Vec<usize>>,
    /// The aggregates, each once, however many names it has.
    pub(crate) aggregates: Vec<Aggregate>,
    /// Where each value that is computed is among them, by its name.
    pub(crate) shown: Vec<usize>,
    pub(crate) groups: Groups,
}

impl Aggregator {
    /// Returns an aggregator that took no row.
    pub fn new(
        alloc: Global,
        places: Option<&[usize]>,
        aggregates: &[NamedAggregate],
    ) -> Result<Aggregator, AllocError>
        ensures { IfOk result (λ made. Gathers made (lent_places places.entry)
            (map named_view aggregates.now) []) }
    {
        let Once { aggregates, shown } = each_once(alloc, aggregates)?;
        match places {
            None => {
                let groups = Groups::whole(alloc, &aggregates)?;
                Ok(Aggregator {
                    places: None,
                    aggregates,
                    shown,
                    groups,
                })
            }
            Some(places) => {
                let groups = Groups::none(alloc, places.len(), &aggregates);
                Ok(Aggregator {
                    places: Some(Vec::from_slice(alloc, places)?),
                    aggregates,
                    shown,
                    groups,
                })
            }
        }
    }

    /// Joins the rows with these numbers to those before. If memory ran out, it is not known which rows joined.
    pub fn join(
        &mut self,
        alloc: Global,
        columns: &Columns,
        numbers: &Selection,
    ) -> Result<(), AllocError>
        requires within { All (λ number. number < length columns.now.rows) numbers.now }
        requires joins { MayJoin self.old (length columns.now.kinds)
            (numbered numbers.now columns.now.rows) }
        ensures { OnOk result (Adjoins self.old self.new (numbered numbers.now columns.now.rows)) }
    {
        match &self.places {
            None => {
                let rows = RowsAt {
                    aggregates: &self.aggregates,
                    columns,
                    numbers,
                };
                self.groups.join_group(alloc, 0, rows)
            }
            Some(places) => {
                let grouping = Grouping {
                    places,
                    aggregates: &self.aggregates,
                };
                self.groups.join_rows(alloc, columns, numbers, grouping)
            }
        }
    }

    /// Returns how many groups there are of the rows that joined.
    pub fn group_count(&self) -> usize
        ensures { HasGroupCount self.now result }
    {
        self.groups.len()
    }

    /// Returns the one row of `aggregate`, or the rows of `groupby`, of all rows that joined, in columns of any. Groups are in the order of their first rows.
    pub fn finish(self, alloc: Global) -> Result<Columns, AllocError>
        requires { (places : Option (List ℕ)) × (aggregates : List NamedAggregateOf)
            × (rows : List (List CellValue)) × Gathers self places aggregates rows }
        ensures width { IfOk result (λ made. HasGatheredWidth self (length made.kinds)) }
        ensures rows { IfOk result (λ made. HasGatheredRows self made.rows) }
    {
        let Aggregator { groups, shown, .. } = self;
        groups.into_rows(alloc, &shown)
    }
}

/// Returns what the aggregates compute of all rows, or of their groups by their values in columns.
pub fn gathered(
    alloc: Global,
    columns: &Columns,
    places: Option<&[usize]>,
    aggregates: &[NamedAggregate],
) -> Result<Columns, AllocError>
    requires places { IfSome places
        (λ places. All (λ place. place < length columns.now.kinds) places.now) }
    requires fits { All (λ a. FitsAll (length columns.now.kinds) columns.now.rows a.aggregate)
        (map named_view aggregates.now) }
    ensures width { IfOk result (λ made. length made.kinds
        ≡ gathered_width (lent_places places.entry) (map named_view aggregates.now)) }
    ensures rows { IfOk result (λ made. made.rows ≡ gathered_rows (lent_places places.entry)
        (map named_view aggregates.now) columns.now.rows) }
{
    let mut aggregator = Aggregator::new(alloc, places, aggregates)?;
    let all = Selection::all(columns.len());
    aggregator.join(alloc, columns, &all)?;
    aggregator.finish(alloc)
}

/// Aggregates, each once, and the place among them of each that is asked for.
#[derive(Drop)]
struct Once {
    aggregates: Vec<Aggregate>,
    shown: Vec<usize>,
}

/// Returns true if two aggregates are the same.
fn are_same(one: Aggregate, other: Aggregate) -> bool
    ensures { IsTrue result ↔ (one ≡ other) }
{
    match (one, other) {
        (Aggregate::Count, Aggregate::Count) => true,
        (Aggregate::SumOfIntegers(one), Aggregate::SumOfIntegers(other))
        | (Aggregate::SumOfDecimals(one), Aggregate::SumOfDecimals(other))
        | (Aggregate::Min(one), Aggregate::Min(other))
        | (Aggregate::Max(one), Aggregate::Max(other))
        | (Aggregate::CountDistinct(one), Aggregate::CountDistinct(other)) => one == other,
        _ => false,
    }
}

/// Returns the place of the first of some aggregates that is the one asked for; their number, if none is.
fn place_of(aggregates: &[Aggregate], asked: Aggregate) -> usize
    ensures within { result ≤ length aggregates.now }
    ensures is { result < length aggregates.now
        → slice_index_or aggregates.now result Count ≡ asked }
    ensures first { (i : ℕ) → i < result → slice_index_or aggregates.now i Count ≢ asked }
{
    for i in 0..aggregates.len() {
        if are_same(aggregates[i], asked) {
            return i;
        }
    }
    aggregates.len()
}

/// Returns the aggregates, without their names and each once.
fn each_once(alloc: Global, aggregates: &[NamedAggregate]) -> Result<Once, AllocError>
    ensures { IfOk result (λ made. AreOnce (plain_aggregates (map named_view aggregates.now))
        made.aggregates.items made.shown.items) }
{
    let mut once = Vec::with_capacity(alloc, aggregates.len())?;
    let mut shown = Vec::with_capacity(alloc, aggregates.len())?;
    for named in aggregates {
        let place = place_of(&once, named.aggregate);
        if place == once.len() {
            once.push(named.aggregate)?;
        }
        shown.push(place)?;
    }
    Ok(Once {
        aggregates: once,
        shown,
    })
}
