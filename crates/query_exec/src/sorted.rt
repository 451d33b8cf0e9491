//! A sink of all rows in the order of items.
ghost use Rattle.std.specs.Prelude.{◌≡◌, ◌<◌, ◌^◌, IfOk, IfSome, OnOk, length};
ghost use Rattle.std.specs.List.{All};
ghost use Rattle.row_columns.specs.Picked.{numbered};
ghost use Rattle.result_rows.specs.Kept.{AreKeptOf};
ghost use Rattle.query_exec.specs.declared.sink.Sink.TheVariants as sink;
ghost use Rattle.query_exec.specs.Sink.{KeepsShown, LendsWhole, MayFinish, MayPush, PushesOn, SinkFinishes};

use crate::front::{FirstRows, kept_front};
use crate::slice::{ALL_ROWS, piece_of};
use block_filter::Passed;
use odata_query::OrderBy;
use query_plan::{Slice, nodes_in_turn};
use result_rows::{Kept, OrderedRows};
use row_eval::EvalFault;
use row_selection::Selection;
use sort_rows::SortedRuns;
use std::alloc::{AllocError, Global};
use table_store::Block;

/// All rows, which are put in order as they are taken in, and which of them are asked for.
#[derive(Drop)]
pub(crate) struct SortedSink {
    pub(crate) kept: Kept,
    /// Their columns that are asked for, unless all are: of the same rows.
    pub(crate) shown: Option<Kept>,
    pub(crate) items: Vec<OrderBy>,
    pub(crate) runs: SortedRuns,
    /// How many of the first rows are asked for, if not all are, and the piece of these, if one is.
    pub(crate) most: Option<u64>,
    pub(crate) slice: Option<Slice>,
}

/// Selects the same rows of a block once more.
fn same_rows(alloc: Global, rows: &Selection) -> Result<Selection, AllocError>
    requires { All (λ row. row < 2 ^ 16) rows.now }
    ensures { IfOk result (λ made. made ≡ rows.now) }
{
    if rows.is_all() {
        return Ok(Selection::all(rows.len()));
    }
    let mut same = Vec::with_capacity(alloc, rows.len())?;
    for place in 0..rows.len() {
        same.push(rows.at(place) as u16)?;
    }
    Ok(Selection::few(same))
}

/// Keeps the selected rows of a block in the columns that are asked for, unless all are.
fn keep_shown(
    alloc: Global,
    shown: &mut Option<Kept>,
    block: &Block<'_>,
    rows: &Selection,
) -> Result<(), AllocError>
    requires columns { IfSome shown.old (λ kept. AreKeptOf kept block.now.schema) }
    requires within { All (λ n. n < length block.now.rows) rows.now }
    ensures { OnOk result (KeepsShown shown.old shown.new (numbered rows.now block.now.rows)) }
{
    let Some(kept) = shown else {
        return Ok(());
    };
    block.rows_are_few();
    kept.take(alloc, block, same_rows(alloc, rows)?)
}

impl SortedSink {
    /// Takes in the rows of a block that were found, after those before them.
    pub(crate) fn push(
        &mut self,
        alloc: Global,
        block: &Block<'_>,
        found: Passed,
    ) -> Result<(), AllocError>
        requires { MayPush (sink.Sorted self.old) block.now found }
        ensures { OnOk result
            (PushesOn (sink.Sorted self.old) (sink.Sorted self.new) block.now.rows found) }
    {
        keep_shown(alloc, &mut self.shown, block, &found.rows)?;
        self.kept.take(alloc, block, found.rows)?;
        self.runs.push(alloc, &self.kept.columns, &self.items)?;
        Ok(())
    }

    /// Returns the rows that it keeps, in the columns that are asked for, if all of them are.
    pub(crate) fn front(&self) -> Option<FirstRows<'_>>
        ensures { LendsWhole self.now result }
    {
        if self.most.is_some() || self.slice.is_some() {
            return None;
        }
        match &self.shown {
            Some(shown) => Some(kept_front(shown)),
            None => Some(kept_front(&self.kept)),
        }
    }

    /// Returns the rows in order that are asked for. If all of them are, none is moved. A division by zero if an item divides by zero on any row.
    pub(crate) fn finish(self, alloc: Global) -> Result<OrderedRows, EvalFault>
        requires { MayFinish (sink.Sorted self) }
        ensures { SinkFinishes (sink.Sorted self) result }
    {
        nodes_in_turn();
        let order = self.runs.finish(alloc, &self.kept.columns)?;
        let rows = OrderedRows::in_order(self.kept.into_rows(None), order, self.shown);
        if self.most.is_none() && self.slice.is_none() {
            return Ok(rows);
        }
        let piece = piece_of(alloc, rows, self.most, self.slice.unwrap_or(ALL_ROWS))?;
        Ok(OrderedRows::stored(piece))
    }
}
