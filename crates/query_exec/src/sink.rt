//! What takes in the rows that pass the conditions of a plan: it does the step after them.
ghost use Rattle.std.specs.Prelude.{◌≡◌, ◌++◌, ◌∷◌, [], IfOk, IfSome, OnOk, length, map, option_to_list};
ghost use Rattle.odata_query.specs.Query.{order_view};
ghost use Rattle.query_plan.specs.Fitting.{NodesFit};
ghost use Rattle.query_plan.specs.Plan.{node_view, select_nodes, slice_view, slicing, sorting};
ghost use Rattle.query_plan.specs.Rewrite.{chosen};
ghost use Rattle.result_rows.specs.Kept.{kept_names, shown_places};
ghost use Rattle.query_exec.specs.Sink.{sink_kept, sink_nodes, spare_of, FitNames, IsShown, LendsKept, SinkFinishes, HasPushed, MayFinish, MayPush, PushesOn};
ghost use Rattle.query_exec.specs.Steps.{without_count};

use crate::aggregate::AggregateSink;
use crate::front::{FirstRows, kept_front};
use crate::slice::SliceSink;
use crate::sorted::SortedSink;
use crate::top_n::{TopNSink, none_can_fault};
use block_filter::Passed;
use block_summary::Summary;
use odata_query::OrderBy;
use order_columns::FrontGuess;
use query_plan::{Node, Slice};
use result_rows::{Kept, OrderedRows};
use row_eval::EvalFault;
use sort_rows::SortedRuns;
use std::alloc::{AllocError, Global};
use table_store::Block;

/// What takes in rows, a piece of them at a time.
#[derive(Drop)]
pub(crate) enum Sink {
    /// All rows, for the steps after it.
    Collect(Kept),
    Slice(SliceSink),
    TopN(TopNSink),
    Sorted(SortedSink),
    Aggregate(AggregateSink),
}

/// Of up to this many first rows in an order, the rows that may be among them are kept; for more, all rows are put in order.
const MOST_KEPT: u64 = 32_768;

/// Takes out the first of some steps if it is a piece of the rows, and returns that piece.
fn take_slice(steps: &mut Vec<Node>) -> Option<Slice>
    ensures { map node_view steps.old.items ≡ map (λ s. slicing (slice_view s))
        (option_to_list result) ++ map node_view steps.new.items }
{
    let slice = match steps.first() {
        Some(Node::Slice(slice)) => *slice,
        Some(_) | None => return None,
    };
    let _step = steps.remove(0);
    Some(slice)
}

/// Takes out the first of some steps if it selects columns, and returns no rows yet in these columns of those that are kept. It looks for none if not all of a
/// table are kept.
fn take_shown(alloc: Global, kept: &Kept, steps: &mut Vec<Node>) -> Result<Option<Kept>, AllocError>
    requires width { length kept.now.columns.kinds ≡ length (kept_names kept.now) }
    requires fit { FitNames (kept_names kept.now) (map node_view steps.old.items) }
    ensures nodes { IfOk result (λ shown. map node_view steps.old.items
        ≡ select_nodes (shown_places shown) ++ map node_view steps.new.items) }
    ensures shown { IfOk result (λ shown. IfSome shown (IsShown kept.now [])) }
{
    if steps.is_empty() || kept.places.is_some() {
        return Ok(None);
    }
    match steps.remove(0) {
        Node::Project(places) => Ok(Some(kept.picked(alloc, places)?)),
        step => {
            steps.insert(0, step)?;
            Ok(None)
        }
    }
}

impl Sink {
    /// Takes out the first of some steps if a sink does it, and what the sink does of those after it, and returns that sink; else a sink of all rows.
    fn of_steps(alloc: Global, kept: Kept, steps: &mut Vec<Node>) -> Result<Sink, AllocError>
        requires none { kept.columns.rows ≡ [] }
        requires width { length kept.columns.kinds ≡ length (kept_names kept) }
        requires fit { NodesFit (map node_view steps.old.items)
            (without_count (kept_names kept) []) }
        ensures nodes { IfOk result (λ sink.
            sink_nodes sink ++ map node_view steps.new.items ≡ map node_view steps.old.items) }
        ensures kept { IfOk result (λ sink. sink_kept sink ≡ kept) }
        ensures none { IfOk result (λ sink. HasPushed sink []) }
    {
        if steps.is_empty() {
            return Ok(Sink::Collect(kept));
        }
        match steps.remove(0) {
            Node::Slice(slice) => {
                let count = 0;
                Ok(Sink::Slice(SliceSink { kept, slice, count }))
            }
            Node::Best(items, most) => Sink::in_order(alloc, kept, items, Some(most), steps),
            Node::Sort(items) => Sink::in_order(alloc, kept, items, None, steps),
            Node::Aggregate(aggregates) => {
                let sink = AggregateSink::new(alloc, kept, None, aggregates)?;
                Ok(Sink::Aggregate(sink))
            }
            Node::Group(places, aggregates) => {
                let sink = AggregateSink::new(alloc, kept, Some(places), aggregates)?;
                Ok(Sink::Aggregate(sink))
            }
            step => {
                steps.insert(0, step)?;
                Ok(Sink::Collect(kept))
            }
        }
    }

    /// Returns the sink of the first `most` rows in the order of items, or of all. If the rows are put in order as they come, it does a piece of them too that
    /// is first of `steps`, and the columns that are selected next, and takes these out.
    fn in_order(
        alloc: Global,
        kept: Kept,
        items: Vec<OrderBy>,
        most: Option<u64>,
        steps: &mut Vec<Node>,
    ) -> Result<Sink, AllocError>
        requires none { kept.columns.rows ≡ [] }
        requires width { length kept.columns.kinds ≡ length (kept_names kept) }
        requires fit { NodesFit (chosen (sorting (map order_view items.items)) most
            ∷ map node_view steps.old.items) (without_count (kept_names kept) []) }
        ensures nodes { IfOk result (λ sink. sink_nodes sink ++ map node_view steps.new.items
            ≡ chosen (sorting (map order_view items.items)) most ∷ map node_view steps.old.items) }
        ensures kept { IfOk result (λ sink. sink_kept sink ≡ kept) }
        ensures none { IfOk result (λ sink. HasPushed sink []) }
    {
        match most {
            Some(most) if most <= MOST_KEPT && none_can_fault(&items) => {
                return Ok(Sink::TopN(TopNSink::new(kept, items, most)));
            }
            Some(_) | None => {}
        }
        let runs = SortedRuns::new(alloc, &items, FrontGuess::none())?;
        let slice = take_slice(steps);
        let shown = take_shown(alloc, &kept, steps)?;
        Ok(Sink::Sorted(SortedSink {
            kept,
            shown,
            items,
            runs,
            most,
            slice,
        }))
    }

    /// Guesses by the summaries of all blocks what the texts begin with that are put in order. No row was taken in.
    fn guess(&mut self, alloc: Global, summaries: &[Summary]) -> Result<(), AllocError>
        requires { HasPushed self.old [] }
        ensures nodes { sink_nodes self.new ≡ sink_nodes self.old }
        ensures kept { sink_kept self.new ≡ sink_kept self.old }
        ensures none { OnOk result (HasPushed self.new []) }
    {
        if let Sink::Sorted(sink) = self {
            let guess = FrontGuess::of(summaries, sink.kept.places.as_deref());
            sink.runs = SortedRuns::new(alloc, &sink.items, guess)?;
        }
        Ok(())
    }

    /// Takes out the first of some steps if a sink does it, and what the sink does of those after it, and returns that sink; else a sink of all rows. The summaries
    /// are those of all blocks.
    pub(crate) fn of(
        alloc: Global,
        kept: Kept,
        steps: &mut Vec<Node>,
        summaries: &[Summary],
    ) -> Result<Sink, AllocError>
        requires none { kept.columns.rows ≡ [] }
        requires width { length kept.columns.kinds ≡ length (kept_names kept) }
        requires fit { NodesFit (map node_view steps.old.items)
            (without_count (kept_names kept) []) }
        ensures nodes { IfOk result (λ sink.
            sink_nodes sink ++ map node_view steps.new.items ≡ map node_view steps.old.items) }
        ensures kept { IfOk result (λ sink. sink_kept sink ≡ kept) }
        ensures none { IfOk result (λ sink. HasPushed sink []) }
    {
        let mut sink = Sink::of_steps(alloc, kept, steps)?;
        sink.guess(alloc, summaries)?;
        Ok(sink)
    }

    /// Returns how many more rows it takes in by their numbers, if that is limited: of the others it takes in how many they are.
    pub(crate) fn spare(&self) -> Option<u64>
        ensures { result ≡ spare_of self.now }
    {
        match self {
            Sink::Slice(sink) => sink.spare(),
            Sink::Collect(_) | Sink::TopN(_) | Sink::Sorted(_) | Sink::Aggregate(_) => None,
        }
    }

    /// Takes in the rows of a block that were found, after those before them.
    pub(crate) fn push(
        &mut self,
        alloc: Global,
        block: &Block<'_>,
        found: Passed,
    ) -> Result<(), AllocError>
        requires { MayPush self.old block.now found }
        ensures { OnOk result (PushesOn self.old self.new block.now.rows found) }
    {
        match self {
            Sink::Collect(kept) => kept.take(alloc, block, found.rows),
            Sink::Slice(sink) => sink.push(alloc, block, found),
            Sink::TopN(sink) => sink.push(alloc, block, found),
            Sink::Sorted(sink) => sink.push(alloc, block, found),
            Sink::Aggregate(sink) => sink.push(alloc, block, found),
        }
    }

    /// Returns the rows that it keeps, if these are what its step makes of the rows that it took in, or all that it puts in order.
    pub(crate) fn front(&self) -> Option<FirstRows<'_>>
        ensures { LendsKept self.now result }
    {
        match self {
            Sink::Collect(kept) => Some(kept_front(kept)),
            Sink::Slice(sink) => Some(kept_front(&sink.kept)),
            Sink::Sorted(sink) => sink.front(),
            Sink::TopN(_) | Sink::Aggregate(_) => None,
        }
    }

    /// Returns what its steps make of all rows that it took in.
    pub(crate) fn finish(self, alloc: Global) -> Result<OrderedRows, EvalFault>
        requires { MayFinish self }
        ensures { SinkFinishes self result }
    {
        match self {
            Sink::Collect(kept) => Ok(OrderedRows::stored(kept.into_rows(None))),
            Sink::Slice(sink) => Ok(OrderedRows::stored(sink.finish())),
            Sink::TopN(sink) => Ok(OrderedRows::stored(sink.finish(alloc)?)),
            Sink::Sorted(sink) => sink.finish(alloc),
            Sink::Aggregate(sink) => Ok(OrderedRows::stored(sink.finish(alloc)?)),
        }
    }
}
