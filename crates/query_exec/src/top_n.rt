//! A sink of the first rows in an order that never divides by zero.
ghost use Rattle.std.specs.Prelude.{◌≡◌, ◌<◌, None, IfOk, IfSome, OnOk, length, map, true};
ghost use Rattle.std.specs.List.{All};
ghost use Rattle.typed_trees.specs.TypedTree.{truth_view};
ghost use Rattle.odata_query.specs.Query.{order_view};
ghost use Rattle.sort_rows.specs.Cutoffs.{HasCalendarDays};
ghost use Rattle.query_exec.specs.declared.sink.Sink.TheVariants as sink;
ghost use Rattle.query_exec.specs.Items.{none_can_fault, ItemsFit};
ghost use Rattle.query_exec.specs.Sink.{sink_items, SinkGives, MayFinish, MayPush, PushesOn};
ghost use Rattle.query_exec.specs.Cutoffs.{CutsOff, HasCutoff, IsFirstColumn};
ghost use Rattle.query_exec.specs.TopN.{AreBestOf, AreFirst, AreTimely, HasCutRows};

use block_filter::{Passed, Rank, guessed_value, passing_numbers};
use odata_query::OrderBy;
use order_columns::ItemColumns;
use result_rows::{Kept, Rows, all_numbers};
use row_eval::{EvalFault, faults_are_foreseen};
use row_selection::Selection;
use sort_rows::{best_in_pieces, best_numbers, cutoff, first_place, nearness, rows_are_cut_off};
use std::alloc::{AllocError, Global};
use table_store::Block;
use typed_trees::{TruthExpr, can_fault};

/// Returns true if no item may divide by zero.
pub(crate) fn none_can_fault(items: &[OrderBy]) -> bool
    ensures { result ≡ none_can_fault (map order_view items.now) }
{
    for item in items {
        if can_fault(&item.expression) {
            return false;
        }
    }
    true
}

/// Up to this many rows of a block are kept without a look at the cutoff, or at the nearest of them.
const FEW: usize = 64;

/// At most this many rows beyond those that are asked for are kept before a cut. The more are kept, the longer is the turn that cuts them.
const MOST_SPARE: u64 = 8_192;

/// The first rows in an order: the others are let go of once they are many.
#[derive(Drop)]
pub(crate) struct TopNSink {
    pub(crate) kept: Kept,
    pub(crate) items: Vec<OrderBy>,
    pub(crate) most: u64,
    /// A condition on the rows of a block, once the rows that are kept were cut: a row on which it is not true comes too late.
    pub(crate) cutoff: Option<TruthExpr>,
}

impl TopNSink {
    /// Returns a sink that was cut at no row yet.
    pub(crate) fn new(kept: Kept, items: Vec<OrderBy>, most: u64) -> TopNSink
        ensures { result ≡ record { kept = kept; items = items; most = most; cutoff = None } }
    {
        TopNSink {
            kept,
            items,
            most,
            cutoff: None,
        }
    }

    /// Returns the place in a block of the column that the first item is.
    fn first_column(&self) -> Option<usize>
        ensures { IfSome result (IsFirstColumn (sink_items self.now) self.now.kept) }
    {
        let place = first_place(&self.items)?;
        match &self.kept.places {
            Some(places) => places.get(place).copied(),
            None => Some(place),
        }
    }

    /// Drops those of the rows of a block that come too late after the rows that are kept.
    fn timely(
        &self,
        alloc: Global,
        block: &Block<'_>,
        numbers: Selection,
    ) -> Result<Selection, AllocError>
        requires cutoff { HasCutoff self.now }
        requires days { All HasCalendarDays block.now.rows }
        requires within { All (λ n. n < length block.now.rows) numbers }
        ensures { IfOk result (AreTimely self.now block.now.rows numbers) }
    {
        if numbers.len() <= FEW {
            return Ok(numbers);
        }
        match &self.cutoff {
            Some(cutoff) => passing_numbers(alloc, cutoff, block, &numbers),
            None => Ok(numbers),
        }
    }

    /// Drops those of the rows of a block that come after enough others of it.
    fn nearest(
        &self,
        alloc: Global,
        block: &Block<'_>,
        numbers: Selection,
    ) -> Result<Selection, AllocError>
        requires safe { none_can_fault (sink_items self.now) ≡ true }
        requires days { All HasCalendarDays block.now.rows }
        requires within { All (λ n. n < length block.now.rows) numbers }
        ensures { IfOk result (AreTimely self.now block.now.rows numbers) }
    {
        rows_are_cut_off();
        faults_are_foreseen();
        if numbers.len() <= FEW {
            return Ok(numbers);
        }
        let Some(col) = self.first_column() else {
            return Ok(numbers);
        };
        let rank = Rank {
            most: self.most,
            descending: matches!(self.items.first(), Some(item) if item.descending),
        };
        let Some(bound) = guessed_value(alloc, block, &numbers, col, rank)? else {
            return Ok(numbers);
        };
        let Some(condition) = nearness(alloc, &self.items, col, &bound)? else {
            return Ok(numbers);
        };
        let near = passing_numbers(alloc, &condition, block, &numbers)?;
        if (near.len() as u64) < self.most {
            return Ok(numbers);
        }
        Ok(near)
    }

    /// Returns the numbers of the first of the rows that are kept.
    fn best(&self, alloc: Global) -> Result<Vec<usize>, AllocError>
        requires safe { none_can_fault (sink_items self.now) ≡ true }
        requires fit { ItemsFit (sink_items self.now) self.now.kept.columns.rows }
        ensures { IfOk result (λ made. AreBestOf self.now made.items) }
    {
        faults_are_foreseen();
        let all = all_numbers(alloc, self.kept.columns.len())?;
        let columns = ItemColumns::of(&self.kept.columns);
        match best_numbers(alloc, &columns, all, &self.items, self.most) {
            Ok(best) => Ok(best),
            Err(EvalFault::DivisionByZero) => unreachable!(),
            Err(EvalFault::NoMemory) => Err(AllocError),
        }
    }

    /// Returns the condition on the rows of a block after the first rows, which are those that are kept.
    fn cutoff_of(&self, alloc: Global) -> Result<Option<TruthExpr>, AllocError>
        requires safe { none_can_fault (sink_items self.now) ≡ true }
        requires best { AreFirst self.now }
        ensures { IfOk result (λ made. IfSome made
            (λ e. CutsOff (sink_items self.now) self.now.most self.now.kept (truth_view e))) }
    {
        rows_are_cut_off();
        faults_are_foreseen();
        let count = self.kept.columns.len();
        if self.most == 0 || (count as u64) < self.most {
            return Ok(None);
        }
        let Some(col) = self.first_column() else {
            return Ok(None);
        };
        cutoff(
            alloc,
            &self.items,
            &self.kept.columns,
            self.most as usize - 1,
            col,
        )
    }

    /// Returns how many rows are kept before they are cut.
    fn room(&self) -> u64 {
        self.most.saturating_add(self.most.min(MOST_SPARE))
    }

    /// Lets go of the rows that are not among the first, once they are many.
    fn cut(&mut self, alloc: Global) -> Result<(), AllocError>
        requires safe { none_can_fault (sink_items self.old) ≡ true }
        requires fit { ItemsFit (sink_items self.old) self.old.kept.columns.rows }
        requires cutoff { HasCutoff self.old }
        ensures { OnOk result (HasCutRows self.old self.new) }
    {
        best_in_pieces();
        if self.kept.columns.len() as u64 <= self.room() {
            return Ok(());
        }
        let best = self.best(alloc)?;
        self.kept.reduce(alloc, best.as_slice())?;
        self.cutoff = self.cutoff_of(alloc)?;
        Ok(())
    }

    /// Takes in the rows of a block that were found, after those before them.
    pub(crate) fn push(
        &mut self,
        alloc: Global,
        block: &Block<'_>,
        found: Passed,
    ) -> Result<(), AllocError>
        requires { MayPush (sink.TopN self.old) block.now found }
        ensures { OnOk result
            (PushesOn (sink.TopN self.old) (sink.TopN self.new) block.now.rows found) }
    {
        best_in_pieces();
        faults_are_foreseen();
        let before = self.timely(alloc, block, found.rows)?;
        let rows = self.nearest(alloc, block, before)?;
        self.kept.take(alloc, block, rows)?;
        self.cut(alloc)?;
        Ok(())
    }

    /// Returns the first of all rows that joined, in their order.
    pub(crate) fn finish(self, alloc: Global) -> Result<Rows, AllocError>
        requires { MayFinish (sink.TopN self) }
        ensures { IfOk result (SinkGives (sink.TopN self)) }
    {
        let numbers = self.best(alloc)?;
        let rows = self.kept.into_rows(None);
        Ok(rows.with_rows(alloc, numbers.as_slice(), None)?)
    }
}
