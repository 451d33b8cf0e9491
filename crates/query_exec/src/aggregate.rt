//! A sink of aggregates of all rows, or of groups of them: none of the rows is kept.
ghost use Rattle.std.specs.Prelude.{◌≡◌, [], IfOk, OnOk};
ghost use Rattle.odata_query.specs.Aggregate.{aggregates_view};
ghost use Rattle.odata_query.specs.Query.{optional_numbers};
ghost use Rattle.query_exec.specs.declared.sink.Sink.TheVariants as sink;
ghost use Rattle.query_exec.specs.Sink.{HasPushed, SinkGives, MayFinish, MayPush, PushesOn};

use crate::names::aggregate_names;
use aggregate_rows::Aggregator;
use block_filter::Passed;
use odata_query::NamedAggregate;
use result_rows::{Kept, Rows};
use row_selection::Selection;
use std::alloc::{AllocError, Global};
use table_store::Block;

/// What all rows come to, or the groups of those with the same values in some columns.
#[derive(Drop)]
pub(crate) struct AggregateSink {
    /// Without rows, except while those of a block join.
    pub(crate) kept: Kept,
    pub(crate) places: Option<Vec<usize>>,
    pub(crate) aggregates: Vec<NamedAggregate>,
    pub(crate) aggregator: Aggregator,
}

impl AggregateSink {
    /// Returns a sink that took no row.
    pub(crate) fn new(
        alloc: Global,
        kept: Kept,
        places: Option<Vec<usize>>,
        aggregates: Vec<NamedAggregate>,
    ) -> Result<AggregateSink, AllocError>
        requires { kept.columns.rows ≡ [] }
        ensures kept { IfOk result (λ made. made.kept ≡ kept) }
        ensures places { IfOk result (λ made. made.places ≡ places) }
        ensures aggregates { IfOk result (λ made. made.aggregates ≡ aggregates) }
        ensures none { IfOk result (λ made. HasPushed (sink.Aggregate made) []) }
    {
        let aggregator = Aggregator::new(alloc, places.as_deref(), aggregates.as_slice())?;
        Ok(AggregateSink {
            kept,
            places,
            aggregates,
            aggregator,
        })
    }

    /// Gathers the rows of a block that were found, after those before them. The whole block is kept while they join, and is then let go.
    pub(crate) fn push(
        &mut self,
        alloc: Global,
        block: &Block<'_>,
        found: Passed,
    ) -> Result<(), AllocError>
        requires { MayPush (sink.Aggregate self.old) block.now found }
        ensures { OnOk result
            (PushesOn (sink.Aggregate self.old) (sink.Aggregate self.new) block.now.rows found) }
    {
        if found.rows.len() == 0 {
            return Ok(());
        }
        self.kept.take(alloc, block, Selection::all(block.rows()))?;
        self.aggregator
            .join(alloc, &self.kept.columns, &found.rows)?;
        self.kept.columns.clear();
        Ok(())
    }

    /// Returns the row of aggregates, or a row for each group, of all rows that joined.
    pub(crate) fn finish(self, alloc: Global) -> Result<Rows, AllocError>
        requires { MayFinish (sink.Aggregate self) }
        ensures { IfOk result (SinkGives (sink.Aggregate self)) }
    {
        let AggregateSink {
            kept,
            places,
            aggregates,
            aggregator,
        } = self;
        let names = aggregate_names(
            alloc,
            kept.names.as_slice(),
            places.as_deref(),
            aggregates.as_slice(),
        )?;
        let columns = aggregator.finish(alloc)?;
        Ok(Rows::new(names, columns, None))
    }
}
