//! The run of a query on its table, block by block.
ghost use Rattle.std.specs.Prelude.{◌≡◌, ℕ, None, IfOk};
ghost use Rattle.query_plan.specs.Plan.{PlanOf};
ghost use Rattle.query_exec.specs.Run.{StandsFor, handed_block};
ghost use Rattle.odata_request.specs.Request.{IsRowsInside, RowsRequestOf, rows_request_view};
ghost use Rattle.odata_http.specs.Exchange.{IsQueryRun};
ghost use Rattle.odata_http.specs.Work.{CountsOn, IsHttpStatus, LendsSome, MayRead, NeedsBlocksOf, ReadsOn, StartsReading};

use crate::response::{Response, answer_response, error_response};
use odata_parse::Format;
use odata_request::RowsRequest;
use query_exec::{ExecFault, Run, Step, orders_move_rows};
use query_plan::{naive, needed_blocks_are_read, plans_need_blocks, rewrite};
use reply_text::{Code, RowSizes};
use std::alloc::{AllocError, Global};
use table_store::{Block, Catalog, Table};

/// A query under way.
#[derive(Drop)]
pub(crate) struct QueryRun {
    /// The number of the table in the catalog, counted from 0.
    pub(crate) table: usize,
    /// The format of the answer.
    pub(crate) format: Format,
    /// Whether only the number of rows is asked for.
    pub(crate) counting: bool,
    /// Returns an upper bound on the remaining calls.
    pub(crate) most: usize,
    pub(crate) run: Box<Run>,
    /// Those of some first rows of the answer, in the order of the table and in its format.
    pub(crate) sizes: RowSizes,
}

/// How far one call came.
#[derive(Drop)]
pub(crate) enum Reached {
    /// The query goes on.
    On(QueryRun),
    /// The answer is there.
    Over(Response),
}

/// Returns the block of its table that a run needs next, if it needs one.
fn next_block<'t>(run: &Run, table: &'t Table) -> Option<Block<'t>>
    requires { NeedsBlocksOf run.now table.now }
    ensures { (plan : PlanOf) (handed : ℕ) → StandsFor run.now plan table.now handed
        → result ≡ handed_block plan table.now handed }
{
    plans_need_blocks();
    match run.next() {
        Some(number) => Some(table.block(number)),
        None => None,
    }
}

/// Returns the sizes with those of the rows that a run lends.
fn counted(sizes: RowSizes, run: &Run, format: Format) -> RowSizes
    requires { LendsSome run.now }
    ensures { CountsOn run.now format sizes result }
{
    let mut sizes = sizes;
    let Some(front) = run.front() else {
        return sizes;
    };
    match format {
        Format::Json => sizes.count_json(front.names, front.columns),
        Format::Csv => sizes.count_csv(front.columns),
    }
    sizes
}

/// Drops a run, here alone: each function that may drop one is dear to prove.
fn let_go(_run: Box<Run>) {}

impl QueryRun {
    /// Begins the run of a query. No block is read.
    pub(crate) fn start(
        alloc: Global,
        catalog: &Catalog,
        asked: RowsRequest,
    ) -> Result<QueryRun, AllocError>
        requires inside { IsRowsInside catalog.now (rows_request_view asked) }
        requires unkeyed { (rows_request_view asked).query.key ≡ None }
        ensures { IfOk result (StartsReading catalog.now (rows_request_view asked)) }
    {
        needed_blocks_are_read();
        plans_need_blocks();
        let table = &catalog.tables()[asked.table];
        table.values_fit();
        let summaries = table.summary();
        let counting = asked.query.counting;
        let first = naive(alloc, asked.query)?;
        let plan = rewrite(alloc, first)?;
        match Run::start(alloc, table.schema(), summaries, plan) {
            Ok(run) => Ok(QueryRun {
                table: asked.table,
                format: asked.format,
                counting,
                most: summaries.len().max(1),
                run: Box::new(alloc, run)?,
                sizes: RowSizes::none(),
            }),
            Err(_) => Err(AllocError),
        }
    }

    /// Reads the next block, if one is needed.
    pub(crate) fn read_on(self, alloc: Global, catalog: &Catalog) -> Result<Reached, AllocError>
        requires { MayRead catalog.now self }
        ensures reads { (asked : RowsRequestOf) (left : ℕ)
            → IsQueryRun catalog.now asked left self
            → IfOk result (ReadsOn catalog.now asked left) }
        ensures known { IfOk result IsHttpStatus }
    {
        orders_move_rows();
        let table = &catalog.tables()[self.table];
        let mut run = self.run;
        let block = next_block(&run, table);
        match run.advance(alloc, block) {
            Ok(Step::More) => {
                let sizes = counted(self.sizes, &run, self.format);
                Ok(Reached::On(QueryRun { run, sizes, ..self }))
            }
            Ok(Step::Done) => {
                let sizes = counted(self.sizes, &run, self.format);
                let rows = Box::into_inner(run).finish();
                let answer = answer_response(alloc, rows, self.counting, self.format, sizes)?;
                Ok(Reached::Over(answer))
            }
            Err(ExecFault::DivisionByZero) => {
                let_go(run);
                Ok(Reached::Over(error_response(alloc, Code::DivisionByZero)?))
            }
            Err(ExecFault::NoMemory | ExecFault::Failed) => {
                let_go(run);
                Err(AllocError)
            }
        }
    }
}
