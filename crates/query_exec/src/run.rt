//! A run of a plan on a table that it is handed block by block.
ghost use Rattle.std.specs.Prelude.{◌≡◌, ◌↔◌, ℕ, None, Ok, IfOk, IfErr, IfSome, OnErr, OnOk, IsErrOf};
ghost use Rattle.csvw_meta.specs.Schema.{schema_view};
ghost use Rattle.table_store.specs.Fits.{HasTableRows};
ghost use Rattle.table_store.specs.Summaries.{AreSummariesOf};
ghost use Rattle.table_store.specs.Table.{TableOf};
ghost use Rattle.query_plan.specs.Fitting.{IsFitFor};
ghost use Rattle.query_plan.specs.Plan.{plan_view, PlanOf};
ghost use Rattle.result_rows.specs.Rows.{RowsOf};
ghost use Rattle.query_exec.specs.RunKept.{RunKeeps};
ghost use Rattle.query_exec.specs.declared.fault.ExecFault.TheVariants.{NoMemory, Failed};
ghost use Rattle.query_exec.specs.declared.run.Step.TheVariants.{Done};
ghost use Rattle.query_exec.specs.Run.{handed_block, next_block, AdvancesTo, AreFirstRows, AreUntaken, HasTakenIn, LendsFor, RunGives, RunGoesOn, RunIsRefused, IsAwaited, RunIsDone, IsReady, MayBeHanded, MayTakeIn, StandsFor, StepsTo, wanted_block};

use crate::admitted::admitted;
use crate::every::found_rows;
use crate::fault::ExecFault;
use crate::front::{FirstRows, stored_front};
use crate::parts::{Parts, split};
use crate::run_kept::RunKept;
use crate::sink::Sink;
use crate::slice::room_behind;
use crate::steps::apply_all;
use block_filter::conditions_in_turn;
use block_summary::{Summary, one_range};
use csvw_meta::Schema;
use odata_types::tables_are_inputs;
use query_plan::{Node, Plan, nodes_in_turn, scans_read_table_rows};
use result_rows::{Kept, OrderedRows};
use std::alloc::{AllocError, Global};
use std::collections::VecDeque;
use std::mem;
use table_store::Block;
use typed_trees::TruthExpr;

/// Whether a run goes on.
#[derive(Clone, Copy, PartialEq, Eq)]
pub enum Step {
    More,
    Done,
}

/// How far a run has come.
#[derive(Drop)]
enum Stage {
    Reading,
    Ended(OrderedRows),
    Refused,
}

/// A run of a plan: blocks are read, and of their rows those that pass the conditions go to the sink.
#[derive(Drop)]
pub struct Run {
    /// The numbers of the blocks that are admitted and were not handed in.
    left: VecDeque<usize>,
    /// How many rows that pass the conditions the stop still looks for, if there is one.
    room: Option<u64>,
    /// The conditions that the plan begins with.
    conditions: Vec<Box<TruthExpr>>,
    /// Whether a condition divided by zero on a row.
    faulted: bool,
    /// What the rows go to that pass them, unless one divided by zero.
    sink: Sink,
    /// The steps on what the sink makes of them.
    steps: Vec<Node>,
    stage: Stage,
}

impl Run {
    /// Returns the number of the next block that is needed if there is one.
    fn wanted(&self) -> Option<usize>
        ensures { result ≡ wanted_block self.now }
    {
        match self.room {
            Some(0) => None,
            Some(_) | None => self.left.front().copied(),
        }
    }

    /// Returns what the steps make of the rows that passed the conditions, once every block that is needed was handed in. A division by zero, of a
    /// condition too, is reported here.
    fn go_on(&mut self, alloc: Global) -> Result<Option<OrderedRows>, ExecFault>
        requires { wanted_block self.old ≡ None → IsReady self.old }
        ensures { RunGoesOn self.old self.new result }
    {
        nodes_in_turn();
        if self.wanted().is_some() {
            return Ok(None);
        }
        if self.faulted {
            return Err(ExecFault::DivisionByZero);
        }
        let sink = mem::replace(&mut self.sink, Sink::Collect(Kept::none(alloc)));
        let sunk = sink.finish(alloc)?;
        let made = apply_all(alloc, &self.steps, sunk)?;
        Ok(Some(made))
    }

    /// Takes in the rows of the next block: those that pass the conditions go to the sink, until a condition divides by zero.
    #[tactic(auto, using(crate::proofs::RunLemmas::may_push, crate::proofs::RunLemmas::passed_over))]
    fn take_in(&mut self, alloc: Global, block: &Block<'_>) -> Result<(), AllocError>
        requires { MayTakeIn self.old block.now }
        ensures { OnOk result (HasTakenIn self.old self.new block.now.rows) }
    {
        let _number = self.left.pop_front();
        if self.faulted && self.room.is_none() {
            return Ok(());
        }
        let most = self.sink.spare();
        let found = found_rows(alloc, &self.conditions, block, most)?;
        self.room = room_behind(self.room, found.count as u64);
        if self.faulted || found.faulted {
            self.faulted = true;
            return Ok(());
        }
        self.sink.push(alloc, block, found)?;
        Ok(())
    }

    /// Takes in the block, if one is needed, and goes on.
    fn step(
        &mut self,
        alloc: Global,
        block: Option<Block<'_>>,
    ) -> Result<Option<OrderedRows>, ExecFault>
        requires { IsAwaited self.old block }
        ensures steps { (plan : PlanOf) (table : TableOf) (handed : ℕ)
            → StandsFor self.old plan table handed → block.entry ≡ handed_block plan table handed
            → StepsTo plan table handed self.new result }
        ensures not_failed { ¬ (IsErrOf result Failed) }
    {
        conditions_in_turn();
        nodes_in_turn();
        scans_read_table_rows();
        tables_are_inputs();
        if let Some(block) = block {
            block.values_fit();
            self.take_in(alloc, &block)?;
        }
        self.go_on(alloc)
    }

    /// Returns a run of the plan on a table of that schema with those summaries, one for each block.
    pub fn start(
        alloc: Global,
        schema: &Schema,
        summaries: &[Summary],
        plan: Plan,
    ) -> Result<Run, ExecFault>
        requires { IsFitFor (schema_view schema.now) (plan_view plan) }
        ensures stands { IfOk result (λ run. (table : TableOf)
            → table.schema ≡ schema_view schema.now → HasTableRows table
            → AreSummariesOf table summaries.now → StandsFor run (plan_view plan) table 0) }
        ensures refused { IfErr result (λ fault. fault ≡ NoMemory) }
    {
        conditions_in_turn();
        nodes_in_turn();
        one_range();
        let Plan { scan, nodes } = plan;
        let left = admitted(alloc, summaries, &scan.tests)?;
        let Parts {
            conditions,
            places,
            mut steps,
        } = split(alloc, nodes)?;
        let kept = Kept::new(alloc, schema, places)?;
        let sink = Sink::of(alloc, kept, &mut steps, summaries)?;
        Ok(Run {
            left,
            room: scan.stop,
            conditions,
            faulted: false,
            sink,
            steps,
            stage: Stage::Reading,
        })
    }

    /// Returns the number of the block that is needed next: none if none is needed, and none once the run is done or was refused.
    pub fn next(&self) -> Option<usize>
        ensures needed { (plan : PlanOf) (table : TableOf) (handed : ℕ)
            → StandsFor self.now plan table handed → result ≡ next_block plan table handed }
        ensures done { RunIsDone self.now → result ≡ None }
        ensures failed { RunIsRefused self.now → result ≡ None }
    {
        match &self.stage {
            Stage::Reading => self.wanted(),
            Stage::Ended(_) | Stage::Refused => None,
        }
    }

    /// Returns what is kept of the rows that passed so far for the step after the conditions: rows for an order, and groups.
    pub fn kept(&self) -> RunKept
        ensures { RunKeeps self.now result }
    {
        if !self.faulted {
            return self.sink.keeps(&self.steps);
        }
        RunKept::Nothing
    }

    /// Returns the names of the answer and the rows that passed so far, if the answer has these rows, in any order. After Done it returns all rows of the
    /// answer. An order at the end of the steps is left out.
    pub fn front(&self) -> Option<FirstRows<'_>>
        ensures { (plan : PlanOf) (table : TableOf)
            → LendsFor self.now plan table → IfSome result (AreFirstRows plan table) }
    {
        conditions_in_turn();
        if self.faulted || !self.steps.is_empty() {
            return None;
        }
        match &self.stage {
            Stage::Reading => self.sink.front(),
            Stage::Ended(rows) => Some(stored_front(rows)),
            Stage::Refused => None,
        }
    }

    /// Takes in the block that is needed next, or none if none is needed. A division by zero is reported by the call that would answer
    /// Done, and by no other. After Done it answers Done, and after a refusal Failed.
    pub fn advance(&mut self, alloc: Global, block: Option<Block<'_>>) -> Result<Step, ExecFault>
        requires { MayBeHanded self.old block }
        ensures advances { (plan : PlanOf) (table : TableOf) (handed : ℕ)
            → StandsFor self.old plan table handed → block.entry ≡ handed_block plan table handed
            → AdvancesTo plan table handed self.new result }
        ensures done { (rows : RowsOf) → RunGives self.old rows → (result ≡ Ok Done)
            × RunGives self.new rows }
        ensures failed { IsErrOf result Failed ↔ RunIsRefused self.old }
        ensures refused { OnErr result (RunIsRefused self.new) }
    {
        match &self.stage {
            Stage::Refused => return Err(ExecFault::Failed),
            Stage::Ended(_) => return Ok(Step::Done),
            Stage::Reading => {}
        }
        match self.step(alloc, block) {
            Ok(None) => Ok(Step::More),
            Ok(Some(rows)) => {
                self.stage = Stage::Ended(rows);
                Ok(Step::Done)
            }
            Err(fault) => {
                self.stage = Stage::Refused;
                Err(fault)
            }
        }
    }

    /// Returns the rows of a run that answered Done. It takes no memory.
    pub fn finish(self) -> OrderedRows
        requires { RunIsDone self }
        ensures { (rows : RowsOf) → RunGives self rows → AreUntaken rows result }
    {
        let Run { stage, .. } = self;
        match stage {
            Stage::Ended(rows) => rows,
            Stage::Reading | Stage::Refused => unreachable!(),
        }
    }
}
