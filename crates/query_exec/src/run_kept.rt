//! What a run keeps until its last block came.
ghost use Rattle.std.specs.Prelude.{◌≡◌, List, map};
ghost use Rattle.cell_types.specs.Value.{CellValue};
ghost use Rattle.query_plan.specs.Plan.{node_view};
ghost use Rattle.query_exec.specs.RunKept.{order_keeps, sink_keeps};
ghost use Rattle.query_exec.specs.Sink.{HasPushed};

use crate::sink::Sink;
use query_plan::Node;

/// What a run keeps, and how much of it.
#[derive(Clone, Copy)]
pub enum RunKept {
    Nothing,
    /// Rows that are to be put in order.
    Ordered(u64),
    Groups(u64),
}

/// Returns what is kept of `rows` rows, if the first of some steps puts them in order: all of them.
fn order_keeps(steps: &[Node], rows: u64) -> RunKept
    ensures { result ≡ order_keeps (map node_view steps.now) rows }
{
    match steps.first() {
        Some(Node::Sort(_) | Node::Best(_, _)) => RunKept::Ordered(rows),
        Some(_) | None => RunKept::Nothing,
    }
}

impl Sink {
    /// Returns what is kept of the rows that it took in, if `steps` come after it. Of the first rows in an order it counts those that are asked for.
    pub(crate) fn keeps(&self, steps: &[Node]) -> RunKept
        ensures { (rows : List (List CellValue)) → HasPushed self.now rows
            → result ≡ sink_keeps self.now (map node_view steps.now) rows }
    {
        row_eval::faults_are_foreseen();
        query_meaning::rows_are_in_order();
        match self {
            Sink::Collect(kept) => order_keeps(steps, kept.columns.len() as u64),
            Sink::Slice(_) => RunKept::Nothing,
            Sink::TopN(sink) => RunKept::Ordered(sink.most.min(sink.kept.columns.len() as u64)),
            Sink::Sorted(sink) => RunKept::Ordered(sink.kept.columns.len() as u64),
            Sink::Aggregate(sink) => RunKept::Groups(sink.aggregator.group_count() as u64),
        }
    }
}
