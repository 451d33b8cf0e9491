//! A sink of a piece of the rows.
ghost use Rattle.std.specs.Prelude.{◌≡◌, IfOk, OnOk};
ghost use Rattle.query_plan.specs.Plan.{node_result, slice_view, slicing};
ghost use Rattle.query_exec.specs.declared.sink.Sink.TheVariants as sink;
ghost use Rattle.query_exec.specs.Sink.{first_result, room_behind, spare_of, SinkGives, MayFinish, MayPush, PushesOn};

use block_filter::Passed;
use query_plan::Slice;
use result_rows::{Kept, OrderedRows, Rows};
use std::alloc::{AllocError, Global};
use table_store::Block;

/// Returns how many rows are still looked for.
pub(crate) fn room_behind(room: Option<u64>, passed: u64) -> Option<u64>
    ensures { result ≡ room_behind room passed }
{
    match room {
        Some(room) => Some(room.saturating_sub(passed)),
        None => None,
    }
}

/// The piece that all rows are.
pub(crate) const ALL_ROWS: Slice = Slice {
    skip: 0,
    top: None,
    counts: false,
};

/// Returns a piece of the first `most` rows, or of all.
pub(crate) fn piece_of(
    alloc: Global,
    rows: OrderedRows,
    most: Option<u64>,
    slice: Slice,
) -> Result<Rows, AllocError>
    requires { rows.taken ≡ 0 }
    ensures { IfOk result (λ made. node_result (slicing (slice_view slice))
        (first_result most rows.rows) ≡ Some made) }
{
    let len = rows.len() as u64;
    let first = most.unwrap_or(len).min(len);
    let left = first.saturating_sub(slice.skip);
    let top = slice.top.unwrap_or(left).min(left);
    let count = slice.counts.then_some(first).or(rows.table().count());
    let piece = rows.cut(alloc, slice.skip, top, count)?;
    Ok(piece)
}

/// A piece of the rows: its own are kept, and all are counted.
#[derive(Drop)]
pub(crate) struct SliceSink {
    pub(crate) kept: Kept,
    pub(crate) slice: Slice,
    pub(crate) count: u64,
}

impl SliceSink {
    /// Returns how many more rows it is of, if that is limited: those up to its end, which come before it too.
    pub(crate) fn spare(&self) -> Option<u64>
        ensures { result ≡ spare_of (sink.Slice self.now) }
    {
        let uncounted = Slice {
            counts: false,
            ..self.slice
        };
        room_behind(uncounted.room(), self.count)
    }

    /// Takes in the rows of a block that were found, after those before them.
    #[tactic(auto, using(crate::proofs::SliceLemmas::slice_count))]
    pub(crate) fn push(
        &mut self,
        alloc: Global,
        block: &Block<'_>,
        found: Passed,
    ) -> Result<(), AllocError>
        requires { MayPush (sink.Slice self.old) block.now found }
        ensures { OnOk result
            (PushesOn (sink.Slice self.old) (sink.Slice self.new) block.now.rows found) }
    {
        let skip = self.slice.skip.saturating_sub(self.count);
        self.count += found.count as u64;
        block.rows_are_few();
        let rows = found.rows.after(alloc, skip)?;
        self.kept.take(alloc, block, rows)?;
        Ok(())
    }

    /// Returns the piece of all rows that joined. It takes no memory.
    pub(crate) fn finish(self) -> Rows
        requires { MayFinish (sink.Slice self) }
        ensures { SinkGives (sink.Slice self) result }
    {
        let SliceSink { kept, slice, count } = self;
        kept.into_rows(slice.counts.then_some(count))
    }
}
