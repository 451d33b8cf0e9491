//! The range of a column of a table, by the summaries of its blocks.
ghost use Rattle.std.specs.Prelude.{◌≡◌, ◌<◌, IfOk, length};
ghost use Rattle.block_summary.specs.Ranges.{column_of, range_of};

use block_summary::{Range, one_range, ranges_join, ranges_widen};
use std::alloc::{AllocError, Global};
use table_store::Table;

/// Returns the least and the greatest cell of column `col`, counted from 0, over all rows, and how many of its cells are null. No cell is read: the summaries
/// of the blocks have their ranges.
pub(crate) fn column_range(alloc: Global, table: &Table, col: usize) -> Result<Range, AllocError>
    requires { col < length table.now.schema.columns }
    ensures { IfOk result (λ range. range ≡ range_of (column_of table.now.rows col)) }
{
    ranges_widen();
    ranges_join();
    one_range();
    let _rows = table.rows(); // no more cells are null than a number of rows can say
    let mut range = Range::new();
    for summary in table.summary() {
        range.join(alloc, summary.range(col))?;
    }
    Ok(range)
}
