//! The summaries of the blocks of a table, some blocks at a time.
ghost use Rattle.std.specs.Prelude.{◌≡◌, ◌*◌, ◌<◌, ◌≤◌, IfOk, All, [], length};
ghost use Rattle.block_summary.specs.Blocks.{block_count};
ghost use Rattle.block_summary.specs.declared.block.TheConstants.{BLOCK_ROWS};
ghost use Rattle.table_store.specs.Summaries.{AreRangesAt, AreFirstRanges, SummarizesOn};

use block_summary::{BLOCK_ROWS, Summary};
use column_blocks::TypedColumn;
use key_index::KeyedRows;
use std::alloc::{AllocError, Global};

/// How many ranges a step makes, and at most those of one block more: about a millisecond's.
const RANGES: usize = 2048;

/// Rows of columns with their keys, and the summaries of their first blocks.
#[derive(Drop)]
pub struct SummarizedRows {
    pub rows: KeyedRows,
    pub summaries: Vec<Summary>,
}

/// Returns the summary of the block of a number: the range of each column.
fn summary_at(alloc: Global, columns: &[TypedColumn], number: usize) -> Result<Summary, AllocError>
    requires { All (λ column. number * BLOCK_ROWS < length column.cells) columns.now }
    ensures { IfOk result (AreRangesAt number columns.now) }
{
    let mut ranges = Vec::with_capacity(alloc, columns.len())?;
    for column in columns {
        ranges.push(column.range(alloc, number)?)?;
    }
    Ok(Summary::of_ranges(ranges))
}

impl SummarizedRows {
    /// Returns these rows before any of their blocks has its summary.
    pub fn start(alloc: Global, rows: KeyedRows) -> Result<SummarizedRows, AllocError>
        ensures rows { IfOk result (λ new. new.rows ≡ rows) }
        ensures none { IfOk result (λ new. new.summaries.items ≡ []) }
    {
        let summaries = Vec::with_capacity(alloc, rows.rows.div_ceil(BLOCK_ROWS))?;
        Ok(SummarizedRows { rows, summaries })
    }

    /// Makes the summaries of more blocks, or of all that are left.
    pub fn step(self, alloc: Global) -> Result<SummarizedRows, AllocError>
        requires columns { All (λ column. length column.cells ≡ self.rows.rows)
            self.rows.columns.items }
        requires first { AreFirstRanges self.rows.columns.items self.summaries.items }
        requires few { length self.summaries.items ≤ block_count self.rows.rows }
        ensures { IfOk result (SummarizesOn self) }
    {
        let SummarizedRows {
            rows,
            mut summaries,
        } = self;
        let first = summaries.len();
        let blocks = RANGES / (rows.columns.len() + 1) + 1;
        let end = rows.rows.div_ceil(BLOCK_ROWS).min(first + blocks);
        for number in first..end {
            summaries.push(summary_at(alloc, rows.columns.as_slice(), number)?)?;
        }
        Ok(SummarizedRows { rows, summaries })
    }
}
