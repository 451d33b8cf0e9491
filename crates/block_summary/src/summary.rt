//! Summaries of blocks.

ghost use Rattle.std.specs.Prelude.{◌≡◌, ◌<◌, All, IfOk, OnOk, length, map, slice_index_or, vec_len};
ghost use Rattle.cell_types.specs.Value.{null, value_view};
ghost use Rattle.block_summary.specs.Ranges.{column_of, no_range, widened, AreRangesOf, IsRangeOf};
ghost use Rattle.block_summary.specs.Rows.{row_views};
ghost use Rattle.block_summary.specs.Tests.{admits as admits_test};

use crate::range::Range;
use crate::test::Test;
use cell_types::Value;
use std::alloc::{AllocError, Global};
use std::marker::Model;

/// What is known of the cells of a block: the range of each column, in the order of the columns.
#[derive(Drop)]
pub struct Summary {
    ranges: Vec<Range>,
}

impl Model for Summary {
    ghost use Rattle.std.specs.Prelude.{List};
    ghost use Rattle.block_summary.specs.Ranges.{RangeOf};

    ghost Value = { List RangeOf };

    ghost view = { λ s. s.ranges.items };
}

impl Summary {
    /// Returns the summary of a block whose columns have these ranges.
    pub fn of_ranges(ranges: Vec<Range>) -> Summary
        ensures { result ≡ ranges.items }
    {
        Summary { ranges }
    }

    /// Returns the summary of a block of rows of `width` columns.
    pub fn build(
        alloc: Global,
        width: usize,
        rows: &[Vec<Value<'_>>],
    ) -> Result<Summary, AllocError>
        requires { All (λ row. vec_len row ≡ width) rows.now }
        ensures width { IfOk result (λ summary. length summary ≡ width) }
        ensures ranges { IfOk result (λ summary. AreRangesOf summary (row_views rows.now)) }
    {
        let mut ranges = Vec::with_capacity(alloc, width)?;
        for col in 0..width {
            ranges.push(column_range(alloc, rows, col)?)?;
        }
        Ok(Summary { ranges })
    }

    /// Returns the range of column `col`, counted from 0.
    pub fn range(&self, col: usize) -> &Range
        requires { col < length self.now }
        ensures { result.now ≡ slice_index_or self.now col no_range }
    {
        &self.ranges[col]
    }

    /// Returns how many columns there are.
    pub fn width(&self) -> usize
        ensures { result ≡ length self.now }
    {
        self.ranges.len()
    }
}

/// Takes one more row into the range of a column.
fn add_row(
    alloc: Global,
    range: &mut Range,
    row: &[Value<'_>],
    col: usize,
) -> Result<(), AllocError>
    requires col { col < length row.now }
    requires nulls { range.old.null_count < usize.MAX }
    ensures { OnOk result
        (range.new ≡ widened range.old (slice_index_or (map value_view row.now) col null)) }
{
    range.add(alloc, &row[col])
}

/// Returns the range of a column of rows.
fn column_range(alloc: Global, rows: &[Vec<Value<'_>>], col: usize) -> Result<Range, AllocError>
    requires { All (λ row. col < vec_len row) rows.now }
    ensures { IfOk result (λ range. IsRangeOf range (column_of (row_views rows.now) col)) }
{
    crate::laws::ranges_widen();
    let mut range = Range::new();
    for row in rows {
        add_row(alloc, &mut range, row.as_slice(), col)?;
    }
    Ok(range)
}

/// Returns true if a block with this summary can have a row whose cell in a column passes the test.
pub fn admits(summary: &Summary, col: usize, test: &Test<'_>) -> bool
    requires { col < length summary.now }
    ensures { result ≡ admits_test test.now.op (slice_index_or summary.now col no_range)
        (value_view test.now.literal) }
{
    summary.ranges[col].admits(test)
}
