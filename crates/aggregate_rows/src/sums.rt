//! Sums of the numbers of a column (OData Data Aggregation 4.0, section 3.1.3.1): nulls are passed over. Each goes from the last row to the first.
ghost use Rattle.std.specs.Prelude.{◌≡◌, ◌<◌, [], length, slice_index_or};
ghost use Rattle.std.specs.List.{All};
ghost use Rattle.query_meaning.specs.Fitting.{AreSummable};
ghost use Rattle.row_columns.specs.Picked.{numbered};
ghost use Rattle.row_eval.specs.Row.{cell, number_in as number_in_of};
ghost use Rattle.aggregate_rows.specs.Sums.{numbers_in, sum_of, sums_joined, FitSums};

use cell_types::{NumberKind, number_in};
use row_columns::Columns;
use row_selection::Selection;

/// Returns the sum of the numbers of that kind that rows have in a column; None if they have none.
pub(crate) fn sum_of(
    columns: &Columns,
    numbers: &Selection,
    place: usize,
    kind: NumberKind,
) -> Option<i128>
    requires within { All (λ number. number < length columns.now.rows) numbers.now }
    requires place { place < length columns.now.kinds }
    requires fits { AreSummable (numbers_in kind place (numbered numbers.now columns.now.rows))
        (length numbers.now) }
    ensures { result ≡ sum_of (numbers_in kind place (numbered numbers.now columns.now.rows)) }
{
    let mut sum = None;
    let mut i = numbers.len();
    while i > 0 {
        i -= 1;
        sum = joined_sum(number_at(columns, numbers.at(i), place, kind), sum);
    }
    sum
}

/// Returns the sum of two sums, each of which there may be none.
#[inline(always)]
pub(crate) fn joined_sum(sum: Option<i128>, more: Option<i128>) -> Option<i128>
    requires { FitSums sum more }
    ensures { result ≡ sums_joined sum more }
{
    match (sum, more) {
        (None, more) => more,
        (Some(sum), None) => Some(sum),
        (Some(sum), Some(more)) => Some(sum + more),
    }
}

/// Returns the number of that kind that a row has in a column.
fn number_at(columns: &Columns, row: usize, place: usize, kind: NumberKind) -> Option<i128>
    requires row { row < length columns.now.rows }
    requires place { place < length columns.now.kinds }
    ensures { result ≡ cell (number_in_of kind) (slice_index_or columns.now.rows row []) place }
{
    number_in(kind, &columns.value(row, place))
}
