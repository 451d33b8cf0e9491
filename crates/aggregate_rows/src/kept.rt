//! Sums, least and greatest values of rows of a block by its columns as they are kept (OData Data Aggregation 4.0, section 3.1.3): nulls are passed over.
ghost use Rattle.std.specs.Prelude.{◌≡◌, ◌<◌, ◌≤◌, IfSome, IsTrue, List, length};
ghost use Rattle.std.specs.List.{All, filter_map};
ghost use Rattle.block_summary.specs.Ranges.{column_of};
ghost use Rattle.block_summary.specs.Types.{cells_of_kind, numbers_of};
ghost use Rattle.cell_types.specs.Value.{CellValue, value_view};
ghost use Rattle.cell_types.specs.declared.kind.NumberKind.{NumberKind};
ghost use Rattle.query_meaning.specs.Apply.{computed_value};
ghost use Rattle.query_meaning.specs.Fitting.{AreSummable};
ghost use Rattle.row_columns.specs.Picked.{numbered};
ghost use Rattle.row_eval.specs.Row.{number_in};
ghost use Rattle.aggregate_rows.specs.Computed.{aggregate_of};
ghost use Rattle.row_codes.specs.Kept.{IsKeptAs};
ghost use Rattle.aggregate_rows.specs.Sums.{numbers_at, numbers_in, sum_of};

use crate::computed::Extreme;
use crate::sums::{joined_sum, sum_of};
use block_summary::PackedColumn;
use cell_types::{NumberKind, Value};
use query_meaning::extremes_are_values;
use row_columns::Columns;
use row_selection::Selection;

/// Returns true if rows are selected as the first `len` rows.
fn are_all(numbers: &Selection, len: usize) -> bool
    ensures { IsTrue result → (rows : List (List CellValue)) → length rows ≡ len
        → numbered numbers.now rows ≡ rows }
{
    numbers.is_all() && numbers.len() == len
}

/// Returns the column of these rows as it is kept, if they are all that there are.
fn whole_column<'a>(
    columns: &'a Columns,
    numbers: &Selection,
    place: usize,
) -> Option<&'a PackedColumn>
    requires { place < length columns.now.kinds }
    ensures { IfSome result
        (λ cells. cells.now ≡ column_of (numbered numbers.now columns.now.rows) place) }
{
    let cells = columns.packed(place)?;
    if !are_all(numbers, columns.len()) {
        return None;
    }
    Some(cells)
}

/// Returns the least or the greatest value that these rows have in a column, null if they have none, or `None` if the column is not kept so that it is known. No number is looked at.
pub(crate) fn kept_extreme(
    columns: &Columns,
    numbers: &Selection,
    place: usize,
    extreme: Extreme,
) -> Option<Value<'static>>
    requires { place < length columns.now.kinds }
    ensures { IfSome result (λ value. value_view value
        ≡ computed_value (numbered numbers.now columns.now.rows) (aggregate_of extreme place)) }
{
    extremes_are_values();
    cell_types::values_are_ordered();
    let column = whole_column(columns, numbers, place)?;
    let (least, greatest) = column.ends();
    match extreme {
        Extreme::Least => Some(least.unwrap_or(Value::Null)),
        Extreme::Greatest => Some(greatest.unwrap_or(Value::Null)),
    }
}

/// Returns the column of all rows as it is kept, if it has numbers of that kind.
fn kept_column(columns: &Columns, place: usize, kind: NumberKind) -> Option<&PackedColumn>
    requires { place < length columns.now.kinds }
    ensures { IfSome result
        (λ column. IsKeptAs kind place columns.now.rows column.now) }
{
    let column = columns.packed(place)?;
    if column.kind() != kind {
        return None;
    }
    Some(column)
}

/// Returns the sum of all numbers of a column; None if it has none. No number is looked at.
fn whole_sum(column: &PackedColumn) -> Option<i128>
    ensures { (kind : NumberKind)
        → cells_of_kind kind (numbers_of column.now) ≡ column.now
        → result ≡ sum_of (filter_map (number_in kind) column.now) }
{
    if column.null_count() == column.len() {
        return None;
    }
    Some(column.sum())
}

/// Returns the sum of the numbers that a column has in some rows; None if it has none there. It goes from the last row to the first.
fn part_sum(column: &PackedColumn, numbers: &Selection) -> Option<i128>
    requires { AreSummable (numbers_at column.now numbers.now) (length numbers.now) }
    ensures { result ≡ sum_of (numbers_at column.now numbers.now) }
{
    let mut sum = None;
    let mut i = numbers.len();
    while i > 0 {
        i -= 1;
        if let Some(number) = column.number(numbers.at(i)) {
            sum = joined_sum(Some(number as i128), sum);
        }
    }
    sum
}

/// Returns the sum of the numbers of that kind that rows have in a column; None if they have none.
pub(crate) fn sum_of_rows(
    columns: &Columns,
    numbers: &Selection,
    place: usize,
    kind: NumberKind,
) -> Option<i128>
    requires within { All (λ number. number < length columns.now.rows) numbers.now }
    requires place { place < length columns.now.kinds }
    requires fits { AreSummable (numbers_in kind place (numbered numbers.now columns.now.rows))
        (length numbers.now) }
    ensures { result ≡ sum_of (numbers_in kind place (numbered numbers.now columns.now.rows)) }
{
    let Some(column) = kept_column(columns, place, kind) else {
        return sum_of(columns, numbers, place, kind);
    };
    if are_all(numbers, columns.len()) {
        return whole_sum(column);
    }
    part_sum(column, numbers)
}
