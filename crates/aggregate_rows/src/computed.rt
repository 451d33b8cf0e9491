//! The least and the greatest value of one column (OData Data Aggregation 4.0, section 3.1.3): nulls are passed over.
ghost use Rattle.std.specs.Prelude.{◌≡◌, ◌<◌, if◌then◌else◌, length, not};
ghost use Rattle.std.specs.List.{All};
ghost use Rattle.std.specs.Ordering.{is_lt};
ghost use Rattle.cell_types.specs.Value.{value_cmp, value_view};
ghost use Rattle.query_meaning.specs.Apply.{computed_value, is_value};
ghost use Rattle.row_columns.specs.Picked.{numbered};
ghost use Rattle.aggregate_rows.specs.Computed.{aggregate_of, better_value};

use crate::kept::kept_extreme;
use cell_types::Value;
use row_columns::Columns;
use row_selection::Selection;

/// The least or the greatest of some values.
#[derive(Clone, Copy)]
pub(crate) enum Extreme {
    Least,
    Greatest,
}

/// Returns the least or the greatest value that rows have in a column; null if they have none. It goes from the last row to the first.
pub(crate) fn extreme_in<'a>(
    columns: &'a Columns,
    numbers: &Selection,
    place: usize,
    extreme: Extreme,
) -> Value<'a>
    requires within { All (λ number. number < length columns.now.rows) numbers.now }
    requires place { place < length columns.now.kinds }
    ensures { value_view result
        ≡ computed_value (numbered numbers.now columns.now.rows) (aggregate_of extreme place) }
{
    if let Some(kept) = kept_extreme(columns, numbers, place, extreme) {
        return kept;
    }
    let mut best = Value::Null;
    let mut i = numbers.len();
    while i > 0 {
        i -= 1;
        best = better(columns.value(numbers.at(i), place), best, extreme);
    }
    best
}

/// Returns the better of two values, the first of equal ones; null counts as none.
fn better<'a>(value: Value<'a>, other: Value<'a>, extreme: Extreme) -> Value<'a>
    ensures { value_view result
        ≡ better_value extreme (value_view value.entry) (value_view other.entry) }
{
    if wins(&other, &value, extreme) {
        other
    } else {
        value
    }
}

/// Returns true if a value is less than another, or greater if the greatest is asked for; null is none.
pub(crate) fn wins(value: &Value<'_>, other: &Value<'_>, extreme: Extreme) -> bool
    ensures { (if result then value_view value.now else value_view other.now)
        ≡ better_value extreme (value_view other.now) (value_view value.now) }
{
    if is_null(value) {
        return false;
    }
    if is_null(other) {
        return true;
    }
    match extreme {
        Extreme::Least => is_less(value, other),
        Extreme::Greatest => is_less(other, value),
    }
}

/// Returns true if a value is less than another.
fn is_less(value: &Value<'_>, other: &Value<'_>) -> bool
    ensures { result ≡ is_lt (value_cmp (value_view value.now) (value_view other.now)) }
{
    cell_types::values_compare_as_their_views();
    value.cmp(other).is_lt()
}

/// Returns true if a value is null.
pub(crate) fn is_null(value: &Value<'_>) -> bool
    ensures { result ≡ not (is_value (value_view value.now)) }
{
    matches!(value, Value::Null)
}
