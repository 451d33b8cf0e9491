//! What a comparison of a column with a literal says of all rows of a block, told by the range of the column.

ghost use Rattle.std.specs.Prelude.{◌≡◌, false, true, List, IfSome, IsTrue};
ghost use Rattle.cell_types.specs.Kind.{is_of_kind, HasRealDay};
ghost use Rattle.cell_types.specs.Value.{CellValue, value_view};
ghost use Rattle.block_summary.specs.Ranges.{is_null};
ghost use Rattle.zone_maps.specs.Known.{cell_at_place, opposite_of as opposite_of_comparison, HaveCellAlone, AreOfKind, HasOpposite, HasTruth, IsRowWithin, Says};

use crate::kinds::tests_around;
use block_summary::{Summary, Test, admits, skips_no_row};
use cell_types::{
    ColumnKind, ComparisonOperator, Value, dates_read_back, numbers_stand_for_cells,
    values_are_ordered,
};
use row_eval::{Truth, truth_of};

fn opposite_of(comparison: ComparisonOperator) -> ComparisonOperator
    ensures { result ≡ opposite_of_comparison comparison }
{
    match comparison {
        ComparisonOperator::Equal => ComparisonOperator::NotEqual,
        ComparisonOperator::NotEqual => ComparisonOperator::Equal,
        ComparisonOperator::GreaterThan => ComparisonOperator::LessOrEqual,
        ComparisonOperator::GreaterOrEqual => ComparisonOperator::LessThan,
        ComparisonOperator::LessThan => ComparisonOperator::GreaterOrEqual,
        ComparisonOperator::LessOrEqual => ComparisonOperator::GreaterThan,
    }
}

/// Returns true if the range of a column tells that no row passes a test.
fn fails_each(summary: &Summary, place: usize, test: &Test<'_>) -> bool
    ensures { IsTrue result → Says summary.now place test.now false }
{
    skips_no_row();
    place < summary.width() && !admits(summary, place, test)
}

/// Returns true if the range of a column tells that each cell is a value.
pub fn is_each(summary: &Summary, place: usize, value: Value<'_>) -> bool
    ensures { IsTrue result → HaveCellAlone (value_view value.entry) summary.now place }
{
    values_are_ordered();
    let test = Test {
        op: ComparisonOperator::NotEqual,
        literal: value,
    };
    fails_each(summary, place, &test)
}

/// Returns true if the range of a column tells that no row is null.
fn has_no_null(summary: &Summary, place: usize) -> bool
    ensures { IsTrue result → (cells : List CellValue) → IsRowWithin summary.now cells
        → is_null (cell_at_place cells place) ≡ false }
{
    let test = Test {
        op: ComparisonOperator::Equal,
        literal: Value::Null,
    };
    fails_each(summary, place, &test)
}

/// Returns true if the opposite of a test holds just if the test does not: not of an order, if there is null.
fn has_opposite(summary: &Summary, place: usize, test: &Test<'_>) -> bool
    ensures { IsTrue result → HasOpposite summary.now place test.now }
{
    match test.op {
        ComparisonOperator::Equal | ComparisonOperator::NotEqual => true,
        _ => !matches!(test.literal, Value::Null) && has_no_null(summary, place),
    }
}

/// Returns true if the range of a column tells that each row passes a test.
fn passes_each(summary: &Summary, place: usize, test: Test<'_>) -> bool
    ensures { IsTrue result → Says summary.now place test.entry true }
{
    if !has_opposite(summary, place, &test) {
        return false;
    }
    let opposite = Test {
        op: opposite_of(test.op),
        literal: test.literal,
    };
    fails_each(summary, place, &opposite)
}

/// Returns what a test says of each row alike, or `None` if the range does not tell.
fn known_test(summary: &Summary, place: usize, test: Test<'_>) -> Option<bool>
    ensures { IfSome result (λ b. Says summary.now place test.entry b) }
{
    if fails_each(summary, place, &test) {
        return Some(false);
    }
    if passes_each(summary, place, test) {
        return Some(true);
    }
    None
}

/// Returns true if the range of a column tells that each cell is null or of a kind.
fn are_of_kind(summary: &Summary, place: usize, kind: ColumnKind) -> bool
    ensures { IsTrue result → AreOfKind kind summary.now place }
{
    let (before, behind) = tests_around(kind);
    fails_each(summary, place, &before) && fails_each(summary, place, &behind)
}

/// Returns the truth that a comparison of a column with a literal has on each row alike, or `None` if the range does not tell.
pub fn known_comparison(
    summary: &Summary,
    kind: ColumnKind,
    operator: ComparisonOperator,
    place: usize,
    literal: Value<'_>,
) -> Option<Truth>
    requires kind { is_of_kind kind (value_view literal) ≡ true }
    requires day { HasRealDay (value_view literal) }
    ensures { IfSome result
        (HasTruth kind operator summary.now place (value_view literal.entry)) }
{
    dates_read_back();
    numbers_stand_for_cells();
    values_are_ordered();
    if !are_of_kind(summary, place, kind) {
        return None;
    }
    let test = Test {
        op: operator,
        literal,
    };
    match known_test(summary, place, test) {
        Some(holds) => Some(truth_of(holds)),
        None => None,
    }
}
