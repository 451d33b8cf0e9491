//! The kinds of values. Of two values of different kinds the one whose kind comes first is the lesser one, so the range of a column tells its kind.

ghost use Rattle.std.specs.Prelude.{◌≡◌};
ghost use Rattle.cell_types.specs.Value.{text as text_cell, value_view};
ghost use Rattle.zone_maps.specs.Known.{Encloses};

use block_summary::Test;
use cell_types::{ColumnKind, ComparisonOperator, Value, typed_value};
use std::borrow::CowStr;

/// Returns a test.
fn test(op: ComparisonOperator, literal: Value<'static>) -> Test<'static>
    ensures op { result.op ≡ op }
    ensures literal { result.literal ≡ literal.entry }
{
    Test { op, literal }
}

fn text(text: &'static str) -> Value<'static>
    ensures { value_view result ≡ text_cell text.now }
{
    Value::Text(CowStr::Borrowed(text))
}

/// Returns two tests: all values of the kinds before this one pass the first, and all of the kinds after it pass the second.
pub fn tests_around(kind: ColumnKind) -> (Test<'static>, Test<'static>)
    ensures { Encloses kind result.0 result.1 }
{
    cell_types::numbers_stand_for_cells();
    cell_types::values_are_ordered();
    match kind {
        ColumnKind::Number(kind) => (
            test(
                ComparisonOperator::LessThan,
                typed_value(kind, kind.least()),
            ),
            test(
                ComparisonOperator::GreaterThan,
                typed_value(kind, kind.greatest()),
            ),
        ),
        ColumnKind::Text => (
            test(ComparisonOperator::LessThan, text("")),
            test(ComparisonOperator::GreaterOrEqual, Value::Bool(false)),
        ),
    }
}
