//! Dates on a row.

ghost use Rattle.std.specs.Prelude.{◌≡◌, option_map};
ghost use Rattle.typed_trees.specs.TypedTree.{date_view, day_view, optional_day};
ghost use Rattle.row_eval.specs.Outcome.{date_outcome, part_in as part_in_of};
ghost use Rattle.row_eval.specs.Row.{row_view};

use cell_types::Value;
use jiff_core::civil::Date;
use typed_trees::{DateExpr, DatePart};

/// Returns a date on a row; none for null.
pub fn eval_date(expr: &DateExpr, row: &[Value<'_>]) -> Option<Date>
    ensures { optional_day result ≡ date_outcome (date_view expr.now) (row_view row.now) }
{
    match expr {
        DateExpr::Null => None,
        DateExpr::Column(place) => match row.get(*place) {
            Some(Value::Date(date)) => Some(*date),
            _ => None,
        },
        DateExpr::Literal(date) => Some(*date),
    }
}

/// Returns the year, the month or the day.
fn part_in(part: DatePart, date: Date) -> i128
    ensures { result ≡ part_in_of part (day_view date) }
{
    match part {
        DatePart::Year => i128::from(date.year),
        DatePart::Month => i128::from(date.month),
        DatePart::Day => i128::from(date.day),
    }
}

/// Returns the year, the month or the day of a date on a row; none for null.
pub(crate) fn eval_part(part: DatePart, date: &DateExpr, row: &[Value<'_>]) -> Option<i128>
    ensures { result ≡ option_map (part_in_of part)
        (date_outcome (date_view date.now) (row_view row.now)) }
{
    match eval_date(date, row) {
        Some(date) => Some(part_in(part, date)),
        None => None,
    }
}
