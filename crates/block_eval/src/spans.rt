//! Comparisons of a column of numbers, or of the years of a column of dates, with a constant, as comparisons of packed numbers with a span: none is unpacked.

ghost use Rattle.std.specs.Prelude.{◌≡◌, None, IfOk, IfSome, length, slice_index_or};
ghost use Rattle.block_summary.specs.Types.{numbers_of};
ghost use Rattle.typed_trees.specs.TypedTree.{number_view};
ghost use Rattle.typed_trees.specs.declared.tree.DatePart.TheVariants.{Year};
ghost use Rattle.block_eval.specs.Lanes.{HasTruths};
ghost use Rattle.block_eval.specs.Parts.{day_part};
ghost use Rattle.block_eval.specs.Spans.{in_span, span_comparison, ComparesSpan, IsSpanOf};

use crate::columns::BlockColumn;
use crate::packed::{compare_packed, packed_in};
use block_summary::{Bounds, PackedColumn};
use cell_types::{ComparisonOperator, NumberKind};
use number_kernels::{Fallback, conjunction, negation};
use row_eval::Truth;
use std::alloc::Global;
use typed_trees::{DateExpr, DatePart, NumberExpr};
use zone_maps::constant_number;

/// Returns the span of one number, if it has 64 bits.
fn span_of_number(number: i128) -> Option<Bounds>
    ensures { IfSome result (IsSpanOf (λ n. n) number) }
{
    match i64::try_from(number) {
        Ok(number) => Some(Bounds {
            least: number,
            greatest: number,
        }),
        Err(_) => None,
    }
}

/// Returns the span of the numbers of the days of a year, if they have 64 bits.
fn span_of_year(year: i128) -> Option<Bounds>
    ensures { IfSome result (IsSpanOf (day_part Year) year) }
{
    let Ok(year) = i64::try_from(year) else {
        return None;
    };
    let least = year.checked_mul(512)?;
    let greatest = least.checked_add(511)?;
    Some(Bounds { least, greatest })
}

/// Returns the packed column and the span with which two numbers are compared; `None` if the left one is neither a column of `rows` rows nor the year of one, or the
/// right one is not constant.
pub fn column_and_span<'a>(
    left: &NumberExpr,
    right: &NumberExpr,
    columns: &[BlockColumn<'a>],
    rows: usize,
) -> Option<(&'a PackedColumn, Bounds)>
    ensures span { IfSome result (λ found. ComparesSpan (number_view left.now)
        (number_view right.now) columns.now found.0.now found.1) }
    ensures long { IfSome result (λ found. length found.0.now ≡ rows) }
{
    let number = constant_number(right)??;
    match left {
        NumberExpr::Column(kind, place) => {
            let column = packed_in(columns, *place, *kind, rows)?;
            let span = span_of_number(number)?;
            Some((column, span))
        }
        NumberExpr::PartOf(DatePart::Year, DateExpr::Column(place)) => {
            let column = packed_in(columns, *place, NumberKind::Date, rows)?;
            let span = span_of_year(number)?;
            Some((column, span))
        }
        _ => None,
    }
}

/// Returns for each number of a column whether it lies in a span; false for null.
fn within(alloc: Global, column: &PackedColumn, span: Bounds) -> Result<Vec<Truth>, Fallback>
    ensures { IfOk result (λ truths. HasTruths (length (numbers_of column.now))
        (λ row. in_span span (slice_index_or (numbers_of column.now) row None)) truths.items) }
{
    if span.least == span.greatest {
        let truths = compare_packed(alloc, ComparisonOperator::Equal, column, span.least)?;
        return Ok(truths);
    }
    let from = compare_packed(
        alloc,
        ComparisonOperator::GreaterOrEqual,
        column,
        span.least,
    )?;
    let to = compare_packed(
        alloc,
        ComparisonOperator::LessOrEqual,
        column,
        span.greatest,
    )?;
    Ok(conjunction(from, to))
}

/// Returns for each number of a column whether it comes before or after a span, or lies in it, as an operator asks.
pub fn compare_span(
    alloc: Global,
    operator: ComparisonOperator,
    column: &PackedColumn,
    span: Bounds,
) -> Result<Vec<Truth>, Fallback>
    ensures { IfOk result (λ truths. HasTruths (length (numbers_of column.now))
        (λ row. span_comparison operator span (slice_index_or (numbers_of column.now) row None))
        truths.items) }
{
    match operator {
        ComparisonOperator::Equal => within(alloc, column, span),
        ComparisonOperator::NotEqual => {
            let truths = within(alloc, column, span)?;
            Ok(negation(truths))
        }
        ComparisonOperator::GreaterThan | ComparisonOperator::LessOrEqual => {
            compare_packed(alloc, operator, column, span.greatest)
        }
        ComparisonOperator::GreaterOrEqual | ComparisonOperator::LessThan => {
            compare_packed(alloc, operator, column, span.least)
        }
    }
}
