//! Conditions on the rows of a block that tell which of them may be among the first in the order of `$orderby`, judged by the first item (OData 4.01 URL
//! Conventions, sections 5.1.5 and 5.1.6).
ghost use Rattle.std.specs.Prelude.{◌≡◌, ◌<◌, [], Bool, Some, not, IfOk, IfSome, length, map, slice_index_or};
ghost use Rattle.cell_types.specs.Value.{CellValue, value_view};
ghost use Rattle.typed_trees.specs.TypedTree.{compare_numbers, compare_texts, number_column, number_view, text_view, truth_view};
ghost use Rattle.odata_query.specs.Query.{order_view};
ghost use Rattle.sort_rows.specs.Cutoffs.{first_place as first_place_of, first_value, is_before, is_near, may_precede, moved_to, ComparesAs, IsComparison, IsTest, IsTestOfColumn};
ghost use Rattle.typed_trees.specs.declared.plain.PlainColumn.{PlainColumn as ColumnOf};

use cell_types::{ColumnKind, ComparisonOperator, NumberKind, Value, number_in};
use odata_query::OrderBy;
use order_columns::{ItemColumns, column_value, item_column};
use row_columns::Columns;
use std::alloc::{AllocError, Global};
use typed_trees::{NumberExpr, PlainColumn, TextExpr, TruthExpr};

/// Returns the comparison of a column of numbers with an operand.
fn compare_numbers(
    alloc: Global,
    operator: ComparisonOperator,
    kind: NumberKind,
    col: usize,
    operand: NumberExpr,
) -> Result<Option<TruthExpr>, AllocError>
    ensures { IfOk result (λ made. IfSome made (λ e. truth_view e
        ≡ compare_numbers operator (number_column kind col) (number_view operand))) }
{
    let column = NumberExpr::Column(kind, col);
    let (left, right) = (Box::new(alloc, column)?, Box::new(alloc, operand)?);
    Ok(Some(TruthExpr::CompareNumbers(operator, left, right)))
}

/// Returns the comparison of a column of texts with an operand.
fn compare_texts(
    alloc: Global,
    operator: ComparisonOperator,
    column: TextExpr,
    operand: TextExpr,
) -> Result<Option<TruthExpr>, AllocError>
    ensures { IfOk result (λ made. IfSome made (λ e. truth_view e
        ≡ compare_texts operator (text_view column) (text_view operand))) }
{
    let (left, right) = (Box::new(alloc, column)?, Box::new(alloc, operand)?);
    Ok(Some(TruthExpr::CompareTexts(operator, left, right)))
}

/// Returns a value of this kind or null as the number that stands for it, or `None` for a value of another kind.
fn as_number(kind: NumberKind, value: &Value<'_>) -> Option<NumberExpr>
    ensures { IfSome result
        (λ number. ComparesAs kind (value_view value.now) (number_view number)) }
{
    row_eval::dates_are_compared();
    match value {
        Value::Null => Some(NumberExpr::Null),
        value => match number_in(kind, value) {
            Some(number) => Some(NumberExpr::Literal(number)),
            None => None,
        },
    }
}

/// Returns the comparison of a column with a value of its kind or null, or `None` for a value of another kind.
fn comparison(
    alloc: Global,
    operator: ComparisonOperator,
    column: PlainColumn,
    value: &Value<'_>,
) -> Result<Option<TruthExpr>, AllocError>
    ensures { IfOk result (λ made. IfSome made
        (λ e. IsComparison operator column (value_view value.now) (truth_view e))) }
{
    let col = column.place;
    match (column.kind, value) {
        (ColumnKind::Text, Value::Text(text)) => {
            let text = TextExpr::Literal(String::from_str(alloc, text.as_str())?);
            compare_texts(alloc, operator, TextExpr::Column(col), text)
        }
        (ColumnKind::Text, Value::Null) => {
            compare_texts(alloc, operator, TextExpr::Column(col), TextExpr::Null)
        }
        (ColumnKind::Number(kind), value) => match as_number(kind, value) {
            Some(operand) => compare_numbers(alloc, operator, kind, col, operand),
            None => Ok(None),
        },
        _ => Ok(None),
    }
}

/// Returns the negation of a condition.
fn opposite(alloc: Global, condition: Option<TruthExpr>) -> Result<Option<TruthExpr>, AllocError>
    ensures { (column : ColumnOf) (test : CellValue → Bool)
        → IfSome condition (λ e. IsTestOfColumn column test (truth_view e))
        → IfOk result (λ made. IfSome made
        (λ e. IsTestOfColumn column (λ v. not (test v)) (truth_view e))) }
{
    match condition {
        Some(condition) => Ok(Some(TruthExpr::Not(Box::new(alloc, condition)?))),
        None => Ok(None),
    }
}

/// Returns whether the value of a column is before a bound in a direction.
fn is_before(
    alloc: Global,
    column: PlainColumn,
    descending: bool,
    bound: &Value<'_>,
) -> Result<Option<TruthExpr>, AllocError>
    ensures { IfOk result (λ made. IfSome made (λ e. IsTestOfColumn column
        (λ v. is_before descending v (value_view bound.now)) (truth_view e))) }
{
    cell_types::values_are_ordered();
    match (bound, descending) {
        (Value::Null, false) => Ok(Some(TruthExpr::Literal(false))),
        (Value::Null, true) => comparison(alloc, ComparisonOperator::NotEqual, column, bound),
        (_, true) => comparison(alloc, ComparisonOperator::GreaterThan, column, bound),
        (_, false) => {
            let after = comparison(alloc, ComparisonOperator::GreaterOrEqual, column, bound)?;
            opposite(alloc, after)
        }
    }
}

/// Returns whether the value of a column is not after a bound in a direction.
fn is_not_after(
    alloc: Global,
    column: PlainColumn,
    descending: bool,
    bound: &Value<'_>,
) -> Result<Option<TruthExpr>, AllocError>
    ensures { IfOk result (λ made. IfSome made (λ e. IsTestOfColumn column
        (λ v. not (is_before descending (value_view bound.now) v)) (truth_view e))) }
{
    let after = is_before(alloc, column, !descending, bound)?;
    opposite(alloc, after)
}

/// Returns a column of the same type at another place.
fn moved(column: PlainColumn, place: usize) -> PlainColumn
    ensures { result ≡ moved_to place column }
{
    PlainColumn { place, ..column }
}

/// Returns the place of the column that the first item is.
pub fn first_place(items: &[OrderBy]) -> Option<usize>
    ensures { IfSome result (λ place. first_place_of (map order_view items.now) ≡ Some place) }
{
    Some(item_column(&items.first()?.expression)?.place)
}

/// Returns a condition on the rows of a table whose column `col` the first item is: whether a row may come before the row `last` of `columns` in the order
/// of the items, judged by the first item. `None` if there is no such condition.
pub fn cutoff(
    alloc: Global,
    items: &[OrderBy],
    columns: &Columns,
    last: usize,
    col: usize,
) -> Result<Option<TruthExpr>, AllocError>
    requires { last < length columns.now.rows }
    ensures { IfOk result (λ made. IfSome made (λ e. IsTest (map order_view items.now) col
        (may_precede (map order_view items.now) (first_value (map order_view items.now)
        (slice_index_or columns.now.rows last []))) (truth_view e))) }
{
    let Some(first) = items.first() else {
        return Ok(None);
    };
    let Some(column) = item_column(&first.expression) else {
        return Ok(None);
    };
    let columns = ItemColumns::of(columns);
    let bound = column_value(&columns, last, column);
    let column = moved(column, col);
    if items.len() > 1 {
        is_not_after(alloc, column, first.descending, &bound)
    } else {
        is_before(alloc, column, first.descending, &bound)
    }
}

/// Returns a condition on the rows of a table whose column `col` the first item is: whether a row does not come after one whose first item has the value
/// `bound`, judged by the first item. `None` if there is no such condition.
pub fn nearness(
    alloc: Global,
    items: &[OrderBy],
    col: usize,
    bound: &Value<'_>,
) -> Result<Option<TruthExpr>, AllocError>
    ensures { IfOk result (λ made. IfSome made (λ e. IsTest (map order_view items.now) col
        (is_near (map order_view items.now) (value_view bound.now)) (truth_view e))) }
{
    let Some(first) = items.first() else {
        return Ok(None);
    };
    let Some(column) = item_column(&first.expression) else {
        return Ok(None);
    };
    is_not_after(alloc, moved(column, col), first.descending, bound)
}
