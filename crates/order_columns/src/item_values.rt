//! The items of `$orderby` as columns: those of a table, and those of the values of items that are computed, which are kept (OData 4.01 URL Conventions, section
//! 5.1.5).
ghost use Rattle.std.specs.Prelude.{◌≡◌, [], drop, length, map, replicate, IfOk, OnOk};
ghost use Rattle.std.specs.List.{All};
ghost use Rattle.typed_trees.specs.TypedTree.{typed_view};
ghost use Rattle.odata_query.specs.Query.{order_view};
ghost use Rattle.row_eval.specs.Bounds.{NumbersFit};
ghost use Rattle.order_columns.specs.Items.{column_of_item, table_column as table_column_of, KeepsMore, OrderAsItems, PushesValues};
ghost use Rattle.order_columns.specs.Plain.{AreItemColumns, IsPlainColumn};

use crate::front::FrontGuess;
use crate::plain::{PlainItem, is_repeated};
use odata_query::OrderBy;
use row_columns::Columns;
use row_eval::{EvalFault, eval};
use std::alloc::{AllocError, Global};
use typed_trees::{PlainColumn, TypedExpr, columns_are_columns, plain_column};
use value_rows::PackedValues;

/// Returns the column that an expression is, after `before` others. `None` if it is none, or its number does not fit.
fn table_column(expression: &TypedExpr, before: usize) -> Option<PlainColumn>
    ensures { result ≡ table_column_of before (typed_view expression.now) }
{
    let column = plain_column(expression)?;
    let place = column.place.checked_add(before)?;
    Some(PlainColumn { place, ..column })
}

/// Returns the column that the item at `place` of `count` is: that of its values, unless it is a column of the table.
fn item_column(expression: &TypedExpr, place: usize, count: usize) -> PlainColumn
    ensures { result ≡ column_of_item count place (typed_view expression.now) }
{
    match table_column(expression, count) {
        Some(column) => column,
        None => PlainColumn {
            kind: expression.kind(),
            place,
        },
    }
}

/// Returns the columns that decide: those that the items are. What their texts begin with is guessed.
pub fn deciding_columns(
    alloc: Global,
    items: &[OrderBy],
    guess: FrontGuess<'_>,
) -> Result<Vec<PlainItem>, AllocError>
    ensures { IfOk result (λ made. OrderAsItems (map order_view items.now) made.items) }
{
    let mut columns = Vec::with_capacity(alloc, items.len())?;
    for (place, item) in items.iter().enumerate() {
        if is_repeated(&items[..place], item) {
            continue;
        }
        let column = item_column(&item.expression, place, items.len());
        let descending = item.descending;
        let front = guess.front(column, items.len());
        columns.push(PlainItem {
            column,
            descending,
            front,
        })?;
    }
    Ok(columns)
}

/// Returns the expression that is a column.
fn column_expression(alloc: Global, column: PlainColumn) -> Result<TypedExpr, AllocError>
    ensures { IfOk result (λ made. IsPlainColumn (typed_view made) column) }
{
    columns_are_columns();
    TypedExpr::column(alloc, column.kind, column.place, u128::MAX)
}

/// Returns items that are these columns.
pub fn column_items(alloc: Global, columns: &[PlainItem]) -> Result<Vec<OrderBy>, AllocError>
    ensures { IfOk result (λ made. AreItemColumns (map order_view made.items) columns.now) }
{
    let mut items = Vec::with_capacity(alloc, columns.len())?;
    for item in columns {
        let expression = column_expression(alloc, item.column)?;
        let descending = item.descending;
        items.push(OrderBy {
            expression,
            descending,
        })?;
    }
    Ok(items)
}

/// Returns no values yet for each of `count` items.
pub fn no_values(alloc: Global, count: usize) -> Result<Vec<PackedValues>, AllocError>
    ensures { IfOk result (λ made. made.items ≡ replicate count []) }
{
    let mut values = Vec::with_capacity(alloc, count)?;
    for _ in 0..count {
        values.push(PackedValues::new(alloc))?;
    }
    Ok(values)
}

/// Appends the values of an expression on the rows from `first` on.
fn push_values(
    alloc: Global,
    columns: &Columns,
    first: usize,
    expression: &TypedExpr,
    values: &mut PackedValues,
) -> Result<(), EvalFault>
    requires { All (NumbersFit (typed_view expression.now)) columns.now.rows }
    ensures { PushesValues (typed_view expression.now) (drop first columns.now.rows) values.old
        values.new result }
{
    for number in first..columns.len() {
        let row = columns.row(alloc, number)?;
        let value = eval(alloc, expression, row.as_slice())?;
        values.push(alloc, &value)?;
    }
    Ok(())
}

/// Appends the values of the items that are computed on the rows from `first` on.
pub fn keep_values(
    alloc: Global,
    columns: &Columns,
    first: usize,
    items: &[OrderBy],
    values: &mut Vec<PackedValues>,
) -> Result<(), EvalFault>
    requires long { length values.old.items ≡ length items.now }
    requires fits { All (λ row. All (λ item. NumbersFit item.0 row) (map order_view items.now))
        columns.now.rows }
    ensures long { length values.new.items ≡ length values.old.items }
    ensures keeps { KeepsMore (map order_view items.now) (drop first columns.now.rows)
        values.old.items values.new.items result }
{
    for (place, item) in items.iter().enumerate() {
        if table_column(&item.expression, items.len()).is_some() {
            continue;
        }
        push_values(alloc, columns, first, &item.expression, &mut values[place])?;
    }
    Ok(())
}
