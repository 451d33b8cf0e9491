//! Items of `aggregate` (OData Data Aggregation 4.0, section 3.2.1).

ghost use Rattle.std.specs.Prelude.{◌≡◌, ◌*◌, ◌++◌, [], IfOk, map};
ghost use Rattle.odata_parse.specs.Tree.{aggregate_item_view};
ghost use Rattle.cell_types.specs.declared.kind.ColumnKind.TheVariants.{Number};
ghost use Rattle.odata_types.specs.Columns.{inputs_view, of_size};
ghost use Rattle.odata_types.specs.Result.{Gives};
ghost use Rattle.odata_types.specs.Typing.{within};
ghost use Rattle.odata_query.specs.Aggregate.{aggregates_view, item_view, items_view, named_view};
ghost use Rattle.odata_query.specs.Apply.{computed_typing, free_typing, has_alias, item_column, item_typing, items_typing, method_typing, named_of, sum_typing};

use crate::aggregate::{Aggregate, COUNT_SIZE, MOST_ROWS, NamedAggregate};
use crate::selection::has_name;
use cell_types::{ColumnKind, NumberKind};
use odata_parse::tree::{AggregateItem, AggregationMethod};
use odata_types::{ColumnType, InputColumn, TypeFault, place_of, within};
use std::alloc::{AllocError, Global};

/// An aggregate, its alias and its type.
#[derive(Clone, Copy)]
pub(crate) struct Item<'a> {
    pub(crate) alias: &'a str,
    pub(crate) aggregate: Aggregate,
    pub(crate) column_type: ColumnType,
}

/// Returns the type of integers of at most that size.
fn integers(size: u128) -> ColumnType
    ensures { result ≡ of_size (Number NumberKind.Integer) size }
{
    let kind = ColumnKind::Number(NumberKind::Integer);
    ColumnType { kind, size }
}

/// Returns the bound of a sum of a column's numbers.
fn sum_size(bound: u128) -> Result<u128, TypeFault>
    ensures { result ≡ within (bound * MOST_ROWS) (bound * MOST_ROWS) }
{
    match bound.checked_mul(MOST_ROWS) {
        Some(size) => within(size),
        None => Err(TypeFault::TooLarge),
    }
}

/// Returns the sum of the column with that number.
fn sum_of(place: usize, column_type: ColumnType) -> Result<(Aggregate, ColumnType), TypeFault>
    ensures { Gives (λ x. x) (sum_typing place column_type) result }
{
    match column_type.kind {
        ColumnKind::Number(NumberKind::Integer) => {
            let size = sum_size(column_type.size)?;
            Ok((Aggregate::SumOfIntegers(place), integers(size)))
        }
        ColumnKind::Number(NumberKind::Decimal) => {
            let size = sum_size(column_type.size)?;
            let kind = ColumnKind::Number(NumberKind::Decimal);
            Ok((Aggregate::SumOfDecimals(place), ColumnType { kind, size }))
        }
        _ => Err(TypeFault::Mismatch),
    }
}

/// Returns what a method computes of the column with that number, and its type.
fn computed(
    method: AggregationMethod,
    place: usize,
    column_type: ColumnType,
) -> Result<(Aggregate, ColumnType), TypeFault>
    ensures { Gives (λ x. x) (method_typing method place column_type) result }
{
    match method {
        AggregationMethod::Sum => sum_of(place, column_type),
        AggregationMethod::Min => Ok((Aggregate::Min(place), column_type)),
        AggregationMethod::Max => Ok((Aggregate::Max(place), column_type)),
        AggregationMethod::CountDistinct => {
            Ok((Aggregate::CountDistinct(place), integers(COUNT_SIZE)))
        }
    }
}

/// Returns what a method computes of the column with that name, and its type.
fn computed_of(
    columns: &[InputColumn<'_>],
    name: &str,
    method: AggregationMethod,
) -> Result<(Aggregate, ColumnType), TypeFault>
    ensures { Gives (λ x. x) (computed_typing (inputs_view columns.now) name.now method) result }
{
    let place = place_of(columns, name);
    match columns.get(place) {
        Some(column) => computed(method, place, column.column_type),
        None => Err(TypeFault::UnknownName),
    }
}

/// Returns true if an earlier item has that alias.
fn is_alias(earlier: &[Item<'_>], alias: &str) -> bool
    ensures { result ≡ has_alias (map item_view earlier.now) alias.now }
{
    for item in earlier {
        if alias == item.alias {
            return true;
        }
    }
    false
}

/// Returns an aggregate under an alias that no column of the input and no earlier item has.
fn named<'a>(
    columns: &[InputColumn<'_>],
    earlier: &[Item<'_>],
    made: (Aggregate, ColumnType),
    alias: &'a str,
) -> Result<Item<'a>, TypeFault>
    ensures { Gives item_view
        (free_typing (inputs_view columns.now) (map item_view earlier.now) made alias.now) result }
{
    if has_name(columns, alias) || is_alias(earlier, alias) {
        return Err(TypeFault::AliasTaken);
    }
    let (aggregate, column_type) = made;
    Ok(Item {
        alias,
        aggregate,
        column_type,
    })
}

/// Returns an item after earlier ones.
fn typed_item<'a>(
    columns: &[InputColumn<'_>],
    earlier: &[Item<'_>],
    item: &'a AggregateItem,
) -> Result<Item<'a>, TypeFault>
    ensures { Gives item_view (item_typing (inputs_view columns.now) (map item_view earlier.now)
        (aggregate_item_view item.now)) result }
{
    match item {
        AggregateItem::Column {
            column,
            method,
            alias,
        } => {
            let made = computed_of(columns, column.as_str(), *method)?;
            named(columns, earlier, made, alias.as_str())
        }
        AggregateItem::Count { alias } => {
            let made = (Aggregate::Count, integers(COUNT_SIZE));
            named(columns, earlier, made, alias.as_str())
        }
    }
}

/// Returns the items of `aggregate`.
pub(crate) fn typed_items<'a>(
    alloc: Global,
    columns: &[InputColumn<'_>],
    items: &'a [AggregateItem],
) -> Result<Vec<Item<'a>>, TypeFault>
    ensures { Gives items_view
        (items_typing (inputs_view columns.now) [] (map aggregate_item_view items.now)) result }
{
    let mut made = Vec::with_capacity(alloc, items.len())?;
    for item in items {
        let next = typed_item(columns, &made, item)?;
        made.push(next)?;
    }
    Ok(made)
}

/// Returns an aggregate that keeps its own alias.
fn named_aggregate(alloc: Global, item: &Item<'_>) -> Result<NamedAggregate, AllocError>
    ensures { IfOk result (λ made. named_view made ≡ named_of (item_view item.now)) }
{
    Ok(NamedAggregate {
        alias: String::from_str(alloc, item.alias)?,
        aggregate: item.aggregate,
    })
}

/// Returns the aggregates of items.
pub(crate) fn named_aggregates(
    alloc: Global,
    items: &[Item<'_>],
) -> Result<Vec<NamedAggregate>, AllocError>
    ensures { IfOk result (λ made. aggregates_view made ≡ map named_of (map item_view items.now)) }
{
    let mut made = Vec::with_capacity(alloc, items.len())?;
    for item in items {
        made.push(named_aggregate(alloc, item)?)?;
    }
    Ok(made)
}

/// Adds the columns that items name after others.
pub(crate) fn push_columns<'a>(
    columns: &mut Vec<InputColumn<'a>>,
    items: &[Item<'a>],
) -> Result<(), AllocError>
    ensures { IfOk result (λ _. inputs_view columns.new.items
        ≡ inputs_view columns.old.items ++ map item_column (map item_view items.now)) }
{
    for item in items {
        columns.push(InputColumn {
            name: item.alias,
            column_type: item.column_type,
        })?;
    }
    Ok(())
}
