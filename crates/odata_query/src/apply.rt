//! The transformations of `$apply` in turn (OData Data Aggregation 4.0, section 3).

ghost use Rattle.std.specs.Prelude.{map, string_bytes};
ghost use Rattle.odata_parse.specs.Tree.{aggregate, aggregate_item_view, aggregate_view, group_by, transformation_view};
ghost use Rattle.odata_types.specs.Columns.{inputs_view};
ghost use Rattle.odata_types.specs.Result.{Gives};
ghost use Rattle.odata_query.specs.Aggregate.{items_view};
ghost use Rattle.odata_query.specs.Apply.{apply_typing, optional_items, transformation_typing};
ghost use Rattle.odata_query.specs.Query.{applied_view, transformed_view};

use crate::aggregate::TypedTransformation;
use crate::group::{columns_of, group_places};
use crate::item::{Item, named_aggregates, push_columns, typed_items};
use odata_parse::tree::{AggregateItem, Transformation};
use odata_types::{InputColumn, TypeFault, typed_filter};
use std::alloc::Global;

/// Returns the items of `aggregate`, if it is there.
fn optional_items<'a>(
    alloc: Global,
    columns: &[InputColumn<'_>],
    items: &'a Option<Vec<AggregateItem>>,
) -> Result<Vec<Item<'a>>, TypeFault>
    ensures { Gives items_view (optional_items (inputs_view columns.now) (aggregate_view items.now))
        result }
{
    match items {
        Some(items) => typed_items(alloc, columns, items.as_slice()),
        None => Ok(Vec::new(alloc)),
    }
}

/// Returns one row of aggregates, and its columns.
fn aggregated<'a>(
    alloc: Global,
    columns: &[InputColumn<'a>],
    items: &'a [AggregateItem],
) -> Result<(TypedTransformation, Vec<InputColumn<'a>>), TypeFault>
    ensures { Gives transformed_view (transformation_typing (inputs_view columns.now)
        (aggregate (map aggregate_item_view items.now))) result }
{
    let items = typed_items(alloc, columns, items)?;
    let mut made = Vec::with_capacity(alloc, items.len())?;
    push_columns(&mut made, &items)?;
    let aggregates = named_aggregates(alloc, &items)?;
    Ok((TypedTransformation::Aggregate(aggregates), made))
}

/// Groups, and their columns.
fn grouped<'a>(
    alloc: Global,
    columns: &[InputColumn<'a>],
    names: &[String],
    items: &'a Option<Vec<AggregateItem>>,
) -> Result<(TypedTransformation, Vec<InputColumn<'a>>), TypeFault>
    ensures { Gives transformed_view
        (transformation_typing (inputs_view columns.now)
        (group_by (map string_bytes names.now) (aggregate_view items.now))) result }
{
    let places = group_places(alloc, columns, names)?;
    let items = optional_items(alloc, columns, items)?;
    let mut made = columns_of(alloc, columns, &places)?;
    push_columns(&mut made, &items)?;
    let aggregates = named_aggregates(alloc, &items)?;
    Ok((TypedTransformation::GroupBy(places, aggregates), made))
}

/// Returns a transformation, and the columns of its result.
fn transformed<'a>(
    alloc: Global,
    columns: Vec<InputColumn<'a>>,
    transformation: &'a Transformation,
) -> Result<(TypedTransformation, Vec<InputColumn<'a>>), TypeFault>
    ensures { Gives transformed_view (transformation_typing (inputs_view columns.entry.items)
        (transformation_view transformation.now)) result }
{
    match transformation {
        Transformation::Filter(condition) => {
            let condition = typed_filter(alloc, &columns, condition)?;
            Ok((TypedTransformation::Filter(condition), columns))
        }
        Transformation::Aggregate(items) => aggregated(alloc, &columns, items.as_slice()),
        Transformation::GroupBy { names, aggregate } => {
            grouped(alloc, &columns, names.as_slice(), aggregate)
        }
    }
}

/// Returns the transformations, each on the result of those before it, and the columns of the last result.
pub(crate) fn applied<'a>(
    alloc: Global,
    columns: Vec<InputColumn<'a>>,
    transformations: &'a [Transformation],
) -> Result<(Vec<TypedTransformation>, Vec<InputColumn<'a>>), TypeFault>
    ensures { Gives applied_view (apply_typing (inputs_view columns.entry.items)
        (map transformation_view transformations.now)) result }
{
    let mut columns = columns;
    let mut made = Vec::with_capacity(alloc, transformations.len())?;
    for transformation in transformations {
        let (next, result) = transformed(alloc, columns, transformation)?;
        made.push(next)?;
        columns = result;
    }
    Ok((made, columns))
}
