//! `$filter` and `$orderby` (OData 4.01 URL Conventions, sections 5.1.2 and 5.1.5).

ghost use Rattle.std.specs.Prelude.{map, option_map};
ghost use Rattle.odata_parse.specs.Tree.{expr_view, order_item_view};
ghost use Rattle.odata_types.specs.Columns.{inputs_view};
ghost use Rattle.odata_types.specs.Result.{Gives};
ghost use Rattle.typed_trees.specs.TypedTree.{boxed_truth};
ghost use Rattle.odata_query.specs.Query.{item_typing, optional_typing, order_typing, order_view};

use crate::query::OrderBy;
use odata_parse::tree::{Expr, OrderItem};
use odata_types::{InputColumn, TypeFault, typed_expr, typed_filter};
use std::alloc::Global;
use typed_trees::TruthExpr;

/// Returns the filter, if there is one.
pub(crate) fn optional_filter(
    alloc: Global,
    columns: &[InputColumn<'_>],
    filter: &Option<Expr>,
) -> Result<Option<Box<TruthExpr>>, TypeFault>
    ensures { Gives (λ t. option_map boxed_truth t)
        (optional_typing (inputs_view columns.now) (option_map expr_view filter.now)) result }
{
    match filter {
        Some(filter) => Ok(Some(typed_filter(alloc, columns, filter)?)),
        None => Ok(None),
    }
}

/// Returns an item of `$orderby`.
fn order_by(
    alloc: Global,
    columns: &[InputColumn<'_>],
    item: &OrderItem,
) -> Result<OrderBy, TypeFault>
    ensures { Gives order_view (item_typing (inputs_view columns.now) (order_item_view item.now))
        result }
{
    Ok(OrderBy {
        expression: typed_expr(alloc, columns, &item.expression)?,
        descending: item.descending,
    })
}

/// Returns the items of `$orderby`.
pub(crate) fn order_items(
    alloc: Global,
    columns: &[InputColumn<'_>],
    items: &[OrderItem],
) -> Result<Vec<OrderBy>, TypeFault>
    ensures { Gives (λ made. map order_view made.items)
        (order_typing (inputs_view columns.now) (map order_item_view items.now)) result }
{
    let mut order = Vec::with_capacity(alloc, items.len())?;
    for item in items {
        order.push(order_by(alloc, columns, item)?)?;
    }
    Ok(order)
}
