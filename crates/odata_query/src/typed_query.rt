//! Queries with their types.

ghost use Rattle.csvw_meta.specs.Schema.{schema_view};
ghost use Rattle.odata_types.specs.Result.{Gives};
ghost use Rattle.odata_query.specs.Query.{query_typed_view, query_typing, query_view};

use crate::apply::applied;
use crate::key::optional_key;
use crate::option::{optional_filter, order_items};
use crate::query::{Query, Typed};
use crate::selection::optional_selection;
use csvw_meta::Schema;
use odata_types::{TypeFault, schema_columns};
use std::alloc::Global;

/// Returns the query with its types; or the first cause why it does not fit the table: of the key, then of the transformations of `$apply` in turn, then of
/// `$filter`, of the items of `$orderby` and of the names of `$select` on the columns of the result of `$apply`.
pub fn check(alloc: Global, schema: &Schema, query: Query) -> Result<Typed, TypeFault>
    ensures { Gives query_typed_view (query_typing (schema_view schema.now) (query_view query))
        result }
{
    let columns = schema_columns(alloc, schema)?;
    let key = optional_key(alloc, &columns, &schema.key, &query.key)?;
    let (apply, columns) = applied(alloc, columns, &query.apply)?;
    let filter = optional_filter(alloc, &columns, &query.filter)?;
    let order = order_items(alloc, &columns, &query.order)?;
    let select = optional_selection(alloc, &columns, &query.select)?;
    Ok(Typed {
        key,
        counting: query.counting,
        apply,
        filter,
        count: query.count,
        order,
        skip: query.skip,
        top: query.top,
        select,
    })
}
