//! From the texts of a query to a typed query.
ghost use Rattle.csvw_meta.specs.Schema.{schema_view};
ghost use Rattle.odata_query.specs.Query.{query_typed_view, query_view};
ghost use Rattle.odata_request.specs.Fault.{Yields};
ghost use Rattle.odata_request.specs.Options.{asked_view};
ghost use Rattle.odata_request.specs.Query.{AsksQuery, ReadsQuery};

use crate::fault::RequestFault;
use crate::options::Texts;
use crate::reading::{
    apply_or_none, flag_or_false, number_or_zero, optional_filter, optional_key, optional_number,
    optional_selection, order_or_none,
};
use csvw_meta::Schema;
use odata_query::{Query, Typed, check};
use std::alloc::Global;

/// Returns the query of these texts, which are read one after another.
fn read_query(alloc: Global, limit: u32, texts: Texts<'_>) -> Result<Query, RequestFault>
    ensures { Yields query_view (ReadsQuery limit (asked_view texts.entry)) result }
{
    let key = optional_key(alloc, texts.key)?;
    let apply = apply_or_none(alloc, limit, texts.apply)?;
    let filter = optional_filter(alloc, texts.filter)?;
    let count = flag_or_false(texts.count)?;
    let order = order_or_none(alloc, texts.order)?;
    let skip = number_or_zero(texts.skip)?;
    let top = optional_number(texts.top)?;
    let select = optional_selection(alloc, texts.select)?;
    Ok(Query {
        key,
        counting: texts.counting,
        apply,
        filter,
        count,
        order,
        skip,
        top,
        select,
    })
}

/// Returns the typed query that texts ask for on the columns of a table; `$apply` has at most `limit` transformations.
pub(crate) fn typed_query(
    alloc: Global,
    limit: u32,
    schema: &Schema,
    texts: Texts<'_>,
) -> Result<Typed, RequestFault>
    ensures { Yields query_typed_view
        (AsksQuery limit (schema_view schema.now) (asked_view texts.entry)) result }
{
    let query = read_query(alloc, limit, texts)?;
    Ok(check(alloc, schema, query)?)
}
