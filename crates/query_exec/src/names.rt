//! The names of the columns of aggregates.
ghost use Rattle.std.specs.Prelude.{◌≡◌, ◌<◌, IfOk, IfSome, length, map, string_bytes};
ghost use Rattle.std.specs.List.{All};
ghost use Rattle.odata_query.specs.Aggregate.{named_view};
ghost use Rattle.query_plan.specs.Plan.{node_names};
ghost use Rattle.aggregate_rows.specs.Gathered.{lent_places};
ghost use Rattle.query_exec.specs.Steps.{aggregate_node};

use odata_query::NamedAggregate;
use result_rows::picked_names;
use std::alloc::{AllocError, Global};

/// Returns the names of the columns that rows are grouped by, if so, and after them the aliases of aggregates.
pub(crate) fn aggregate_names(
    alloc: Global,
    names: &[String],
    places: Option<&[usize]>,
    aggregates: &[NamedAggregate],
) -> Result<Vec<String>, AllocError>
    requires { IfSome places (λ places. All (λ place. place < length names.now) places.now) }
    ensures { IfOk result (λ made. map string_bytes made.items
        ≡ node_names (aggregate_node (lent_places places.entry) (map named_view aggregates.now))
        (map string_bytes names.now)) }
{
    let mut made = match places {
        Some(places) => picked_names(alloc, names, places)?,
        None => Vec::new(alloc),
    };
    for named in aggregates {
        made.push(named.alias.clone()?)?;
    }
    Ok(made)
}
