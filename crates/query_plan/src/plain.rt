//! Items of `$orderby` that are columns alone.
ghost use Rattle.std.specs.Prelude.{◌≡◌, map};
ghost use Rattle.odata_query.specs.Query.{order_view};
ghost use Rattle.query_meaning.specs.Order.{are_plain};

use odata_query::OrderBy;
use typed_trees::plain_column;

/// Returns true if each item is a column alone.
pub fn are_plain(items: &[OrderBy]) -> bool
    ensures { result ≡ are_plain (map order_view items.now) }
{
    for item in items {
        if plain_column(&item.expression).is_none() {
            return false;
        }
    }
    true
}
