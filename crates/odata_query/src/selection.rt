//! The columns that `$select` asks for (OData 4.01 URL Conventions, section 5.1.4).

ghost use Rattle.std.specs.Prelude.{◌≡◌, IfOk, map, option_map};
ghost use Rattle.std.specs.List.{list_all, list_any};
ghost use Rattle.odata_parse.specs.Tree.{select_item_view, selection_view};
ghost use Rattle.odata_types.specs.Columns.{inputs_view};
ghost use Rattle.odata_types.specs.Result.{Gives};
ghost use Rattle.odata_query.specs.Query.{optional_numbers};
ghost use Rattle.odata_query.specs.Selection.{has_name as has_name_of, is_known as is_known_of, optional_selection_typing, selected_places as selected_places_of, selects as selects_of};

use odata_parse::tree::SelectItem;
use odata_types::{InputColumn, TypeFault};
use std::alloc::{AllocError, Global};

/// Returns true if a column has that name.
pub(crate) fn has_name(columns: &[InputColumn<'_>], name: &str) -> bool
    ensures { result ≡ has_name_of (inputs_view columns.now) name.now }
{
    for column in columns {
        if name == column.name {
            return true;
        }
    }
    false
}

/// Returns true if what an item names is there.
fn is_known(columns: &[InputColumn<'_>], item: &SelectItem) -> bool
    ensures { result ≡ is_known_of (inputs_view columns.now) (select_item_view item.now) }
{
    match item {
        SelectItem::All => true,
        SelectItem::Name(name) => has_name(columns, name.as_str()),
    }
}

/// Returns true if what each item names is there.
fn are_known(columns: &[InputColumn<'_>], items: &[SelectItem]) -> bool
    ensures { result
        ≡ list_all (is_known_of (inputs_view columns.now)) (map select_item_view items.now) }
{
    for item in items {
        if !is_known(columns, item) {
            return false;
        }
    }
    true
}

/// Returns true if an item asks for the column of that name.
fn selects(name: &str, item: &SelectItem) -> bool
    ensures { result ≡ selects_of name.now (select_item_view item.now) }
{
    match item {
        SelectItem::All => true,
        SelectItem::Name(other) => name == other.as_str(),
    }
}

/// Returns true if some item asks for the column of that name.
fn is_selected(name: &str, items: &[SelectItem]) -> bool
    ensures { result ≡ list_any (selects_of name.now) (map select_item_view items.now) }
{
    for item in items {
        if selects(name, item) {
            return true;
        }
    }
    false
}

/// Returns the numbers of the columns that some item asks for.
fn selected_places(
    alloc: Global,
    columns: &[InputColumn<'_>],
    items: &[SelectItem],
) -> Result<Vec<usize>, AllocError>
    ensures { IfOk result (λ places. places.items
        ≡ selected_places_of (inputs_view columns.now) (map select_item_view items.now)) }
{
    let mut places = Vec::new(alloc);
    for (place, column) in columns.iter().enumerate() {
        if is_selected(column.name, items) {
            places.push(place)?;
        }
    }
    Ok(places)
}

/// Returns the numbers of the columns that `$select` asks for, if it is there.
pub(crate) fn optional_selection(
    alloc: Global,
    columns: &[InputColumn<'_>],
    select: &Option<Vec<SelectItem>>,
) -> Result<Option<Vec<usize>>, TypeFault>
    ensures { Gives optional_numbers (optional_selection_typing (inputs_view columns.now)
        (option_map selection_view select.now)) result }
{
    match select {
        Some(items) => {
            if !are_known(columns, items) {
                return Err(TypeFault::UnknownName);
            }
            Ok(Some(selected_places(alloc, columns, items)?))
        }
        None => Ok(None),
    }
}
