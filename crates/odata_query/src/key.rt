//! Keys in a path (OData 4.01 URL Conventions, section 4.3.1).

ghost use Rattle.std.specs.Prelude.{◌≡◌, map, option_map};
ghost use Rattle.cell_types.specs.Value.{value_view};
ghost use Rattle.odata_parse.specs.Tree.{key_view, key_pair_view, literal_view};
ghost use Rattle.odata_types.specs.Columns.{inputs_view};
ghost use Rattle.odata_types.specs.Result.{Gives};
ghost use Rattle.odata_query.specs.Key.{value_in_place as column_value_of, key_typing, single_values, named_value as named_value_of, named_values as named_values_of, optional_key_typing, value_of_type, value_under as value_under_name};
ghost use Rattle.odata_query.specs.Query.{optional_values, values_view};

use crate::group::column_at;
use cell_types::Value;
use odata_parse::tree::{Key, KeyPair, Literal};
use odata_types::{ColumnType, InputColumn, TypeFault, key_value};
use std::alloc::Global;

/// Returns the value of a literal in the key's column with that number.
fn column_value(
    alloc: Global,
    columns: &[InputColumn<'_>],
    place: usize,
    literal: &Literal,
) -> Result<Value<'static>, TypeFault>
    ensures { Gives value_view
        (column_value_of (inputs_view columns.now) place (literal_view literal.now)) result }
{
    match column_at(columns, place) {
        Some(column) => key_value(alloc, column.column_type.kind, literal),
        None => Err(TypeFault::BadKey),
    }
}

/// Returns the value under a name.
fn value_under<'p>(pairs: &'p [KeyPair], name: &str) -> Option<&'p Literal>
    ensures { option_map (λ v. literal_view v.now) result
        ≡ value_under_name (map key_pair_view pairs.now) name.now }
{
    for pair in pairs {
        if name == pair.name.as_str() {
            return Some(&pair.value);
        }
    }
    None
}

/// Returns the value of a literal that was found in a key's column of a type.
fn found_value(
    alloc: Global,
    column_type: ColumnType,
    found: Option<&Literal>,
) -> Result<Value<'static>, TypeFault>
    ensures { Gives value_view
        (value_of_type column_type (option_map (λ v. literal_view v.now) found.entry)) result }
{
    match found {
        Some(literal) => key_value(alloc, column_type.kind, literal),
        None => Err(TypeFault::BadKey),
    }
}

/// Returns the value under the name of the key's column with that number.
fn named_value(
    alloc: Global,
    columns: &[InputColumn<'_>],
    pairs: &[KeyPair],
    place: usize,
) -> Result<Value<'static>, TypeFault>
    ensures { Gives value_view
        (named_value_of (inputs_view columns.now) (map key_pair_view pairs.now) place) result }
{
    match column_at(columns, place) {
        Some(column) => {
            let found = value_under(pairs, column.name);
            found_value(alloc, column.column_type, found)
        }
        None => Err(TypeFault::BadKey),
    }
}

/// Returns the values under the names of the key's columns.
fn named_values(
    alloc: Global,
    columns: &[InputColumn<'_>],
    pairs: &[KeyPair],
    places: &[usize],
) -> Result<Vec<Value<'static>>, TypeFault>
    ensures { Gives values_view (named_values_of (inputs_view columns.now)
        (map key_pair_view pairs.now) places.now) result }
{
    let mut values = Vec::with_capacity(alloc, places.len())?;
    for place in places {
        values.push(named_value(alloc, columns, pairs, *place)?)?;
    }
    Ok(values)
}

/// Returns the value of a key of one column.
fn single_value(
    alloc: Global,
    columns: &[InputColumn<'_>],
    place: usize,
    literal: &Literal,
) -> Result<Vec<Value<'static>>, TypeFault>
    ensures { Gives values_view
        (single_values (inputs_view columns.now) place (literal_view literal.now)) result }
{
    let value = column_value(alloc, columns, place, literal)?;
    let mut values = Vec::with_capacity(alloc, 1)?;
    values.push(value)?;
    Ok(values)
}

/// Returns the values of a key, in the order of the columns of the table's key.
fn key_values(
    alloc: Global,
    columns: &[InputColumn<'_>],
    places: &[usize],
    key: &Key,
) -> Result<Vec<Value<'static>>, TypeFault>
    ensures { Gives values_view (key_typing (inputs_view columns.now) places.now (key_view key.now))
        result }
{
    match (key, places) {
        (_, []) => Err(TypeFault::BadKey),
        (Key::Single(literal), [place]) => single_value(alloc, columns, *place, literal),
        (Key::Named(pairs), _) if pairs.len() == places.len() => {
            named_values(alloc, columns, pairs.as_slice(), places)
        }
        _ => Err(TypeFault::BadKey),
    }
}

/// Returns the values of a key if there is one.
pub(crate) fn optional_key(
    alloc: Global,
    columns: &[InputColumn<'_>],
    places: &[usize],
    key: &Option<Key>,
) -> Result<Option<Vec<Value<'static>>>, TypeFault>
    ensures { Gives optional_values (optional_key_typing (inputs_view columns.now) places.now
        (option_map key_view key.now)) result }
{
    match key {
        Some(key) => Ok(Some(key_values(alloc, columns, places, key)?)),
        None => Ok(None),
    }
}
