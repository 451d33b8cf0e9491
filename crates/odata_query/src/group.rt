//! The columns that `groupby` groups by (OData Data Aggregation 4.0, section 3.2.3).

ghost use Rattle.std.specs.Prelude.{◌≡◌, IfOk, map, nat_eq, option_map, slice_get, string_bytes};
ghost use Rattle.std.specs.List.{list_any};
ghost use Rattle.odata_types.specs.Columns.{input_view, inputs_view};
ghost use Rattle.odata_types.specs.Result.{Gives};
ghost use Rattle.odata_query.specs.Apply.{columns_at, grouped_places, place_typing, places_typing};
ghost use Rattle.odata_query.specs.FirstSeen.{first_seen};

use odata_types::{InputColumn, TypeFault, place_of};
use std::alloc::{AllocError, Global};

/// Returns the number of the column with that name.
fn known_place(columns: &[InputColumn<'_>], name: &str) -> Result<usize, TypeFault>
    ensures { Gives (λ place. place) (place_typing (inputs_view columns.now) name.now) result }
{
    let place = place_of(columns, name);
    match columns.get(place) {
        Some(_) => Ok(place),
        None => Err(TypeFault::UnknownName),
    }
}

/// Returns the numbers of the columns with these names.
fn known_places(
    alloc: Global,
    columns: &[InputColumn<'_>],
    names: &[String],
) -> Result<Vec<usize>, TypeFault>
    ensures { Gives (λ places. places.items)
        (places_typing (inputs_view columns.now) (map string_bytes names.now)) result }
{
    let mut places = Vec::with_capacity(alloc, names.len())?;
    for name in names {
        places.push(known_place(columns, name.as_str())?)?;
    }
    Ok(places)
}

/// Returns true if a number is among others.
fn is_among(places: &[usize], place: usize) -> bool
    ensures { result ≡ list_any (λ p. nat_eq p place) places.now }
{
    for other in places {
        if *other == place {
            return true;
        }
    }
    false
}

/// Returns each number at its first place.
fn first_places(alloc: Global, places: &[usize]) -> Result<Vec<usize>, AllocError>
    ensures { IfOk result (λ made. made.items ≡ first_seen nat_eq places.now) }
{
    let mut made = Vec::with_capacity(alloc, places.len())?;
    for place in places {
        if !is_among(&made, *place) {
            made.push(*place)?;
        }
    }
    Ok(made)
}

/// Returns the numbers of the columns with these names, a repeated one at its first place.
pub(crate) fn group_places(
    alloc: Global,
    columns: &[InputColumn<'_>],
    names: &[String],
) -> Result<Vec<usize>, TypeFault>
    ensures { Gives (λ places. places.items)
        (grouped_places (inputs_view columns.now) (map string_bytes names.now)) result }
{
    let places = known_places(alloc, columns, names)?;
    Ok(first_places(alloc, &places)?)
}

/// Returns the column with that number.
pub(crate) fn column_at<'a>(columns: &[InputColumn<'a>], place: usize) -> Option<InputColumn<'a>>
    ensures { option_map input_view result ≡ slice_get (inputs_view columns.now) place }
{
    match columns.get(place) {
        Some(column) => Some(*column),
        None => None,
    }
}

/// Returns the columns with these numbers.
pub(crate) fn columns_of<'a>(
    alloc: Global,
    columns: &[InputColumn<'a>],
    places: &[usize],
) -> Result<Vec<InputColumn<'a>>, AllocError>
    ensures { IfOk result
        (λ made. inputs_view made.items ≡ columns_at (inputs_view columns.now) places.now) }
{
    let mut made = Vec::with_capacity(alloc, places.len())?;
    for place in places {
        if let Some(column) = column_at(columns, *place) {
            made.push(column)?;
        }
    }
    Ok(made)
}
