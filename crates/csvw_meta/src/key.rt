//! The key of a schema.
ghost use Rattle.std.specs.Prelude.{◌≡◌, map, option_map, IfOk};
ghost use Rattle.std.specs.List.{list_all, list_any};
ghost use Rattle.std.specs.Str.{bytes_eq};
ghost use Rattle.serde_json.specs.View.{view};
ghost use Rattle.csvw_meta.specs.Key.{text_or_empty as text_in, are_key_names as are_key_names_of, is_key as is_key_of, are_different as are_different_of, column_place as place_in, key_in, key_of};
ghost use Rattle.csvw_meta.specs.Column.{names_a_column as has_name_among};

use crate::column::{has_name, name_of};
use crate::texts::{is_texts, parts};
use serde_json::Value;
use std::alloc::{AllocError, Global};

/// Returns the text of a value, empty if it is no text.
fn text_of(value: &Value) -> &str
    ensures { result.now ≡ text_in (view value.now) }
{
    value.as_str().unwrap_or("")
}

/// Returns true if one of the values is the text.
fn has_text(values: &[Value], text: &str) -> bool
    ensures { result ≡ list_any (λ value. bytes_eq text.now (text_in (view value))) values.now }
{
    values.iter().any(|value| text == text_of(value))
}

/// Returns true if no text stands twice.
fn are_different(values: &[Value]) -> bool
    ensures { result ≡ are_different_of (map text_in (map view values.now)) }
{
    for (i, value) in values.iter().enumerate() {
        if has_text(&values[i + 1..], text_of(value)) {
            return false;
        }
    }
    true
}

/// Returns true if each text is the name of a column.
fn are_names(columns: &[Value], values: &[Value]) -> bool
    ensures { result ≡ list_all (has_name_among (map view columns.now))
        (map text_in (map view values.now)) }
{
    values.iter().all(|value| has_name(columns, text_of(value)))
}

/// Returns true if there is a text, each is the name of a column, and none stands twice.
#[tactic(auto, unfolding(crate::specs::Key::are_key_names))]
fn are_key_names(columns: &[Value], values: &[Value]) -> bool
    ensures { result ≡ are_key_names_of (map view columns.now) (map text_in (map view values.now)) }
{
    if values.is_empty() || !are_names(columns, values) {
        return false;
    }
    are_different(values)
}

/// Returns true if it is a text or an array of texts, which are such names.
pub(crate) fn is_key(columns: &[Value], key: &Value) -> bool
    ensures { result ≡ is_key_of (map view columns.now) (view key.now) }
{
    is_texts(key) && are_key_names(columns, parts(key))
}

/// Returns the place of the first column with that name, or the number of columns if none has it.
fn place_of(columns: &[Value], name: &str) -> usize
    ensures { result ≡ place_in (map view columns.now) name.now }
{
    for (i, column) in columns.iter().enumerate() {
        if name == name_of(column) {
            return i;
        }
    }
    columns.len()
}

/// Returns the places of the columns that a key names.
fn make_places(alloc: Global, columns: &[Value], key: &Value) -> Result<Vec<usize>, AllocError>
    ensures { IfOk result (λ made. made.items ≡ key_in (map view columns.now) (view key.now)) }
{
    let mut places = Vec::new(alloc);
    for name in parts(key) {
        places.push(place_of(columns, text_of(name)))?;
    }
    Ok(places)
}

/// Returns the places of the columns that a key names, none if there is no key.
pub(crate) fn make_key(
    alloc: Global,
    columns: &[Value],
    key: Option<&Value>,
) -> Result<Vec<usize>, AllocError>
    ensures { IfOk result (λ made. made.items
        ≡ key_of (map view columns.now) (option_map (λ v. view v.now) key.entry)) }
{
    match key {
        Some(key) => make_places(alloc, columns, key),
        None => Ok(Vec::new(alloc)),
    }
}
