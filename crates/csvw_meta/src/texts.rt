//! A text, an array of texts, and a language map of such.
ghost use Rattle.std.specs.Prelude.{◌≡◌, ◌++◌, map, option_map, IfOk, OnOk, string_bytes};
ghost use Rattle.std.specs.List.{list_all, flat_map};
ghost use Rattle.std.specs.BTreeMap.{values};
ghost use Rattle.serde_json.specs.View.{view, members_view};
ghost use Rattle.csvw_meta.specs.Texts.{values_or_one as parts_of, is_texts as is_texts_of, texts_in, is_language_value as is_language_value_of, is_titles as is_titles_of, member_values, titles_of};

use serde_json::{Map, Value};
use std::alloc::{AllocError, Global};

/// Returns the values of an array, or the one value.
pub(crate) fn parts(value: &Value) -> &[Value]
    ensures { map view result.now ≡ parts_of (view value.now) }
{
    match value.as_array() {
        Some(values) => values.as_slice(),
        None => std::slice::from_ref(value),
    }
}

/// Returns true if it is a text, or an array of texts.
pub(crate) fn is_texts(value: &Value) -> bool
    ensures { result ≡ is_texts_of (view value.now) }
{
    parts(value).iter().all(|part| part.is_string())
}

/// Returns true if it is null, or a text or an array of texts.
fn is_language_value(value: &Value) -> bool
    ensures { result ≡ is_language_value_of (view value.now) }
{
    value.is_null() || is_texts(value)
}

/// Returns true if each member is null, or a text or an array of texts.
fn are_language_values(members: &Map<String, Value>) -> bool
    ensures { result ≡ list_all (λ v. is_language_value_of (view v)) (values members.now) }
{
    members.values().all(|value| is_language_value(value))
}

/// Returns true if it is a text, an array of texts, or a language map, in which members that are null count as absent.
pub(crate) fn is_titles(value: &Value) -> bool
    ensures { result ≡ is_titles_of (view value.now) }
{
    match value.as_object() {
        Some(members) => are_language_values(members),
        None => is_texts(value),
    }
}

/// Adds copies of the texts of a value.
fn push_texts(alloc: Global, texts: &mut Vec<String>, value: &Value) -> Result<(), AllocError>
    ensures { OnOk result (map string_bytes texts.new.items ≡ map string_bytes texts.old.items
        ++ texts_in (view value.now)) }
{
    for part in parts(value) {
        if let Some(text) = part.as_str() {
            texts.push(String::from_str(alloc, text)?)?;
        }
    }
    Ok(())
}

/// Copies of the texts of a value.
pub(crate) fn make_texts(alloc: Global, value: &Value) -> Result<Vec<String>, AllocError>
    ensures { IfOk result (λ made. map string_bytes made.items ≡ texts_in (view value.now)) }
{
    let mut texts = Vec::new(alloc);
    push_texts(alloc, &mut texts, value)?;
    Ok(texts)
}

/// Copies of all texts of a language map.
fn make_language_texts(
    alloc: Global,
    members: &Map<String, Value>,
) -> Result<Vec<String>, AllocError>
    ensures { IfOk result (λ made. map string_bytes made.items
        ≡ flat_map texts_in (member_values (members_view members.now.entries))) }
{
    let mut texts = Vec::new(alloc);
    for value in members.values() {
        push_texts(alloc, &mut texts, value)?;
    }
    Ok(texts)
}

/// Copies of all titles, none if there are none.
pub(crate) fn make_titles(alloc: Global, titles: Option<&Value>) -> Result<Vec<String>, AllocError>
    ensures { IfOk result (λ made. map string_bytes made.items
        ≡ titles_of (option_map (λ v. view v.now) titles.entry)) }
{
    match titles {
        Some(titles) => match titles.as_object() {
            Some(members) => make_language_texts(alloc, members),
            None => make_texts(alloc, titles),
        },
        None => Ok(Vec::new(alloc)),
    }
}
