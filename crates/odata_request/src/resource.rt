//! What a path leads to.
ghost use Rattle.std.specs.Prelude.{◌≡◌, map, option_map, position, string_bytes, true, false};
ghost use Rattle.std.specs.List.{after_first, before_first, list_any};
ghost use Rattle.std.specs.Option.{MatchOption};
ghost use Rattle.std.specs.Str.{bytes_eq};
ghost use Rattle.odata_url.specs.OptionName.{begins_with, dollar_sign};
ghost use Rattle.odata_request.specs.Resource.{LeadsInside, count, has_parenthesis, in_table, is_count_path, is_parenthesis, key_resource, one_resource, other_resource, path_resource, path_view, segment_resource, table_number, without_end};

use odata_errors::Code;
use table_store::{Catalog, Table};

/// What a path leads to. A table is named by its number in the catalog, counted from 0.
#[derive(Clone, Copy)]
pub enum Resource<'p> {
    /// The service document.
    Service,
    /// The rows of a table.
    Rows(usize),
    /// The number of rows of a table.
    Count(usize),
    /// The row of a table with a key, which is the text between the parentheses.
    Key(usize, &'p str),
}

/// Returns true if a table has that name.
fn is_called(table: &Table, name: &str) -> bool
    ensures { result ≡ bytes_eq table.now.schema.name name.now }
{
    table.name() == name
}

/// Returns the place of the first table of that name.
fn table_place(catalog: &Catalog, name: &str) -> Option<usize>
    ensures { result
        ≡ position (λ table. bytes_eq table.schema.name name.now) catalog.now.tables }
{
    catalog
        .tables()
        .iter()
        .position(|table| is_called(table, name))
}

/// Returns the number of the table of that name.
fn table_number(catalog: &Catalog, name: &str) -> Result<usize, Code>
    ensures { result ≡ table_number catalog.now.tables name.now }
{
    match table_place(catalog, name) {
        Some(number) => Ok(number),
        None => Err(Code::UnknownSet),
    }
}

/// Returns true if a key begins in a segment.
fn has_parenthesis(segment: &str) -> bool
    ensures { result ≡ has_parenthesis segment.now }
{
    segment.as_bytes().iter().any(|byte| *byte == b'(')
}

/// Splits a text at its first `(`: what is before it, and what is after it.
fn key_parts(segment: &str) -> Option<(&str, &str)>
    ensures { MatchOption result (has_parenthesis segment.now ≡ false)
        (λ parts. (has_parenthesis segment.now ≡ true)
        × (parts.0.now ≡ before_first is_parenthesis segment.now)
        × (parts.1.now ≡ after_first is_parenthesis segment.now)) }
{
    segment.split_once('(')
}

/// Returns what stands before a `)` at the end.
fn without_end(text: &str) -> Option<&str>
    ensures { option_map (λ t. t.now) result ≡ without_end text.now }
{
    text.strip_suffix(')')
}

/// Returns what a table's name followed by a key leads to, if the key ended.
fn key_resource<'p>(
    catalog: &Catalog,
    name: &str,
    key: Option<&'p str>,
) -> Result<Resource<'p>, Code>
    ensures { path_view result
        ≡ key_resource catalog.now.tables name.now (option_map (λ t. t.now) key.entry) }
{
    match key {
        Some(text) => Ok(Resource::Key(table_number(catalog, name)?, text)),
        None => Err(Code::NotFound),
    }
}

/// Returns what one segment leads to that is not reserved.
fn segment_resource<'p>(catalog: &Catalog, segment: &'p str) -> Result<Resource<'p>, Code>
    ensures { path_view result ≡ segment_resource catalog.now.tables segment.now }
{
    match key_parts(segment) {
        Some((name, behind)) => key_resource(catalog, name, without_end(behind)),
        None => Ok(Resource::Rows(table_number(catalog, segment)?)),
    }
}

/// Returns true if a segment is reserved: it begins with `$`.
fn is_reserved(segment: &str) -> bool
    ensures { result ≡ begins_with dollar_sign segment.now }
{
    matches!(segment.as_bytes().first(), Some(b'$'))
}

/// Returns true if a segment is reserved among these.
fn has_reserved(segments: &[String]) -> bool
    ensures { result ≡ list_any (begins_with dollar_sign) (map string_bytes segments.now) }
{
    segments.iter().any(|segment| is_reserved(segment.as_str()))
}

/// Returns what a path of other segments leads to: it is refused.
fn other_resource<'p>(segments: &'p [String]) -> Result<Resource<'p>, Code>
    ensures { path_view result ≡ other_resource (map string_bytes segments.now) }
{
    if has_reserved(segments) {
        Err(Code::NotServed)
    } else {
        Err(Code::NotFound)
    }
}

/// Returns true if two segments are a table's name and `$count`.
fn is_count_path(segment: &str, behind: &str) -> bool
    ensures { result ≡ is_count_path segment.now behind.now }
{
    !is_reserved(segment) && !has_parenthesis(segment) && behind == "$count"
}

/// Returns what a path of one segment leads to.
fn one_resource<'p>(catalog: &Catalog, segment: &'p str) -> Result<Resource<'p>, Code>
    ensures { path_view result ≡ one_resource catalog.now.tables segment.now }
{
    if segment.is_empty() {
        Ok(Resource::Service)
    } else if is_reserved(segment) {
        Err(Code::NotServed)
    } else {
        segment_resource(catalog, segment)
    }
}

/// Returns what a table's name followed by `$count` leads to.
fn count_resource<'p>(catalog: &Catalog, name: &'p str) -> Result<Resource<'p>, Code>
    ensures { path_view result ≡ in_table count (table_number catalog.now.tables name.now) }
{
    Ok(Resource::Count(table_number(catalog, name)?))
}

/// Returns what a path leads to, or the code under which it is refused.
fn path_resource<'p>(catalog: &Catalog, segments: &'p [String]) -> Result<Resource<'p>, Code>
    ensures { path_view result ≡ path_resource catalog.now.tables (map string_bytes segments.now) }
{
    let count = segments.len();
    if count == 1 {
        return one_resource(catalog, segments[0].as_str());
    }
    if count == 2 && is_count_path(segments[0].as_str(), segments[1].as_str()) {
        return count_resource(catalog, segments[0].as_str());
    }
    other_resource(segments)
}

/// Returns what a path leads to, or the code under which it is refused.
#[tactic(auto, using(crate::proofs::ResourceLemmas::path_inside))]
pub fn resource_of<'p>(catalog: &Catalog, segments: &'p [String]) -> Result<Resource<'p>, Code>
    ensures resource { path_view result
        ≡ path_resource catalog.now.tables (map string_bytes segments.now) }
    // The number of a table is that of one.
    ensures inside { LeadsInside catalog.now.tables (path_view result) }
{
    path_resource(catalog, segments)
}
