//! Metadata with the tables and the columns that it does not have yet.
use crate::splice::{Items, Spliced, member_at};
use cell_types::Column;
use csvw_meta::Schema;
use metadata_text::{column_json, table_json};
use schema_inference::next_name;
use std::alloc::{AllocError, Global};
use std::mem::replace;

/// What is before a table of a group, and before a column of a schema.
const TABLE_BREAK: &[u8] = b"\n    ";

const COLUMN_BREAK: &[u8] = b"\n          ";

/// What is put before and after a table, so that it is one of a group.
const BEFORE_GROUP: &[u8] = b"{\"@context\": \"http://www.w3.org/ns/csvw\", \"tables\": [\n";

const AFTER_GROUP: &[u8] = b"\n]}";

/// Returns the offset after the last brace of a text.
fn end_of(json: &[u8]) -> usize {
    match json.iter().rposition(|byte| *byte == b'}') {
        Some(last) => last.saturating_add(1),
        None => json.len(),
    }
}

/// Returns true if a column may have the header of another.
fn is_called(column: &Column, other: &Column) -> bool {
    let header = match other.titles.first() {
        Some(title) => title.as_str(),
        None => other.name.as_str(),
    };
    for title in &column.titles {
        if title.as_str() == header {
            return true;
        }
    }
    column.name.as_str() == header
}

/// Gives a drafted column another name if a column of a schema has its name, which is its header then.
fn rename(alloc: Global, schema: &Schema, column: &mut Column) -> Result<(), AllocError> {
    let name = next_name(alloc, schema.columns.as_slice(), column.name.as_str())?;
    if name.as_str() == column.name.as_str() {
        return Ok(());
    }
    let header = replace(&mut column.name, name);
    if column.titles.is_empty() {
        column.titles.push(header)?;
    }
    Ok(())
}

/// Adds a drafted column after the one that ends at an offset, or else before the first of those that are there.
fn add_column(out: &mut Spliced<'_>, columns: usize, after: Option<usize>, column: &Column) {
    let made = column_json(out.alloc, column);
    if let Some(end) = after {
        out.copy_to(end);
        out.push(b",");
        out.push(COLUMN_BREAK);
        out.push_made(made, COLUMN_BREAK);
    } else if let Some((start, _)) = Items::of(out.json, columns).next_item() {
        out.copy_to(start);
        out.push_made(made, COLUMN_BREAK);
        out.push(b",");
        out.push(COLUMN_BREAK);
    }
}

/// Returns the offset of the columns of the table that begins at an offset.
fn columns_at(json: &[u8], table: usize) -> Option<usize> {
    let schema = member_at(json, table, b"\"tableSchema\"")?;
    member_at(json, schema, b"\"columns\"")
}

/// Returns the place of the first column from one on that may have the header of another.
fn place_of(columns: &[Column], next: usize, column: &Column) -> Option<usize> {
    for place in next..columns.len() {
        if is_called(&columns[place], column) {
            return Some(place);
        }
    }
    None
}

/// Adds the columns of a drafted schema that the schema of a table does not have, if the header of the file has them.
fn add_columns(out: &mut Spliced<'_>, table: usize, schema: &Schema, drafted: &mut Schema) {
    let Some(columns) = columns_at(out.json, table) else {
        return;
    };
    let mut items = Items::of(out.json, columns);
    let mut after = None;
    let mut next: usize = 0;
    for column in &mut drafted.columns {
        match place_of(schema.columns.as_slice(), next, column) {
            Some(place) => {
                for _passed in next..=place {
                    after = match items.next_item() {
                        Some((_, end)) => Some(end),
                        None => None,
                    };
                }
                next = place.saturating_add(1);
            }
            None => {
                out.is_short |= rename(out.alloc, schema, column).is_err();
                add_column(out, columns, after, column);
            }
        }
    }
}

/// Adds the columns that the table which begins at an offset does not have yet.
fn add_to_table(out: &mut Spliced<'_>, table: usize, schema: &Schema, drafted: &mut [Schema]) {
    for draft in drafted {
        if draft.url == schema.url {
            add_columns(out, table, schema, draft);
        }
    }
}

/// Returns true if no schema is of the file of a drafted one.
fn lacks(schemas: &[Schema], draft: &Schema) -> bool {
    for schema in schemas {
        if schema.url == draft.url {
            return false;
        }
    }
    true
}

/// Adds the tables that the metadata does not have yet at an offset.
fn add_tables(out: &mut Spliced<'_>, at: usize, schemas: &[Schema], drafted: &[Schema]) {
    out.copy_to(at);
    for draft in drafted {
        if lacks(schemas, draft) {
            out.push(b",");
            out.push(TABLE_BREAK);
            out.push_made(table_json(out.alloc, draft), TABLE_BREAK);
        }
    }
}

/// Adds what the metadata of a group, whose tables begin at an offset, does not have yet.
fn add_to_group(out: &mut Spliced<'_>, tables: usize, schemas: &[Schema], drafted: &mut [Schema]) {
    let mut items = Items::of(out.json, tables);
    let mut last = None;
    for schema in schemas {
        if let Some((start, end)) = items.next_item() {
            add_to_table(out, start, schema, &mut *drafted);
            last = Some(end);
        }
    }
    if let Some(end) = last {
        add_tables(out, end, schemas, drafted);
    }
}

/// Adds what the metadata of one table, which begins at an offset, does not have yet. If that is another table, it becomes that of a group.
fn add_to_one(out: &mut Spliced<'_>, open: usize, schemas: &[Schema], drafted: &mut [Schema]) {
    let mut is_group = false;
    for draft in &*drafted {
        is_group |= lacks(schemas, draft);
    }
    if is_group {
        out.copy_to(open);
        out.push(BEFORE_GROUP);
    }
    if let Some(schema) = schemas.first() {
        add_to_table(out, open, schema, &mut *drafted);
    }
    if is_group {
        add_tables(out, end_of(out.json), schemas, drafted);
        out.push(AFTER_GROUP);
    }
}

/// Returns metadata that is JSON and says the schemas, with the tables and columns of the drafted ones that it does not have yet: all else of it stays. Metadata of
/// one table becomes that of a group.
pub fn added_text(
    alloc: Global,
    json: &[u8],
    schemas: &[Schema],
    drafted: &mut [Schema],
) -> Result<Vec<u8>, AllocError> {
    let mut out = Spliced::of(alloc, json);
    let open = json.iter().position(|byte| *byte == b'{').unwrap_or(0);
    match member_at(json, open, b"\"tables\"") {
        Some(tables) => add_to_group(&mut out, tables, schemas, drafted),
        None => add_to_one(&mut out, open, schemas, drafted),
    }
    out.finish()
}
