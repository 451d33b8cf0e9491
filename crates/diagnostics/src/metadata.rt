//! All that is refused of a metadata text, with its path there.
use crate::accepted::accepted_metadata;
use crate::help::{METADATA, push_help};
use crate::json::{array_member, is_among, is_key, member};
use crate::line::Line;
use crate::probe::{IN_COLUMN, IN_GROUP, IN_SCHEMA, IN_TABLE, member_fault};
use crate::report::Report;
use crate::text::cut;
use csv_grammar::mark_len;
use csvw_meta::{MOST_COLUMNS, MOST_TABLES, MetaFault};
use serde_json::Value;
use table_store::LoadFault;

/// What is looked at: the number of its table if that is one of a group, whether it is a schema or of one, and the number of its column if it is that.
#[derive(Clone, Copy)]
struct Place {
    table: Option<usize>,
    in_schema: bool,
    column: Option<usize>,
}

/// Appends what stands in a path before the members of an item of an array, if it is one.
fn push_item(line: &mut Line, array: &str, number: Option<usize>) {
    if let Some(i) = number {
        line.push_with(array, i);
        line.push("].");
    }
}

/// Appends the path of a member, or of what is looked at if the key is empty.
fn push_path(line: &mut Line, place: Place, key: &str) {
    let key = match place {
        Place {
            table: None,
            in_schema: false,
            ..
        } if key.is_empty() => "all of it",
        _ => key,
    };
    push_item(line, "tables[", place.table);
    if place.in_schema {
        line.push("tableSchema.");
    }
    push_item(line, "columns[", place.column);
    line.push(key);
    if key.is_empty() {
        line.text.pop(); // the point before no key
    }
}

/// Refuses a member of what is looked at, or all of it if the key is empty.
fn refuse(report: &mut Report, place: Place, fault: MetaFault, key: &str, value: &Value) {
    let alloc = report.alloc;
    let accepted = accepted_metadata(&fault);
    let mut line = report.begin(LoadFault::Meta(fault));
    push_path(&mut line, place, key);
    line.push(": ");
    match value.to_string(alloc) {
        Ok(json) => line.push_made(cut(alloc, json.as_str())),
        Err(_) => line.is_short = true,
    }
    report.put_accepted(line, accepted);
}

/// Refuses all of what is looked at.
fn refuse_all(report: &mut Report, place: Place, fault: MetaFault, value: &Value) {
    refuse(report, place, fault, "", value);
}

/// Reports the members of a level, each by itself as one that stands there.
fn members(report: &mut Report, place: Place, around: &(&str, &str), value: &Value) {
    let Some(members) = value.as_object() else {
        return;
    };
    for (key, member) in members {
        let key = key.as_str();
        if let Some(fault) = member_fault(report.alloc, around, key, member) {
            refuse(report, place, fault, key, member);
        }
    }
}

/// Reports a column after the earlier ones.
fn column(report: &mut Report, place: Place, earlier: &[Value], value: &Value) {
    if !value.is_object() {
        return refuse_all(report, place, MetaFault::NotObject, value);
    }
    let key = "name";
    let Some(name) = member(value, key) else {
        let key = report.owned(key);
        refuse_all(report, place, MetaFault::Unsupported { key }, value);
        return members(report, place, IN_COLUMN, value);
    };
    members(report, place, IN_COLUMN, value);
    if is_among(earlier, key, name) {
        refuse(report, place, MetaFault::DuplicateName, key, name);
    }
}

/// Reports the schema of a table, or of a group.
fn schema(report: &mut Report, table: Option<usize>, value: &Value) {
    let place = Place {
        table,
        in_schema: true,
        column: None,
    };
    if value.is_string() {
        let key = report.owned("tableSchema");
        return refuse_all(report, place, MetaFault::Unsupported { key }, value);
    }
    members(report, place, IN_SCHEMA, value);
    let columns = array_member(value, "columns");
    if columns.is_empty() {
        return refuse_all(report, place, MetaFault::NoColumns, value);
    }
    if columns.len() > MOST_COLUMNS as usize {
        refuse(report, place, MetaFault::TooManyColumns, "columns", value);
    }
    for (i, item) in columns.iter().enumerate() {
        let place = Place {
            table,
            in_schema: true,
            column: Some(i),
        };
        column(report, place, &columns[..i], item);
    }
    if let Some(key) = member(value, "primaryKey")
        && !is_key(columns, key)
    {
        refuse(report, place, MetaFault::BadKey, "primaryKey", key);
    }
}

/// Reports a table after the earlier ones of its group, with the schema of the group if that has one; or one that stands alone.
fn table(
    report: &mut Report,
    number: Option<usize>,
    shared: Option<&Value>,
    earlier: &[Value],
    value: &Value,
) {
    let place = Place {
        table: number,
        in_schema: false,
        column: None,
    };
    if !value.is_object() {
        return refuse_all(report, place, MetaFault::NotObject, value);
    }
    let key = "url";
    match member(value, key) {
        Some(url) => {
            if is_among(earlier, key, url) {
                refuse(report, place, MetaFault::DuplicateUrl, key, url);
            }
        }
        None => match number {
            Some(_) => refuse_all(report, place, MetaFault::BadUrl, value),
            None => return refuse_all(report, place, MetaFault::NoTables, value),
        },
    }
    members(report, place, IN_TABLE, value);
    match member(value, "tableSchema") {
        Some(own) => schema(report, number, own),
        None => match shared {
            Some(_) => {}
            None => refuse_all(report, place, MetaFault::NoColumns, value),
        },
    }
}

/// Returns true if some of the tables have no schema of their own.
fn lack_schema(tables: &[Value]) -> bool {
    for table in tables {
        if table.is_object()
            && let None = member(table, "tableSchema")
        {
            return true;
        }
    }
    false
}

/// Reports a group of tables.
fn group(report: &mut Report, value: &Value) {
    let place = Place {
        table: None,
        in_schema: false,
        column: None,
    };
    let key = "tables";
    let tables = array_member(value, key);
    if tables.is_empty() {
        return refuse(report, place, MetaFault::NoTables, key, value);
    }
    if tables.len() > MOST_TABLES as usize {
        refuse(report, place, MetaFault::TooManyTables, key, value);
    }
    members(report, place, IN_GROUP, value);
    let shared = member(value, "tableSchema");
    if let Some(shared) = shared
        && lack_schema(tables)
    {
        schema(report, None, shared);
    }
    for (i, item) in tables.iter().enumerate() {
        table(report, Some(i), shared, &tables[..i], item);
    }
}

/// Reports metadata.
fn metadata(report: &mut Report, value: &Value) {
    match member(value, "tables") {
        Some(_) => group(report, value),
        None => table(report, None, None, &[], value),
    }
}

/// Adds the refusal of a text that is no JSON text, with the place where it ends to be one; or memory ran out.
fn refuse_no_json(report: &mut Report, error: &serde_json::Error) {
    if error.is_memory() {
        report.is_short = true;
    }
    let mut line = report.begin(LoadFault::Meta(MetaFault::NotJson));
    line.push_place(error.line(), error.column());
    report.put_accepted(line, accepted_metadata(&MetaFault::NotJson));
}

/// Adds all that is refused of a metadata text, each with its path there, its value, and what would be accepted; and what helps.
pub fn refuse_metadata(report: &mut Report, bytes: &[u8]) {
    push_help(&mut report.helps, "csv-metadata.json", METADATA);
    match Value::from_slice(report.alloc, &bytes[mark_len(bytes)..]) {
        Ok(value) => metadata(report, &value),
        Err(error) => refuse_no_json(report, &error),
    }
}
