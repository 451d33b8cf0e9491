//! What is wrong with a member of metadata, told by metadata that is right but for that member.
use crate::line::Line;
use crate::text::MOST_CHARACTERS;
use csvw_meta::{Limits, MetaFault, Schemas};
use serde_json::Value;
use std::alloc::Global;

/// What stands before and after a further member of a group, in metadata of one table with one column. Of members with the same name the last counts: so a member counts if
/// the name stands before it, and not where it stands after it, as those do that hold levels of their own.
pub const IN_GROUP: &(&str, &str) = &(
    "{",
    ",\"tables\":[{\"url\":\"a.csv\",\"tableSchema\":{\"columns\":[{\"name\":\"a\"}]}}]}",
);

/// The same of a member of the table.
pub const IN_TABLE: &(&str, &str) = &(
    "{\"url\":\"a.csv\",",
    ",\"tables\":null,\"tableSchema\":{\"columns\":[{\"name\":\"a\"}]}}",
);

/// The same of a member of its schema.
pub const IN_SCHEMA: &(&str, &str) = &(
    "{\"url\":\"a.csv\",\"tableSchema\":{",
    ",\"primaryKey\":null,\"columns\":[{\"name\":\"a\"}]}}",
);

/// The same of a member of its column.
pub const IN_COLUMN: &(&str, &str) = &(
    "{\"url\":\"a.csv\",\"tableSchema\":{\"columns\":[{\"name\":\"a\",",
    "}]}}",
);

/// Returns what is wrong with a member that stands there, whatever else does.
pub fn member_fault(
    alloc: Global,
    around: &(&str, &str),
    key: &str,
    value: &Value,
) -> Option<MetaFault> {
    // no member that counts has so long a name, which would be cut
    if key.len() > MOST_CHARACTERS {
        return None;
    }
    let mut metadata = Line::new(alloc);
    metadata.push(around.0);
    metadata.push_quoted(key);
    metadata.push(":");
    metadata.push_made(value.to_string(alloc));
    metadata.push(around.1);
    if metadata.is_short {
        return Some(MetaFault::NoMemory);
    }
    Schemas::read(alloc, metadata.text.as_bytes(), &Limits::greatest()).err()
}
