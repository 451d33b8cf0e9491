//! Members of JSON values.
use serde_json::Value;
use std::slice::from_ref;

/// Returns the value of a member if there is one that is not null.
pub fn member<'v>(value: &'v Value, name: &str) -> Option<&'v Value> {
    match value.get(name) {
        Some(Value::Null) => None,
        found => found,
    }
}

/// Returns the values of a member, none if it is no array.
pub fn array_member<'v>(value: &'v Value, name: &str) -> &'v [Value] {
    let Some(Value::Array(items)) = value.get(name) else {
        return &[];
    };
    items.as_slice()
}

/// Returns true if it is a text that one of the objects has as a member.
pub fn is_among(objects: &[Value], name: &str, text: &Value) -> bool {
    for object in objects {
        if let Some(found) = object.get(name)
            && *found == *text
        {
            return text.is_string();
        }
    }
    false
}

/// Returns true if it is the name of one of the columns, or an array of different such names.
pub fn is_key(columns: &[Value], key: &Value) -> bool {
    let names = match key {
        Value::Array(names) => names.as_slice(),
        name => from_ref(name),
    };
    for (i, name) in names.iter().enumerate() {
        if names[..i].contains(name) || !is_among(columns, "name", name) {
            return false;
        }
    }
    !names.is_empty()
}
