//! The text of tables, their schemas and their keys (Metadata Vocabulary for Tabular Data, sections 5.3 to 5.5).
use crate::column_text::write_column;
use crate::members::Output;
use csvw_meta::Schema;
use json::Token;

/// Writes a key by the names of its columns, if there is one.
fn write_key(out: &mut Output, schema: &Schema) {
    if schema.key.is_empty() {
        return;
    }
    out.begin_array("primaryKey");
    for place in &schema.key {
        if let Some(column) = schema.columns.get(*place) {
            out.put_text(column.name.as_str());
        }
    }
    out.put(Token::EndArray);
}

/// Writes a table with its schema.
pub(crate) fn write_table(out: &mut Output, schema: &Schema) {
    out.put(Token::BeginObject);
    out.put_member("url", schema.url.as_str());
    out.put(Token::Key("tableSchema"));
    out.put(Token::BeginObject);
    out.begin_array("columns");
    for column in &schema.columns {
        write_column(out, column);
    }
    out.put(Token::EndArray);
    write_key(out, schema);
    out.put(Token::EndObject);
    out.put(Token::EndObject);
}
