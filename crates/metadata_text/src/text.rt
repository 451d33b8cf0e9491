//! The text of schemas.
use crate::column_text::write_column;
use crate::members::Output;
use crate::table_text::write_table;
use cell_types::Column;
use csvw_meta::Schema;
use json::Token;
use std::alloc::{AllocError, Global};

/// Returns the text of an output, if memory has not run out.
fn text_of(out: Output) -> Result<Vec<u8>, AllocError> {
    let is_short = out.is_short;
    let text = out.pretty.into_inner();
    if is_short {
        return Err(AllocError);
    }
    Ok(text)
}

/// Returns the schemas as the text of `csv-metadata.json`.
pub fn schemas_json(alloc: Global, schemas: &[Schema]) -> Result<Vec<u8>, AllocError> {
    let mut out = Output::new(alloc);
    out.put(Token::BeginObject);
    out.put_member("@context", "http://www.w3.org/ns/csvw");
    out.begin_array("tables");
    for schema in schemas {
        write_table(&mut out, schema);
    }
    out.put(Token::EndArray);
    out.put(Token::EndObject);
    text_of(out)
}

/// Returns the text of a table in metadata.
pub fn table_json(alloc: Global, schema: &Schema) -> Result<Vec<u8>, AllocError> {
    let mut out = Output::new(alloc);
    write_table(&mut out, schema);
    text_of(out)
}

/// Returns the text of a column in metadata.
pub fn column_json(alloc: Global, column: &Column) -> Result<Vec<u8>, AllocError> {
    let mut out = Output::new(alloc);
    write_column(&mut out, column);
    text_of(out)
}
