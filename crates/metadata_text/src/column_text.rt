//! The text of columns and their datatypes (Metadata Vocabulary for Tabular Data, sections 5.6, 5.7 and 5.11).
use crate::members::Output;
use cell_types::{Column, Datatype};
use datatype_texts::{DatatypeFormat, datatype_name, datatype_named, format_of};
use json::Token;

/// Writes a datatype with a format.
fn write_with_format(out: &mut Output, base: &str, format: &str) {
    out.put(Token::BeginObject);
    out.put_member("base", base);
    out.put_member("format", format);
    out.put(Token::EndObject);
}

/// Writes a datatype by its name, or with its format if its name alone does not say it.
fn write_datatype(out: &mut Output, datatype: &Datatype) {
    let name = datatype_name(datatype);
    if let Some(named) = datatype_named(name) {
        if named == *datatype {
            return out.put_text(name);
        }
    }
    match format_of(datatype) {
        DatatypeFormat::Absent => out.put_text(name),
        DatatypeFormat::Pattern(pattern) => write_with_format(out, name, pattern),
        DatatypeFormat::Texts(of_true, of_false) => {
            match format!(in out.alloc; "{of_true}|{of_false}") {
                Ok(format) => write_with_format(out, name, format.as_str()),
                Err(_) => out.is_short = true,
            }
        }
    }
}

/// Returns true if the empty text alone stands for null.
fn is_empty_text_alone(nulls: &[String]) -> bool {
    match nulls {
        [text] => text.is_empty(),
        _ => false,
    }
}

/// Writes a column.
pub(crate) fn write_column(out: &mut Output, column: &Column) {
    out.put(Token::BeginObject);
    out.put_member("name", column.name.as_str());
    let titles = column.titles.as_slice();
    if !titles.is_empty() {
        out.put_texts("titles", titles);
    }
    out.put(Token::Key("datatype"));
    write_datatype(out, &column.datatype);
    let nulls = column.nulls.as_slice();
    if !is_empty_text_alone(nulls) {
        out.put_texts("null", nulls);
    }
    out.put(Token::EndObject);
}
