//! The bodies of replies.
ghost use Rattle.std.specs.Prelude.{◌≡◌, ◌<◌, ◌++◌, OnOk, IfNone, IfOk, IfSome, length, map};
ghost use Rattle.std.specs.Fmt.{decimal};
ghost use Rattle.std.specs.List.{join_with_byte};
ghost use Rattle.reply_text.specs.Body.{entry_text, error_text, named_text, row_text, rows_text, service_text};
ghost use Rattle.reply_text.specs.Csv.{csv_text};

use crate::opening::push_comma;
use crate::push_rows::{push_rows, short_body};
use odata_errors::Code;
use reply_values::{push_number, push_text, push_text_member};
use result_rows::Rows;
use std::alloc::{AllocError, Global};
use table_store::{Catalog, Table};

/// Returns rows as a JSON object whose member `value` has an object for each row (OData 4.01 JSON Format, section 13).
pub fn json_body(alloc: Global, rows: &Rows) -> Result<Vec<u8>, AllocError>
    ensures { IfOk result (λ body. body.items ≡ rows_text rows.now) }
{
    short_body::<true>(alloc, rows, usize::MAX)?.ok_or(AllocError)
}

/// Returns rows as JSON, as [`json_body`] does, or `None` if that has more than `most` bytes.
pub fn short_json_body(
    alloc: Global,
    rows: &Rows,
    most: usize,
) -> Result<Option<Vec<u8>>, AllocError>
    ensures body { IfOk result (λ body. IfSome body (λ bytes. bytes.items ≡ rows_text rows.now)) }
    ensures long { IfOk result (λ body. IfNone body (most < length (rows_text rows.now))) }
{
    short_body::<true>(alloc, rows, most)
}

/// Returns rows as CSV: a line of the names, and a line for each row, each ended by CR LF.
pub fn csv_body(alloc: Global, rows: &Rows) -> Result<Vec<u8>, AllocError>
    ensures { IfOk result (λ body. body.items ≡ csv_text rows.now) }
{
    short_body::<false>(alloc, rows, usize::MAX)?.ok_or(AllocError)
}

/// Returns rows as CSV, as [`csv_body`] does, or `None` if that has more than `most` bytes.
pub fn short_csv_body(
    alloc: Global,
    rows: &Rows,
    most: usize,
) -> Result<Option<Vec<u8>>, AllocError>
    ensures body { IfOk result (λ body. IfSome body (λ bytes. bytes.items ≡ csv_text rows.now)) }
    ensures long { IfOk result (λ body. IfNone body (most < length (csv_text rows.now))) }
{
    short_body::<false>(alloc, rows, most)
}

/// Returns the one row as a JSON object (OData 4.01 JSON Format, section 6).
pub fn row_body(alloc: Global, rows: &Rows) -> Result<Vec<u8>, AllocError>
    requires { length rows.now.rows ≡ 1 }
    ensures { IfOk result (λ body. body.items ≡ row_text rows.now) }
{
    let mut body = Vec::new(alloc);
    push_rows::<true>(&mut body, rows, usize::MAX)?;
    Ok(body)
}

/// Returns a number of rows as plain text, in decimal digits (OData 4.01 URL Conventions, section 4.8).
pub fn number_body(alloc: Global, number: u64) -> Result<Vec<u8>, AllocError>
    ensures { IfOk result (λ body. body.items ≡ decimal number) }
{
    let mut body = Vec::new(alloc);
    push_number(&mut body, number)?;
    Ok(body)
}

/// Appends the members of an entry that say what it is.
fn push_named(out: &mut Vec<u8>, name: &[u8]) -> Result<(), AllocError>
    ensures { OnOk result (out.new.items ≡ out.old.items ++ named_text name.now) }
{
    push_text_member(out, b"name", name)?;
    out.extend_from_slice(b",")?;
    push_text_member(out, b"kind", b"EntitySet")
}

/// Appends the entry of a table of that name.
fn push_entry(out: &mut Vec<u8>, name: &[u8]) -> Result<(), AllocError>
    ensures { OnOk result (out.new.items ≡ out.old.items ++ entry_text name.now) }
{
    out.extend_from_slice(b"{")?;
    push_named(out, name)?;
    out.extend_from_slice(b",")?;
    push_text_member(out, b"url", name)?;
    out.extend_from_slice(b"}")
}

/// Appends the entries of tables, with a comma between each two.
fn push_entries(out: &mut Vec<u8>, tables: &[Table]) -> Result<(), AllocError>
    ensures { OnOk result (out.new.items ≡ out.old.items
        ++ join_with_byte 44 (map (λ table. entry_text table.schema.name) tables.now)) }
{
    for (place, table) in tables.iter().enumerate() {
        push_comma(out, place)?;
        push_entry(out, table.name().as_bytes())?;
    }
    Ok(())
}

/// Returns the service document: a JSON object whose member `value` has an object for each table, in the order of the metadata
/// (OData 4.01 JSON Format, section 5).
pub fn service_body(alloc: Global, catalog: &Catalog) -> Result<Vec<u8>, AllocError>
    ensures { IfOk result (λ body. body.items ≡ service_text catalog.now.tables) }
{
    let mut body = Vec::new(alloc);
    body.extend_from_slice(b"{")?;
    push_text(&mut body, b"value")?;
    body.extend_from_slice(b":[")?;
    push_entries(&mut body, catalog.tables())?;
    body.extend_from_slice(b"]}")?;
    Ok(body)
}

/// Returns an error as a JSON object with its code and message (OData 4.01 JSON Format, section 21.1).
pub fn error_body(alloc: Global, code: Code) -> Result<Vec<u8>, AllocError>
    ensures { IfOk result (λ body. body.items ≡ error_text code) }
{
    let mut body = Vec::new(alloc);
    body.extend_from_slice(b"{")?;
    push_text(&mut body, b"error")?;
    body.extend_from_slice(b":{")?;
    push_text_member(&mut body, b"code", code.name().as_bytes())?;
    body.extend_from_slice(b",")?;
    push_text_member(&mut body, b"message", code.message().as_bytes())?;
    body.extend_from_slice(b"}}")?;
    Ok(body)
}
