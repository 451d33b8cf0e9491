//! The metadata of converted files.
ghost use Rattle.std.specs.Prelude.{◌≡◌};

use crate::tables::Table;
use cell_types::{Column, Datatype};
use csvw_meta::{MOST_TABLES, Schema};
use file_convert::{ColumnReport, ReportKind};
use file_sights::NULLS;
use metadata_text::table_json;
use schema_inference::DraftFault;
use serde_json::Value;
use std::alloc::{AllocError, Global};
use value_forms::Form;

/// What is before the first table of metadata, between two of them, and after the last.
const BEFORE: &[u8] = b"{\n\"@context\": \"http://www.w3.org/ns/csvw\",\n\"tables\": [\n";

const BETWEEN: &[u8] = b",\n";

const AFTER: &[u8] = b"\n]\n}\n";

/// Adds a text that stands for null in a column.
fn add_null(alloc: Global, column: &mut Column, text: &[u8]) -> Result<(), AllocError> {
    let text = std::str::from_utf8(text).unwrap_or("");
    for null in &column.nulls {
        if null.as_str() == text {
            return Ok(());
        }
    }
    let text = String::from_str(alloc, text)?;
    column.nulls.push(text).or(Err(AllocError))
}

/// Returns true if the cells of a column are numbers that are served, which a draft may take for versions.
fn is_number(report: &ColumnReport) -> bool {
    let is_served = report.fine == 0 || report.rounds;
    matches!(report.kind, ReportKind::Form(Form::Number(_))) && report.changed > 0 && is_served
}

/// Adds the texts that stand for null in a column: in a column of texts the one that was asked for, and no other.
fn add_nulls(alloc: Global, column: &mut Column, report: &ColumnReport) -> Result<(), AllocError>
    ensures { column.old.datatype ≡ Datatype.Text → report.now.asked_cells ≡ 0
        → column.new ≡ column.old }
{
    if matches!(column.datatype, Datatype::Text) {
        if report.asked_cells == 0 {
            return Ok(());
        }
        return match &report.asked_null {
            Some(null) => add_null(alloc, column, null.as_slice()),
            None => Ok(()),
        };
    }
    for (word, count) in NULLS.iter().zip(report.nulls.as_slice()) {
        if *count > 0 {
            add_null(alloc, column, word.as_bytes())?;
        }
    }
    Ok(())
}

/// Fits a column to what was found in it. Returns true if it may no longer be a key.
fn fit_column(
    alloc: Global,
    column: &mut Column,
    report: &ColumnReport,
) -> Result<bool, AllocError> {
    if report.is_text {
        column.datatype = Datatype::Text;
        column.nulls.truncate(1);
    }
    if is_number(report) && matches!(column.datatype, Datatype::Text) {
        column.datatype = Datatype::Decimal;
    }
    add_nulls(alloc, column, report).and(Ok(report.is_text || report.asked_cells > 0))
}

/// Fits a drafted schema to what was found in its columns.
pub fn fit_schema(
    alloc: Global,
    schema: &mut Schema,
    reports: &[ColumnReport],
) -> Result<(), AllocError> {
    for report in reports {
        if matches!(report.kind, ReportKind::Empty) {
            continue;
        }
        if let Some(column) = schema.columns.get_mut(report.place)
            && fit_column(alloc, column, report)?
            && report.place == 0
        {
            schema.key.clear();
        }
    }
    Ok(())
}

/// Returns a text as a JSON text.
fn json_text(alloc: Global, text: &str) -> Result<String, AllocError> {
    Value::String(String::from_str(alloc, text)?).to_string(alloc)
}

/// Adds a table with the name of the file from which it comes, after another text.
fn push_table(
    alloc: Global,
    text: &mut Vec<u8>,
    before: &[u8],
    table: &Table,
) -> Result<(), AllocError> {
    let title = json_text(alloc, table.file.as_str())?;
    let table = table_json(alloc, &table.schema)?;
    let rest = match table.as_slice() {
        [b'{', rest @ ..] => rest,
        all => all,
    };
    for part in [before, b"{\n  \"dc:title\": ", title.as_bytes(), b",", rest] {
        text.extend_from_slice(part)?;
    }
    Ok(())
}

/// Returns the text of the tables with the names of the files from which they come.
fn tables_text(alloc: Global, tables: &[Table]) -> Result<Vec<u8>, AllocError> {
    let mut text = Vec::new(alloc);
    let mut before = BEFORE;
    for table in tables {
        push_table(alloc, &mut text, before, table)?;
        before = BETWEEN;
    }
    text.extend_from_slice(AFTER).and(Ok(text))
}

/// Returns metadata that has the tables and the names of the files from which these come, as the text of `csv-metadata.json`. It is not checked.
pub(crate) fn metadata_of(alloc: Global, tables: &[Table]) -> Result<Vec<u8>, DraftFault> {
    if tables.is_empty() {
        return Err(DraftFault::NoTables);
    }
    if tables.len() > MOST_TABLES as usize {
        return Err(DraftFault::TooManyTables);
    }
    Ok(tables_text(alloc, tables)?)
}
