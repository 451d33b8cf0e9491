//! What is refused of the rows of a table: cells that have no value, and keys.
ghost use Rattle.std.specs.Prelude.{◌<◌};
ghost use Rattle.csv_index.specs.Index.{FitsFile};

use crate::accepted::push_accepted_cell;
use crate::line::Line;
use crate::place::TableFile;
use crate::report::Report;
use crate::value::push_value;
use cell_types::{CellFault, Column, Value};
use csv_fields::cell_value;
use csv_index::Raw;
use csv_shapes::line_after;
use std::collections::BTreeMap;
use table_store::LoadFault;

/// Appends what is reported of a cell of a column that has no value.
fn push_cell(line: &mut Line, column: &Column, field: Raw<'_>, fault: CellFault) {
    line.push(" ");
    line.push(column.name.as_str());
    line.push(": ");
    match field.text(line.alloc) {
        Ok(text) => line.push_quoted(text.as_str()),
        Err(_) => line.is_short = true,
    }
    line.push("; accepted: ");
    push_accepted_cell(line, column, fault);
}

/// Adds the refusals of the first cells of a table, row by row, that have no value.
pub fn refuse_cells(report: &mut Report, file: &TableFile<'_>)
    requires { FitsFile file.now.index.now file.now.text.now }
{
    let columns = file.schema.columns.as_slice();
    let width = file.index.width().min(columns.len());
    let mut number = file.line_of(0);
    for row in 0..file.index.rows() {
        for col in 0..width {
            let column = &columns[col];
            let field = file.index.cell(file.text, row, col);
            if let Some(fault) = cell_value(report.alloc, column, field).err() {
                let table = report.owned(file.schema.url.as_str());
                let mut line = report.begin(LoadFault::Cell {
                    table,
                    row,
                    col,
                    fault,
                });
                line.push_place(number, col.saturating_add(1));
                push_cell(&mut line, column, field, fault);
                report.put(line);
            }
            number = line_after(number, field.bytes.as_bytes());
        }
        if report.is_full() {
            break;
        }
        number = number.saturating_add(1);
    }
}

/// What is reported of a key, column by column.
#[derive(Clone, Copy)]
enum KeyPart {
    /// The names of its columns.
    Names,
    /// The values of a row, as lines show them.
    Values,
    /// The values of a row, whole, so that no other values have the same texts.
    WholeValues,
}

/// Appends a value of a key.
fn push_key_value(line: &mut Line, value: Value<'_>, part: KeyPart) {
    let mut text = Vec::new(line.alloc);
    let pushed = match part {
        KeyPart::WholeValues => reply_values::push_value::<true>(&mut text, &value),
        _ => push_value(line.alloc, &mut text, &value),
    };
    line.is_short |= pushed.is_err();
    line.push_made(String::from_utf8_lossy(line.alloc, text.as_slice()));
}

/// Appends what is reported of the key in one of its columns. Returns whether that is a null.
fn push_key_column(
    line: &mut Line,
    file: &TableFile<'_>,
    row: usize,
    part: KeyPart,
    col: usize,
) -> bool
    requires bytes { FitsFile file.now.index.now file.now.text.now }
    requires row { row < file.now.index.now.rows }
{
    let columns = file.schema.columns.as_slice();
    if col >= file.index.width().min(columns.len()) {
        return true;
    }
    let column = &columns[col];
    if matches!(part, KeyPart::Names) {
        line.push(column.name.as_str());
        return false;
    }
    match cell_value(line.alloc, column, file.index.cell(file.text, row, col)) {
        Ok(value) => {
            let is_null = matches!(value, Value::Null);
            push_key_value(line, value, part);
            is_null
        }
        Err(_) => {
            line.is_short = true;
            true
        }
    }
}

/// Appends what is reported of the key of a row, after a text. Returns whether it has a null.
fn push_key(line: &mut Line, before: &str, file: &TableFile<'_>, row: usize, part: KeyPart) -> bool
    requires bytes { FitsFile file.now.index.now file.now.text.now }
    requires row { row < file.now.index.now.rows }
{
    let mut has_null = false;
    let mut before = before;
    for place in &file.schema.key {
        line.push(before);
        has_null |= push_key_column(line, file, row, part, *place);
        before = ", ";
    }
    has_null
}

/// Adds the refusal of a row whose key has a null, or is that of an earlier row.
fn refuse_key(report: &mut Report, file: &TableFile<'_>, row: usize, earlier: Option<usize>)
    requires bytes { FitsFile file.now.index.now file.now.text.now }
    requires row { row < file.now.index.now.rows }
{
    let table = report.owned(file.schema.url.as_str());
    let mut line = report.begin(match earlier {
        None => LoadFault::KeyNull { table, row },
        Some(_) => LoadFault::KeyTwice { table, row },
    });
    line.push_with("line ", file.line_of(row));
    push_key(&mut line, ", key ", file, row, KeyPart::Names);
    push_key(&mut line, ": ", file, row, KeyPart::Values);
    match earlier {
        None => line.push("; accepted: a value in each column of the key"),
        Some(earlier) => {
            line.push_with(" is the key of row ", earlier);
            line.push_with(", line ", file.line_of(earlier));
            line.push(", too; accepted: a key that no other row has");
        }
    }
    report.put(line);
}

/// Adds the refusals of the first rows of a table whose key has a null or is that of an earlier row. If many are reported before the first null, that is reported too.
pub fn refuse_keys(report: &mut Report, file: &TableFile<'_>)
    requires { FitsFile file.now.index.now file.now.text.now }
{
    let mut firsts = BTreeMap::new(report.alloc);
    for row in 0..file.index.rows() {
        let mut key = Line::new(report.alloc);
        let has_null = push_key(&mut key, "", file, row, KeyPart::WholeValues);
        let first = firsts.get(&key.text).copied().unwrap_or(row);
        report.is_short |= key.is_short;
        report.is_short |= firsts.insert(key.text, first).is_err();
        if has_null || first != row && !report.is_full() {
            refuse_key(report, file, row, (!has_null).then_some(first));
        }
        if has_null && report.is_full() {
            break;
        }
    }
}
