//! All that is refused of a table's file.
ghost use Rattle.csv_index.specs.Index.{FitsFile};

use crate::accepted::{accepted_file, place_of};
use crate::help::{CELLS, KEYS, MISSING, help_headers, push_command, push_file_help, push_help};
use crate::line::Line;
use crate::place::TableFile;
use crate::report::Report;
use crate::rows::{refuse_cells, refuse_keys};
use cell_types::Column;
use csv_index::{Index, TextFault};
use csv_shapes::{RecordShape, Records, line_after};
use csvw_meta::{MOST_FILE_BYTES, Schema};
use std::str::from_utf8;
use table_store::{LoadFault, NamedFile};

/// A row of another width than the header.
#[derive(Clone, Copy)]
struct Uneven {
    row: usize,
    line: usize,
    fields: usize,
    wanted: usize,
}

/// Returns the line of a row of another width than the header.
fn uneven_line(report: &mut Report, url: &str, uneven: Uneven) -> Line {
    let table = report.owned(url);
    let fault = TextFault::Width { row: uneven.row };
    let mut told = report.begin(LoadFault::Text { table, fault });
    told.push_with("line ", uneven.line);
    told.push_with(": fields ", uneven.fields);
    told.push_with("; accepted: ", uneven.wanted);
    told.push(", as the header has");
    told
}

/// Adds the refusals of the rows of another width than the header, by the lines in which they begin and their fields. They are the first ones,
/// or, in brief, the first one and how many more there are.
fn refuse_widths(report: &mut Report, url: &str, bytes: &[u8], is_brief: bool) {
    let mut records = Records::new(bytes, b',');
    let wanted = records.next_record().fields;
    let mut count: usize = 0;
    for row in 0..bytes.len() {
        if records.is_at_end() || report.is_full() && !is_brief {
            break;
        }
        let RecordShape { line, fields, .. } = records.next_record();
        if fields == wanted {
            continue;
        }
        count = count.saturating_add(1);
        if count == 1 || !is_brief {
            let uneven = Uneven {
                row,
                line,
                fields,
                wanted,
            };
            let told = uneven_line(report, url, uneven);
            report.put(told);
        }
    }
    if is_brief && count > 1 {
        let mut told = Line::new(report.alloc);
        told.push(url);
        told.push_with(": more rows of another width: ", count.saturating_sub(1));
        report.put(told);
    }
}

/// Adds the refusal of a file that is no table for that fault.
fn refuse_text(report: &mut Report, url: &str, bytes: &[u8], fault: TextFault) {
    let table = report.owned(url);
    let mut line = report.begin(LoadFault::Text { table, fault });
    let before = place_of(fault).min(bytes.len());
    line.push_with("line ", line_after(1, &bytes[..before]));
    report.put_accepted(line, accepted_file(fault));
}

/// Adds the refusals of a file that is no table for a fault, and what helps.
fn refuse_fault(report: &mut Report, url: &str, bytes: &[u8], fault: TextFault, is_brief: bool) {
    match fault {
        TextFault::Width { .. } => refuse_widths(report, url, bytes, is_brief),
        _ => refuse_text(report, url, bytes, fault),
    }
    push_file_help(&mut report.helps, url, bytes, fault);
}

/// Returns true if a column may have that header: its name, or one of its titles.
fn is_called(column: &Column, cell: &str) -> bool {
    let mut is_called = column.name.as_str() == cell;
    for title in &column.titles {
        is_called |= title.as_str() == cell;
    }
    is_called
}

/// Appends what a header cell may be: the name of its column or one of its titles, or nothing if there is no column.
fn push_accepted(line: &mut Line, column: Option<&Column>) {
    let Some(column) = column else {
        return line.push("no cell, or a column of it in the metadata");
    };
    line.push_quoted(column.name.as_str());
    for title in &column.titles {
        line.push(" or ");
        line.push_quoted(title.as_str());
    }
}

/// Adds the refusal of what stands in the place of a column's header, a cell or none, if the column may not have that header.
fn refuse_header(report: &mut Report, schema: &Schema, col: usize, cell: Option<&str>) {
    let column = schema.columns.get(col);
    if let Some(column) = column
        && let Some(cell) = cell
        && is_called(column, cell)
    {
        return;
    }
    let table = report.owned(schema.url.as_str());
    let mut line = report.begin(LoadFault::Header { table, col });
    line.push_place(1, col.saturating_add(1));
    line.push(": ");
    match cell {
        Some(cell) => line.push_quoted(cell),
        None => line.push("no cell"),
    }
    line.push("; accepted: ");
    push_accepted(&mut line, column);
    report.put(line);
}

/// Adds the refusals of the header cells that do not match the columns.
fn refuse_headers(report: &mut Report, file: &TableFile<'_>)
    requires { FitsFile file.now.index.now file.now.text.now }
{
    let width = file.index.width();
    for col in 0..width {
        match file.index.header(file.text, col).text(report.alloc) {
            Ok(cell) => refuse_header(report, file.schema, col, Some(cell.as_str())),
            Err(_) => report.is_short = true,
        }
    }
    for col in width..file.schema.columns.len() {
        refuse_header(report, file.schema, col, None);
    }
}

/// Adds what is refused of a file that is a table: of its header, else of its cells, else of its keys.
fn refuse_indexed(report: &mut Report, file: &TableFile<'_>)
    requires { FitsFile file.now.index.now file.now.text.now }
{
    let before = report.lines.len();
    let url = file.schema.url.as_str();
    refuse_headers(report, file);
    if report.lines.len() > before {
        return help_headers(&mut report.helps, file);
    }
    refuse_cells(report, file);
    if report.lines.len() > before {
        return push_help(&mut report.helps, url, CELLS);
    }
    if !file.schema.key.is_empty() {
        refuse_keys(report, file);
    }
    if report.lines.len() > before {
        push_help(&mut report.helps, url, KEYS);
    }
}

/// Adds all that is refused of the bytes of a file. Those that have an index are a text.
fn refuse_bytes(report: &mut Report, schema: &Schema, bytes: &[u8]) {
    match Index::build(report.alloc, bytes) {
        Ok(index) => {
            let text = from_utf8(bytes).unwrap_or("");
            let index = &index;
            let file = TableFile {
                schema,
                text,
                index,
            };
            refuse_indexed(report, &file);
        }
        Err(fault) => refuse_fault(report, schema.url.as_str(), bytes, fault, false),
    }
}

/// Adds the refusal of a file that is above the limit.
fn refuse_large(report: &mut Report, url: &str) {
    let table = report.owned(url);
    let mut line = report.begin(LoadFault::FileTooLarge { table });
    line.push_with("accepted: ", MOST_FILE_BYTES as usize);
    line.push(" bytes at most");
    report.put(line);
    push_command(
        &mut report.helps,
        url,
        "mlr --csv split -n 1000000 ",
        " writes parts of it",
    );
}

/// Adds the refusal of a file that is missing.
fn refuse_missing(report: &mut Report, url: &str) {
    let table = report.owned(url);
    let mut line = report.begin(LoadFault::FileMissing { table });
    line.push("no file of the folder has this name");
    report.put(line);
    push_help(&mut report.helps, url, MISSING);
}

/// Adds the refusal of a file, in one line or two, and what helps: it is no table for a fault, or else it is above the limit.
pub fn refuse_file(report: &mut Report, file: &NamedFile, fault: Option<TextFault>) {
    let url = file.name.as_str();
    match fault {
        Some(fault) => refuse_fault(report, url, file.bytes.as_slice(), fault, true),
        None => refuse_large(report, url),
    }
}

/// Adds all that is refused of the file of a schema, if there is one, and what helps: nothing if it is its table.
pub fn refuse_table(report: &mut Report, schema: &Schema, file: Option<&[u8]>) {
    let url = schema.url.as_str();
    match file {
        None => refuse_missing(report, url),
        Some(bytes) if bytes.len() > MOST_FILE_BYTES as usize => refuse_large(report, url),
        Some(bytes) => refuse_bytes(report, schema, bytes),
    }
}
