//! What the service understands of a folder, table by table and column by column.
ghost use Rattle.std.specs.Prelude.{◌≡◌, ◌++◌, ◌∷◌, ◌<◌, IfOk, codes, length, option_map, if◌then◌else◌};
ghost use Rattle.block_summary.specs.Ranges.{column_of, range_of};
ghost use Rattle.cell_types.specs.Column.{column_view};
ghost use Rattle.cell_types.specs.Datatype.{datatype_view};
ghost use Rattle.cell_types.specs.Value.{value_view};
ghost use Rattle.csvw_meta.specs.Schema.{schema_view};
ghost use Rattle.datatype_texts.specs.Names.{bar};
ghost use Rattle.catalog_sheet.specs.Sheet.{IsLongerBy};
ghost use Rattle.diagnostics.specs.Text.{quoted_text};
ghost use Rattle.catalog_sheet.specs.Show.{bound_text, column_front, column_line, datatype_text, is_of_key, shown_table, table_text, tables_text};

use crate::range::column_range;
use crate::sheet::Sheet;
use cell_types::{Column, Datatype, Value};
use csvw_meta::Schema;
use datatype_texts::{DatatypeFormat, datatype_name, format_of};
use diagnostics::push_quoted;
use std::alloc::{AllocError, Global};
use table_store::{Catalog, Table};

/// Appends the format of booleans of two texts.
fn push_texts(sheet: &mut Sheet, of_true: &str, of_false: &str)
    ensures { IsLongerBy sheet.old sheet.new
        (quoted_text (of_true.now ++ bar ∷ of_false.now)) }
{
    match format!(in sheet.alloc; "{of_true}|{of_false}") {
        Ok(format) => {
            let pushed = push_quoted(sheet.alloc, &mut sheet.bytes, format.as_str());
            sheet.keep(pushed);
        }
        Err(_) => sheet.is_short = true,
    }
}

/// Appends the name of a datatype, with its format if it has one.
fn push_datatype(sheet: &mut Sheet, datatype: &Datatype)
    ensures { IsLongerBy sheet.old sheet.new (datatype_text (datatype_view datatype.now)) }
{
    sheet.push(datatype_name(datatype));
    match format_of(datatype) {
        DatatypeFormat::Absent => {}
        DatatypeFormat::Pattern(pattern) => {
            sheet.push(" ");
            sheet.push(pattern);
        }
        DatatypeFormat::Texts(of_true, of_false) => {
            sheet.push(" ");
            push_texts(sheet, of_true, of_false);
        }
    }
}

/// Appends a bound after its name, if there is one.
fn push_bound(sheet: &mut Sheet, name: &str, bound: Option<&Value<'static>>)
    ensures { IsLongerBy sheet.old sheet.new
        (bound_text name.now (option_map (λ value. value_view value.now) bound.entry)) }
{
    if let Some(value) = bound {
        sheet.push(name);
        sheet.push_value(value);
    }
}

/// Appends what stands before the bounds of a column.
fn push_front(sheet: &mut Sheet, column: &Column, nulls: usize)
    ensures { IsLongerBy sheet.old sheet.new (column_front (column_view column.now) nulls) }
{
    sheet.push("  ");
    sheet.push(column.name.as_str());
    sheet.push(" ");
    push_datatype(sheet, &column.datatype);
    sheet.push(", nulls ");
    sheet.push_number(nulls);
}

/// Returns what ends the line of a column, by whether it is one of the key.
fn line_end(schema: &Schema, col: usize) -> &'static str
    ensures { result.now ≡ (if is_of_key (schema_view schema.now).key col
        then codes ", key\n" else codes "\n") }
{
    if schema.key.as_slice().contains(&col) {
        ", key\n"
    } else {
        "\n"
    }
}

/// Appends the line of a column of a table.
fn push_column(sheet: &mut Sheet, table: &Table, col: usize, column: &Column)
    requires { col < length table.now.schema.columns }
    ensures { IsLongerBy sheet.old sheet.new (column_line (column_view column.now)
        (range_of (column_of table.now.rows col)) (is_of_key table.now.schema.key col)) }
{
    let Ok(range) = column_range(sheet.alloc, table, col) else {
        sheet.is_short = true;
        return;
    };
    push_front(sheet, column, range.null_count());
    push_bound(sheet, ", least ", range.least());
    push_bound(sheet, ", greatest ", range.greatest());
    sheet.push(line_end(table.schema(), col));
}

/// Appends the line of a table: its name, its number of rows and its number of columns.
fn push_line(sheet: &mut Sheet, table: &Table)
    ensures { IsLongerBy sheet.old sheet.new (shown_table table.now) }
{
    sheet.push(table.name());
    sheet.push(" ");
    sheet.push_number(table.rows());
    sheet.push(" ");
    sheet.push_number(table.width());
    sheet.push("\n");
}

/// Appends the lines of a table.
fn push_table(sheet: &mut Sheet, table: &Table)
    ensures { IsLongerBy sheet.old sheet.new (table_text table.now) }
{
    push_line(sheet, table);
    let columns = table.schema().columns.as_slice();
    for (col, column) in columns.iter().enumerate() {
        push_column(sheet, table, col, column);
    }
}

/// Returns for each table a line, and after it a line for each of its columns: the name, the datatype with its format, how many cells are null, the least and the greatest
/// value of all rows, if there is one, and whether the column is one of the key.
pub fn catalog_text(alloc: Global, catalog: &Catalog) -> Result<Vec<u8>, AllocError>
    ensures { IfOk result (λ text. text.items ≡ tables_text catalog.now.tables) }
{
    let mut sheet = Sheet::new(alloc);
    for table in catalog.tables() {
        push_table(&mut sheet, table);
    }
    sheet.end()
}
