//! The header of a file against the columns of its table.
ghost use Rattle.std.specs.Prelude.{◌≡◌, IfOk, map, string_bytes};
ghost use Rattle.std.specs.List.{list_any};
ghost use Rattle.std.specs.Str.{bytes_eq};
ghost use Rattle.cell_types.specs.Column.{column_view};
ghost use Rattle.file_cells.specs.Rows.{is_called as is_called_by, mismatch_of};

use cell_types::Column;
use csv_index::IndexedText;
use std::alloc::{AllocError, Global};

/// Returns true if a text is among some titles.
fn is_title(titles: &[String], text: &str) -> bool
    ensures { result ≡ list_any (λ title. bytes_eq (string_bytes title) text.now) titles.now }
{
    titles.iter().any(|title| title.as_str() == text)
}

/// Returns true if a header cell of a column may be that text.
fn is_called(column: &Column, text: &str) -> bool
    ensures { result ≡ is_called_by (column_view column.now) text.now }
{
    column.name.as_str() == text || is_title(column.titles.as_slice(), text)
}

/// Returns the first place where a column and a header cell do not match or one is missing.
pub fn first_mismatch(
    alloc: Global,
    columns: &[Column],
    file: &IndexedText,
) -> Result<Option<usize>, AllocError>
    ensures { IfOk result (λ place.
        place ≡ mismatch_of (map column_view columns.now) file.now.header) }
{
    let width = file.width();
    for (col, column) in columns.iter().enumerate() {
        if col >= width {
            return Ok(Some(col));
        }
        let text = file.header(col).text(alloc)?;
        if !is_called(column, text.as_str()) {
            return Ok(Some(col));
        }
    }
    if columns.len() < width {
        return Ok(Some(columns.len()));
    }
    Ok(None)
}
