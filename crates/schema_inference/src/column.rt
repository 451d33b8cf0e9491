//! The columns of a table.
use crate::names::{next_name, titles_of};
use cell_types::{Column, Datatype};
use csv_index::IndexedText;
use std::alloc::{AllocError, Global};
use type_inference::Inference;

/// Returns true if a header cell calls its column a version.
fn is_version(cell: &str) -> bool {
    let mut words = cell.split(|c: char| !c.is_ascii_alphanumeric());
    words.any(|word| word.eq_ignore_ascii_case("version")) || cell.ends_with("Version")
}

/// Returns the datatype of a column with a header cell. Versions are texts, since 4.10 is no 4.1.
fn datatype_of(alloc: Global, seen: &Inference, cell: &str) -> Result<Datatype, AllocError> {
    let datatype = seen.datatype(alloc)?;
    if matches!(datatype, Datatype::Decimal) && is_version(cell) {
        return Ok(Datatype::Text);
    }
    Ok(datatype)
}

/// Returns the column after some, by its header cell and what is known of its cells.
fn make_column(
    alloc: Global,
    seen: &Inference,
    cell: &str,
    earlier: &[Column],
) -> Result<Column, AllocError> {
    let name = next_name(alloc, earlier, cell)?;
    let titles = titles_of(alloc, name.as_str(), cell)?;
    let datatype = datatype_of(alloc, seen, cell)?;
    let nulls = seen.nulls(alloc, &datatype)?;
    Ok(Column {
        name,
        titles,
        datatype,
        nulls,
        default: String::new(alloc),
        required: false,
    })
}

/// Returns the columns of a file, of whose cells this is known.
pub(crate) fn make_columns(
    alloc: Global,
    known: &[Inference],
    file: &IndexedText,
) -> Result<Vec<Column>, AllocError> {
    let mut columns = Vec::new(alloc);
    for col in 0..file.width() {
        let Some(seen) = known.get(col) else {
            return Ok(columns);
        };
        let cell = file.header(col).text(alloc)?;
        let column = make_column(alloc, seen, cell.as_str(), columns.as_slice())?;
        columns.push(column)?;
    }
    Ok(columns)
}
