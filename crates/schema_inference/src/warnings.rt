//! What the publisher of a table should look at.
ghost use Rattle.std.specs.Prelude.{◌≡◌, ◌++◌, ◌∷◌, ◌⊎◌, [], true};

use crate::days::Days;
use crate::fault::{OtherCell, Warning};
use crate::lines::LinesSeen;
use crate::looks::Looks;
use cell_types::{CellFault, Column, Datatype, Value};
use csv_fields::cell_value;
use csv_index::{IndexedText, Raw};
use std::alloc::Global;
use type_inference::{Inference, NULL_WORDS, are_digits, look_name};

/// What there is to look at so far. If memory runs out that is kept in it, so that a warning has no failure of its own.
#[derive(Drop)]
pub struct Warnings {
    pub alloc: Global,
    pub list: Vec<Warning>,
    pub is_short: bool,
}

impl Warnings {
    /// Adds one more, or memory runs out.
    pub fn put(&mut self, warning: Warning)
        ensures { (self.new.is_short ≡ true)
            ⊎ ((self.new.is_short ≡ self.old.is_short)
            × (self.new.list.items ≡ self.old.list.items ++ warning ∷ [])) }
    {
        if self.list.push(warning).is_err() {
            self.is_short = true;
        }
    }

    /// Returns a copy of a cell, or memory runs out.
    fn copied(&mut self, cell: Option<&OtherCell>) -> Option<OtherCell> {
        let OtherCell { line, text } = cell?;
        let text: Result<_, _> = text.clone();
        self.is_short |= text.is_err();
        Some(OtherCell {
            line: *line,
            text: text.ok()?,
        })
    }
}

/// Returns true for a column of texts.
fn is_text(column: &Column) -> bool {
    matches!(column.datatype, Datatype::Text)
}

/// Returns true if a header cell has a value of its column's datatype that is not null.
fn is_data(warnings: &mut Warnings, column: &Column, cell: Raw<'_>) -> bool {
    match cell_value(warnings.alloc, column, cell) {
        Ok(value) => !matches!(value, Value::Null),
        Err(fault) => {
            warnings.is_short |= matches!(fault, CellFault::NoMemory);
            false
        }
    }
}

/// Returns true if a header cell may be a year, of which many columns are called.
fn is_year(cell: Raw<'_>) -> bool {
    cell.bytes.len() == 4 && are_digits(cell.bytes)
}

/// Adds what there is to look at in a column of texts, by its index.
fn text_warnings(
    warnings: &mut Warnings,
    file: usize,
    col: usize,
    seen: &Inference,
    looks: &Looks,
) {
    if seen.has_two_dates() {
        warnings.put(Warning::TwoDates { file, col });
    } else if !seen.is_text() && !seen.stays_text() {
        warnings.put(Warning::Version { file, col });
    } else if let Some(found) = looks.likeness() {
        if found.is_fine {
            warnings.put(Warning::TooFine { file, col });
        } else if found.alike > 1 {
            let other = warnings.copied(found.other);
            warnings.put(Warning::Alike {
                file,
                col,
                form: look_name(found.look, found.is_loose),
                cells: found.cells,
                alike: found.alike,
                other,
            });
        }
    }
}

/// Returns how many cells of a column are a text that may stand for null, if the column is one of texts or is none, as it should be.
fn null_cells(seen: Option<&Inference>, column: &Column, word: usize, of_texts: bool) -> usize {
    match seen {
        Some(seen) if is_text(column) == of_texts => seen.count(word),
        _ => 0,
    }
}

/// Returns the first column in which a text is null.
fn null_column(known: &[Inference], columns: &[Column], word: usize) -> Option<usize> {
    for col in 0..columns.len() {
        if null_cells(known.get(col), &columns[col], word, false) > 0 {
            return Some(col);
        }
    }
    None
}

/// Adds the columns of texts in which a text is a cell that is null in another column.
fn null_warnings(warnings: &mut Warnings, file: usize, known: &[Inference], columns: &[Column]) {
    for (place, word) in NULL_WORDS.iter().enumerate() {
        let Some(other) = null_column(known, columns, place) else {
            continue;
        };
        for col in 0..columns.len() {
            let cells = null_cells(known.get(col), &columns[col], place, true);
            if cells > 0 {
                warnings.put(Warning::NullElsewhere {
                    file,
                    col,
                    other,
                    word,
                    cells,
                });
            }
        }
    }
}

/// Adds what there is to look at in the columns of a file, of whose cells this is known.
pub(crate) fn column_warnings(
    warnings: &mut Warnings,
    file: usize,
    known: &[Inference],
    looks: &[Looks],
    columns: &[Column],
) {
    for col in 0..columns.len() {
        if let (Some(seen), Some(looks)) = (known.get(col), looks.get(col))
            && is_text(&columns[col])
        {
            text_warnings(warnings, file, col, seen, looks);
        }
    }
    null_warnings(warnings, file, known, columns);
}

/// Adds the columns of integers that may be days.
pub(crate) fn day_warnings(warnings: &mut Warnings, file: usize, days: &Days) {
    for count in &days.counts {
        if count.is_open && count.days > 1 {
            warnings.put(Warning::Days {
                file,
                col: count.col,
                cells: count.days,
            });
        }
    }
}

/// Returns true if the header of a file may be data: each header cell of a column that is none of texts is a value of it, and one is no year.
fn has_data_header(warnings: &mut Warnings, first: &IndexedText, columns: &[Column]) -> bool {
    let mut has_data = false;
    for col in 0..first.width() {
        let cell = first.header(col);
        if let Some(column) = columns.get(col)
            && !is_text(column)
        {
            if !is_data(warnings, column, cell) {
                return false;
            }
            has_data |= !is_year(cell);
        }
    }
    has_data
}

/// Adds what there is to look at in the header and the lines of a file, whose first lines are given: header cells that are empty or data, rows of empty cells at the
/// end, and of one column the bytes that may separate its fields.
pub(crate) fn header_warnings(
    warnings: &mut Warnings,
    file: usize,
    first: &IndexedText,
    lines: &LinesSeen,
    columns: &[Column],
) {
    for col in 0..first.width() {
        if first.header(col).bytes.is_empty() {
            warnings.put(Warning::EmptyHeader { file, col });
        }
    }
    if has_data_header(warnings, first, columns) {
        warnings.put(Warning::HeaderIsData { file });
    }
    if first.width() != 1 && lines.empty > 0 {
        warnings.put(Warning::EmptyRows {
            file,
            rows: lines.empty,
        });
    }
    for byte in lines.separators.as_slice() {
        warnings.put(Warning::OtherSeparator { file, byte: *byte });
    }
}
