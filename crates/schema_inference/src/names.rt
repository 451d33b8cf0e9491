//! The names of columns.
use cell_types::Column;
use std::alloc::{AllocError, Global};

/// The most bytes of a name.
const MOST_NAME: usize = 128;

/// Returns a character that a name may have, or `_` in the place of any other.
fn name_char(c: char) -> char {
    if c.is_ascii_alphanumeric() { c } else { '_' }
}

/// Returns what comes before the characters of a cell in its name.
fn prefix(cell: &str) -> &'static str {
    match cell.as_bytes().first() {
        Some(first) if first.is_ascii_alphabetic() => "",
        _ => "c_",
    }
}

/// Returns a header cell as a name.
fn base_name(alloc: Global, cell: &str) -> Result<String, AllocError> {
    let mut name = String::from_str(alloc, prefix(cell))?;
    let room = MOST_NAME.saturating_sub(name.len());
    for c in cell.chars().take(room) {
        name.push(name_char(c))?;
    }
    Ok(name)
}

/// Returns a name with a number, cut so that both fit.
fn numbered(alloc: Global, name: &str, number: usize) -> Result<String, AllocError> {
    let suffix = format!(in alloc; "_{number}")?;
    let room = MOST_NAME.saturating_sub(suffix.len());
    let mut made: String = name.chars().take(room).collect(alloc)?;
    made.push_str(suffix.as_str()).and(Ok(made))
}

/// Returns true if a column has the name.
fn is_taken(earlier: &[Column], name: &str) -> bool {
    for column in earlier {
        if column.name.as_str() == name {
            return true;
        }
    }
    false
}

/// Returns the name of the column after some: that of its header cell, or, if one of them has it, the name with the least number from 2 on that none has.
pub fn next_name(alloc: Global, earlier: &[Column], cell: &str) -> Result<String, AllocError> {
    let name = base_name(alloc, cell)?;
    if !is_taken(earlier, name.as_str()) {
        return Ok(name);
    }
    for number in 2..=earlier.len().saturating_add(1) {
        let other = numbered(alloc, name.as_str(), number)?;
        if !is_taken(earlier, other.as_str()) {
            return Ok(other);
        }
    }
    Ok(name)
}

/// Returns the titles of a column: its header cell, if that is not its name.
pub(crate) fn titles_of(alloc: Global, name: &str, cell: &str) -> Result<Vec<String>, AllocError> {
    let mut titles = Vec::new(alloc);
    if name != cell {
        let title = String::from_str(alloc, cell)?;
        titles.push(title)?;
    }
    Ok(titles)
}
