//! Why a folder is refused.
ghost use Rattle.std.specs.Prelude.{◌≡◌, ◌++◌, IfOk, codes, is_none, string_bytes};
ghost use Rattle.std.specs.Fmt.{decimal};
ghost use Rattle.table_store.specs.Fault.{file_text as file_text_of, load_cause, load_fault_text};

use cell_types::CellFault;
use csv_index::TextFault;
use csvw_meta::MetaFault;
use std::alloc::{AllocError, Global};

/// The name of the file that has the metadata of a folder.
const METADATA: &str = "csv-metadata.json";

/// Why a folder is refused. `table` is the url of the table; rows and columns count from 0.
#[derive(Drop)]
pub enum LoadFault {
    /// The metadata is refused.
    Meta(MetaFault),
    /// No file has the url for its name.
    FileMissing {
        table: String,
    },
    /// The file has more bytes than the limit.
    FileTooLarge {
        table: String,
    },
    /// The file is no table.
    Text {
        table: String,
        fault: TextFault,
    },
    /// The first place where a column and a header cell do not match or one is missing.
    Header {
        table: String,
        col: usize,
    },
    /// The first cell, row by row, that has no value.
    Cell {
        table: String,
        row: usize,
        col: usize,
        fault: CellFault,
    },
    /// The first row whose key has a null.
    KeyNull {
        table: String,
        row: usize,
    },
    /// The first row whose key is that of an earlier row.
    KeyTwice {
        table: String,
        row: usize,
    },
    /// Memory ran out.
    NoMemory,
}

impl From<AllocError> for LoadFault {
    ghost use Rattle.table_store.specs.declared.fault.LoadFault.TheVariants.{NoMemory};

    ghost from_gives = { λ _ fault. fault ≡ NoMemory };

    fn from(_: AllocError) -> LoadFault {
        LoadFault::NoMemory
    }
}

impl LoadFault {
    /// Returns the file that is refused and why, as in `notes.csv: Header col 1`.
    pub fn text(&self, alloc: Global) -> Result<String, AllocError>
        ensures { IfOk result (λ text. string_bytes text ≡ load_fault_text self.now) }
    {
        match self {
            LoadFault::Meta(fault) => {
                let cause = fault.text(alloc)?;
                file_text(alloc, METADATA, cause.as_str())
            }
            LoadFault::FileMissing { table } => file_text(alloc, table.as_str(), "FileMissing"),
            LoadFault::FileTooLarge { table } => file_text(alloc, table.as_str(), "FileTooLarge"),
            LoadFault::Text { table, fault } => {
                let cause = fault.text(alloc)?;
                file_text(alloc, table.as_str(), cause.as_str())
            }
            LoadFault::Header { table, col } => text_at(alloc, table.as_str(), "Header col ", *col),
            LoadFault::Cell {
                table,
                row,
                col,
                fault,
            } => cell_text(alloc, table.as_str(), *row, *col, fault.name()),
            LoadFault::KeyNull { table, row } => {
                text_at(alloc, table.as_str(), "KeyNull row ", *row)
            }
            LoadFault::KeyTwice { table, row } => {
                text_at(alloc, table.as_str(), "KeyTwice row ", *row)
            }
            LoadFault::NoMemory => String::from_str(alloc, "NoMemory"),
        }
    }

    /// Returns true if memory ran out.
    pub fn is_memory(&self) -> bool
        ensures { result ≡ is_none (load_cause self.now) }
    {
        match self {
            LoadFault::Meta(MetaFault::NoMemory) => true,
            LoadFault::Text {
                fault: TextFault::NoMemory,
                ..
            } => true,
            LoadFault::Cell {
                fault: CellFault::NoMemory,
                ..
            } => true,
            LoadFault::NoMemory => true,
            _ => false,
        }
    }
}

/// Returns a file, and what is wrong with it.
fn file_text(alloc: Global, file: &str, cause: &str) -> Result<String, AllocError>
    ensures { IfOk result (λ text. string_bytes text ≡ file_text_of file.now cause.now) }
{
    let mut text = String::from_str(alloc, file)?;
    text.push_str(": ")?;
    text.push_str(cause)?;
    Ok(text)
}

/// Returns a table, the cell that has no value, and the name of the fault.
fn cell_text(
    alloc: Global,
    table: &str,
    row: usize,
    col: usize,
    name: &str,
) -> Result<String, AllocError>
    ensures { IfOk result (λ text. string_bytes text ≡ file_text_of table.now
        (codes "Cell row " ++ decimal row ++ codes " col " ++ decimal col ++ codes " " ++
        name.now)) }
{
    let cause = format!(in alloc; "Cell row {row} col {col} {name}")?;
    file_text(alloc, table, cause.as_str())
}

/// Returns a table, what is wrong with it, and the row or the header cell if it is.
fn text_at(alloc: Global, table: &str, cause: &str, place: usize) -> Result<String, AllocError>
    ensures { IfOk result
        (λ text. string_bytes text ≡ file_text_of table.now (cause.now ++ decimal place)) }
{
    let text = format!(in alloc; "{cause}{place}")?;
    file_text(alloc, table, text.as_str())
}
