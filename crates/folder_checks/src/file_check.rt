//! A file that is checked as it comes.
ghost use Rattle.std.specs.Prelude.{◌≡◌, ◌≤◌, ◌+◌, ◌^◌, ◌++◌, ℕ, List, [], IfOk, IfErr, IfSome, length};
ghost use Rattle.csv_grammar.specs.Files.{IsFileFault};
ghost use Rattle.csv_grammar.specs.Raw.{RawTable};
ghost use Rattle.csv_index.specs.Fault.{text_cause};
ghost use Rattle.csvw_meta.specs.Schema.{schema_view, SchemaOf};
ghost use Rattle.cell_types.specs.Column.{ColumnOf};
ghost use Rattle.file_cells.specs.Reading.{IsWrongFile};
ghost use Rattle.table_store.specs.Loading.{HasFileCause, HasKeyColumns};
ghost use Rattle.folder_checks.specs.Cells.{HasRight};
ghost use Rattle.folder_checks.specs.Checks.{check_cause, check_len, AreWhole, IsChecking, IsSomeTable, RefusesAll, RefusesKeys};

use crate::cells::{KeptCells, with_cells};
use crate::fault::CheckFault;
use crate::windows::{Fed, Windows};
use column_blocks::{ColumnReader, columns_read};
use csv_index::TextFault;
use csvw_meta::Schema;
use file_cells::FileFault;
use key_index::{KeyStep, KeysReading};
use std::alloc::Global;

/// A file that is checked as it comes.
pub struct FileCheck {
    windows: Windows,
    cells: KeptCells,
}

impl Drop for FileCheck {
    fn drop(self) {
        let FileCheck {
            windows: _,
            cells: _,
        } = self;
    }
}

/// Returns the fault of a file whose text has that fault.
fn fault_of(fault: TextFault) -> FileFault
    ensures { (columns : List ColumnOf) (bytes : List ℕ)
        → IfSome (text_cause fault) (IsFileFault bytes) → IsWrongFile columns bytes result }
{
    match fault {
        TextFault::NoMemory => FileFault::NoMemory,
        _ => FileFault::Text(fault),
    }
}

/// Checks the keys of `rows` rows, by the cells of their columns.
fn check_keys(
    alloc: Global,
    schema: &Schema,
    readers: Vec<ColumnReader>,
    rows: usize,
) -> Result<(), CheckFault>
    requires key { HasKeyColumns (schema_view schema.now) }
    requires few { rows ≤ 2 ^ 30 }
    requires right { (raw : RawTable) × (rows ≡ length raw.rows)
        × HasRight (schema_view schema.now) raw readers.items }
    ensures keys { IfOk result (λ _. (raw : RawTable) → rows ≡ length raw.rows
        → HasRight (schema_view schema.now) raw readers.items
        → AreWhole (schema_view schema.now) raw.rows) }
    ensures fault { IfErr result (RefusesKeys (schema_view schema.now) rows readers.items) }
{
    let columns = columns_read(alloc, readers)?;
    let mut keys = KeysReading::start(columns, rows);
    loop {
        match keys.step(alloc, schema.key.as_slice())? {
            KeyStep::On(on) => keys = on,
            KeyStep::Over(_) => return Ok(()),
            KeyStep::Refused(fault) => return Err(CheckFault::Key(fault)),
        }
    }
}

impl FileCheck {
    /// Begins to check a file, of which nothing is read.
    pub fn start(alloc: Global) -> FileCheck
        ensures { (schema : SchemaOf) → IsChecking schema [] result }
    {
        FileCheck {
            windows: Windows::start(alloc),
            cells: Ok(Vec::new(alloc)),
        }
    }

    /// Returns how many bytes were given.
    pub fn given(&self) -> usize
        requires { (schema : SchemaOf) × (given : List ℕ) × IsChecking schema given self.now }
        ensures is { result ≡ check_len self.now }
        ensures all { (schema : SchemaOf) (given : List ℕ) → IsChecking schema given self.now
            → result ≡ length given }
    {
        self.windows.given()
    }

    /// Gives the next bytes of the file. The error is what is wrong with it whatever follows, or out of memory.
    pub fn feed(self, alloc: Global, schema: &Schema, bytes: &[u8]) -> Result<FileCheck, FileFault>
        requires room { check_len self + length bytes.now ≤ 2 ^ 30 }
        requires checks { (given : List ℕ) × IsChecking (schema_view schema.now) given self }
        ensures checks { IfOk result (λ new. (given : List ℕ)
            → IsChecking (schema_view schema.now) given self
            → IsChecking (schema_view schema.now) (given ++ bytes.now) new) }
        ensures fault { IfErr result (RefusesAll (schema_view schema.now) bytes.now self) }
    {
        let FileCheck { windows, cells } = self;
        match windows.feed(alloc, bytes) {
            Ok(Fed::Rows(first, file, windows)) => Ok(FileCheck {
                windows,
                cells: with_cells(alloc, schema, first, cells, &file),
            }),
            Ok(Fed::On(windows)) => Ok(FileCheck { windows, cells }),
            Err(fault) => Err(fault_of(fault)),
        }
    }

    /// Ends the check of a file that was given whole: reads the rest of it, and then its keys.
    pub fn end(self, alloc: Global, schema: &Schema) -> Result<(), CheckFault>
        requires key { HasKeyColumns (schema_view schema.now) }
        requires checks { (given : List ℕ) × IsChecking (schema_view schema.now) given self }
        ensures table { IfOk result (λ _. (given : List ℕ)
            → IsChecking (schema_view schema.now) given self
            → IsSomeTable (schema_view schema.now) given) }
        ensures fault { IfErr result (λ e. (given : List ℕ)
            → IsChecking (schema_view schema.now) given self
            → IfSome (check_cause e) (HasFileCause (schema_view schema.now) given)) }
    {
        let FileCheck { windows, cells } = self;
        match windows.end(alloc) {
            Ok((first, file, size)) => match with_cells(alloc, schema, first, cells, &file) {
                Ok(readers) => check_keys(alloc, schema, readers, size.rows),
                Err(fault) => Err(CheckFault::File(fault)),
            },
            Err(fault) => Err(CheckFault::File(fault_of(fault))),
        }
    }
}
