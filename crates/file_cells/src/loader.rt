//! The first lines of a file, and their cells.
ghost use Rattle.std.specs.Prelude.{◌≡◌, List, ℕ, [], IfOk, IfErr, IfSome, map};
ghost use Rattle.cell_types.specs.Column.{column_view, ColumnOf};
ghost use Rattle.csv_grammar.specs.Files.{IsFileFault};
ghost use Rattle.csv_index.specs.Fault.{text_cause};
ghost use Rattle.file_cells.specs.Reading.{HasCellsOf, HasFileCells, HasReadTo, IsWrongFile, LoadsWindow, ReadsLinesOf, ReadsToEnd, RefusesAtEnd, RefusesWindow};

use crate::cells::{Cells, with_cells};
use crate::fault::FileFault;
use crate::file_reading::FileCells;
use cell_types::Column;
use column_blocks::columns_read;
use csv_index::TextFault;
use csv_windows::{Front, Piece};
use std::alloc::Global;

/// The first lines of a file that are read, and their cells.
#[derive(Drop)]
pub struct Loader {
    pub front: Front,
    cells: Cells,
}

/// Returns the fault of a file whose text has that fault.
fn fault_of(fault: TextFault) -> FileFault
    ensures { (columns : List ColumnOf) (bytes : List ℕ)
        → IfSome (text_cause fault) (IsFileFault bytes) → IsWrongFile columns bytes result }
{
    match fault {
        TextFault::NoMemory => FileFault::NoMemory,
        _ => FileFault::Text(fault),
    }
}

/// Returns the cells of a file of `rows` rows, or what is wrong with them.
fn columns_of(alloc: Global, cells: Cells, rows: usize) -> Result<FileCells, FileFault>
    requires { (columns : List ColumnOf) × (file : List ℕ) × HasFileCells columns file rows cells }
    ensures reads { IfOk result (λ read. (columns : List ColumnOf) (file : List ℕ)
        → HasFileCells columns file rows cells → HasCellsOf columns file read) }
    ensures fault { IfErr result (λ e. (columns : List ColumnOf) (file : List ℕ)
        → HasFileCells columns file rows cells → IsWrongFile columns file e) }
{
    match cells {
        Cells::Nothing => unreachable!(),
        Cells::Read(readers) => {
            let columns = columns_read(alloc, readers)?;
            Ok(FileCells { columns, rows })
        }
        Cells::Wrong(fault) => Err(fault),
    }
}

impl Loader {
    /// Begins to read a file, of which nothing is read.
    pub fn start() -> Loader
        ensures { (columns : List ColumnOf) → HasReadTo columns [] result }
    {
        Loader {
            front: Front::start(),
            cells: Cells::Nothing,
        }
    }

    /// Reads the whole lines of a window, after which the file goes on. If it has none, or its text needs more of the file, none of it is read, and a longer
    /// window is to be read. The error is what is wrong with the file whatever follows, or out of memory.
    pub fn read(self, alloc: Global, columns: &[Column], window: &[u8]) -> Result<Loader, FileFault>
        requires { (front : List ℕ)
            × LoadsWindow (map column_view columns.now) front window.now self }
        ensures goes_on { IfOk result (λ new. (front : List ℕ)
            → LoadsWindow (map column_view columns.now) front window.now self
            → ReadsLinesOf (map column_view columns.now) front window.now new) }
        ensures fault { IfErr result
            (RefusesWindow (map column_view columns.now) window.now self) }
    {
        let Loader { front, cells } = self;
        match front.read(alloc, window) {
            Ok(Piece::Rows(new, file)) => {
                let cells = with_cells(alloc, columns, front.lines, cells, &file)?;
                Ok(Loader { front: new, cells })
            }
            Ok(Piece::Fault(new)) => Ok(Loader { front: new, cells }),
            Ok(Piece::Short) => Ok(Loader { front, cells }),
            Err(fault) => Err(fault_of(fault)),
        }
    }

    /// Reads the rest of a file. Returns its cells, or what is first wrong with it before its keys.
    pub fn finish(
        self,
        alloc: Global,
        columns: &[Column],
        rest: &[u8],
    ) -> Result<FileCells, FileFault>
        requires { (front : List ℕ)
            × LoadsWindow (map column_view columns.now) front rest.now self }
        ensures reads { IfOk result
            (ReadsToEnd (map column_view columns.now) rest.now self) }
        ensures fault { IfErr result
            (RefusesAtEnd (map column_view columns.now) rest.now self) }
    {
        let Loader { front, cells } = self;
        match front.finish(alloc, rest) {
            Ok((size, file)) => {
                let cells = with_cells(alloc, columns, front.lines, cells, &file)?;
                columns_of(alloc, cells, size.rows)
            }
            Err(fault) => Err(fault_of(fault)),
        }
    }
}
