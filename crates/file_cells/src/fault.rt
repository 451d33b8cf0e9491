//! What may be wrong with the cells of a file.
ghost use Rattle.std.specs.Prelude.{◌≡◌};

use cell_types::CellFault;
use csv_index::TextFault;
use std::alloc::AllocError;

/// A cell that has no value. Rows and columns count from 0.
#[derive(Clone, Copy)]
pub struct BadCell {
    pub row: usize,
    pub col: usize,
    pub fault: CellFault,
}

impl From<AllocError> for BadCell {
    ghost use Rattle.cell_types.specs.declared.fault.CellFault.TheVariants.{NoMemory};

    ghost from_gives = { λ _ bad. bad.fault ≡ NoMemory };

    fn from(fault: AllocError) -> BadCell {
        BadCell {
            row: 0,
            col: 0,
            fault: CellFault::from(fault),
        }
    }
}

/// The first thing that is wrong with a file before the keys of its rows.
#[derive(Clone, Copy)]
pub enum FileFault {
    /// The file is no table.
    Text(TextFault),
    /// The first place where a column and a header cell do not match or one is missing.
    Header(usize),
    /// The first cell, row by row, that has no value.
    Cell(BadCell),
    /// Memory ran out.
    NoMemory,
}

impl From<AllocError> for FileFault {
    ghost use Rattle.file_cells.specs.declared.fault.FileFault.TheVariants.{NoMemory};

    ghost from_gives = { λ _ fault. fault ≡ NoMemory };

    fn from(_: AllocError) -> FileFault {
        FileFault::NoMemory
    }
}
