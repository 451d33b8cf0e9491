//! Why a text has no value in a column.
ghost use Rattle.std.specs.Prelude.{◌≡◌};
ghost use Rattle.cell_types.specs.Fault.{cell_fault_name};

use std::alloc::AllocError;

/// Why a text has no value in a column.
#[derive(Clone, Copy, PartialEq, Eq)]
pub enum CellFault {
    /// The text of an integer is not an optional sign and one or more digits.
    NotInteger,
    /// An integer, or the number of a decimal's millionths, does not fit 64 signed bits.
    OutOfRange,
    /// The text of a boolean is none of those of true and false.
    NotBoolean,
    /// The text of a date is not in the column's form, or no day of the years 1 to 9999.
    NotDate,
    /// The value is null, and the column requires one.
    Missing,
    /// The text of a decimal is not an optional sign and digits with at most one point before, among or after them.
    NotDecimal,
    /// A decimal has a digit other than 0 after the sixth decimal place.
    TooFine,
    /// Memory ran out.
    NoMemory,
}

impl From<AllocError> for CellFault {
    ghost use Rattle.cell_types.specs.declared.fault.CellFault.TheVariants.{NoMemory};

    ghost from_gives = { λ _ fault. fault ≡ NoMemory };

    fn from(_: AllocError) -> CellFault {
        CellFault::NoMemory
    }
}

impl CellFault {
    /// Returns its name, as messages have it.
    pub fn name(&self) -> &'static str
        ensures { result.now ≡ cell_fault_name self.now }
    {
        match self {
            CellFault::NotInteger => "NotInteger",
            CellFault::OutOfRange => "OutOfRange",
            CellFault::NotBoolean => "NotBoolean",
            CellFault::NotDate => "NotDate",
            CellFault::Missing => "Missing",
            CellFault::NotDecimal => "NotDecimal",
            CellFault::TooFine => "TooFine",
            CellFault::NoMemory => "NoMemory",
        }
    }
}
