//! Why files have no draft, and what their publisher should look at.
ghost use Rattle.std.specs.Prelude.{◌≡◌};

use csv_index::TextFault;
use std::alloc::AllocError;
use table_store::LoadFault;

/// Why there is no draft.
pub enum DraftFault {
    /// No file is a table that is served.
    NoTables,
    /// More files are tables than are served.
    TooManyTables,
    /// The service refuses the draft, for that cause. It never should: this is a defect of the draft.
    Refused(LoadFault),
    /// Memory ran out.
    NoMemory,
}

impl Drop for DraftFault {
    fn drop(self) {
        match self {
            DraftFault::Refused(_) => {}
            DraftFault::NoTables | DraftFault::TooManyTables | DraftFault::NoMemory => {}
        }
    }
}

impl DraftFault {
    /// Returns true if a table is refused for its key.
    pub fn is_of_key(&self) -> bool {
        matches!(
            self,
            DraftFault::Refused(LoadFault::KeyNull { .. } | LoadFault::KeyTwice { .. })
        )
    }
}

impl From<AllocError> for DraftFault {
    ghost use Rattle.schema_inference.specs.declared.fault.DraftFault.TheVariants.{NoMemory};

    ghost from_gives = { λ _ fault. fault ≡ NoMemory };

    fn from(_: AllocError) -> DraftFault {
        DraftFault::NoMemory
    }
}

/// Why a file has no schema.
#[derive(Clone, Copy)]
pub enum LeftOutCause {
    /// Its name can't be a `url`.
    NotUrl,
    /// It has more bytes than the limit.
    TooLarge,
    /// It is no table.
    NoTable { fault: TextFault },
    /// It is a table of more columns than the limit.
    ManyColumns { columns: usize },
}

/// A file that has no schema, by its number from 0.
#[derive(Clone, Copy)]
pub struct LeftOut {
    pub file: usize,
    pub cause: LeftOutCause,
}

/// A cell: the line in which it is, and its text.
#[derive(Drop)]
pub struct OtherCell {
    pub line: usize,
    pub text: String,
}

/// What the publisher of files that have schemas should look at. Files and columns count from 0.
#[derive(Drop)]
pub enum Warning {
    /// Each cell of a column is a date with the day first, and one with the month first: it is a column of texts.
    TwoDates {
        file: usize,
        col: usize,
    },
    /// The cells of a column are numbers, and one is finer than six places: it is a column of texts.
    TooFine {
        file: usize,
        col: usize,
    },
    /// All cells of a column of texts that are not null look alike, or nearly all of them.
    Alike {
        file: usize,
        col: usize,
        /// What they look like.
        form: &'static str,
        /// How many cells there are, and how many look so.
        cells: usize,
        alike: usize,
        /// The first that looks different.
        other: Option<OtherCell>,
    },
    /// The cells of a column of integers are days as yyyyMMdd; `cells` of them.
    Days {
        file: usize,
        col: usize,
        cells: usize,
    },
    /// A column is called a version, and its cells are decimals: it is a column of texts.
    Version {
        file: usize,
        col: usize,
    },
    /// Cells of a column of texts, `cells` of them, are a text that is null in another column.
    NullElsewhere {
        file: usize,
        col: usize,
        /// The other column.
        other: usize,
        word: &'static str,
        cells: usize,
    },
    /// A header cell is empty.
    EmptyHeader {
        file: usize,
        col: usize,
    },
    /// Rows at the end, `rows` of them, have only empty cells.
    EmptyRows {
        file: usize,
        rows: usize,
    },
    /// There is one column, and this byte is in each line: it may separate fields.
    OtherSeparator {
        file: usize,
        byte: u8,
    },
    /// Each header cell of a column that is none of texts is a value of it: the first line may be data.
    HeaderIsData {
        file: usize,
    },
}
