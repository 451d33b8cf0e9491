//! A file that is looked at as it comes, and again if there is more to see.
ghost use Rattle.std.specs.Prelude.{◌≡◌, ◌≢◌, ◌++◌, ℕ, List, [], IfOk};
ghost use Rattle.schema_inference.specs.Looks.{GivesTo, IsLookedAt, IsLooking};

use crate::fault::LeftOutCause;
use crate::guess::Guesser;
use crate::sight::{Seen, TableGuess};
use csv_index::{IndexedText, TextFault};
use folder_checks::{Fed, Windows};
use std::alloc::{AllocError, Global};

/// What is known of the rows of a table that were read.
pub(crate) enum Sight {
    /// Nothing: none was read, or the table has too many columns.
    Nothing,
    /// What values their cells may have.
    Seen(Seen),
    /// What the texts of their cells look like, once it is known what values these have.
    Looked(TableGuess),
}

impl Drop for Sight {
    fn drop(self) {
        match self {
            Sight::Nothing => {}
            Sight::Seen(_) => {}
            Sight::Looked(_) => {}
        }
    }
}

/// A file that is looked at as it comes.
pub struct FileGuess {
    windows: Windows,
    sight: Sight,
}

impl Drop for FileGuess {
    fn drop(self) {
        let FileGuess {
            windows: _,
            sight: _,
        } = self;
    }
}

/// Returns why a file has no schema whose text has a fault.
fn cause_of(fault: TextFault) -> Result<LeftOutCause, AllocError>
    ensures cause { IfOk result (λ cause. cause ≡ LeftOutCause.NoTable fault) }
    ensures known { IfOk result (λ _. fault ≢ TextFault.NoMemory) }
{
    match fault {
        TextFault::NoMemory => Err(AllocError),
        fault => Ok(LeftOutCause::NoTable { fault }),
    }
}

impl Sight {
    /// Reads the first rows, unless the table has too many columns.
    fn begin(&mut self, guesser: &Guesser, rows: IndexedText) -> Result<(), AllocError> {
        if rows.width() <= guesser.aims.limits.columns as usize {
            *self = Sight::Seen(Seen::new(guesser, rows)?);
        }
        Ok(())
    }

    /// Reads rows that are not the first.
    fn read_on(&mut self, guesser: &Guesser, rows: &IndexedText) -> Result<(), AllocError> {
        match self {
            Sight::Nothing => Ok(()),
            Sight::Seen(seen) => seen.read(guesser, rows),
            Sight::Looked(table) => table.read(guesser.alloc, rows),
        }
    }

    /// Reads more rows.
    fn read(&mut self, guesser: &Guesser, rows: IndexedText) -> Result<(), AllocError> {
        match self {
            Sight::Nothing => self.begin(guesser, rows),
            _ => self.read_on(guesser, &rows),
        }
    }

    /// Reads the last rows of a table, which has `count` rows.
    fn end(
        self,
        guesser: &Guesser,
        rows: IndexedText,
        count: usize,
    ) -> Result<TableGuess, AllocError> {
        match self {
            Sight::Nothing => TableGuess::new(guesser.alloc, Seen::new(guesser, rows)?, count),
            Sight::Seen(seen) => seen.end(guesser, &rows, count),
            Sight::Looked(table) => table.end(guesser.alloc, &rows),
        }
    }
}

impl FileGuess {
    /// Begins to look at a file, of which nothing is given.
    pub fn start(alloc: Global) -> FileGuess
        ensures { IsLooking [] result }
    {
        FileGuess {
            windows: Windows::start(alloc),
            sight: Sight::Nothing,
        }
    }

    /// Begins to look again at the file of a table.
    pub fn again(alloc: Global, table: TableGuess) -> FileGuess
        ensures { IsLooking [] result }
    {
        FileGuess {
            windows: Windows::start(alloc),
            sight: Sight::Looked(table),
        }
    }

    /// Gives the next bytes of the file. Returns why it has no schema whatever follows, if it has none.
    pub fn feed(
        self,
        guesser: &Guesser,
        bytes: &[u8],
    ) -> Result<Result<FileGuess, LeftOutCause>, AllocError>
        requires { (given : List ℕ) × IsLooking given self }
        ensures { IfOk result (λ fed. (given : List ℕ) → IsLooking given self
            → GivesTo guesser.now.aims.limits (given ++ bytes.now) fed) }
    {
        let FileGuess { windows, mut sight } = self;
        if windows.given() + bytes.len() > guesser.aims.limits.file as usize {
            return Ok(Err(LeftOutCause::TooLarge));
        }
        match windows.feed(guesser.alloc, bytes) {
            Ok(Fed::Rows(_, rows, windows)) => {
                sight.read(guesser, rows)?;
                Ok(Ok(FileGuess { windows, sight }))
            }
            Ok(Fed::On(windows)) => Ok(Ok(FileGuess { windows, sight })),
            Err(fault) => Ok(Err(cause_of(fault)?)),
        }
    }

    /// Ends the look at a file that was given whole. Returns the table that it is, or why it has no schema.
    pub fn end(self, guesser: &Guesser) -> Result<Result<TableGuess, LeftOutCause>, AllocError>
        requires { (given : List ℕ) × IsLooking given self }
        ensures { IfOk result (λ end. (given : List ℕ) → IsLooking given self
            → IsLookedAt guesser.now.aims.limits given end) }
    {
        let FileGuess { windows, sight } = self;
        match windows.end(guesser.alloc) {
            Ok((_, rows, size)) => {
                let columns = size.width;
                if columns > guesser.aims.limits.columns as usize {
                    return Ok(Err(LeftOutCause::ManyColumns { columns }));
                }
                Ok(Ok(sight.end(guesser, rows, size.rows)?))
            }
            Err(fault) => Ok(Err(cause_of(fault)?)),
        }
    }
}
