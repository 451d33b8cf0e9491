//! What is known of a table as its rows are read, twice: first of the values that its cells may have, and then of what its texts look like.
use crate::column::make_columns;
use crate::days::Days;
use crate::guess::Guesser;
use crate::key::may_be_key;
use crate::lines::LinesSeen;
use crate::looks::Sights;
use crate::rows::Cells;
use cell_types::Column;
use csv_index::IndexedText;
use std::alloc::{AllocError, Global};

/// What is known of a table once some of its rows are read.
pub(crate) struct Seen {
    /// Its header, and its first rows.
    pub(crate) first: IndexedText,
    pub(crate) cells: Cells,
    pub(crate) may_be_key: bool,
    pub(crate) lines: LinesSeen,
}

impl Drop for Seen {
    fn drop(self) {
        let Seen {
            first: _,
            cells: _,
            may_be_key: _,
            lines: _,
        } = self;
    }
}

/// What is known of a table that was read, of which some rows were read anew.
pub struct TableGuess {
    pub(crate) seen: Seen,
    pub(crate) columns: Vec<Column>,
    pub(crate) sights: Sights,
    pub(crate) days: Days,
}

impl Drop for TableGuess {
    fn drop(self) {
        self.into_columns();
    }
}

/// Returns what is known of the cells, the key and the lines of a table after its first rows.
fn first_seen(
    guesser: &Guesser,
    first: &IndexedText,
) -> Result<(Cells, bool, LinesSeen), AllocError> {
    let alloc = guesser.alloc;
    let may_be_key = may_be_key(alloc, first)?;
    let lines = LinesSeen::new(alloc, first)?;
    let mut cells = Cells::new(alloc, first.width())?;
    cells.read(alloc, &guesser.candidates, first)?;
    Ok((cells, may_be_key, lines))
}

impl Seen {
    /// Returns what is known of a table after its first rows.
    pub(crate) fn new(guesser: &Guesser, first: IndexedText) -> Result<Seen, AllocError> {
        let (cells, may_be_key, lines) = first_seen(guesser, &first)?;
        Ok(Seen {
            first,
            cells,
            may_be_key,
            lines,
        })
    }

    /// Reads more rows.
    pub(crate) fn read(&mut self, guesser: &Guesser, file: &IndexedText) -> Result<(), AllocError> {
        let alloc = guesser.alloc;
        self.cells.read(alloc, &guesser.candidates, file)?;
        if self.may_be_key {
            self.may_be_key = may_be_key(alloc, file)?;
        }
        self.lines.read(file);
        Ok(())
    }

    /// Reads the last rows of a table, which has `count` rows.
    pub(crate) fn end(
        mut self,
        guesser: &Guesser,
        file: &IndexedText,
        count: usize,
    ) -> Result<TableGuess, AllocError> {
        self.read(guesser, file)?;
        TableGuess::new(guesser.alloc, self, count)
    }
}

impl TableGuess {
    /// Returns what is known of a table of `rows` rows before any is read anew.
    pub(crate) fn new(alloc: Global, seen: Seen, rows: usize) -> Result<TableGuess, AllocError> {
        let known = seen.cells.known.as_slice();
        let columns = make_columns(alloc, known, &seen.first)?;
        let sights = Sights::new(alloc, known, &seen.first, rows)?;
        let days = Days::new(alloc, known, columns.as_slice())?;
        Ok(TableGuess {
            seen,
            columns,
            sights,
            days,
        })
    }

    /// Returns the columns alone.
    pub(crate) fn into_columns(self) -> Vec<Column> {
        let TableGuess {
            columns,
            seen: _,
            sights: _,
            days: _,
        } = self;
        columns
    }

    /// Returns true if the file is to be looked at again.
    pub fn is_open(&self) -> bool {
        self.sights.is_open() || self.days.is_open()
    }

    /// Reads rows anew.
    pub(crate) fn read(&mut self, alloc: Global, file: &IndexedText) -> Result<(), AllocError> {
        self.sights.read(alloc, file)?;
        self.days.read(alloc, file)
    }

    /// Reads the last rows anew.
    pub(crate) fn end(
        mut self,
        alloc: Global,
        file: &IndexedText,
    ) -> Result<TableGuess, AllocError> {
        self.read(alloc, file).and(Ok(self))
    }
}
