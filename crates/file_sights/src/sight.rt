//! A look at all cells of a table before it is written.
use column_forms::CellsSeen;
use csv_records::RecordCell;
use file_convert::{ConvertFault, Counts, is_blank, lines_before, record_at};
use std::alloc::{AllocError, Global};

/// The most lines that are reported.
const MOST_LINES: usize = 20;

/// What is seen of a table.
#[derive(Drop)]
pub(crate) struct Sight {
    pub(crate) titles: Vec<Vec<u8>>,
    /// The columns: those of the header, and those of rows with more cells.
    pub(crate) columns: Vec<CellsSeen>,
    pub(crate) counts: Counts,
    /// The lines of the first rows that have fewer cells than the header, or more that are not empty; and how many these are.
    pub(crate) ragged_lines: Vec<usize>,
    pub(crate) ragged: usize,
}

/// Returns true if a row has fewer cells than a width, or more that are not empty.
fn is_uneven(cells: &[RecordCell<'_>], width: usize) -> bool {
    for place in width..cells.len() {
        if !cells[place].as_slice().is_empty() {
            return true;
        }
    }
    cells.len() < width
}

impl Sight {
    /// Returns what is seen of nothing.
    pub(crate) fn new(alloc: Global) -> Sight {
        Sight {
            titles: Vec::new(alloc),
            columns: Vec::new(alloc),
            counts: Counts {
                rows: 0,
                blank: 0,
                short: 0,
            },
            ragged_lines: Vec::new(alloc),
            ragged: 0,
        }
    }

    /// Sees a header.
    pub(crate) fn see_header(
        &mut self,
        alloc: Global,
        titles: &[RecordCell<'_>],
    ) -> Result<(), AllocError> {
        for title in titles {
            let title = Vec::from_slice(alloc, title.as_slice())?;
            self.titles.push(title).or(Err(AllocError))?;
        }
        self.add_columns(alloc, titles.len())
    }

    /// Adds columns of which no cell is seen yet, until there are `count`.
    fn add_columns(&mut self, alloc: Global, count: usize) -> Result<(), AllocError> {
        for _column in self.columns.len()..count {
            let seen = CellsSeen::new(alloc)?;
            self.columns.push(seen).or(Err(AllocError))?;
        }
        Ok(())
    }

    /// Sees the cells of a row.
    fn see_cells(&mut self, alloc: Global, cells: &[RecordCell<'_>]) -> Result<(), AllocError> {
        self.add_columns(alloc, cells.len())?;
        for place in 0..cells.len() {
            if let Some(seen) = self.columns.get_mut(place) {
                seen.read(cells[place].as_slice())?;
            }
        }
        Ok(())
    }

    /// Sees a row.
    fn see_row(
        &mut self,
        alloc: Global,
        line: usize,
        cells: &[RecordCell<'_>],
    ) -> Result<(), AllocError> {
        let width = self.titles.len();
        if width > 1 && is_blank(cells) {
            self.counts.blank = self.counts.blank.saturating_add(1);
            return Ok(());
        }
        self.counts.rows = self.counts.rows.saturating_add(1);
        if cells.len() < width {
            self.counts.short = self.counts.short.saturating_add(1);
        }
        if is_uneven(cells, width) {
            self.ragged = self.ragged.saturating_add(1);
            if self.ragged_lines.len() < MOST_LINES {
                self.ragged_lines.push(line)?;
            }
        }
        self.see_cells(alloc, cells)
    }

    /// Sees the rows of a text. Returns the number of the line after them.
    pub(crate) fn see_rows(
        &mut self,
        alloc: Global,
        separator: u8,
        text: &[u8],
        first_line: usize,
    ) -> Result<usize, ConvertFault> {
        let mut left = text;
        let mut line = first_line;
        for _row in 0..text.len() {
            if left.is_empty() {
                break;
            }
            let read = record_at(alloc, separator, left, line)?;
            self.see_row(alloc, line, read.cells.as_slice())?;
            line = line.saturating_add(lines_before(left, read.rest));
            left = read.rest;
        }
        Ok(line)
    }
}
