//! The rows of a table as they are written.
ghost use Rattle.std.specs.Prelude.{◌≡◌, IfOk, length, map};
ghost use Rattle.std.specs.Cow.{cow_slice_items};
ghost use Rattle.file_convert.specs.Rows.{AppendsCells, AreTitled, AreWritten, plan_of};

use crate::cells::cell_at;
use crate::made::{made_in, push_made, push_titles};
use crate::report::{ColumnReport, ReportKind};
use csv_records::RecordCell;
use std::alloc::{AllocError, Global};
use value_forms::{Form, Made, rounded_text};

impl ColumnReport {
    /// Counts a cell that is changed.
    fn count(&mut self, line: usize, cell: &[u8], made: &Made) -> Result<(), AllocError>
        ensures { plan_of self.new ≡ plan_of self.old }
    {
        if made.text.as_slice() == cell && made.time.is_none() {
            return Ok(());
        }
        if self.changed == 0 {
            self.line = line;
            self.before.extend_from_slice(cell)?;
            self.after.extend_from_slice(made.text.as_slice())?;
        }
        self.changed = self.changed.saturating_add(1);
        Ok(())
    }

    /// Counts a number with more than six decimal places.
    fn count_fine(&mut self, alloc: Global, line: usize, number: &[u8]) -> Result<(), AllocError>
        ensures { plan_of self.new ≡ plan_of self.old }
    {
        if let Some(rounded) = rounded_text(alloc, number)? {
            self.add_fine(line, rounded.difference);
        }
        Ok(())
    }

    /// Counts one.
    fn add_fine(&mut self, line: usize, difference: u64)
        ensures { plan_of self.new ≡ plan_of self.old }
    {
        if self.fine == 0 {
            self.fine_line = line;
        }
        self.fine = self.fine.saturating_add(1);
        self.difference = self.difference.max(difference);
    }

    /// Returns true if its cells are numbers.
    fn is_number(&self) -> bool {
        matches!(self.kind, ReportKind::Form(Form::Number(_)))
    }

    /// Counts what is changed in a cell, or found in it.
    fn note(
        &mut self,
        alloc: Global,
        line: usize,
        cell: &[u8],
        made: &Option<Made>,
    ) -> Result<(), AllocError>
        ensures { plan_of self.new ≡ plan_of self.old }
    {
        let Some(made) = made else {
            if self.is_number() {
                self.count_fine(alloc, line, cell)?;
            }
            return Ok(());
        };
        self.count(line, cell, made)?;
        if made.difference > 0 {
            self.add_fine(line, made.difference);
        } else if self.is_number() {
            self.count_fine(alloc, line, made.text.as_slice())?;
        }
        Ok(())
    }

    /// Counts a cell that is the text that was asked to stand for null.
    fn note_null(&mut self, cell: &[u8])
        ensures { plan_of self.new ≡ plan_of self.old }
    {
        if let Some(null) = &self.asked_null
            && null.as_slice() == cell
        {
            self.asked_cells = self.asked_cells.saturating_add(1);
        }
    }

    /// Appends what the column writes for a cell to a row, and counts what is changed.
    fn write<'a>(
        &mut self,
        alloc: Global,
        row: &mut Vec<RecordCell<'a>>,
        line: usize,
        cell: &'a [u8],
    ) -> Result<(), AllocError>
        ensures plan { plan_of self.new ≡ plan_of self.old }
        ensures cells { IfOk result (λ _. AppendsCells (plan_of self.old) cell.now
            (map cow_slice_items row.old.items) (map cow_slice_items row.new.items)) }
    {
        let kind = self.kind;
        self.note_null(cell);
        let made = made_in(alloc, kind, self.rounds, cell)?;
        self.note(alloc, line, cell, &made)?;
        push_made(row, kind, cell, made)
    }
}

/// Returns the row that the columns write for the cells of a record.
pub(crate) fn row_of<'a>(
    alloc: Global,
    reports: &mut [ColumnReport],
    line: usize,
    cells: &'a [RecordCell<'_>],
) -> Result<Vec<RecordCell<'a>>, AllocError>
    ensures plans { map plan_of reports.new ≡ map plan_of reports.old }
    ensures row { IfOk result (λ row. AreWritten (map plan_of reports.old)
        (map cow_slice_items cells.now) (length reports.old)
        (map cow_slice_items row.items)) }
{
    let mut row = Vec::new(alloc);
    for (place, report) in reports.iter_mut().enumerate() {
        report.write(alloc, &mut row, line, cell_at(cells, place))?;
    }
    Ok(row)
}

/// Returns the header that the columns write.
pub(crate) fn header_of<'a>(
    alloc: Global,
    reports: &[ColumnReport],
    titles: &'a [RecordCell<'_>],
) -> Result<Vec<RecordCell<'a>>, AllocError>
    ensures { IfOk result (λ row. AreTitled (map plan_of reports.now)
        (map cow_slice_items titles.now) (length reports.now)
        (map cow_slice_items row.items)) }
{
    let mut row = Vec::new(alloc);
    for (place, report) in reports.iter().enumerate() {
        push_titles(alloc, &mut row, report.kind, cell_at(titles, place))?;
    }
    Ok(row)
}
