//! Columns of integers that may be days.
use cell_types::{CellFault, Column, Datatype, DateForm, Value};
use csv_fields::cell_value;
use csv_index::IndexedText;
use std::alloc::{AllocError, Global};
use type_inference::Inference;

/// How many cells of a column are days so far, if each of them is a day or null.
#[derive(Drop)]
pub(crate) struct DayCount {
    pub(crate) col: usize,
    /// A column of dates.
    dates: Column,
    pub(crate) days: usize,
    pub(crate) is_open: bool,
}

/// The columns of integers that may be days without a sign between year, month and day.
#[derive(Drop)]
pub(crate) struct Days {
    pub(crate) counts: Vec<DayCount>,
}

impl DayCount {
    /// Reads the cells of the column in more rows.
    fn read(&mut self, alloc: Global, file: &IndexedText) -> Result<(), AllocError> {
        let col = self.col;
        if !self.is_open || col >= file.width() {
            return Ok(());
        }
        for row in 0..file.rows() {
            match cell_value(alloc, &self.dates, file.cell(row, col)) {
                Ok(Value::Null) => {}
                Ok(_) => self.days = self.days.saturating_add(1),
                Err(CellFault::NoMemory) => return Err(AllocError),
                Err(_) => {
                    self.is_open = false;
                    return Ok(());
                }
            }
        }
        Ok(())
    }
}

impl Days {
    /// Returns the columns of integers among some, of whose cells this is known.
    pub(crate) fn new(
        alloc: Global,
        known: &[Inference],
        columns: &[Column],
    ) -> Result<Days, AllocError> {
        let mut counts = Vec::new(alloc);
        for col in 0..columns.len() {
            let column = &columns[col];
            if let Some(seen) = known.get(col)
                && matches!(column.datatype, Datatype::Integer)
            {
                let dates = Column {
                    name: String::new(alloc),
                    titles: Vec::new(alloc),
                    datatype: Datatype::Date(DateForm::Compact),
                    nulls: seen.nulls(alloc, &column.datatype)?,
                    default: String::new(alloc),
                    required: false,
                };
                counts.push(DayCount {
                    col,
                    dates,
                    days: 0,
                    is_open: true,
                })?;
            }
        }
        Ok(Days { counts })
    }

    /// Returns true if a column is left whose cells may be days.
    pub(crate) fn is_open(&self) -> bool {
        for count in &self.counts {
            if count.is_open {
                return true;
            }
        }
        false
    }

    /// Reads the cells of more rows.
    pub(crate) fn read(&mut self, alloc: Global, file: &IndexedText) -> Result<(), AllocError> {
        for count in &mut self.counts {
            count.read(alloc, file)?;
        }
        Ok(())
    }
}
