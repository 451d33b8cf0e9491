//! What the cells of columns of texts look like.
use crate::fault::OtherCell;
use csv_index::{IndexedText, Raw};
use std::alloc::{AllocError, Global};
use type_inference::{Inference, LOOK_COUNT, Look, NULL_WORDS, look_of, without_white};

/// One of this many cells may look different from the others.
const ALIKE: usize = 20;

/// The cells of a column that look alike.
#[derive(Drop)]
struct Group {
    cells: usize,
    /// The first.
    first: OtherCell,
    is_loose: bool,
}

/// What the cells of a column look like that are not null.
#[derive(Drop)]
pub(crate) struct Looks {
    /// The cells may look alike.
    is_open: bool,
    cells: usize,
    /// By their looks, and after these those that look like nothing.
    groups: Vec<Group>,
    /// The look of the most cells.
    most: usize,
    is_fine: bool,
}

/// What most cells of a column look like.
#[derive(Clone, Copy)]
pub(crate) struct Likeness<'a> {
    pub(crate) look: usize,
    pub(crate) is_loose: bool,
    /// How many cells there are, and how many look so.
    pub(crate) cells: usize,
    pub(crate) alike: usize,
    /// The first that looks different.
    pub(crate) other: Option<&'a OtherCell>,
    /// All are numbers, and one has more than six decimal places.
    pub(crate) is_fine: bool,
}

impl Looks {
    /// Returns the looks of no cell.
    fn new(alloc: Global, is_open: bool) -> Result<Looks, AllocError> {
        let mut groups = Vec::new(alloc);
        for _look in 0..=LOOK_COUNT {
            groups.push(Group {
                cells: 0,
                first: OtherCell {
                    line: 0,
                    text: String::new(alloc),
                },
                is_loose: false,
            })?;
        }
        Ok(Looks {
            is_open,
            cells: 0,
            groups,
            most: 0,
            is_fine: false,
        })
    }

    /// Returns how many cells have a look.
    fn count(&self, look: usize) -> usize {
        match self.groups.get(look) {
            Some(group) => group.cells,
            None => 0,
        }
    }

    /// Reads the cell of a line. If more cells look different than may, no more is read.
    fn read(
        &mut self,
        alloc: Global,
        cell: &str,
        line: usize,
        most_others: usize,
    ) -> Result<(), AllocError> {
        let text = without_white(cell);
        if text.is_empty() || NULL_WORDS.contains(&text) {
            return Ok(());
        }
        let look = look_of(text).unwrap_or(Look {
            look: LOOK_COUNT,
            is_loose: false,
            is_fine: false,
        });
        self.is_fine |= look.is_fine;
        self.cells = self.cells.saturating_add(1);
        if let Some(group) = self.groups.get_mut(look.look) {
            if group.cells == 0 {
                let text = String::from_str(alloc, cell)?;
                group.first = OtherCell { line, text };
            }
            group.cells = group.cells.saturating_add(1);
            group.is_loose |= look.is_loose;
        }
        if look.look < LOOK_COUNT && self.count(look.look) > self.count(self.most) {
            self.most = look.look;
        }
        self.is_open = self.cells.saturating_sub(self.count(self.most)) <= most_others;
        Ok(())
    }

    /// Returns the first cell that does not have the look of the most.
    fn first_other(&self) -> Option<&OtherCell> {
        let mut first: Option<&OtherCell> = None;
        for (look, group) in self.groups.iter().enumerate() {
            if look == self.most || group.cells == 0 {
                continue;
            }
            first = match first {
                Some(cell) if cell.line < group.first.line => Some(cell),
                _ => Some(&group.first),
            };
        }
        first
    }

    /// Returns what the cells look like, if all or nearly all look alike.
    pub(crate) fn likeness(&self) -> Option<Likeness<'_>> {
        let group = self.groups.get(self.most)?;
        let others = self.cells.saturating_sub(group.cells);
        if !self.is_open || group.cells == 0 || others.saturating_mul(ALIKE) > self.cells {
            return None;
        }
        Some(Likeness {
            look: self.most,
            is_loose: group.is_loose,
            cells: self.cells,
            alike: group.cells,
            other: self.first_other(),
            is_fine: self.is_fine && others == 0,
        })
    }
}

/// What the cells of columns look like once some of their rows are read, of those that can only be columns of texts.
#[derive(Drop)]
pub(crate) struct Sights {
    pub(crate) columns: Vec<Looks>,
    /// The line in which the next row begins.
    line: usize,
    most_others: usize,
}

/// Returns how many line breaks are in a field.
fn breaks_in(field: Raw<'_>) -> usize {
    let bytes = field.bytes.as_bytes();
    bytes.iter().filter(|byte| **byte == b'\n').count()
}

impl Sights {
    /// Returns what columns of `rows` rows after a header look like, of whose cells this is known, before any is looked at.
    pub(crate) fn new(
        alloc: Global,
        known: &[Inference],
        header: &IndexedText,
        rows: usize,
    ) -> Result<Sights, AllocError> {
        let mut columns = Vec::new(alloc);
        for seen in known {
            let looks = Looks::new(alloc, seen.left.is_empty() && !seen.form.padded)?;
            columns.push(looks)?;
        }
        let mut line: usize = 2;
        for col in 0..header.width() {
            line = line.saturating_add(breaks_in(header.header(col)));
        }
        Ok(Sights {
            columns,
            line,
            most_others: rows / ALIKE,
        })
    }

    /// Returns true if a column is left whose cells may look alike.
    pub(crate) fn is_open(&self) -> bool {
        for looks in &self.columns {
            if looks.is_open {
                return true;
            }
        }
        false
    }

    /// Looks at the cells of more rows. It ends if no column is left whose cells may look alike.
    pub(crate) fn read(&mut self, alloc: Global, file: &IndexedText) -> Result<(), AllocError> {
        let mut fields = file.fields(0);
        for _row in 0..file.rows() {
            if !self.is_open() {
                return Ok(());
            }
            for looks in &mut self.columns {
                let Some(raw) = fields.next_field() else {
                    return Ok(());
                };
                if looks.is_open {
                    let text = raw.text(alloc)?;
                    looks.read(alloc, text.as_str(), self.line, self.most_others)?;
                }
                self.line = self.line.saturating_add(breaks_in(raw));
            }
            self.line = self.line.saturating_add(1);
        }
        Ok(())
    }
}
