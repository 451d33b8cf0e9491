//! What is known of a column when some of its cells are read.
use crate::cells::without_white;
use crate::form::CellForm;
use crate::reading::{CellReading, reading_in};
use crate::types::{
    Candidates, DAY_FIRST, MONTH_FIRST, NULL_WORDS, PLACES, WORD_COUNT, datatype_at, null_word,
};
use cell_types::Datatype;
use std::alloc::{AllocError, Global};

/// What is known of a column when some of its cells are read. The datatypes that are left for it only become fewer.
#[derive(Drop)]
pub struct Inference {
    /// The indexes of the datatypes under which all cells have values.
    pub left: Vec<usize>,
    /// How many cells are each of the texts that may stand for null beside the empty one.
    pub words: [usize; 7],
    /// All cells are null.
    pub all_null: bool,
    pub form: CellForm,
}

/// Returns the empty text, and the words of which there are some.
pub(crate) fn flagged_words(alloc: Global, counts: &[usize]) -> Result<Vec<String>, AllocError> {
    let mut words = Vec::new(alloc);
    words.push(String::new(alloc))?;
    for (word, count) in NULL_WORDS.iter().zip(counts) {
        if *count > 0 {
            let word = String::from_str(alloc, word)?;
            words.push(word)?;
        }
    }
    Ok(words)
}

/// Keeps the datatypes under which a cell has a value.
fn keep_readable(
    alloc: Global,
    candidates: &Candidates,
    left: &mut Vec<usize>,
    cell: &str,
) -> Result<(), AllocError> {
    let mut next = 0;
    while next < left.len() {
        let reading = match candidates.typed.get(left[next]) {
            Some(column) => reading_in(alloc, column, cell)?,
            None => CellReading::HasNone,
        };
        if matches!(reading, CellReading::HasNone) {
            left.remove(next);
        } else {
            next += 1;
        }
    }
    Ok(())
}

impl Inference {
    /// Returns what is known if no cell is read.
    pub fn new(alloc: Global) -> Result<Inference, AllocError> {
        let left = Vec::from_slice(alloc, &PLACES)?;
        Ok(Inference {
            left,
            words: [0; WORD_COUNT],
            all_null: true,
            form: CellForm::new(),
        })
    }

    /// Counts a cell that may stand for null, and returns true if it does.
    fn counts_null(&mut self, text: &str) -> bool {
        if let Some(place) = null_word(text)
            && let Some(count) = self.words.get_mut(place)
        {
            *count = count.saturating_add(1);
            return true;
        }
        text.is_empty()
    }

    /// Reads one more cell.
    pub fn read(
        &mut self,
        alloc: Global,
        candidates: &Candidates,
        cell: &str,
    ) -> Result<(), AllocError> {
        let text = without_white(cell);
        if self.counts_null(text) {
            return Ok(());
        }
        self.all_null = false;
        self.form.read(text);
        keep_readable(alloc, candidates, &mut self.left, cell)
    }

    /// Reads one more cell of a column of texts.
    pub fn pass(&mut self, cell: &str) {
        self.counts_null(without_white(cell));
    }

    /// Returns how many cells are the text of an index among those that may stand for null.
    pub fn count(&self, place: usize) -> usize {
        self.words.get(place).copied().unwrap_or(0)
    }

    /// Returns true if the column is one of texts, whatever its other cells are.
    pub fn is_text(&self) -> bool {
        self.form.padded || self.left.as_slice().is_empty()
    }

    /// Returns true if the cells fit a date with the day first and one with the month first.
    pub fn has_two_dates(&self) -> bool {
        let left = self.left.as_slice();
        !self.all_null && left.contains(&DAY_FIRST) && left.contains(&MONTH_FIRST)
    }

    /// Returns true if the column is left as one of texts, though a datatype may fit.
    pub fn stays_text(&self) -> bool {
        self.all_null || self.form.padded || self.form.are_versions() || self.has_two_dates()
    }

    /// Returns the datatype of the column: the first that is left, if its cells are not left as texts.
    pub fn datatype(&self, alloc: Global) -> Result<Datatype, AllocError> {
        match self.left.first() {
            Some(place) if !self.stays_text() => datatype_at(alloc, *place),
            _ => Ok(Datatype::Text),
        }
    }

    /// Returns the texts that stand for null in a column of a datatype: of texts the empty one alone.
    pub fn nulls(&self, alloc: Global, datatype: &Datatype) -> Result<Vec<String>, AllocError> {
        match datatype {
            Datatype::Text => flagged_words(alloc, &[]),
            _ => flagged_words(alloc, &self.words),
        }
    }
}
