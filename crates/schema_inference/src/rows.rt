//! What is known of the columns of a file once some of its rows are read, one after another.
use csv_index::{IndexedText, Raw};
use std::alloc::{AllocError, Global};
use type_inference::{Candidates, Inference};

/// The bytes of a field from which on it is not looked at for a text that may stand for null.
const LONG: usize = 16;

/// Returns true if a field begins as a text that may stand for null, or with white space.
fn may_be_null(field: &str) -> bool {
    match field.as_bytes().first() {
        Some(first) => *first <= b' ' || b"Nn-.#".contains(first),
        None => false,
    }
}

/// Reads a field into what is known of its column. Returns true if the column may be another than one of texts.
fn read_field(
    alloc: Global,
    candidates: &Candidates,
    seen: &mut Inference,
    raw: Raw<'_>,
) -> Result<bool, AllocError> {
    if seen.is_text() {
        if raw.bytes.len() < LONG && may_be_null(raw.bytes) {
            seen.pass(raw.bytes);
        }
        return Ok(false);
    }
    let text = raw.text(alloc)?;
    seen.read(alloc, candidates, text.as_str()).and(Ok(true))
}

/// What is known of columns once some of their cells are read.
#[derive(Drop)]
pub(crate) struct Cells {
    pub(crate) known: Vec<Inference>,
    /// A column is left that may be another than one of texts.
    is_open: bool,
}

impl Cells {
    /// Returns what is known of that many columns before their cells are read.
    pub(crate) fn new(alloc: Global, width: usize) -> Result<Cells, AllocError> {
        let mut known = Vec::new(alloc);
        for _made in 0..width {
            let seen = Inference::new(alloc)?;
            known.push(seen)?;
        }
        Ok(Cells {
            known,
            is_open: true,
        })
    }

    /// Reads the cells of more rows. It ends if no column is left that may be another than one of texts.
    pub(crate) fn read(
        &mut self,
        alloc: Global,
        candidates: &Candidates,
        file: &IndexedText,
    ) -> Result<(), AllocError> {
        if !self.is_open {
            return Ok(());
        }
        let mut fields = file.fields(0);
        for _row in 0..file.rows() {
            let mut is_open = false;
            for seen in &mut self.known {
                let Some(raw) = fields.next_field() else {
                    return Ok(());
                };
                is_open |= read_field(alloc, candidates, seen, raw)?;
            }
            if !is_open {
                self.is_open = false;
                return Ok(());
            }
        }
        Ok(())
    }
}
