//! The bytes with which the texts of a column may begin. They are guessed: a text that begins with others is put in order all the same.
ghost use Rattle.std.specs.Prelude.{◌≡◌, []};
ghost use Rattle.order_columns.specs.Plain.{front_bytes};

use block_summary::{Range, Summary};
use cell_types::{ColumnKind, Value};
use typed_trees::PlainColumn;

/// The most bytes of a front.
const MOST: usize = 64;

/// Bytes with which texts may begin.
#[derive(Clone, Copy)]
pub struct TextFront {
    bytes: [u8; MOST],
    len: usize,
}

impl TextFront {
    /// Returns no bytes.
    pub fn none() -> TextFront
        ensures { front_bytes result ≡ [] }
    {
        TextFront {
            bytes: [0; MOST],
            len: 0,
        }
    }

    /// Returns the first bytes of a text, as many as a front may have.
    fn of(text: &[u8]) -> TextFront {
        let len = text.len().min(MOST);
        let mut bytes = [0; MOST];
        bytes[..len].copy_from_slice(&text[..len]);
        TextFront { bytes, len }
    }

    /// Returns the bytes.
    #[inline(always)]
    pub fn bytes(&self) -> &[u8]
        ensures { result.now ≡ front_bytes self.now }
    {
        &self.bytes[..self.len.min(MOST)]
    }

    /// Returns those of its bytes with which a text begins too.
    fn shared(&self, text: &[u8]) -> TextFront {
        let own = self.bytes();
        for len in 0..own.len() {
            if text.get(len) != own.get(len) {
                return TextFront {
                    bytes: self.bytes,
                    len,
                };
            }
        }
        *self
    }
}

/// What is known of the texts of columns before rows of them come: the summaries of all blocks of a table, and the columns of it that the columns are, if they
/// are not all of them in turn.
#[derive(Clone, Copy)]
pub struct FrontGuess<'a> {
    summaries: &'a [Summary],
    places: Option<&'a [usize]>,
}

/// Returns what a front, if there is one yet, and the least and the greatest text of a block begin with.
fn joined(front: Option<TextFront>, range: &Range) -> Option<TextFront> {
    let mut front = front;
    for bound in [range.least(), range.greatest()] {
        let Some(Value::Text(text)) = bound else {
            continue;
        };
        let bytes = text.as_str().as_bytes();
        front = match front {
            Some(front) => Some(front.shared(bytes)),
            None => Some(TextFront::of(bytes)),
        };
    }
    front
}

impl<'a> FrontGuess<'a> {
    /// Returns that nothing is known.
    pub fn none() -> FrontGuess<'a> {
        FrontGuess {
            summaries: &[],
            places: None,
        }
    }

    /// Returns what the summaries of all blocks tell of the columns at `places`, or of all columns.
    pub fn of(summaries: &'a [Summary], places: Option<&'a [usize]>) -> FrontGuess<'a> {
        FrontGuess { summaries, places }
    }

    /// Returns the column of the table that a column is, of which `before` are of computed values.
    fn place(&self, column: PlainColumn, before: usize) -> Option<usize> {
        let place = column.place.checked_sub(before)?;
        match self.places {
            Some(places) => places.get(place).copied(),
            None => Some(place),
        }
    }

    /// Returns the bytes with which all texts of a column begin, of which `before` are of computed values; none if it is none of texts.
    pub(crate) fn front(&self, column: PlainColumn, before: usize) -> TextFront {
        let mut front = None;
        if column.kind != ColumnKind::Text {
            return TextFront::none();
        }
        let Some(place) = self.place(column, before) else {
            return TextFront::none();
        };
        for summary in self.summaries {
            if place < summary.width() {
                front = joined(front, summary.range(place));
            }
        }
        front.unwrap_or(TextFront::none())
    }
}
