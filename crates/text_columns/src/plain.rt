//! Parts of a block's texts each byte of which stands for itself, in JSON or in CSV: such a text takes as many bytes there as it has.
ghost use Rattle.std.specs.Prelude.{◌≡◌, ◌+◌, ◌≤◌, IsTrue, length};
ghost use Rattle.text_columns.specs.PlainParts.{ArePlainParts, ArePlainRows, HavePlainParts};

use crate::column::{TextColumn, is_marked};
use reply_values::is_plain;

/// How many rows a part has.
const PART_ROWS: usize = 64;

/// How many parts are looked at: those of a block.
const PARTS: usize = 64;

/// The parts of a block whose texts have no byte that does not stand for itself.
#[derive(Clone, Copy, Drop)]
pub struct PlainParts {
    json: [bool; PARTS],
    csv: [bool; PARTS],
}

/// Marks the parts whose texts have no byte that does not stand for itself, by one look over the bytes of each.
fn marks_of<const JSON: bool>(texts: &TextColumn<'_>) -> [bool; PARTS]
    ensures { ArePlainParts JSON texts.now result }
{
    let mut marks = [false; PARTS];
    for part in 0..PARTS {
        let first = part * PART_ROWS;
        if first < texts.len() {
            let last = texts.len().min(first + PART_ROWS) - 1;
            marks[part] = is_plain::<JSON>(texts.bytes_of(first, last));
        }
    }
    marks
}

impl PlainParts {
    /// Returns the parts of texts.
    pub(crate) fn of(texts: &TextColumn<'_>) -> PlainParts
        ensures { HavePlainParts texts.now result }
    {
        PlainParts {
            json: marks_of::<true>(texts),
            csv: marks_of::<false>(texts),
        }
    }
}

impl<'t> TextColumn<'t> {
    /// Returns true if each byte of the texts of `count` rows from one on is known to stand for itself, in JSON or in CSV.
    #[inline(always)]
    pub fn is_plain<const JSON: bool>(&self, first: usize, count: usize) -> bool
        requires within { first + count ≤ length self.now }
        requires few { count ≤ 64 }
        ensures { IsTrue result → ArePlainRows JSON self.now first count }
    {
        let Some(parts) = self.plain else {
            return false;
        };
        if count == 0 {
            return true;
        }
        let marks = if JSON { &parts.json } else { &parts.csv };
        is_marked(marks, first / PART_ROWS) && is_marked(marks, (first + count - 1) / PART_ROWS)
    }
}
