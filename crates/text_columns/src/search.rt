//! Which texts of a block have a part: one search over all of them, whose hits are given to their rows.
ghost use Rattle.std.specs.Prelude.{◌≡◌, ◌<◌, ◌≤◌, ℕ, false, not, length, slice_index_or};
ghost use Rattle.text_columns.specs.Places.{place_list};
ghost use Rattle.text_columns.specs.Search.{AreMarksOfPart, IsRight};
ghost use Rattle.text_columns.specs.Texts.{EndsRise};

use crate::column::{TextColumn, is_marked};
use crate::places::{Places, count_of, place_at};
use memchr::memmem;

/// Returns the first row from one on whose text ends past a place; the number of rows, if none does.
#[inline(always)]
fn row_past(ends: &Places, first: usize, at: usize) -> usize
    requires { first ≤ length (place_list ends.now) }
    ensures within { (first ≤ result) × (result ≤ length (place_list ends.now)) }
    ensures before { (row : ℕ) → first ≤ row → row < result
        → slice_index_or (place_list ends.now) row 0 ≤ at }
    ensures past { result < length (place_list ends.now)
        → at < slice_index_or (place_list ends.now) result 0 }
{
    let mut row = first;
    while row < count_of(ends) && place_at(ends, row) <= at {
        row += 1;
    }
    row
}

/// Marks the rows in whose text a part stands that is not empty.
fn mark_hits(bytes: &[u8], ends: &Places, nulls: &[bool], part: &[u8], out: &mut [bool])
    requires rise { EndsRise (place_list ends.now) (length bytes.now) }
    requires part { 0 < length part.now }
    requires long { length out.old ≡ length (place_list ends.now) }
    requires clear { (row : ℕ) → slice_index_or out.old row false ≡ false }
    ensures long { length out.new ≡ length out.old }
    ensures marks { (row : ℕ) → row < length out.new
        → IsRight nulls.now (place_list ends.now) bytes.now part.now out.new row }
{
    let mut from = 0;
    let mut row = 0;
    while let Some(found) = memmem::find(&bytes[from..], part) {
        let at = from + found;
        row = row_past(ends, row, at);
        if row >= out.len() {
            return;
        }
        let end = place_at(ends, row);
        if part.len() <= end - at {
            out[row] = !is_marked(nulls, row);
            from = end;
            row += 1;
        } else {
            from = at + 1;
        }
    }
}

/// Marks each row that is no null.
fn mark_texts(nulls: &[bool], out: &mut [bool])
    ensures long { length out.new ≡ length out.old }
    ensures marks { (row : ℕ) → row < length out.new
        → slice_index_or out.new row false ≡ not (slice_index_or nulls.now row false) }
{
    for row in 0..out.len() {
        out[row] = !is_marked(nulls, row);
    }
}

impl<'t> TextColumn<'t> {
    /// Marks the rows in whose text a part stands (OData 4.01 URL Conventions, section 5.1.1.5.1).
    pub fn mark_containing(&self, part: &str, out: &mut [bool])
        requires { length out.old ≡ length self.now }
        ensures { AreMarksOfPart part.now self.now out.new }
    {
        if part.is_empty() {
            mark_texts(self.nulls, out);
        } else {
            out.fill(false);
            mark_hits(
                self.bytes.as_bytes(),
                self.ends,
                self.nulls,
                part.as_bytes(),
                out,
            );
        }
    }
}
