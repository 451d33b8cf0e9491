//! Rows of fields in a file, where the places after their fields are known.
ghost use Rattle.std.specs.Prelude.{◌≡◌, ◌<◌, ◌≤◌, ◌+◌, ◌*◌, Some, length, take, drop, slice_index};
ghost use Rattle.csv_fields.specs.Raw.{raw_view};
ghost use Rattle.csv_fields.specs.Rows.{cell_at};

use crate::pieces::{between, piece};
use crate::raw::Raw;
use std::marker::Model;

/// The rows of a part of a file. Any field of them is found with no search.
#[derive(Drop)]
pub struct Part<'t, 'p> {
    /// The file.
    text: &'t str,
    /// How many fields a row has.
    width: usize,
    /// How many rows there are.
    rows: usize,
    /// The place before the first field, and then the place after each.
    places: &'p [usize],
}

impl<'t, 'p> Model for Part<'t, 'p> {
    ghost use Rattle.csv_fields.specs.Part.{part_view, IsPart, PartOf};

    ghost Value = { PartOf };

    ghost view = { part_view };

    ghost invariant = { IsPart };
}

impl<'t, 'p> Part<'t, 'p> {
    ghost use Rattle.csv_fields.specs.Part.{part_between, StandBetween};

    /// Returns rows of one width, whose fields are between these places.
    #[inline(always)]
    pub fn new(text: &'t str, width: usize, rows: usize, places: &'p [usize]) -> Part<'t, 'p>
        requires { StandBetween text.now places.now (rows * width) }
        ensures { result ≡ part_between text.now width rows places.now }
    {
        Part {
            text,
            width,
            rows,
            places,
        }
    }

    /// Returns how many rows there are.
    #[inline(always)]
    pub fn rows(&self) -> usize
        ensures { result ≡ length self.now.rows }
    {
        self.rows
    }

    /// Returns the field of a row and a column, both counted from 0.
    #[inline(always)]
    pub fn field(&self, row: usize, col: usize) -> Raw<'t>
        requires row { row < length self.now.rows }
        requires col { col < self.now.width }
        ensures { cell_at self.now.rows row col ≡ Some (raw_view result) }
    {
        let n = row * self.width + col;
        let start = place_at(self.places, n) + 1;
        between(piece(self.text, start, place_at(self.places, n + 1)))
    }

    /// Returns a field, as [`Part::field`] gives it, and the file from the field's bytes on.
    #[inline(always)]
    pub fn field_and_rest(&self, row: usize, col: usize) -> (Raw<'t>, &'t [u8])
        requires row { row < length self.now.rows }
        requires col { col < self.now.width }
        ensures field { cell_at self.now.rows row col ≡ Some (raw_view result.0) }
        ensures rest { take (length result.0.bytes.now) result.1.now ≡ result.0.bytes.now }
    {
        let raw = self.field(row, col);
        let n = row * self.width + col;
        let start = place_at(self.places, n) + 1;
        if raw.quoted {
            return (raw, bytes_past(self.text, start));
        }
        (raw, bytes_from(self.text, start))
    }
}

/// Returns the place of that number.
#[inline(always)]
fn place_at(places: &[usize], n: usize) -> usize
    requires { n < length places.now }
    ensures { result ≡ slice_index places.now n }
{
    places[n]
}

/// Returns the bytes of a text from a place on; none past its end.
#[inline(always)]
fn bytes_from(text: &str, start: usize) -> &[u8]
    ensures { result.now ≡ drop start text.now }
{
    let bytes = text.as_bytes();
    &bytes[start.min(bytes.len())..]
}

/// Returns the bytes of a text past a place.
#[inline(always)]
fn bytes_past(text: &str, place: usize) -> &[u8]
    requires { place ≤ length text.now }
    ensures { result.now ≡ drop (place + 1) text.now }
{
    bytes_from(text, place + 1)
}
