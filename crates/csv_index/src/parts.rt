//! The rows of a file, a number of them at a time.
ghost use Rattle.std.specs.Prelude.{◌≡◌};

use crate::ends::Ends;
use csv_fields::Part;
use std::marker::Model;

/// How many rows a part has; the last may have fewer.
pub const PART_ROWS: usize = 128;

/// The rows of a file by parts, one part after another.
#[derive(Drop)]
pub struct Parts<'i> {
    /// The file.
    pub(crate) text: &'i str,
    /// How many fields a row has.
    pub(crate) width: usize,
    /// How many rows the part has.
    pub(crate) rows: usize,
    /// How many are left after it.
    pub(crate) left: usize,
    /// The place before the first field of the part, and then the place after each of its fields.
    pub(crate) places: Vec<usize>,
    /// The places after the fields that are left.
    pub(crate) ends: Ends<'i>,
}

impl<'i> Model for Parts<'i> {
    ghost use Rattle.csv_index.specs.Parts.{PartsOf, parts_view, AreParts};

    ghost Value = { PartsOf };

    ghost view = { parts_view };

    ghost invariant = { AreParts };
}

impl<'i> Parts<'i> {
    ghost use Rattle.csv_index.specs.Parts.{next_part};

    /// Returns the part. Any field of it is found with no search.
    #[inline(always)]
    pub fn part(&self) -> Part<'i, '_>
        ensures { result ≡ record { width = self.now.width; rows = self.now.part } }
    {
        Part::new(self.text, self.width, self.rows, self.places.as_slice())
    }

    /// Goes on to the next part.
    pub fn next(&mut self)
        ensures { self.new ≡ next_part self.old }
    {
        let rows = self.left.min(PART_ROWS);
        let last = self.rows * self.width;
        self.places[0] = self.places[last];
        self.ends.fill(&mut self.places, rows * self.width);
        self.rows = rows;
        self.left -= rows;
    }
}
