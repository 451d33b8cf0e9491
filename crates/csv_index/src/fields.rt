//! The fields of a file in order.
ghost use Rattle.std.specs.Prelude.{◌≡◌, [], ◌∷◌, MatchOption, drop};
ghost use Rattle.csv_fields.specs.Raw.{raw_view};

use crate::ends::Ends;
use csv_fields::{Raw, between};
use std::marker::Model;

/// The fields that are left, the next one first and record after record.
#[derive(Drop)]
pub struct Fields<'i, 'a> {
    /// The places after them.
    pub(crate) ends: Ends<'i>,
    /// The file.
    pub(crate) bytes: &'a str,
    /// Where the next one begins.
    pub(crate) start: usize,
}

impl<'i, 'a> Model for Fields<'i, 'a> {
    ghost use Rattle.std.specs.Prelude.{List, map};
    ghost use Rattle.csv_grammar.specs.Raw.{RawField};
    ghost use Rattle.csv_fields.specs.Between.{raw_between};
    ghost use Rattle.csv_fields.specs.Between.{cut};
    ghost use Rattle.csv_index.specs.Fields.{AreLeft};

    ghost Value = { List RawField };

    ghost view = { λ f. map raw_between (cut f.start f.ends f.bytes.now) };

    ghost invariant = { λ f. AreLeft f.start f.ends f.bytes.now };
}

impl<'i, 'a> Fields<'i, 'a> {
    /// Returns the next field, in a time that grows with the field and not with the file: each block of it is passed once. It takes no memory.
    #[inline(always)]
    pub fn next_field(&mut self) -> Option<Raw<'a>>
        ensures { MatchOption result ((self.old ≡ []) × (self.new ≡ []))
            (λ raw. self.old ≡ raw_view raw ∷ self.new) }
    {
        let end = self.ends.next()?;
        let field = &self.bytes[self.start..end];
        self.start = end + 1;
        Some(between(field))
    }

    /// Passes the next field, if there is one, without looking at it.
    #[inline(always)]
    pub fn pass(&mut self)
        ensures { self.new ≡ drop 1 self.old }
    {
        if let Some(end) = self.ends.next() {
            self.start = end + 1;
        }
    }
}
