//! The places after the fields of a file, one after another, each by clearing the lowest set bit of a mask.
ghost use Rattle.std.specs.Prelude.{◌≡◌, ◌<◌, ◌≤◌, [], ◌∷◌, MatchOption, length, slice_index, take, drop};

use std::marker::Model;

/// The places that are left.
#[derive(Drop)]
pub struct Ends<'i> {
    /// The bits of a block that are left.
    pub word: u64,
    /// Where that block begins.
    pub base: usize,
    /// The masks of the blocks after it.
    pub rest: &'i [u64],
    /// The end of a last record with no line break.
    pub last: Option<usize>,
}

impl<'i> Model for Ends<'i> {
    ghost use Rattle.std.specs.Prelude.{ℕ, List, ◌+◌, ◌*◌, ◌^◌, ◌<◌, ◌++◌, length};

    ghost Value = { List ℕ };

    ghost use Rattle.csv_index.specs.Blocks.{set_places};
    ghost use Rattle.csv_index.specs.Structure.{ends_of};

    ghost view = { λ e. set_places e.base e.word 0 64 ++ ends_of (e.base + 64) e.rest.now e.last };

    ghost invariant = { λ e. e.base + 64 * length e.rest.now + 64 < 2 ^ 64 };
}

impl<'i> Ends<'i> {
    /// Returns the next place.
    #[inline(always)]
    pub fn next(&mut self) -> Option<usize>
        ensures { MatchOption result ((self.old ≡ []) × (self.new ≡ []))
            (λ end. self.old ≡ end ∷ self.new) }
    {
        while self.word == 0 {
            let Some((mask, rest)) = self.rest.split_first() else {
                return self.last.take();
            };
            self.word = *mask;
            self.rest = rest;
            self.base += 64;
        }
        let bit = self.word.trailing_zeros();
        self.word &= !(1 << bit);
        Some(self.base + bit as usize)
    }

    /// Writes the next `count` places into `places`, from the second on.
    pub fn fill(&mut self, places: &mut Vec<usize>, count: usize)
        requires count { count ≤ length self.old }
        requires room { count < length places.old.items }
        ensures long { length places.new.items ≡ length places.old.items }
        ensures first { slice_index places.new.items 0 ≡ slice_index places.old.items 0 }
        ensures places { take count (drop 1 places.new.items) ≡ take count self.old }
        ensures left { self.new ≡ drop count self.old }
    {
        for n in 0..count {
            let Some(end) = self.next() else {
                unreachable!();
            };
            places[n + 1] = end;
        }
    }
}
