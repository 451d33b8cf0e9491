//! How the cells of a column look: as codes, or as versions.
use crate::cells::{are_digits, is_padded, last_is_zero};

/// How many words of 64 bits a set of whole numbers has.
const WORDS: usize = 34;

/// A set of whole numbers below 2,176: the first parts of versions, years among them.
#[derive(Drop)]
struct Wholes {
    bits: [u64; WORDS],
}

impl Wholes {
    /// Adds a number, if it is not too great.
    fn insert(&mut self, whole: &str) {
        if let Ok(number) = whole.parse::<usize>()
            && let Some(word) = self.bits.get_mut(number / 64)
        {
            *word |= 1u64 << (number % 64);
        }
    }

    /// Returns true if a number is in both sets.
    fn meets(&self, other: &Wholes) -> bool {
        self.bits
            .iter()
            .zip(other.bits.iter())
            .any(|(one, two)| *one & *two != 0)
    }
}

/// How the cells of a column look that have a value. White space at their ends is left out.
#[derive(Drop)]
pub struct CellForm {
    /// Some cell is a padded number.
    pub padded: bool,
    /// All cells have one point between digits.
    pub points: bool,
    /// If they have: what is before the point in cells with one place after it.
    one_place: Wholes,
    /// If they have: what is before the point in cells with more places, the last of which is 0.
    zero: Wholes,
}

impl CellForm {
    /// Returns the form of no cell.
    pub fn new() -> CellForm {
        CellForm {
            padded: false,
            points: true,
            one_place: Wholes { bits: [0; WORDS] },
            zero: Wholes { bits: [0; WORDS] },
        }
    }

    /// Looks at one more cell. If one has no point between digits, the others' points don't matter.
    pub fn read(&mut self, cell: &str) {
        self.padded |= is_padded(cell);
        if !self.points {
            return;
        }
        let Some((whole, places)) = cell.split_once('.') else {
            self.points = false;
            return;
        };
        self.points = are_digits(whole) && are_digits(places);
        if places.len() == 1 {
            self.one_place.insert(whole);
        }
        if last_is_zero(places) {
            self.zero.insert(whole);
        }
    }

    /// Returns true if 4.10 comes after 4.9 among the cells, and not 4.50 after 3.5, as among prices.
    pub fn are_versions(&self) -> bool {
        self.points && self.one_place.meets(&self.zero)
    }
}
