//! How many fields the records of a file have, counted from the masks of its blocks: a structural place follows each field
//! (RFC 4180, section 2, rule 4).
ghost use Rattle.std.specs.Prelude.{◌≡◌, ℕ, ◌+◌, ◌^◌, ◌<◌, ◌≤◌};
ghost use Rattle.std.specs.Int.{bit_at};
ghost use Rattle.std.specs.Int.RustNames.{count_ones};
ghost use Rattle.csv_index.specs.Widths.{uncounted, width_with, uneven_with, record_ended, with_places, roles_counted, mask_roles};

/// What is known of the records so far.
#[derive(Clone, Copy)]
pub struct Widths {
    /// How many structural places there are.
    pub places: usize,
    /// How many of them stand before the record under way.
    pub start: usize,
    /// How many records ended.
    pub records: usize,
    /// How many fields the first of these has.
    pub width: usize,
    /// The first row of another width, counted from 0, which is the second record.
    pub uneven: Option<usize>,
}

impl Widths {
    /// Returns the widths before the first byte.
    pub fn new() -> Widths
        ensures { result ≡ uncounted }
    {
        Widths {
            places: 0,
            start: 0,
            records: 0,
            width: 0,
            uneven: None,
        }
    }

    /// Counts the bytes of one more block: its structural places, and those of them that end records. In most blocks one record
    /// ends or none does, which no branch can foresee: so there is none between the two, if it is as wide as the first.
    #[inline(always)]
    pub fn add(&mut self, ends: u64, eol: u64)
        requires start { self.old.start ≤ self.old.places }
        requires places { self.old.places < 2 ^ 63 }
        requires records { self.old.records < 2 ^ 63 }
        requires within { (k : ℕ) → bit_at eol k ≡ 1 → bit_at ends k ≡ 1 }
        ensures { self.new ≡ roles_counted self.old (mask_roles ends eol 0 64) }
    {
        let records = eol.count_ones() as usize;
        // The places before the end of the one record, or all where none ends.
        let before = (ends & eol.wrapping_sub(1)).count_ones() as usize;
        let fields = self.places + before + 1 - self.start;
        if records <= 1 && records * fields == records * self.width {
            self.start += records * self.width;
            self.records += records;
        } else {
            self.end_records(ends, eol);
        }
        self.places += ends.count_ones() as usize;
    }

    /// Ends the records of a block, one after another. Its structural places are not counted.
    #[inline(always)]
    fn end_records(&mut self, ends: u64, eol: u64)
        requires start { self.old.start ≤ self.old.places }
        requires places { self.old.places < 2 ^ 63 }
        requires records { self.old.records < 2 ^ 63 }
        requires within { (k : ℕ) → bit_at eol k ≡ 1 → bit_at ends k ≡ 1 }
        ensures places { self.new.places ≡ self.old.places }
        ensures ended { with_places self.new (count_ones ends)
            ≡ roles_counted self.old (mask_roles ends eol 0 64) }
    {
        let mut left = eol;
        while left != 0 {
            let place = left.trailing_zeros();
            let before = (ends & ((1 << place) - 1)).count_ones();
            self.end_record(self.places + before as usize);
            left &= !(1 << place);
        }
    }

    /// Ends the record under way at the structural place of that number, the first of which is 0.
    #[inline(always)]
    pub fn end_record(&mut self, at: usize)
        requires start { self.old.start ≤ at }
        requires at { at + 1 < 2 ^ 64 }
        requires records { self.old.records + 1 < 2 ^ 64 }
        ensures { self.new ≡ record_ended self.old at }
    {
        let fields = at + 1 - self.start;
        let width = self.width_with(fields);
        let uneven = self.uneven_with(fields);
        *self = Widths {
            places: self.places,
            start: at + 1,
            records: self.records + 1,
            width,
            uneven,
        };
    }

    /// Returns the first record's width after one more record of `fields` fields ends.
    fn width_with(&self, fields: usize) -> usize
        ensures { result ≡ width_with self.now fields }
    {
        if self.records == 0 {
            fields
        } else {
            self.width
        }
    }

    /// Returns the first row of another width, likewise.
    fn uneven_with(&self, fields: usize) -> Option<usize>
        ensures { result ≡ uneven_with self.now fields }
    {
        if self.uneven.is_some() || fields == self.width_with(fields) {
            self.uneven
        } else {
            Some(self.records - 1)
        }
    }
}
