//! The places of a file's fields.
ghost use Rattle.std.specs.Prelude.{◌≡◌, ◌≤◌, ◌<◌, ◌+◌, ◌*◌, Some, IfOk, IfErr, IsUtf8, slice_get, length, drop};
ghost use Rattle.std.specs.Str.{IsCharBoundary};
ghost use Rattle.csv_fields.specs.Raw.{raw_view};
ghost use Rattle.csv_index.specs.Index.{FitsFile, IsIndexOf, table_in, row_fields, raws, start_at};
ghost use Rattle.csv_fields.specs.Rows.{cell_at};
ghost use Rattle.csv_grammar.specs.Files.{text_of};
ghost use Rattle.csv_index.specs.Fault.{IsTextFault};
ghost use Rattle.csv_index.specs.Reading.{bytes_left, IsBlockReading};

use crate::blocks::ByteBlocks;
use crate::ends::Ends;
use crate::fault::TextFault;
use crate::fields::Fields;
use crate::parts::{PART_ROWS, Parts};
use crate::reading::Reading;
use crate::structure::{Structure, begin, read_on};
use crate::utf8::check_text;
use csv_fields::{Raw, between, piece};
use csv_grammar::mark_len;
use lane_class::BLOCK;
use std::alloc::{AllocError, Global};
use std::marker::Model;

/// Where each field of a file stands.
#[derive(Drop)]
pub struct Index {
    start: usize,
    width: usize,
    rows: usize,
    blocks: ByteBlocks,
    /// The end of a last record with no line break.
    last: Option<usize>,
}

impl Model for Index {
    ghost use Rattle.csv_index.specs.Index.{Places};

    ghost Value = { Places };

    ghost use Rattle.std.specs.Prelude.{◌+◌, ◌*◌, ◌^◌, ◌<◌, length};
    ghost use Rattle.csv_index.specs.Index.{Rise};
    ghost use Rattle.csv_index.specs.Blocks.{AreRanked};
    ghost use Rattle.csv_index.specs.Structure.{ends_of};

    ghost view = { λ index. record {
      start = index.start;
      width = index.width;
      rows = index.rows;
      ends = ends_of index.start index.blocks.masks.items index.last;
    } };

    ghost invariant = { λ index. record {
      ranked : AreRanked index.blocks.masks.items index.blocks.before.items;
      room : index.start + 64 * length index.blocks.masks.items + 64 < 2 ^ 64;
      rise : Rise index.start (ends_of index.start index.blocks.masks.items index.last) (2 ^ 63);
    } };
}

impl Index {
    ghost use Rattle.csv_index.specs.Parts.{parts_of};

    /// Reads a file once. Returns the index of its places if the bytes are a table, or the first fault.
    pub fn build(alloc: Global, bytes: &[u8]) -> Result<Index, TextFault>
        ensures table { IfOk result (λ index. IsIndexOf index bytes.now) }
        ensures fault { IfErr result (IsTextFault bytes.now) }
    {
        check_text(bytes)?;
        Index::of_utf8(alloc, bytes)
    }

    /// Does what [`Index::build`] does, for bytes that are known to be UTF-8.
    pub fn of_utf8(alloc: Global, bytes: &[u8]) -> Result<Index, TextFault>
        requires { IsUtf8 bytes.now }
        ensures table { IfOk result (λ index. IsIndexOf index bytes.now) }
        ensures fault { IfErr result (IsTextFault bytes.now) }
    {
        let reading = begin(alloc, bytes)?;
        let reading = read_on(reading, bytes, bytes.len())?;
        Index::of_reading(reading, bytes)
    }

    /// Returns the index of a file that is read to its end.
    pub(crate) fn of_reading(reading: Reading, bytes: &[u8]) -> Result<Index, TextFault>
        requires utf8 { IsUtf8 bytes.now }
        requires reads { IsBlockReading (text_of bytes.now) reading }
        requires over { bytes_left (text_of bytes.now) reading ≡ 0 }
        ensures table { IfOk result (λ index. IsIndexOf index bytes.now) }
        ensures fault { IfErr result (IsTextFault bytes.now) }
    {
        csv_fields::fields_stand_so();
        let start = mark_len(bytes);
        let structure = Structure::of(reading, bytes, start)?;
        let widths = structure.widths;
        if let Some(row) = widths.uneven {
            return Err(TextFault::Width { row });
        }
        if widths.records == 0 {
            return Err(TextFault::NoHeader);
        }
        Ok(Index {
            start,
            width: widths.width,
            rows: widths.records - 1,
            blocks: structure.blocks,
            last: structure.last,
        })
    }

    /// Returns how many records follow the header.
    pub fn rows(&self) -> usize
        ensures { result ≡ self.now.rows }
    {
        self.rows
    }

    /// Returns how many fields each record has.
    pub fn width(&self) -> usize
        ensures { result ≡ self.now.width }
    {
        self.width
    }

    /// Returns the header's field of a column, counted from 0. The bytes are those of `build`.
    pub fn header<'a>(&self, bytes: &'a str, col: usize) -> Raw<'a>
        requires bytes { FitsFile self.now bytes.now }
        requires col { col < self.now.width }
        ensures { slice_get (table_in self.now bytes.now).header col ≡ Some (raw_view result) }
    {
        self.field(bytes, col)
    }

    /// Returns the field of a row and a column, both counted from 0. The bytes are those of `build`.
    pub fn cell<'a>(&self, bytes: &'a str, row: usize, col: usize) -> Raw<'a>
        requires bytes { FitsFile self.now bytes.now }
        requires row { row < self.now.rows }
        requires col { col < self.now.width }
        ensures { cell_at (table_in self.now bytes.now).rows row col ≡ Some (raw_view result) }
    {
        let width = self.width;
        self.field(bytes, (row + 1) * width + col)
    }

    /// Returns the fields from a row on, record after record, as [`Index::cell`] gives them one by one. The bytes are those of `build`. Each
    /// field is found from the one before it, with no search. It takes no memory.
    pub fn fields<'i, 'a>(&'i self, bytes: &'a str, row: usize) -> Fields<'i, 'a>
        requires bytes { FitsFile self.now bytes.now }
        requires row { row ≤ self.now.rows }
        ensures { result ≡ row_fields (drop row (table_in self.now bytes.now).rows) }
    {
        let before = (row + 1) * self.width - 1;
        Fields {
            ends: self.ends_behind(before),
            bytes,
            start: self.end_of(before) + 1,
        }
    }

    /// Returns the fields of the records after the header from a row on, in parts. The bytes are those of `build`.
    pub(crate) fn parts<'i>(
        &'i self,
        alloc: Global,
        bytes: &'i str,
        row: usize,
    ) -> Result<Parts<'i>, AllocError>
        requires bytes { FitsFile self.now bytes.now }
        requires row { row ≤ self.now.rows }
        ensures { IfOk result (λ parts. parts
            ≡ parts_of bytes.now self.now.width (drop row (table_in self.now bytes.now).rows)) }
    {
        let before = (row + 1) * self.width - 1;
        let left = self.rows - row;
        let mut places = Vec::from_elem(alloc, 0, left.min(PART_ROWS) * self.width + 1)?;
        places[0] = self.end_of(before);
        Ok(Parts {
            text: bytes,
            width: self.width,
            rows: 0,
            left,
            places,
            ends: self.ends_behind(before),
        })
    }

    /// Returns the field of that number, the header's first and then record after record.
    fn field<'a>(&self, bytes: &'a str, n: usize) -> Raw<'a>
        requires bytes { FitsFile self.now bytes.now }
        requires n { n < length self.now.ends }
        ensures { slice_get (raws self.now bytes.now) n ≡ Some (raw_view result) }
    {
        between(piece(bytes, self.start_of(n), self.end_of(n)))
    }

    /// Returns where the field of that number begins: after the place of the field before it.
    fn start_of(&self, n: usize) -> usize
        requires n { n < length self.now.ends }
        ensures { result ≡ start_at self.now.start self.now.ends n }
    {
        if n == 0 {
            self.start
        } else {
            self.end_of(n - 1) + 1
        }
    }

    /// Returns the place after the field of that number.
    fn end_of(&self, n: usize) -> usize
        requires n { n < length self.now.ends }
        ensures { slice_get self.now.ends n ≡ Some result }
    {
        match (self.blocks.find(n), self.last) {
            (Some((number, bit)), _) => self.start + number * BLOCK + bit as usize,
            (None, Some(end)) => end,
            (None, None) => unreachable!(),
        }
    }

    /// Returns the places after the fields that follow the field of that number.
    fn ends_behind(&self, n: usize) -> Ends<'_>
        requires n { n < length self.now.ends }
        ensures { result ≡ drop (n + 1) self.now.ends }
    {
        match self.blocks.find(n) {
            Some((number, bit)) => Ends {
                word: self.blocks.masks[number] & (u64::MAX << bit) & !(1 << bit),
                base: self.start + number * BLOCK,
                rest: &self.blocks.masks[number + 1..],
                last: self.last,
            },
            None => Ends {
                word: 0,
                base: self.start,
                rest: &[],
                last: None,
            },
        }
    }
}
