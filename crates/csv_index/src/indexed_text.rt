//! The text of a file with its index.
ghost use Rattle.std.specs.Prelude.{◌≡◌, ◌≤◌, ◌<◌, [], Some, IfOk, IfErr, slice_get, length, take, drop, string_bytes};
ghost use Rattle.std.specs.List.{AllByRecursion};
ghost use Rattle.csv_fields.specs.Raw.{raw_view};
ghost use Rattle.csv_index.specs.Index.{IsIndexOf, IsRawTable, row_fields};
ghost use Rattle.csv_fields.specs.Rows.{cell_at};
ghost use Rattle.csv_index.specs.Fault.{IsTextFault};

use crate::fault::TextFault;
use crate::fields::Fields;
use crate::index::Index;
use crate::parts::Parts;
use crate::utf8::text_of;
use csv_fields::Raw;
use std::alloc::{AllocError, Global};
use std::marker::Model;

/// The text of a file that is a table, with its index: its fields as they stand there.
#[derive(Drop)]
pub struct IndexedText {
    text: String,
    index: Index,
}

impl Model for IndexedText {
    ghost use Rattle.csv_grammar.specs.Raw.{RawTable};
    ghost use Rattle.csv_index.specs.Index.{FitsFile, table_in};
    ghost use Rattle.std.specs.Prelude.{string_bytes};

    ghost Value = { RawTable };

    ghost view = { λ file. table_in file.index (string_bytes file.text) };

    ghost invariant = { λ file. FitsFile file.index (string_bytes file.text) };
}

impl IndexedText {
    /// Reads a file once. Returns the table that its bytes are, with its index, or the first fault.
    pub fn build(alloc: Global, bytes: Vec<u8>) -> Result<IndexedText, TextFault>
        ensures table { IfOk result (IsRawTable bytes.items) }
        ensures fault { IfErr result (IsTextFault bytes.items) }
    {
        let text = text_of(bytes)?;
        let index = Index::of_utf8(alloc, text.as_str().as_bytes())?;
        Ok(IndexedText::of(text, index))
    }

    /// Returns the table that a text is, by its index.
    pub(crate) fn of(text: String, index: Index) -> IndexedText
        requires { IsIndexOf index (string_bytes text) }
        ensures { IsRawTable (string_bytes text) result }
    {
        IndexedText { text, index }
    }

    /// Returns how many records follow the header.
    pub fn rows(&self) -> usize
        ensures { result ≡ length self.now.rows }
    {
        self.index.rows()
    }

    /// Returns how many fields each record has.
    pub fn width(&self) -> usize
        ensures header { result ≡ length self.now.header }
        ensures rows { AllByRecursion (λ fields. length fields ≡ result) self.now.rows }
    {
        self.index.width()
    }

    /// Returns the header's field of a column, counted from 0.
    pub fn header(&self, col: usize) -> Raw<'_>
        requires { col < length self.now.header }
        ensures { slice_get self.now.header col ≡ Some (raw_view result) }
    {
        self.index.header(self.text.as_str(), col)
    }

    /// Returns the field of a row and a column, both counted from 0.
    pub fn cell(&self, row: usize, col: usize) -> Raw<'_>
        requires row { row < length self.now.rows }
        requires col { col < length self.now.header }
        ensures { cell_at self.now.rows row col ≡ Some (raw_view result) }
    {
        self.index.cell(self.text.as_str(), row, col)
    }

    /// Returns the fields from a row on, one row after another. Each is found from the one before it, with no search. It takes no memory.
    pub fn fields(&self, row: usize) -> Fields<'_, '_>
        requires { row ≤ length self.now.rows }
        ensures { result ≡ row_fields (drop row self.now.rows) }
    {
        self.index.fields(self.text.as_str(), row)
    }

    /// Returns the rows from one on by parts, all of which are left.
    pub fn parts(&self, alloc: Global, row: usize) -> Result<Parts<'_>, AllocError>
        requires { row ≤ length self.now.rows }
        ensures width { IfOk result (λ parts. parts.width ≡ length self.now.header) }
        ensures part { IfOk result (λ parts. parts.part ≡ []) }
        ensures left { IfOk result (λ parts. parts.left ≡ drop row self.now.rows) }
    {
        self.index.parts(alloc, self.text.as_str(), row)
    }
}
