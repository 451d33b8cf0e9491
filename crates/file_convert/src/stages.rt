//! A table that is written as its text comes.
ghost use Rattle.std.specs.Prelude.{◌≡◌, ◌≤◌, [], IfOk, length, take};
ghost use Rattle.file_convert.specs.Pieces.{TableEnd, TableStep};

use crate::cells::lines_before;
use crate::fault::ConvertFault;
use crate::report::ColumnReport;
use crate::table::{Reading, put_header, put_rows, write_table};
use crate::windows::{ends_in_feed, whole_len};
use csv_grammar::in_windows;
use csv_records::{after_lines, rows_read_back};

/// What of a table comes next.
#[derive(Clone, Copy)]
pub enum TableStage {
    /// The lines before the header, which are left out.
    Lines,
    Header,
    Rows,
}

/// A table that is written as its text comes.
#[derive(Drop)]
pub(crate) struct Table {
    pub(crate) columns: Vec<ColumnReport>,
    pub(crate) how: Reading,
    pub(crate) stage: TableStage,
    pub(crate) skip_lines: usize,
    /// The number of the next line.
    pub(crate) line: usize,
}

impl Table {
    /// Leaves out the lines before the header once a text has more than these. Returns how many bytes they are.
    fn skip(&mut self, text: &[u8]) -> usize
        requires { self.old.stage ≡ TableStage.Lines }
        ensures within { result ≤ length text.now }
        ensures step { TableStep self.old self.new (take result text.now) [] [] }
    {
        let kept = after_lines(text, self.skip_lines);
        if kept.is_empty() {
            return 0;
        }
        self.stage = TableStage::Header;
        text.len().saturating_sub(kept.len())
    }

    /// Writes the header once a text has more than this. Returns how many bytes it is.
    fn put_header(&mut self, out: &mut Vec<u8>, text: &[u8]) -> Result<usize, ConvertFault>
        requires { self.old.stage ≡ TableStage.Header }
        ensures within { IfOk result (λ len. len ≤ length text.now) }
        ensures step { IfOk result (λ len. TableStep self.old self.new (take len text.now)
            out.old.items out.new.items) }
    {
        let len = whole_len(text);
        if len == 0 || len == text.len() {
            return Ok(0);
        }
        rows_read_back();
        let header = put_header(out, self.columns.as_slice(), self.how, text, self.line)?;
        if header.rest.is_empty() {
            return Err(ConvertFault::Changed);
        }
        self.line = self.line.saturating_add(lines_before(text, header.rest));
        self.how.width = header.width;
        self.stage = TableStage::Rows;
        Ok(text.len().saturating_sub(header.rest.len()))
    }

    /// Writes the whole rows at the front of a text. Returns how many bytes they are.
    fn put_rows(&mut self, out: &mut Vec<u8>, text: &[u8]) -> Result<usize, ConvertFault>
        requires { self.old.stage ≡ TableStage.Rows }
        ensures within { IfOk result (λ len. len ≤ length text.now) }
        ensures step { IfOk result (λ len. TableStep self.old self.new (take len text.now)
            out.old.items out.new.items) }
    {
        let len = whole_len(text);
        let (window, _) = text.split_at(len);
        if !ends_in_feed(self.how.separator, window) {
            return Ok(0);
        }
        in_windows();
        let line = self.line;
        let how = self.how;
        let line = put_rows(out, self.columns.as_mut_slice(), how, window, line)?;
        self.line = line;
        Ok(len)
    }

    /// Writes what comes next at the front of a text, after which others may come. Returns how many bytes are written.
    pub(crate) fn step(&mut self, out: &mut Vec<u8>, text: &[u8]) -> Result<usize, ConvertFault>
        ensures within { IfOk result (λ len. len ≤ length text.now) }
        ensures step { IfOk result (λ len. TableStep self.old self.new (take len text.now)
            out.old.items out.new.items) }
    {
        match self.stage {
            TableStage::Lines => Ok(self.skip(text)),
            TableStage::Header => self.put_header(out, text),
            TableStage::Rows => self.put_rows(out, text),
        }
    }

    /// Writes the rest of the text.
    pub(crate) fn end(&mut self, out: &mut Vec<u8>, text: &[u8]) -> Result<(), ConvertFault>
        ensures { IfOk result (λ _. TableEnd self.old self.new text.now
            out.old.items out.new.items) }
    {
        let how = self.how;
        let columns = self.columns.as_mut_slice();
        match self.stage {
            TableStage::Rows => {
                put_rows(out, columns, how, text, self.line)?;
                Ok(())
            }
            TableStage::Header => write_table(out, columns, how, text, self.line),
            TableStage::Lines => {
                let text = after_lines(text, self.skip_lines);
                write_table(out, columns, how, text, self.line)
            }
        }
    }
}
