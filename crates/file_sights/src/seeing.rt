//! The cells of a file that is read in pieces, before it is written: a guess.
use crate::look::Looked;
use crate::reports::reports_of;
use crate::sight::Sight;
use csv_records::after_lines;
use file_convert::{
    ConvertFault, ConvertOptions, FileText, Found, TableStage, lines_before, record_at, whole_len,
};
use std::alloc::Global;

/// A file whose cells are seen in pieces.
#[derive(Drop)]
pub struct Seeing<'a> {
    source: FileText,
    view: View<'a>,
    /// How many bytes of text were held after the last piece that was seen.
    kept: usize,
}

/// What is seen of a text so far.
#[derive(Drop)]
struct View<'a> {
    alloc: Global,
    asks: ConvertOptions<'a>,
    looked: Looked,
    stage: TableStage,
    line: usize,
    sight: Sight,
}

impl<'a> View<'a> {
    /// Leaves out the lines before the header, if the text has more than these. Returns how many bytes they are.
    fn skip(&mut self, text: &[u8], is_end: bool) -> Result<usize, ConvertFault> {
        let kept = after_lines(text, self.asks.skip_lines);
        if !kept.is_empty() {
            self.stage = TableStage::Header;
            Ok(text.len().saturating_sub(kept.len()))
        } else if is_end {
            Err(ConvertFault::Empty)
        } else {
            Ok(0)
        }
    }

    /// Sees the header of a text, if there is a whole one or the text ends. Returns how many bytes it is.
    fn see_header(&mut self, text: &[u8], is_end: bool) -> Result<usize, ConvertFault> {
        if !is_end && whole_len(text) == 0 {
            return Ok(0);
        }
        let header = record_at(self.alloc, self.looked.separator, text, self.line)?;
        self.sight.see_header(self.alloc, header.cells.as_slice())?;
        self.line = self.line.saturating_add(lines_before(text, header.rest));
        self.stage = TableStage::Rows;
        Ok(text.len().saturating_sub(header.rest.len()))
    }

    /// Sees the rows at the front of a text that are whole, or all if the text ends. Returns how many bytes they are.
    fn see_rows(&mut self, text: &[u8], is_end: bool) -> Result<usize, ConvertFault> {
        let whole = if is_end { text.len() } else { whole_len(text) };
        let len = whole.min(text.len());
        let (window, _) = text.split_at(len);
        let (alloc, separator) = (self.alloc, self.looked.separator);
        self.line = self.sight.see_rows(alloc, separator, window, self.line)?;
        Ok(len)
    }

    /// Sees what comes next at the front of a text. Returns how many bytes are seen.
    fn step(&mut self, text: &[u8], is_end: bool) -> Result<usize, ConvertFault> {
        match self.stage {
            TableStage::Lines => self.skip(text, is_end),
            TableStage::Header => self.see_header(text, is_end),
            TableStage::Rows => self.see_rows(text, is_end),
        }
    }

    /// Returns a fault, or that lines before the header look like a title if there are such.
    fn fault(&self, lines: usize, fault: ConvertFault) -> ConvertFault {
        if lines == 0 {
            return fault;
        }
        ConvertFault::Title {
            lines: lines.saturating_add(self.asks.skip_lines),
        }
    }

    /// Sees the front of a text. Returns how many bytes are seen.
    fn see(&mut self, text: &[u8], is_end: bool) -> Result<usize, ConvertFault> {
        let mut seen: usize = 0;
        for _stage in 0..3 {
            let (_, left) = text.split_at(seen.min(text.len()));
            match self.step(left, is_end) {
                Ok(len) => seen = seen.saturating_add(len),
                Err(ConvertFault::Text { fault, line }) => {
                    let lines = self.looked.short_lines;
                    return Err(self.fault(lines, ConvertFault::Text { fault, line }));
                }
                Err(fault) => return Err(fault),
            }
        }
        Ok(seen.min(text.len()))
    }

    /// Returns what is found in the columns of the whole file; or why it is not converted.
    fn found(self) -> Result<Found, ConvertFault> {
        let looked = self.looked;
        let is_ragged = self.sight.ragged > 0;
        let lines = if is_ragged {
            looked.short_lines
        } else {
            looked.title_lines
        };
        if lines > 0 {
            return Err(self.fault(lines, ConvertFault::Empty));
        }
        if is_ragged && !self.asks.pads {
            return Err(ConvertFault::Ragged {
                lines: self.sight.ragged_lines,
                count: self.sight.ragged,
            });
        }
        Ok(Found {
            encoding: looked.encoding,
            separator: looked.separator,
            columns: reports_of(self.alloc, &self.asks, &self.sight, looked.separator)?,
            counts: self.sight.counts,
        })
    }
}

impl<'a> Seeing<'a> {
    /// Begins with the first piece of a file.
    pub fn start(
        alloc: Global,
        asks: ConvertOptions<'a>,
        looked: Looked,
        piece: &[u8],
    ) -> Result<Seeing<'a>, ConvertFault> {
        Ok(Seeing {
            source: FileText::start(alloc, looked.encoding, piece)?,
            view: View {
                alloc,
                asks,
                looked,
                stage: TableStage::Lines,
                line: asks.skip_lines.saturating_add(1),
                sight: Sight::new(alloc),
            },
            kept: 0,
        })
    }

    /// Sees the next piece. A record that is not whole is not looked at again before there is twice as much of it.
    pub fn feed(&mut self, piece: &[u8]) -> Result<(), ConvertFault> {
        self.source.feed(piece)?;
        let held = self.source.held.len();
        if held / 2 < self.kept {
            return Ok(());
        }
        let len = self.view.see(self.source.held.as_slice(), false)?;
        let len = len.min(held);
        self.source.drop_front(len)?;
        self.kept = held - len;
        Ok(())
    }

    /// Returns what is found in the file at its end; or why it is not converted.
    pub fn end(self) -> Result<Found, ConvertFault> {
        let Seeing {
            source,
            mut view,
            ..
        } = self;
        let rest = source.end()?;
        view.see(rest.text.as_slice(), true)?;
        view.found()
    }
}
