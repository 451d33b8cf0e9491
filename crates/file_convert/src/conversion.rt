//! The conversion of a file in pieces.
ghost use Rattle.std.specs.Prelude.{[], IfOk};
ghost use Rattle.file_convert.specs.Pieces.{IsConverting, WritesEnd, WritesHeld, WritesPiece};

use crate::asks::ConvertOptions;
use crate::fault::ConvertFault;
use crate::report::{Converted, Counts, Found};
use crate::source::FileText;
use crate::stages::{Table, TableStage};
use crate::table::Reading;
use std::alloc::Global;

/// The conversion of a file that is read in pieces.
#[derive(Drop)]
pub struct FileConversion {
    pub(crate) source: FileText,
    pub(crate) table: Table,
    /// How many bytes of text were held after the last piece that was used.
    pub(crate) kept: usize,
    pub(crate) counts: Counts,
}

impl FileConversion {
    /// Begins with the first piece of a file whose columns are found. Nothing is written for it yet.
    pub fn start(
        alloc: Global,
        asks: &ConvertOptions<'_>,
        found: Found,
        piece: &[u8],
    ) -> Result<FileConversion, ConvertFault>
        ensures { IfOk result (IsConverting asks.now piece.now []) }
    {
        let source = FileText::start(alloc, found.encoding, piece)?;
        let how = Reading {
            separator: found.separator,
            width: 0,
            pads: asks.pads,
        };
        let table = Table {
            columns: found.columns,
            how,
            stage: TableStage::Lines,
            skip_lines: asks.skip_lines,
            line: asks.skip_lines.saturating_add(1),
        };
        Ok(FileConversion {
            source,
            table,
            kept: 0,
            counts: found.counts,
        })
    }

    /// Writes what comes next of the text that is held.
    fn step(&mut self, out: &mut Vec<u8>) -> Result<(), ConvertFault>
        ensures { IfOk result (λ _. WritesHeld self.old self.new out.old.items out.new.items) }
    {
        let len = self.table.step(out, self.source.held.as_slice())?;
        Ok(self.source.drop_front(len)?)
    }

    /// Writes what can be written of the text that is held: the rows of a table, after its header.
    fn put_held(&mut self, out: &mut Vec<u8>) -> Result<(), ConvertFault>
        ensures { IfOk result (λ _. WritesHeld self.old self.new out.old.items out.new.items) }
    {
        for _stage in 0..3 {
            self.step(out)?;
        }
        Ok(())
    }

    /// Reads the next piece, and appends what is written for it. A record that is not whole is not looked at again before there is twice as much of it.
    pub fn feed(&mut self, piece: &[u8], out: &mut Vec<u8>) -> Result<(), ConvertFault>
        ensures { IfOk result (λ _. WritesPiece self.old self.new piece.now
            out.old.items out.new.items) }
    {
        self.source.feed(piece)?;
        if self.source.held.len() / 2 < self.kept {
            return Ok(());
        }
        self.put_held(out)?;
        self.kept = self.source.held.len();
        Ok(())
    }

    /// Appends what is written for the rest of the file. Returns all that is changed in it.
    pub fn end(self, out: &mut Vec<u8>) -> Result<Converted, ConvertFault>
        ensures { IfOk result (λ converted.
            WritesEnd self converted out.old.items out.new.items) }
    {
        let FileConversion {
            source,
            mut table,
            counts,
            ..
        } = self;
        let rest = source.end()?;
        table.end(out, rest.text.as_slice())?;
        Ok(Converted {
            encoding: rest.encoding,
            separator: table.how.separator,
            skipped: table.skip_lines,
            returns: rest.returns,
            counts,
            columns: table.columns,
        })
    }
}
