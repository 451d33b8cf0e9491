//! A pass over a file whose columns are found: what is made of it comes in pieces.
ghost use Rattle.std.specs.Prelude.{IfOk};
ghost use Rattle.file_passes.specs.Passes.{EndsPass, MakesMore, HasBegun};

use file_convert::{ConvertOptions, Converted, FileConversion, Found};
use file_sights::{FilePieces, PassFault};

/// A file that is converted: its path, and what is asked for in it.
#[derive(Clone, Copy)]
pub struct SourceFile<'a> {
    pub path: &'a str,
    pub asked: ConvertOptions<'a>,
}

/// A pass over a file.
pub(crate) struct Pass {
    pieces: FilePieces,
    conversion: FileConversion,
    /// The last bytes that were made.
    pub(crate) out: Vec<u8>,
}

impl Drop for Pass {
    fn drop(self) {
        let Pass {
            pieces: _,
            conversion: _,
            out: _,
        } = self;
    }
}

impl Pass {
    /// Begins a pass over a file.
    pub(crate) fn start(
        rt: &HostRuntime,
        source: &SourceFile<'_>,
        found: Found,
    ) -> Result<Pass, PassFault>
        ensures { IfOk result (HasBegun source.now.asked) }
    {
        let mut pieces = FilePieces::open(rt, source.path)?;
        pieces.read()?;
        let first = pieces.piece.as_slice();
        let conversion = FileConversion::start(rt.alloc(), &source.asked, found, first)?;
        let out = Vec::new(rt.alloc());
        Ok(Pass {
            pieces,
            conversion,
            out,
        })
    }

    /// Makes the next bytes. Returns false at the end of the file.
    pub(crate) fn next(&mut self) -> Result<bool, PassFault>
        ensures { IfOk result (MakesMore self.old self.new) }
    {
        if !self.pieces.read()? {
            return Ok(false);
        }
        self.out.clear();
        self.conversion
            .feed(self.pieces.piece.as_slice(), &mut self.out)?;
        Ok(true)
    }

    /// Makes the last bytes. Returns all that is changed, and these.
    pub(crate) fn end(self) -> Result<(Converted, Vec<u8>), PassFault>
        ensures { IfOk result (EndsPass self) }
    {
        let Pass {
            pieces: _,
            conversion,
            mut out,
        } = self;
        out.clear();
        let converted = conversion.end(&mut out)?;
        Ok((converted, out))
    }
}

/// Returns what was found in a file that is converted: its columns, in which some is changed already.
pub fn found_again(converted: Converted) -> Found {
    Found {
        encoding: converted.encoding,
        separator: converted.separator,
        columns: converted.columns,
        counts: converted.counts,
    }
}
