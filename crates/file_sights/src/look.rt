//! A look at a file before its cells are seen: a guess.
use crate::separator::separator_of;
use crate::titles::{short_lines, title_lines};
use csv_records::after_lines;
use file_convert::{ConvertFault, ConvertOptions, FileText};
use std::alloc::Global;
use text_encodings::{Decoder, Encoding, EncodingFault};

/// How many bytes at the front of a file its separator and its header are guessed from.
const FRONT: usize = 2_097_152;

/// A file that is looked at in pieces.
#[derive(Drop)]
pub struct FileLook {
    alloc: Global,
    front: Vec<u8>,
    /// The file is longer.
    has_more: bool,
    decoder: Decoder,
    is_utf8: bool,
}

/// What a look at a file says.
#[derive(Clone, Copy)]
pub struct Looked {
    pub encoding: Encoding,
    pub separator: u8,
    /// How many lines before the header look like a title, if the records have several widths; and how many have a first cell alone.
    pub(crate) short_lines: usize,
    pub(crate) title_lines: usize,
}

impl FileLook {
    /// Begins to look at a file.
    pub fn new(alloc: Global) -> FileLook {
        FileLook {
            alloc,
            front: Vec::new(alloc),
            has_more: false,
            decoder: Decoder::new(alloc, Encoding::Utf8),
            is_utf8: true,
        }
    }

    /// Looks at the next piece.
    pub fn feed(&mut self, piece: &[u8]) -> Result<(), ConvertFault> {
        if self.front.len() < FRONT {
            self.front.extend_from_slice(piece)?;
        } else {
            self.has_more = true;
        }
        if !self.is_utf8 {
            return Ok(());
        }
        let mut text = Vec::new(self.alloc);
        match self.decoder.read(piece, &mut text) {
            Ok(()) => Ok(()),
            Err(EncodingFault::NoMemory) => Err(ConvertFault::NoMemory),
            Err(_) => {
                self.is_utf8 = false;
                Ok(())
            }
        }
    }

    /// Returns the encoding of a file that begins so.
    fn encoding(&self) -> Encoding {
        match self.front.as_slice() {
            [0xFF, 0xFE, ..] => Encoding::Utf16Little,
            [0xFE, 0xFF, ..] => Encoding::Utf16Big,
            [0xEF, 0xBB, 0xBF, ..] if self.is_utf8 => Encoding::MarkedUtf8,
            _ if self.is_utf8 => Encoding::Utf8,
            _ => Encoding::Windows1252,
        }
    }

    /// Returns the text of the front in an encoding.
    fn text(&self, encoding: Encoding) -> Result<Vec<u8>, ConvertFault> {
        let source = FileText::start(self.alloc, encoding, self.front.as_slice())?;
        if self.has_more {
            Ok(source.held)
        } else {
            Ok(source.end()?.text)
        }
    }

    /// Returns what the file looks like at its end.
    pub fn end(mut self, asks: &ConvertOptions<'_>) -> Result<Looked, ConvertFault> {
        if self.is_utf8 && std::str::from_utf8(self.decoder.left.as_slice()).is_err() {
            self.is_utf8 = false;
        }
        let encoding = self.encoding();
        let text = self.text(encoding)?;
        let text = after_lines(text.as_slice(), asks.skip_lines);
        let separator = separator_of(text);
        Ok(Looked {
            encoding,
            separator,
            short_lines: short_lines(text, separator),
            title_lines: title_lines(text, separator),
        })
    }
}
