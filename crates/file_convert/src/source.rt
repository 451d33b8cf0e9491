//! The text that is read in the place of a file, in pieces.
ghost use Rattle.std.specs.Prelude.{◌≡◌, ◌++◌, ◌≤◌, ℕ, List, [], IfOk, OnOk, drop, length, take};
ghost use Rattle.file_convert.specs.Pieces.{IsTextRead};
ghost use Rattle.file_convert.specs.Conversion.{IsSource};
ghost use Rattle.text_encodings.specs.Decoders.{mark_of};

use crate::fault::ConvertFault;
use csv_records::LineFeeds;
use std::alloc::{AllocError, Global};
use text_encodings::{Decoder, Encoding, after_mark};

/// The text of a file that is read in pieces.
#[derive(Drop)]
pub struct FileText {
    pub decoder: Decoder,
    pub feeds: LineFeeds,
    /// The text with line feeds, as far as it is read and not used.
    pub held: Vec<u8>,
}

/// The text that is not used at the end of a file.
#[derive(Drop)]
pub struct Rest {
    pub encoding: Encoding,
    pub text: Vec<u8>,
    /// How many line breaks of the file are a CR alone.
    pub returns: usize,
}

impl FileText {
    /// Returns what is known after the byte order mark of an encoding, or before the first byte if it has none.
    fn new(alloc: Global, encoding: Encoding) -> FileText
        ensures { IsTextRead encoding (mark_of encoding) [] result }
    {
        FileText {
            decoder: Decoder::new(alloc, encoding),
            feeds: LineFeeds::new(),
            held: Vec::new(alloc),
        }
    }

    /// Reads the first piece of a file.
    pub fn start(alloc: Global, encoding: Encoding, piece: &[u8]) -> Result<FileText, ConvertFault>
        ensures { IfOk result (IsTextRead encoding piece.now []) }
    {
        let Some(rest) = after_mark(encoding, piece) else {
            return Err(ConvertFault::Changed);
        };
        let mut source = FileText::new(alloc, encoding);
        source.feed(rest)?;
        Ok(source)
    }

    /// Reads the next piece.
    pub fn feed(&mut self, piece: &[u8]) -> Result<(), ConvertFault>
        ensures { IfOk result (λ _. (encoding : Encoding) (given gone : List ℕ)
            → IsTextRead encoding given gone self.old
            → IsTextRead encoding (given ++ piece.now) gone self.new) }
    {
        let mut text = Vec::new(*self.held.allocator());
        self.decoder.read(piece, &mut text)?;
        if text.contains(&0) {
            return Err(ConvertFault::NoText);
        }
        Ok(self.feeds.read(&mut self.held, text.as_slice())?)
    }

    /// Removes the front of the text, which is used.
    pub fn drop_front(&mut self, len: usize) -> Result<(), AllocError>
        requires { len ≤ length self.old.held.items }
        ensures { OnOk result ((encoding : Encoding) (given gone : List ℕ)
            → IsTextRead encoding given gone self.old
            → IsTextRead encoding given (gone ++ take len self.old.held.items) self.new) }
    {
        let (_, rest) = self.held.as_slice().split_at(len);
        self.held = Vec::from_slice(*self.held.allocator(), rest)?;
        Ok(())
    }

    /// Returns the rest of the text at the end of the file.
    pub fn end(self) -> Result<Rest, ConvertFault>
        ensures { IfOk result (λ rest. (encoding : Encoding) (given gone : List ℕ)
            → IsTextRead encoding given gone self
            → (rest.encoding ≡ encoding) × IsSource given encoding (gone ++ rest.text.items)) }
    {
        let FileText {
            decoder,
            mut feeds,
            mut held,
        } = self;
        let encoding = decoder.encoding;
        let mut text = Vec::new(*held.allocator());
        decoder.end(&mut text)?;
        feeds.read(&mut held, text.as_slice())?;
        let returns = feeds.end(&mut held)?;
        Ok(Rest {
            encoding,
            text: held,
            returns,
        })
    }
}
