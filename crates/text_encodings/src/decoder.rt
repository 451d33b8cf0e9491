//! The text of a file that is read in pieces.
ghost use Rattle.std.specs.Prelude.{◌≡◌, ◌++◌, ◌≤◌, ℕ, List, [], IfOk, IfSome, length, string_bytes, take, true};
ghost use Rattle.text_encodings.specs.Decoders.{AddsText, Decodes, EndsPlain, EndsSo, IsDecoded, MayEnd, mark_of};
ghost use Rattle.text_encodings.specs.Encodings.{IsTextIn, IsUtf16, utf16_mark};

use crate::encoding::{Encoding, EncodingFault};
use crate::utf16::{ByteOrder, units_of, whole_len};
use crate::windows_1252::windows_1252_text;
use std::alloc::{AllocError, Global};
use std::str::from_utf8;

/// Returns the text of bytes after a byte order mark of UTF-16.
fn utf16_text(alloc: Global, order: ByteOrder, bytes: &[u8]) -> Result<String, EncodingFault>
    ensures { IfOk result (λ text. IsUtf16 order (utf16_mark order ++ bytes.now)
        (string_bytes text)) }
{
    let Some(units) = units_of(alloc, order, bytes)? else {
        return Err(EncodingFault::NotUtf16);
    };
    match String::from_utf16(alloc, units.as_slice())? {
        Ok(text) => Ok(text),
        Err(_) => Err(EncodingFault::NotUtf16),
    }
}

/// Returns what comes after the byte order mark at the front of a file in an encoding; `None` if it has another.
pub fn after_mark(encoding: Encoding, bytes: &[u8]) -> Option<&[u8]>
    ensures { IfSome result (λ rest. bytes.now ≡ mark_of encoding ++ rest.now) }
{
    match (encoding, bytes) {
        (Encoding::Utf8 | Encoding::Windows1252, _) => Some(bytes),
        (Encoding::MarkedUtf8, [0xEF, 0xBB, 0xBF, rest @ ..]) => Some(rest),
        (Encoding::Utf16Little, [0xFF, 0xFE, rest @ ..]) => Some(rest),
        (Encoding::Utf16Big, [0xFE, 0xFF, rest @ ..]) => Some(rest),
        _ => None,
    }
}

/// Returns the number of bytes up to the last one of ASCII.
fn plain_len(bytes: &[u8]) -> usize
    ensures within { result ≤ length bytes.now }
    ensures plain { EndsPlain (take result bytes.now) }
{
    let mut len = bytes.len();
    while len > 0 && bytes[len - 1] >= 128 {
        len -= 1;
    }
    len
}

/// Returns how many bytes at the front of a text are decoded before the next ones are read.
fn front_len(encoding: Encoding, bytes: &[u8]) -> usize
    ensures within { result ≤ length bytes.now }
    ensures ends { EndsSo encoding (take result bytes.now) }
{
    match encoding {
        Encoding::Utf16Little => whole_len(ByteOrder::Little, bytes),
        Encoding::Utf16Big => whole_len(ByteOrder::Big, bytes),
        _ => plain_len(bytes),
    }
}

/// Appends a text of UTF-8.
fn push_utf8(bytes: &[u8], out: &mut Vec<u8>) -> Result<(), EncodingFault>
    ensures { IfOk result (λ _. AddsText out.old.items out.new.items (λ text.
        IsTextIn Encoding.Utf8 bytes.now text)) }
{
    if from_utf8(bytes).is_err() {
        return Err(EncodingFault::Another);
    }
    Ok(out.extend_from_slice(bytes)?)
}

/// Appends a text of UTF-16 without a byte order mark.
fn push_utf16(order: ByteOrder, bytes: &[u8], out: &mut Vec<u8>) -> Result<(), EncodingFault>
    ensures { IfOk result (λ _. AddsText out.old.items out.new.items (λ text.
        IsUtf16 order (utf16_mark order ++ bytes.now) text)) }
{
    let text = utf16_text(*out.allocator(), order, bytes)?;
    Ok(out.extend_from_slice(text.as_bytes())?)
}

/// Appends a text of Windows-1252. Returns true if all bytes so far may be UTF-8, as those before are if `is_utf8`.
fn push_windows(is_utf8: bool, bytes: &[u8], out: &mut Vec<u8>) -> Result<bool, EncodingFault>
    ensures { IfOk result (λ still. AddsText out.old.items out.new.items
        (Decodes Encoding.Windows1252 is_utf8 still bytes.now)) }
{
    let text = windows_1252_text(*out.allocator(), bytes)?;
    out.extend_from_slice(text.as_bytes())?;
    Ok(is_utf8 && from_utf8(bytes).is_ok())
}

/// Appends a text in an encoding. Returns true if all bytes so far may be UTF-8, as those before are if `is_utf8`.
fn push_text(
    encoding: Encoding,
    is_utf8: bool,
    bytes: &[u8],
    out: &mut Vec<u8>,
) -> Result<bool, EncodingFault>
    ensures { IfOk result (λ still. AddsText out.old.items out.new.items
        (Decodes encoding is_utf8 still bytes.now)) }
{
    match encoding {
        Encoding::Utf8 | Encoding::MarkedUtf8 => push_utf8(bytes, out)?,
        Encoding::Utf16Little => push_utf16(ByteOrder::Little, bytes, out)?,
        Encoding::Utf16Big => push_utf16(ByteOrder::Big, bytes, out)?,
        Encoding::Windows1252 => return push_windows(is_utf8, bytes, out),
    }
    Ok(is_utf8)
}

/// Returns true if a file may be in an encoding. One of Windows-1252 is no text of UTF-8.
fn may_end(encoding: Encoding, is_utf8: bool) -> bool
    ensures { result ≡ true → MayEnd encoding is_utf8 }
{
    match encoding {
        Encoding::Windows1252 => !is_utf8,
        _ => true,
    }
}

/// A file whose text is read in pieces: what is known after some of its bytes.
#[derive(Drop)]
pub struct Decoder {
    pub encoding: Encoding,
    /// False if the bytes that are decoded are no front of a text of UTF-8. It is kept for Windows-1252 alone.
    pub is_utf8: bool,
    /// The last bytes, which are not decoded yet.
    pub left: Vec<u8>,
}

impl Decoder {
    /// Returns what is known after the byte order mark of an encoding, or before the first byte if it has none.
    pub fn new(alloc: Global, encoding: Encoding) -> Decoder
        ensures is { IsDecoded result (mark_of encoding) [] }
        ensures encoding { result.encoding ≡ encoding }
    {
        Decoder {
            encoding,
            is_utf8: true,
            left: Vec::new(alloc),
        }
    }

    /// Adds a piece to the bytes that are left, and removes those that are decoded next.
    fn take_front(&mut self, piece: &[u8]) -> Result<Vec<u8>, AllocError>
        ensures same { (self.new.encoding ≡ self.old.encoding)
            × (self.new.is_utf8 ≡ self.old.is_utf8) }
        ensures ends { IfOk result (λ front. EndsSo self.old.encoding front.items) }
        ensures bytes { IfOk result (λ front. self.old.left.items ++ piece.now
            ≡ front.items ++ self.new.left.items) }
    {
        self.left.extend_from_slice(piece)?;
        let alloc = *self.left.allocator();
        let all = self.left.as_slice();
        let (front, rest) = all.split_at(front_len(self.encoding, all));
        let front = Vec::from_slice(alloc, front)?;
        self.left = Vec::from_slice(alloc, rest)?;
        Ok(front)
    }

    /// Reads a piece of the file, and appends what is known of its text.
    pub fn read(&mut self, piece: &[u8], out: &mut Vec<u8>) -> Result<(), EncodingFault>
        ensures encoding { self.new.encoding ≡ self.old.encoding }
        ensures text { IfOk result (λ _. (given text : List ℕ) → IsDecoded self.old given text
            → AddsText out.old.items out.new.items (λ part.
            IsDecoded self.new (given ++ piece.now) (text ++ part))) }
    {
        let front = self.take_front(piece)?;
        let is_utf8 = push_text(self.encoding, self.is_utf8, front.as_slice(), out)?;
        self.is_utf8 = is_utf8;
        Ok(())
    }

    /// Appends the text of the bytes that are left at the end of the file.
    pub fn end(self, out: &mut Vec<u8>) -> Result<(), EncodingFault>
        ensures { IfOk result (λ _. (given text : List ℕ) → IsDecoded self given text
            → AddsText out.old.items out.new.items (λ part.
            IsTextIn self.encoding given (text ++ part))) }
    {
        let is_utf8 = push_text(self.encoding, self.is_utf8, self.left.as_slice(), out)?;
        if may_end(self.encoding, is_utf8) {
            Ok(())
        } else {
            Err(EncodingFault::Another)
        }
    }
}
