//! Windows-1252 (Encoding Standard of WHATWG, index windows-1252): the five bytes that Windows leaves free are the control characters of their numbers.
ghost use Rattle.std.specs.Prelude.{◌≡◌, IfOk, encode_utf8_all, map, string_bytes};
ghost use Rattle.text_encodings.specs.Windows1252.{char_of_byte};

use std::alloc::{AllocError, Global};

/// The characters of the bytes from 128 to 159, in order.
const HIGH: [char; 32] = [
    '\u{20AC}', '\u{0081}', '\u{201A}', '\u{0192}', '\u{201E}', '\u{2026}', '\u{2020}', '\u{2021}',
    '\u{02C6}', '\u{2030}', '\u{0160}', '\u{2039}', '\u{0152}', '\u{008D}', '\u{017D}', '\u{008F}',
    '\u{0090}', '\u{2018}', '\u{2019}', '\u{201C}', '\u{201D}', '\u{2022}', '\u{2013}', '\u{2014}',
    '\u{02DC}', '\u{2122}', '\u{0161}', '\u{203A}', '\u{0153}', '\u{009D}', '\u{017E}', '\u{0178}',
];

/// Returns the character of a byte.
pub fn char_of(byte: u8) -> char
    ensures { result ≡ char_of_byte byte }
{
    if (128..160).contains(&byte) {
        HIGH[byte as usize - 128]
    } else {
        char::from(byte)
    }
}

/// Returns the text of bytes, each of which has a character.
pub(crate) fn windows_1252_text(alloc: Global, bytes: &[u8]) -> Result<String, AllocError>
    ensures { IfOk result (λ text. string_bytes text
        ≡ encode_utf8_all (map char_of_byte bytes.now)) }
{
    bytes.iter().map(|byte| char_of(*byte)).collect(alloc)
}
