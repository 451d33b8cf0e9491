//! White space in the text of a cell (Model for Tabular Data and Metadata on the Web, section 6.4): a text is read with none at its
//! ends, and each run of it made one space. A text that is so already is not copied.
ghost use Rattle.std.specs.Prelude.{◌≡◌, ◌↔◌, ◌<◌, [], ◌∷◌, IsTrue, IfOk, IfSome, MatchOption, length, string_bytes};
ghost use Rattle.std.specs.List.{position_or_len, prefix_len};
ghost use Rattle.cell_types.specs.WhiteSpace.{is_white as is_white_byte, normal_text, words};

use std::alloc::{AllocError, Global};

fn is_white(byte: u8) -> bool
    ensures { result ≡ is_white_byte byte }
{
    matches!(byte, b' ' | b'\t' | b'\n' | b'\r')
}

/// Returns true if a text has white space only as single spaces between words.
pub fn is_normal(text: &str) -> bool
    ensures { IsTrue result ↔ (normal_text text.now ≡ text.now) }
{
    let mut after_white = true;
    for byte in text.as_bytes() {
        let white = is_white(*byte);
        if white && (after_white || *byte != b' ') {
            return false;
        }
        after_white = white;
    }
    !after_white || text.is_empty()
}

/// Returns how many bytes of white space stand first.
fn white_len(text: &[u8]) -> usize
    ensures { result ≡ prefix_len is_white_byte text.now }
{
    for (place, byte) in text.iter().enumerate() {
        if !is_white(*byte) {
            return place;
        }
    }
    text.len()
}

/// Returns how many bytes stand before the first white space.
fn word_len(text: &[u8]) -> usize
    ensures { result ≡ position_or_len is_white_byte text.now }
{
    for (place, byte) in text.iter().enumerate() {
        if is_white(*byte) {
            return place;
        }
    }
    text.len()
}

/// Returns the first word of a text, and what follows it.
fn first_word(text: &str) -> Option<(&str, &str)>
    ensures words { MatchOption result (words text.now ≡ [])
        (λ p. words text.now ≡ p.0.now ∷ words p.1.now) }
    ensures word { IfSome result (λ p. 0 < length p.0.now) }
    ensures rest { IfSome result (λ p. length p.1.now < length text.now) }
{
    let (_, text) = text.split_at(white_len(text.as_bytes()));
    if text.is_empty() {
        return None;
    }
    Some(text.split_at(word_len(text.as_bytes())))
}

/// Returns the words of a text, with one space between each two.
pub fn normal_copy(alloc: Global, text: &str) -> Result<String, AllocError>
    ensures { IfOk result (λ copy. string_bytes copy ≡ normal_text text.now) }
{
    let mut copy = String::with_capacity(alloc, text.len())?;
    let mut rest = text;
    while let Some((word, after)) = first_word(rest) {
        if !copy.is_empty() {
            copy.push(' ')?;
        }
        copy.push_str(word)?;
        rest = after;
    }
    Ok(copy)
}
