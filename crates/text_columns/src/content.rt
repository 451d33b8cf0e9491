//! What the fields of a file say, written one after another (RFC 4180, section 2, rules 5 to 7).
ghost use Rattle.std.specs.Prelude.{◌≡◌, ◌+◌, ◌<◌, ◌≤◌, ◌∷◌, ◌++◌, ◌==◌, ◌&&◌, IsUtf8, drop, length, take, slice_index};
ghost use Rattle.std.specs.List.{list_any, position_or_len};
ghost use Rattle.csv_grammar.specs.Bytes.{double_quote};
ghost use Rattle.csv_grammar.specs.Raw.{halved};
ghost use Rattle.text_columns.specs.Buffer.{field_content};
ghost use Rattle.text_columns.specs.declared.content.TheConstants.{LANES};

use std::simd::prelude::*;

/// How many bytes are looked at and written at once, so that short texts are copied without a loop.
pub const LANES: usize = 16;

/// Writes a text from a place on. Of a short one as many bytes as there are lanes are written, if the source has that many.
#[inline(always)]
#[tactic(auto, using(crate::proofs::ListLemmas::copied_over))]
fn copy_piece(piece: &[u8], rest: &[u8], out: &mut [u8], at: usize)
    requires rest { take (length piece.now) rest.now ≡ piece.now }
    requires room { at + length piece.now + LANES ≤ length out.old }
    ensures long { length out.new ≡ length out.old }
    ensures copied { take (at + length piece.now) out.new ≡ take at out.old ++ piece.now }
{
    let len = piece.len();
    if len <= LANES && LANES <= rest.len() {
        out[at..at + LANES].copy_from_slice(&rest[..LANES]);
    } else {
        out[at..at + len].copy_from_slice(piece);
    }
}

/// Returns how many of the bytes stand before the first double quote.
#[inline(always)]
fn quote_at(lanes: u8x16) -> usize
    ensures { result ≡ position_or_len (λ byte. byte == double_quote) lanes }
{
    let quotes = lanes.simd_eq(u8x16::splat(b'"')).to_bitmask();
    if quotes == 0 {
        LANES
    } else {
        quotes.trailing_zeros() as usize
    }
}

/// Returns true if a double quote stands in a text.
#[inline(always)]
fn has_quote(piece: &[u8], rest: &[u8]) -> bool
    requires { take (length piece.now) rest.now ≡ piece.now }
    ensures { result ≡ list_any (λ byte. byte == double_quote) piece.now }
{
    if piece.len() <= LANES && LANES <= rest.len() {
        return quote_at(u8x16::from_slice(rest)) < piece.len();
    }
    piece.iter().any(|byte| *byte == b'"')
}

/// Returns how many bytes of a text the next that is written stands for: a pair of double quotes is one.
#[inline(always)]
#[tactic(auto, using(crate::proofs::ContentLemmas::step_last, crate::proofs::ContentLemmas::step_other, crate::proofs::ContentLemmas::step_apart, crate::proofs::ContentLemmas::step_pair))]
fn step_at(piece: &[u8], from: usize) -> usize
    requires { from < length piece.now }
    ensures order { (0 < result) × (from + result ≤ length piece.now) }
    ensures step { halved (drop from piece.now)
        ≡ slice_index piece.now from ∷ halved (drop (from + result) piece.now) }
{
    if piece.len() - from < 2 {
        return 1;
    }
    if piece[from] != b'"' {
        return 1;
    }
    if piece[from + 1] != b'"' {
        return 1;
    }
    2
}

/// Writes a text from a place on, each of whose pairs of double quotes is made one, and gives where the copy ends.
#[inline(never)]
fn copy_halves(piece: &[u8], out: &mut [u8], at: usize) -> usize
    requires { at + length piece.now ≤ length out.old }
    ensures long { length out.new ≡ length out.old }
    ensures end { (at ≤ result) × (result ≤ at + length piece.now) }
    ensures copied { take result out.new ≡ take at out.old ++ halved piece.now }
{
    let mut read = 0;
    let mut end = at;
    while read < piece.len() {
        out[end] = piece[read];
        end += 1;
        read += step_at(piece, read);
    }
    end
}

/// Returns true if a double quote stands inside the quotes of a field.
#[inline(always)]
fn has_inner_quote(piece: &[u8], quoted: bool, rest: &[u8]) -> bool
    requires { take (length piece.now) rest.now ≡ piece.now }
    ensures { result ≡ (quoted && list_any (λ byte. byte == double_quote) piece.now) }
{
    quoted && has_quote(piece, rest)
}

/// Writes what a field says from a place on, and gives where the copy ends.
#[inline(always)]
pub fn copy_content(text: &str, quoted: bool, rest: &[u8], out: &mut [u8], at: usize) -> usize
    requires rest { take (length text.now) rest.now ≡ text.now }
    requires room { at + length text.now + LANES ≤ length out.old }
    ensures long { length out.new ≡ length out.old }
    ensures end { (at ≤ result) × (result ≤ length out.old) }
    ensures utf8 { IsUtf8 (field_content quoted text.now) }
    ensures copied { take result out.new ≡ take at out.old ++ field_content quoted text.now }
{
    let piece = text.as_bytes();
    let has = has_inner_quote(piece, quoted, rest);
    if has {
        return copy_halves(piece, out, at);
    }
    copy_piece(piece, rest, out, at);
    at + piece.len()
}

/// Writes a text from a place on.
#[inline(always)]
pub fn copy_text(text: &[u8], out: &mut [u8], at: usize)
    requires { at + length text.now ≤ length out.old }
    ensures long { length out.new ≡ length out.old }
    ensures copied { take (at + length text.now) out.new ≡ take at out.old ++ text.now }
{
    out[at..at + text.len()].copy_from_slice(text);
}
