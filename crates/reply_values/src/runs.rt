//! How far the bytes of a text stand for themselves: in JSON none needs an escape (RFC 8259, section 7), in CSV none stands in double quotes alone (RFC 4180, section 2).
ghost use Rattle.std.specs.Prelude.{◌≡◌, ◌||◌, ◌==◌, ◌<◌, ◌≤◌, length};
ghost use Rattle.std.specs.List.{position_or_len};
ghost use Rattle.reply_values.specs.Printed.{is_plain_text, needs_more, needs_quotes};

use crate::lanes::run_in;

/// Returns true if a byte of a text does not stand for itself.
fn needs_more<const JSON: bool>(byte: u8) -> bool
    ensures { result ≡ needs_more JSON byte }
{
    if JSON {
        byte == b'"' || byte == b'\\' || byte < 0x20
    } else {
        byte == b'"' || byte == b',' || byte == b'\r' || byte == b'\n'
    }
}

/// Returns how many bytes at the front of a text shorter than a block stand for themselves.
fn short_run_len<const JSON: bool>(text: &[u8]) -> usize
    ensures { result ≡ position_or_len (needs_more JSON) text.now }
{
    for (place, byte) in text.iter().enumerate() {
        if needs_more::<JSON>(*byte) {
            return place;
        }
    }
    text.len()
}

/// Returns how many bytes at the front of a text stand for themselves, a block at a time. The last block ends where the text does, over bytes that were seen.
#[inline(always)]
fn run_len_by<const JSON: bool, const N: usize>(text: &[u8]) -> usize
    requires some { 0 < N }
    requires most { N ≤ 64 }
    requires block { N ≤ length text.now }
    ensures { result ≡ position_or_len (needs_more JSON) text.now }
{
    let last = text.len() - N;
    let mut at = 0;
    while at < last {
        let run = run_in::<JSON, N>(text, at);
        if run < N {
            return at + run;
        }
        at += N;
    }
    last + run_in::<JSON, N>(text, last)
}

/// Returns how many bytes at the front stand for themselves.
#[inline(always)]
pub fn run_len<const JSON: bool>(text: &[u8]) -> usize
    ensures { result ≡ position_or_len (needs_more JSON) text.now }
{
    match text.len() {
        0..4 => short_run_len::<JSON>(text),
        4..8 => run_len_by::<JSON, 4>(text),
        8..16 => run_len_by::<JSON, 8>(text),
        _ => run_len_by::<JSON, 16>(text),
    }
}

/// Returns true if each byte of a text stands for itself.
#[inline(always)]
#[tactic(auto, using(crate::proofs::BlockLemmas::none_is_past))]
pub fn is_plain<const JSON: bool>(text: &[u8]) -> bool
    ensures { result ≡ is_plain_text JSON text.now }
{
    run_len::<JSON>(text) == text.len()
}

/// Returns true if a text stands in double quotes whatever its bytes are: in JSON each does, in CSV the empty one.
#[inline(always)]
pub fn is_always_quoted<const JSON: bool>(text: &[u8]) -> bool
    ensures { result ≡ (JSON || (length text.now == 0)) }
{
    JSON || text.is_empty()
}

/// Returns true if a text stands in double quotes, as each does in JSON.
#[inline(always)]
pub fn is_quoted<const JSON: bool>(text: &[u8]) -> bool
    ensures { result ≡ (JSON || needs_quotes text.now) }
{
    is_always_quoted::<JSON>(text) || !is_plain::<false>(text)
}
