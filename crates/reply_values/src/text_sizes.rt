//! How many bytes texts take in JSON (RFC 8259) or in CSV (RFC 4180, section 2). None is written.
ghost use Rattle.std.specs.Prelude.{◌≡◌, ◌≤◌, ℕ, List, IsTrue, length};
ghost use Rattle.std.specs.List.{flat_map};
ghost use Rattle.reply_values.specs.Printed.{is_plain_text, printed_byte, printed_text};
ghost use Rattle.reply_values.specs.Size.{told};

use crate::runs::{is_quoted, run_len};

/// Returns how many bytes stand for a byte between double quotes.
#[tactic(auto, unfolding(json::specs::Print::escape_byte))]
fn escaped_size<const JSON: bool>(byte: u8) -> usize
    ensures { result ≡ length (printed_byte JSON byte) }
{
    match byte {
        b'"' => 2,
        _ if !JSON => 1,
        b'\\' | 0x08 | 0x0c | b'\n' | b'\r' | b'\t' => 2,
        0x00..=0x1f => 6,
        _ => 1,
    }
}

/// Returns how many bytes stand between the double quotes of a text, whole runs at a time.
fn inside_size<const JSON: bool>(text: &[u8]) -> usize
    ensures { result ≡ told (length (flat_map (printed_byte JSON) text.now)) }
{
    let mut rest = text;
    let mut size = 0usize;
    loop {
        let (run, tail) = rest.split_at(run_len::<JSON>(rest));
        size = size.saturating_add(run.len());
        let Some((byte, others)) = tail.split_first() else {
            return size;
        };
        size = size.saturating_add(escaped_size::<JSON>(*byte));
        rest = others;
    }
}

/// Returns how many bytes a text takes: in JSON in double quotes, in CSV if it needs them.
#[inline(always)]
#[tactic(auto, using(crate::proofs::RunLemmas::quoted_text, crate::proofs::RunLemmas::plain_text))]
pub fn text_size<const JSON: bool>(text: &[u8]) -> usize
    ensures { result ≡ told (length (printed_text JSON text.now)) }
{
    if is_quoted::<JSON>(text) {
        inside_size::<JSON>(text).saturating_add(2)
    } else {
        text.len()
    }
}

/// Returns how many bytes a text of `len` bytes takes, each of which stands for itself.
#[inline(always)]
#[tactic(auto, using(crate::proofs::RunLemmas::plain_long))]
pub fn plain_size<const JSON: bool>(len: usize) -> usize
    ensures { (text : List ℕ) → length text ≡ len → IsTrue (is_plain_text JSON text)
        → result ≡ told (length (printed_text JSON text)) }
{
    if JSON || len == 0 {
        len.saturating_add(2)
    } else {
        len
    }
}

/// Returns a number of bytes that a text does not pass, known at once.
#[inline(always)]
#[tactic(auto, using(crate::proofs::RoomLemmas::text_fits, crate::proofs::RoomLemmas::field_fits))]
pub fn text_room<const JSON: bool>(text: &[u8]) -> usize
    ensures { told (length (printed_text JSON text.now)) ≤ result }
{
    let most = if JSON { 6 } else { 2 };
    text.len().saturating_mul(most).saturating_add(2)
}
