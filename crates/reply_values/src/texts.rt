//! Texts in JSON (RFC 8259) or in CSV (RFC 4180, section 2), written into room that is there.
ghost use Rattle.std.specs.Prelude.{◌≡◌, ◌+◌, ◌++◌, ◌<◌, ◌≤◌, IsTrue, length, take};
ghost use Rattle.std.specs.Char.{digit_char};
ghost use Rattle.std.specs.List.{flat_map};
ghost use Rattle.reply_values.specs.Printed.{is_plain_text, printed_byte, printed_text};
ghost use Rattle.reply_values.specs.Size.{IsWrittenAt};

use crate::room::{put_block, put_byte, put_piece};
use crate::runs::{is_always_quoted, is_plain, run_len};

/// Returns a hexadecimal digit in lower case.
fn hex_digit(n: u8) -> u8
    requires { n < 16 }
    ensures { result ≡ digit_char n }
{
    if n < 10 { b'0' + n } else { b'a' - 10 + n }
}

/// Writes what stands for a byte between double quotes.
#[tactic(auto, unfolding(json::specs::Print::escape_byte))]
fn put_escaped<const JSON: bool>(out: &mut [u8], at: usize, byte: u8) -> usize
    requires { at + length (printed_byte JSON byte) ≤ length out.old }
    ensures { IsWrittenAt out.old out.new at result (printed_byte JSON byte) }
{
    match byte {
        b'"' if !JSON => put_block::<2>(out, at, b"\"\""),
        _ if !JSON => put_block::<1>(out, at, &[byte]),
        b'"' => put_block::<2>(out, at, b"\\\""),
        b'\\' => put_block::<2>(out, at, b"\\\\"),
        0x08 => put_block::<2>(out, at, b"\\b"),
        0x0c => put_block::<2>(out, at, b"\\f"),
        b'\n' => put_block::<2>(out, at, b"\\n"),
        b'\r' => put_block::<2>(out, at, b"\\r"),
        b'\t' => put_block::<2>(out, at, b"\\t"),
        0x00..=0x1f => {
            let digits = [hex_digit(byte / 16), hex_digit(byte % 16)];
            let end = put_block::<4>(out, at, b"\\u00");
            put_block::<2>(out, end, &digits)
        }
        _ => put_block::<1>(out, at, &[byte]),
    }
}

/// Writes what stands between the double quotes of a text, whole runs at a time.
#[inline(never)]
fn put_runs<const JSON: bool>(out: &mut [u8], at: usize, text: &[u8]) -> usize
    requires { at + length (flat_map (printed_byte JSON) text.now) ≤ length out.old }
    ensures { IsWrittenAt out.old out.new at result (flat_map (printed_byte JSON) text.now) }
{
    let mut rest = text;
    let mut end = at;
    loop {
        let (run, tail) = rest.split_at(run_len::<JSON>(rest));
        end = put_piece(out, end, run);
        let Some((byte, others)) = tail.split_first() else {
            return end;
        };
        end = put_escaped::<JSON>(out, end, *byte);
        rest = others;
    }
}

/// Writes a text each byte of which stands for itself, and looks at none: in JSON in double quotes, in CSV if it is empty.
#[inline(always)]
pub fn put_plain<const JSON: bool>(out: &mut [u8], at: usize, text: &[u8]) -> usize
    requires plain { IsTrue (is_plain_text JSON text.now) }
    requires room { at + length (printed_text JSON text.now) ≤ length out.old }
    ensures { IsWrittenAt out.old out.new at result (printed_text JSON text.now) }
{
    if is_always_quoted::<JSON>(text) {
        let start = put_byte(out, at, b'"');
        let end = put_piece(out, start, text);
        put_byte(out, end, b'"')
    } else {
        put_piece(out, at, text)
    }
}

/// Writes a text: in JSON in double quotes, in CSV if it needs them.
#[inline(always)]
pub fn put_text<const JSON: bool>(out: &mut [u8], at: usize, text: &[u8]) -> usize
    requires { at + length (printed_text JSON text.now) ≤ length out.old }
    ensures { IsWrittenAt out.old out.new at result (printed_text JSON text.now) }
{
    if is_plain::<JSON>(text) {
        return put_plain::<JSON>(out, at, text);
    }
    let start = put_byte(out, at, b'"');
    let end = put_runs::<JSON>(out, start, text);
    put_byte(out, end, b'"')
}
