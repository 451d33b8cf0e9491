//! The bytes of a stream in a line, with `\r`, `\n` and `\\` for CR, LF and backslash.
ghost use Rattle.std.specs.Prelude.{◌≡◌, ◌++◌, ℕ, List, OnOk, MatchOption, Some};
ghost use Rattle.std.specs.List.{flat_map};
ghost use Rattle.event_scripts.specs.Escapes.{BeginsWithByte, ReadsEscapedText, byte_behind, written_byte};

use crate::fault::CommandFault;
use std::alloc::{AllocError, Global};

/// Returns the byte that a character after a backslash stands for.
fn byte_behind(character: u8) -> Option<u8>
    ensures { result ≡ byte_behind character }
{
    match character {
        b'r' => Some(b'\r'),
        b'n' => Some(b'\n'),
        b'\\' => Some(b'\\'),
        _ => None,
    }
}

/// Returns the byte that a text begins with, and what follows what stands for it.
fn first_byte(text: &[u8]) -> Option<(u8, &[u8])>
    ensures { MatchOption result
        ((b : ℕ) (rest : List ℕ) → ¬ (BeginsWithByte text.now b rest))
        (λ first. BeginsWithByte text.now first.0 first.1.now) }
{
    match text {
        [b'\\', character, rest @ ..] => Some((byte_behind(*character)?, rest)),
        [b'\\'] => None,
        [byte, rest @ ..] => Some((*byte, rest)),
        [] => None,
    }
}

/// Returns the bytes that a text stands for.
pub(crate) fn read_text(alloc: Global, text: &[u8]) -> Result<Vec<u8>, CommandFault>
    ensures { ReadsEscapedText text.now result }
{
    let mut bytes = Vec::new(alloc);
    let mut rest = text;
    while !rest.is_empty() {
        let Some((byte, behind)) = first_byte(rest) else {
            return Err(CommandFault::Bad);
        };
        bytes.extend_from_slice(&[byte])?;
        rest = behind;
    }
    Ok(bytes)
}

/// Appends what stands for a byte.
fn push_byte(out: &mut Vec<u8>, byte: u8) -> Result<(), AllocError>
    ensures { OnOk result (out.new.items ≡ out.old.items ++ written_byte byte) }
{
    match byte {
        b'\r' => out.extend_from_slice(b"\\r"),
        b'\n' => out.extend_from_slice(b"\\n"),
        b'\\' => out.extend_from_slice(b"\\\\"),
        _ => out.extend_from_slice(&[byte]),
    }
}

/// Appends bytes, with CR, LF and backslash escaped.
pub(crate) fn push_escaped(out: &mut Vec<u8>, bytes: &[u8]) -> Result<(), AllocError>
    ensures { OnOk result (out.new.items ≡ out.old.items ++ flat_map written_byte bytes.now) }
{
    for byte in bytes {
        push_byte(out, *byte)?;
    }
    Ok(())
}
