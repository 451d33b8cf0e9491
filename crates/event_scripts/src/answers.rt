//! The lines that are printed of what commands are answered.
ghost use Rattle.std.specs.Prelude.{◌≡◌, IfOk};
ghost use Rattle.event_scripts.specs.Answers.{bytes_text, line_of, place_text, text_of_refusal};

use crate::escapes::push_escaped;
use std::alloc::{AllocError, Global};

/// Returns the line of a text.
pub fn text_line(alloc: Global, text: &str) -> Result<Vec<u8>, AllocError>
    ensures { IfOk result (λ line. line.items ≡ line_of text.now) }
{
    let mut line = Vec::from_slice(alloc, text.as_bytes())?;
    line.extend_from_slice(b"\n")?;
    Ok(line)
}

/// Returns the line of the place that a connection was opened at.
pub fn place_line(alloc: Global, place: u32) -> Result<Vec<u8>, AllocError>
    ensures { IfOk result (λ line. line.items ≡ line_of (place_text place)) }
{
    let line = format!(in alloc; "conn {place}\n")?;
    Ok(line.into_bytes())
}

/// Returns the line of bytes that were taken.
pub fn bytes_line(alloc: Global, bytes: &[u8]) -> Result<Vec<u8>, AllocError>
    ensures { IfOk result (λ line. line.items ≡ line_of (bytes_text bytes.now)) }
{
    let count = bytes.len();
    let front = format!(in alloc; "bytes {count} ")?;
    let mut line = front.into_bytes();
    push_escaped(&mut line, bytes)?;
    line.extend_from_slice(b"\n")?;
    Ok(line)
}

/// Returns the line of a refusal of that name.
pub fn refusal_line(alloc: Global, name: &str) -> Result<Vec<u8>, AllocError>
    ensures { IfOk result (λ line. line.items ≡ line_of (text_of_refusal name.now)) }
{
    let line = format!(in alloc; "refused {name}\n")?;
    Ok(line.into_bytes())
}
