//! Texts of others in a line.
ghost use Rattle.std.specs.Prelude.{◌≡◌, IfOk, string_bytes};
ghost use Rattle.text_escapes.specs.Escapes.{escaped as escaped_text};
ghost use Rattle.diagnostics.specs.Text.{cut_text, front_of, is_long, quoted_text, with_mark};

use serde_json::Value;
use std::alloc::{AllocError, Global};
use text_escapes::escaped;

/// The most characters of a text that stand in a line.
pub const MOST_CHARACTERS: usize = 80;

/// Returns the prefix of a text that fits into a line.
fn front(alloc: Global, text: &str) -> Result<String, AllocError>
    ensures { IfOk result (λ front. string_bytes front ≡ front_of text.now) }
{
    text.chars().take(MOST_CHARACTERS).collect(alloc)
}

/// Returns what stands in a line for a text, with three points after it if the text is cut.
fn marked(alloc: Global, front: &str, text: &str) -> Result<String, AllocError>
    ensures { IfOk result
        (λ line. string_bytes line ≡ with_mark (escaped_text front.now) (is_long text.now)) }
{
    let mut line = escaped(alloc, front)?;
    if text.chars().count() > MOST_CHARACTERS {
        line.push_str("...")?;
    }
    Ok(line)
}

/// Returns a text on one line, cut at eighty characters.
pub fn cut(alloc: Global, text: &str) -> Result<String, AllocError>
    ensures { IfOk result (λ line. string_bytes line ≡ cut_text text.now) }
{
    let front = front(alloc, text)?;
    marked(alloc, front.as_str(), text)
}

/// Returns a text as a JSON text on one line, cut at eighty characters.
pub fn quoted(alloc: Global, text: &str) -> Result<String, AllocError>
    ensures { IfOk result (λ line. string_bytes line ≡ quoted_text text.now) }
{
    let front = front(alloc, text)?;
    let json = Value::String(front).to_string(alloc);
    marked(alloc, json?.as_str(), text)
}
