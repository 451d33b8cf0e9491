//! The texts of values in a line.
ghost use Rattle.std.specs.Prelude.{◌≡◌, ◌++◌, OnOk};
ghost use Rattle.cell_types.specs.Value.{value_view};
ghost use Rattle.diagnostics.specs.Text.{quoted_text};
ghost use Rattle.diagnostics.specs.Value.{shown_value};

use crate::text::quoted;
use cell_types::Value;
use std::alloc::{AllocError, Global};

/// Appends a text as a JSON text.
pub fn push_quoted(alloc: Global, out: &mut Vec<u8>, text: &str) -> Result<(), AllocError>
    ensures { OnOk result (out.new.items ≡ out.old.items ++ quoted_text text.now) }
{
    let line = quoted(alloc, text)?;
    out.extend_from_slice(line.as_bytes())
}

/// Appends the text of a value.
pub fn push_value(alloc: Global, out: &mut Vec<u8>, value: &Value<'_>) -> Result<(), AllocError>
    ensures { OnOk result (out.new.items ≡ out.old.items ++ shown_value (value_view value.now)) }
{
    match value {
        Value::Null => out.extend_from_slice(b"null"),
        Value::Text(text) => push_quoted(alloc, out, text.as_str()),
        value => reply_values::push_value::<false>(out, value),
    }
}
