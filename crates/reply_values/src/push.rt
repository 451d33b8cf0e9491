//! Texts and numbers in JSON (RFC 8259), appended to one buffer.
ghost use Rattle.std.specs.Prelude.{◌≡◌, ◌+◌, ◌++◌, ◌<◌, ◌≤◌, OnErr, OnOk, length, vec_capacity, vec_len};
ghost use Rattle.std.specs.Fmt.{decimal};
ghost use Rattle.reply_values.specs.Printed.{json_text, json_text_member};

use crate::room::make_room;
use crate::text_sizes::text_size;
use crate::texts::put_text;
use itoa::Buffer;
use std::alloc::AllocError;

/// Appends a text in quotes.
pub fn push_text(out: &mut Vec<u8>, text: &[u8]) -> Result<(), AllocError>
    ensures bytes { OnOk result (out.new.items ≡ out.old.items ++ json_text text.now) }
    ensures room { vec_capacity out.old ≤ vec_capacity out.new }
    ensures full { OnErr result
        (vec_capacity out.old < vec_len out.old + length (json_text text.now)) }
{
    let at = make_room(out, text_size::<true>(text))?;
    let end = put_text::<true>(out.as_mut_slice(), at, text);
    out.truncate(end);
    Ok(())
}

/// Appends a member whose value is a text.
pub fn push_text_member(out: &mut Vec<u8>, name: &[u8], text: &[u8]) -> Result<(), AllocError>
    ensures bytes { OnOk result
        (out.new.items ≡ out.old.items ++ json_text_member name.now text.now) }
    ensures room { vec_capacity out.old ≤ vec_capacity out.new }
    ensures full { OnErr result
        (vec_capacity out.old < vec_len out.old + length (json_text_member name.now text.now)) }
{
    push_text(out, name)?;
    out.extend_from_slice(b":")?;
    push_text(out, text)
}

/// Appends a number in decimal digits.
pub fn push_number(out: &mut Vec<u8>, number: u64) -> Result<(), AllocError>
    ensures bytes { OnOk result (out.new.items ≡ out.old.items ++ decimal number) }
    ensures room { vec_capacity out.old ≤ vec_capacity out.new }
    ensures full { OnErr result (vec_capacity out.old < vec_len out.old + length (decimal number)) }
{
    out.extend_from_slice(Buffer::new().format(number).as_bytes())
}
