//! Values in JSON (RFC 8259; OData 4.01 JSON Format) or in CSV (RFC 4180).
ghost use Rattle.std.specs.Prelude.{◌≡◌, ◌+◌, ◌++◌, ◌<◌, ◌≤◌, OnErr, OnOk, length, take, vec_capacity, vec_len};
ghost use Rattle.cell_types.specs.Value.{value_view};
ghost use Rattle.reply_values.specs.Printed.{printed_value};
ghost use Rattle.reply_values.specs.Size.{told, IsWrittenAt};

use crate::digits::{bool_size, date_size, decimal_size, integer_size};
use crate::put_numbers::{put_bool, put_date, put_decimal, put_integer};
use crate::room::{make_room, put_piece};
use crate::text_sizes::text_size;
use crate::texts::put_text;
use cell_types::Value;
use std::alloc::AllocError;

/// Writes a value, within room that is there.
#[inline(always)]
pub fn put_value<const JSON: bool>(out: &mut [u8], at: usize, value: &Value<'_>) -> usize
    requires { at + length (printed_value JSON (value_view value.now)) ≤ length out.old }
    ensures { IsWrittenAt out.old out.new at result (printed_value JSON (value_view value.now)) }
{
    match value {
        Value::Null if JSON => put_piece(out, at, b"null"),
        Value::Null => at,
        Value::Int(number) => put_integer(out, at, *number),
        Value::Text(text) => put_text::<JSON>(out, at, text.as_str().as_bytes()),
        Value::Bool(truth) => put_bool(out, at, *truth),
        Value::Date(date) => put_date::<JSON>(out, at, *date),
        Value::Decimal(millionths) => put_decimal(out, at, *millionths),
    }
}

/// Returns how many bytes a value takes.
#[inline(always)]
pub fn value_size<const JSON: bool>(value: &Value<'_>) -> usize
    ensures { result ≡ told (length (printed_value JSON (value_view value.now))) }
{
    match value {
        Value::Null if JSON => 4,
        Value::Null => 0,
        Value::Int(number) => integer_size(*number),
        Value::Text(text) => text_size::<JSON>(text.as_str().as_bytes()),
        Value::Bool(truth) => bool_size(*truth),
        Value::Date(date) => date_size::<JSON>(*date),
        Value::Decimal(millionths) => decimal_size(*millionths),
    }
}

/// Appends a value.
pub fn push_value<const JSON: bool>(out: &mut Vec<u8>, value: &Value<'_>) -> Result<(), AllocError>
    ensures bytes { OnOk result
        (out.new.items ≡ out.old.items ++ printed_value JSON (value_view value.now)) }
    ensures room { vec_capacity out.old ≤ vec_capacity out.new }
    ensures full { OnErr result (vec_capacity out.old
        < vec_len out.old + length (printed_value JSON (value_view value.now))) }
{
    let at = make_room(out, value_size::<JSON>(value))?;
    let end = put_value::<JSON>(out.as_mut_slice(), at, value);
    out.truncate(end);
    Ok(())
}
