//! The value of a cell's text.
ghost use Rattle.std.specs.Prelude.{◌≡◌, ◌⊎◌, ◌≢◌, false, Ok, Err, IfOk, IfErr, IfSome, IsErrOf, MatchOption, SomeIff, string_bytes};
ghost use Rattle.std.specs.List.{list_any};
ghost use Rattle.std.specs.Str.{bytes_eq};
ghost use Rattle.std.specs.Str.Parse.{signed_digits_value};
ghost use Rattle.std.specs.Cow.{cow_str_bytes};
ghost use Rattle.cell_types.specs.Datatype as datatype;
ghost use Rattle.cell_types.specs.Datatype.{datatype_view};
ghost use Rattle.cell_types.specs.Column.{column_view};
ghost use Rattle.cell_types.specs.Value.{value_view, integer as integer_value, text as text_value};
ghost use Rattle.cell_types.specs.Integer.{IsShortInteger};
ghost use Rattle.cell_types.specs.Cell.{NeedsMemory, content_value, is_null_text as is_null_text_of, null_reading, reading_view, text_or_default as text_or_default_of, value_of};

use crate::boolean::read_boolean;
use crate::column::Column;
use crate::datatype::Datatype;
use crate::date::read_date;
use crate::decimal::read_decimal;
use crate::fault::CellFault;
use crate::integer::{read_integer, short_integer};
use crate::value::Value;
use crate::white_space::{is_normal, normal_copy};
use std::alloc::Global;
use std::borrow::CowStr;

/// Returns true if two texts are the same. Where their lengths differ, no byte is compared.
#[inline(always)]
fn are_same(one: &str, other: &str) -> bool
    ensures { result ≡ bytes_eq one.now other.now }
{
    one.len() == other.len() && one == other
}

/// Returns true if a text is among some.
#[inline(always)]
fn is_among(texts: &[String], text: &str) -> bool
    ensures { result ≡ list_any (λ other. bytes_eq (string_bytes other) text.now) texts.now }
{
    texts.iter().any(|other| are_same(other.as_str(), text))
}

/// Returns true if a text stands for null in a column.
#[inline(always)]
pub fn is_null_text(column: &Column, text: &str) -> bool
    ensures { result ≡ is_null_text_of (column_view column.now) text.now }
{
    is_among(column.nulls.as_slice(), text)
}

/// Returns what a null is in a column.
fn null_value<'a>(column: &Column) -> Result<Value<'a>, CellFault>
    ensures { reading_view result ≡ null_reading (column_view column.now) }
{
    if column.required {
        Err(CellFault::Missing)
    } else {
        Ok(Value::Null)
    }
}

/// Returns a text, or the column's default in the place of an empty one.
fn text_or_default<'a>(column: &'a Column, text: &'a str) -> &'a str
    ensures { result.now ≡ text_or_default_of (column_view column.now) text.now }
{
    if text.is_empty() {
        column.default.as_str()
    } else {
        text
    }
}

/// Returns the value of a text in a column of texts. Memory is taken only if a default that is no null stands in for an empty text.
fn read_string<'a>(alloc: Global, column: &Column, text: CowStr<'a>) -> Result<Value<'a>, CellFault>
    requires { datatype_view column.now.datatype ≡ datatype.text }
    ensures value { IfOk result (λ value.
        content_value (column_view column.now) (cow_str_bytes text.entry) ≡ Ok (value_view value)) }
    ensures fault { IfErr result (λ e. (e ≡ CellFault.NoMemory)
        ⊎ (content_value (column_view column.now) (cow_str_bytes text.entry) ≡ Err e)) }
    ensures memory { IsErrOf result CellFault.NoMemory
        → NeedsMemory (column_view column.now) (cow_str_bytes text.entry) }
{
    if is_null_text(column, text_or_default(column, text.as_str())) {
        return null_value(column);
    }
    if text.as_str().is_empty() && !column.default.is_empty() {
        let copy = String::from_str(alloc, column.default.as_str())?;
        return Ok(Value::Text(CowStr::Owned(copy)));
    }
    Ok(Value::Text(text))
}

/// Returns the value of a normal text in a column of another datatype.
fn read_content<'a>(column: &Column, text: &str) -> Result<Value<'a>, CellFault>
    requires { datatype_view column.now.datatype ≢ datatype.text }
    ensures { reading_view result ≡ content_value (column_view column.now) text.now }
{
    let content = text_or_default(column, text);
    if is_null_text(column, content) {
        return null_value(column);
    }
    match &column.datatype {
        Datatype::Integer => read_integer(content),
        Datatype::Boolean(form) => read_boolean(form, content),
        Datatype::Date(form) => read_date(*form, content),
        Datatype::Decimal => read_decimal(content),
        Datatype::Text => unreachable!(),
    }
}

/// Returns a text, or the column's default in the place of an empty one, which is borrowed.
fn string_or_default<'a>(column: &'a Column, text: CowStr<'a>) -> CowStr<'a>
    ensures { cow_str_bytes result
        ≡ text_or_default_of (column_view column.now) (cow_str_bytes text.entry) }
{
    if text.as_str().is_empty() {
        CowStr::Borrowed(column.default.as_str())
    } else {
        text
    }
}

/// Returns the value of a text in a column of texts, or `None` if it stands for null. It takes no memory.
pub fn string_of<'a>(column: &'a Column, text: CowStr<'a>) -> Option<CowStr<'a>>
    requires { datatype_view column.now.datatype ≡ datatype.text }
    ensures { MatchOption result (value_of (column_view column.now) (cow_str_bytes text.entry)
        ≡ null_reading (column_view column.now)) (λ string. value_of (column_view column.now)
        (cow_str_bytes text.entry) ≡ Ok (text_value (cow_str_bytes string))) }
{
    let string = string_or_default(column, text);
    if is_null_text(column, string.as_str()) {
        return None;
    }
    Some(string)
}

/// Returns the number of a sign and at most eighteen digits in a column of integers, if they don't stand for null; none of another text. They are read in
/// one pass.
#[inline(always)]
pub fn read_short_integer(column: &Column, text: &str) -> Option<i64>
    requires { datatype_view column.now.datatype ≡ datatype.integer }
    ensures number { SomeIff result (IsShortInteger text.now
        × (is_null_text_of (column_view column.now) text.now ≡ false)) (signed_digits_value 10 text.now) }
    ensures value { IfSome result (λ number.
        value_of (column_view column.now) text.now ≡ Ok (integer_value number)) }
{
    let number = short_integer(text)?;
    if is_null_text(column, text) {
        return None;
    }
    Some(number)
}

/// Returns the value of a text in a column (Model for Tabular Data and Metadata on the Web, section 6.4). Memory is taken only if a text
/// must be normalized, or where a default that is no null stands in for an empty `string`.
pub fn read_text<'a>(
    alloc: Global,
    column: &Column,
    text: CowStr<'a>,
) -> Result<Value<'a>, CellFault>
    ensures value { IfOk result (λ value.
        value_of (column_view column.now) (cow_str_bytes text.entry) ≡ Ok (value_view value)) }
    ensures fault { IfErr result (λ e. (e ≡ CellFault.NoMemory)
        ⊎ (value_of (column_view column.now) (cow_str_bytes text.entry) ≡ Err e)) }
    ensures memory { IsErrOf result CellFault.NoMemory
        → NeedsMemory (column_view column.now) (cow_str_bytes text.entry) }
{
    if matches!(column.datatype, Datatype::Text) {
        return read_string(alloc, column, text);
    }
    if is_normal(text.as_str()) {
        return read_content(column, text.as_str());
    }
    let copy = normal_copy(alloc, text.as_str())?;
    read_content(column, copy.as_str())
}

/// Does what [`read_text`] does, for a borrowed text.
pub fn read_cell<'a>(alloc: Global, column: &Column, text: &'a str) -> Result<Value<'a>, CellFault>
    ensures value { IfOk result
        (λ value. value_of (column_view column.now) text.now ≡ Ok (value_view value)) }
    ensures fault { IfErr result (λ e. (e ≡ CellFault.NoMemory)
        ⊎ (value_of (column_view column.now) text.now ≡ Err e)) }
    ensures memory { IsErrOf result CellFault.NoMemory
        → NeedsMemory (column_view column.now) text.now }
{
    read_text(alloc, column, CowStr::Borrowed(text))
}
