//! The values of cells.

ghost use Rattle.std.specs.Prelude.{◌≡◌, IfOk, IsErr};
ghost use Rattle.cell_types.specs.Value.{value_view, IsTextCell};

use jiff_core::civil::Date;
use std::alloc::{AllocError, Global};
use std::borrow::CowStr;

/// The value of a cell. Null comes before all values, then integers, texts, booleans, dates and decimals; texts are in the order of
/// their code points, whichever memory keeps them, and false comes before true.
#[derive(Clone, PartialEq, Eq, PartialOrd, Ord, Hash, Drop)]
pub enum Value<'a> {
    Null,
    Int(i128),
    Text(CowStr<'a>),
    Bool(bool),
    Date(Date),
    /// In millionths.
    Decimal(i128),
}

/// Returns the value, whose text is lent.
pub fn lent<'a>(value: &'a Value<'static>) -> Value<'a>
    ensures { value_view result ≡ value_view value.now }
{
    match value {
        Value::Null => Value::Null,
        Value::Int(number) => Value::Int(*number),
        Value::Text(text) => Value::Text(CowStr::Borrowed(text.as_str())),
        Value::Bool(truth) => Value::Bool(*truth),
        Value::Date(date) => Value::Date(*date),
        Value::Decimal(millionths) => Value::Decimal(*millionths),
    }
}

/// Returns a copy of a value that lives on its own. Memory is taken only for a text.
pub fn owned(alloc: Global, value: &Value<'_>) -> Result<Value<'static>, AllocError>
    ensures copy { IfOk result (λ copy. value_view copy ≡ value_view value.now) }
    ensures memory { IsErr result → IsTextCell (value_view value.now) }
{
    Ok(match value {
        Value::Null => Value::Null,
        Value::Int(number) => Value::Int(*number),
        Value::Text(text) => Value::Text(CowStr::Owned(String::from_str(alloc, text.as_str())?)),
        Value::Bool(truth) => Value::Bool(*truth),
        Value::Date(date) => Value::Date(*date),
        Value::Decimal(millionths) => Value::Decimal(*millionths),
    })
}
