//! The numbers that stand for cells of texts in a column that is none of texts.

ghost use Rattle.std.specs.Prelude.{◌≡◌, ◌⊎◌, Ok, Err, IfOk, IfErr, IfSome, IsErrOf, Some};
ghost use Rattle.std.specs.Option.{ForSome};
ghost use Rattle.cell_types.specs.Cell.{NeedsMemory, value_of};
ghost use Rattle.cell_types.specs.Column.{column_view};
ghost use Rattle.cell_types.specs.Datatype as datatype;
ghost use Rattle.cell_types.specs.Datatype.{boolean_view, datatype_view};
ghost use Rattle.cell_types.specs.Kind.{cell_of, kind_of, typed_cell, FitsKind, IsNumberOf};
ghost use Rattle.cell_types.specs.Value.{value_view};
ghost use Rattle.cell_types.specs.declared.kind.ColumnKind.TheVariants.{Number};

use crate::cell::{read_cell, read_short_integer};
use crate::column::Column;
use crate::datatype::{BooleanForm, Datatype, DateForm};
use crate::fault::CellFault;
use crate::kind::{NumberKind, day_number};
use crate::laws::{dates_read_back, values_fit_columns};
use crate::plain::{read_plain_boolean, read_plain_date, read_plain_decimal};
use crate::value::Value;
use std::alloc::Global;

/// Returns the number of a value that is none of a text; none of null.
fn number_of_value(kind: NumberKind, value: &Value<'_>) -> Option<i64>
    requires { FitsKind kind (value_view value.now) }
    ensures cell { cell_of kind result ≡ value_view value.now }
    ensures number { ForSome result (IsNumberOf kind) }
{
    match value {
        Value::Int(number) => Some(*number as i64),
        Value::Decimal(millionths) => Some(*millionths as i64),
        Value::Bool(truth) => Some(i64::from(*truth)),
        Value::Date(date) => Some(day_number(*date)),
        _ => None,
    }
}

/// Returns the number of the day of a text in a column of dates of a form, if it says one as it stands.
#[inline(always)]
fn plain_day(column: &Column, form: DateForm, text: &str) -> Option<i64>
    requires { datatype_view column.now.datatype ≡ datatype.date form }
    ensures value { IfSome result (λ number.
        value_of (column_view column.now) text.now ≡ Ok (typed_cell NumberKind.Date number)) }
    ensures number { ForSome result (IsNumberOf NumberKind.Date) }
{
    match read_plain_date(column, form, text) {
        Some(date) => Some(day_number(date)),
        None => None,
    }
}

/// Returns 0 for false and 1 for true, for a text in a column of booleans that is one of its texts as it is.
#[inline(always)]
fn plain_truth(column: &Column, form: &BooleanForm, text: &str) -> Option<i64>
    requires { datatype_view column.now.datatype ≡ boolean_view form.now }
    ensures value { IfSome result (λ number.
        value_of (column_view column.now) text.now ≡ Ok (typed_cell NumberKind.Boolean number)) }
    ensures number { ForSome result (IsNumberOf NumberKind.Boolean) }
{
    match read_plain_boolean(column, form, text) {
        Some(truth) => Some(i64::from(truth)),
        None => None,
    }
}

/// Returns the number of a text that says its value as it stands, in a column that is none of texts; none of another text. Of integers these are those of few
/// digits.
#[inline(always)]
fn plain_number(column: &Column, kind: NumberKind, text: &str) -> Option<i64>
    requires { kind_of (datatype_view column.now.datatype) ≡ Number kind }
    ensures value { IfSome result (λ number.
        value_of (column_view column.now) text.now ≡ Ok (cell_of kind (Some number))) }
    ensures number { ForSome result (IsNumberOf kind) }
{
    match &column.datatype {
        Datatype::Integer => read_short_integer(column, text),
        Datatype::Decimal => read_plain_decimal(column, text),
        Datatype::Boolean(form) => plain_truth(column, form, text),
        Datatype::Date(form) => plain_day(column, *form, text),
        Datatype::Text => None,
    }
}

/// Returns the number of a text in a column that is none of texts, or null if the text is null.
#[inline(always)]
pub fn read_number(
    alloc: Global,
    column: &Column,
    kind: NumberKind,
    text: &str,
) -> Result<Option<i64>, CellFault>
    requires { kind_of (datatype_view column.now.datatype) ≡ Number kind }
    ensures value { IfOk result
        (λ number. value_of (column_view column.now) text.now ≡ Ok (cell_of kind number)) }
    ensures number { IfOk result (λ number. ForSome number (IsNumberOf kind)) }
    ensures fault { IfErr result (λ e. (e ≡ CellFault.NoMemory)
        ⊎ (value_of (column_view column.now) text.now ≡ Err e)) }
    ensures memory { IsErrOf result CellFault.NoMemory
        → NeedsMemory (column_view column.now) text.now }
{
    if let Some(number) = plain_number(column, kind, text) {
        return Ok(Some(number));
    }
    read_other_number(alloc, column, kind, text)
}

/// Does what [`read_number`] does, and is called for texts that say no value as they stand.
#[inline(never)]
fn read_other_number(
    alloc: Global,
    column: &Column,
    kind: NumberKind,
    text: &str,
) -> Result<Option<i64>, CellFault>
    requires { kind_of (datatype_view column.now.datatype) ≡ Number kind }
    ensures value { IfOk result
        (λ number. value_of (column_view column.now) text.now ≡ Ok (cell_of kind number)) }
    ensures number { IfOk result (λ number. ForSome number (IsNumberOf kind)) }
    ensures fault { IfErr result (λ e. (e ≡ CellFault.NoMemory)
        ⊎ (value_of (column_view column.now) text.now ≡ Err e)) }
    ensures memory { IsErrOf result CellFault.NoMemory
        → NeedsMemory (column_view column.now) text.now }
{
    values_fit_columns();
    dates_read_back();
    match read_cell(alloc, column, text) {
        Ok(value) => Ok(number_of_value(kind, &value)),
        Err(fault) => Err(fault),
    }
}
