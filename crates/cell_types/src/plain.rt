//! Cells whose text says their value as it stands: there is no white space to normalize, no default takes its place, and it does not stand for null. They are
//! read with no [`Value`](crate::Value) on the way.
ghost use Rattle.std.specs.Prelude.{◌≡◌, ◌<◌, Ok, IfSome, IsNone, MatchOption, length};
ghost use Rattle.cell_types.specs.Cell.{typed_value, value_of, SaysPlainly};
ghost use Rattle.cell_types.specs.Column.{column_view};
ghost use Rattle.cell_types.specs.Datatype as datatype;
ghost use Rattle.cell_types.specs.Datatype.{boolean_view, datatype_view};
ghost use Rattle.cell_types.specs.WhiteSpace.{normal_text};
ghost use Rattle.cell_types.specs.Value.{boolean as boolean_value, date as date_value, decimal as decimal_value, CellValue};

use crate::boolean::truth_of;
use crate::cell::is_null_text;
use crate::column::Column;
use crate::datatype::{BooleanForm, DateForm};
use crate::date::date_in;
use crate::decimal::millionths_of;
use crate::white_space::is_normal;
use jiff_core::civil::Date;

/// Returns the day of a text in a column of dates of a form, if it says one as it stands.
#[inline(always)]
pub fn read_plain_date(column: &Column, form: DateForm, text: &str) -> Option<Date>
    requires { datatype_view column.now.datatype ≡ datatype.date form }
    ensures plain { MatchOption result
        ((value : CellValue) → ¬ (SaysPlainly (column_view column.now) text.now value))
        (λ date. SaysPlainly (column_view column.now) text.now
        (date_value date.year date.month date.day)) }
    ensures value { IfSome result (λ date. value_of (column_view column.now) text.now
        ≡ Ok (date_value date.year date.month date.day)) }
{
    let date = date_in(form, text)?;
    if is_null_text(column, text) {
        return None;
    }
    Some(date)
}

/// Returns the number of millionths of a text in a column of decimals, if it says one as it stands.
#[inline(always)]
pub fn read_plain_decimal(column: &Column, text: &str) -> Option<i64>
    requires { datatype_view column.now.datatype ≡ datatype.decimal }
    ensures plain { MatchOption result
        ((value : CellValue) → ¬ (SaysPlainly (column_view column.now) text.now value))
        (λ number. SaysPlainly (column_view column.now) text.now (decimal_value number)) }
    ensures value { IfSome result
        (λ number. value_of (column_view column.now) text.now ≡ Ok (decimal_value number)) }
{
    let Ok(number) = millionths_of(text) else {
        return None;
    };
    if is_null_text(column, text) {
        return None;
    }
    Some(number)
}

/// Returns the boolean of a text that is not empty, and that normalization leaves unchanged. It looks for white space only in texts that a column names.
#[inline(always)]
fn normal_truth(form: &BooleanForm, text: &str) -> Option<bool>
    ensures normal { IfSome result
        (λ _. (0 < length text.now) × (normal_text text.now ≡ text.now)) }
    ensures truth { IfSome result
        (λ truth. typed_value (boolean_view form.now) text.now ≡ Ok (boolean_value truth)) }
    ensures none { IsNone result → (value : CellValue)
        → typed_value (boolean_view form.now) text.now ≡ Ok value
        → ¬ ((0 < length text.now) × (normal_text text.now ≡ text.now)) }
{
    let truth = truth_of(form, text)?;
    match form {
        BooleanForm::Standard => Some(truth),
        BooleanForm::Texts(..) if text.is_empty() || !is_normal(text) => None,
        BooleanForm::Texts(..) => Some(truth),
    }
}

/// Returns the boolean of a text, unchanged by normalization, in a column of booleans of a form.
#[inline(always)]
pub fn read_plain_boolean(column: &Column, form: &BooleanForm, text: &str) -> Option<bool>
    requires { datatype_view column.now.datatype ≡ boolean_view form.now }
    ensures plain { MatchOption result
        ((value : CellValue) → ¬ (SaysPlainly (column_view column.now) text.now value))
        (λ truth. SaysPlainly (column_view column.now) text.now (boolean_value truth)) }
    ensures value { IfSome result
        (λ truth. value_of (column_view column.now) text.now ≡ Ok (boolean_value truth)) }
{
    let truth = normal_truth(form, text)?;
    if is_null_text(column, text) {
        return None;
    }
    Some(truth)
}
