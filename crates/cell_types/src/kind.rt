//! The kinds of columns: what the cells of a column are, whichever form their texts have, and the number that stands for one. Each kind but that of texts is one
//! of numbers.

ghost use Rattle.std.specs.Prelude.{◌≡◌, ◌≤◌, ◌<◌, ◌≤ℤ◌, ℤ, pos, option_map};
ghost use Rattle.std.specs.Int.{w64};
ghost use Rattle.std.specs.Int.RustNames.{FitsSigned};
ghost use Rattle.cell_types.specs.Datatype.{datatype_view};
ghost use Rattle.cell_types.specs.Kind.{day_cell, day_number as day_number_of, is_of_kind as is_of_kind_of, kind_of, number_cell, number_in as number_in_of, number_of as number_of_value, of_kind as of_kind_of, truth_cell, typed_cell, HasRealDay, IsNumberOf};
ghost use Rattle.cell_types.specs.Value.{value_view};

use crate::datatype::Datatype;
use crate::value::Value;
use jiff_core::civil::Date;

/// The first number of a day in the year 1, and the first in the year 10,000.
const FIRST_YEAR: i128 = 512;

const PAST_YEARS: i128 = 5_120_000;

/// What the numbers of a column stand for.
#[derive(Clone, Copy, PartialEq, Eq)]
pub enum NumberKind {
    /// Whole numbers.
    Integer,
    /// Decimals, in millionths.
    Decimal,
    /// False is 0, and true 1.
    Boolean,
    /// Days, numbered by [`day_number`].
    Date,
}

/// What the cells of a column are.
#[derive(Clone, Copy, PartialEq, Eq)]
pub enum ColumnKind {
    Text,
    /// Values for which numbers stand.
    Number(NumberKind),
}

impl Datatype {
    /// Returns the kind of its values.
    pub fn kind(&self) -> ColumnKind
        ensures { result ≡ kind_of (datatype_view self.now) }
    {
        match self {
            Datatype::Integer => ColumnKind::Number(NumberKind::Integer),
            Datatype::Text => ColumnKind::Text,
            Datatype::Boolean(_) => ColumnKind::Number(NumberKind::Boolean),
            Datatype::Date(_) => ColumnKind::Number(NumberKind::Date),
            Datatype::Decimal => ColumnKind::Number(NumberKind::Decimal),
        }
    }
}

/// Returns the number of a day; of two days the later has the greater number.
pub fn day_number(date: Date) -> i64
    ensures value { result ≡ day_number_of date.year date.month date.day }
    ensures stands { IsNumberOf NumberKind.Date result }
{
    i64::from(date.year) * 512 + i64::from(date.month) * 32 + i64::from(date.day)
}

/// Returns true if `value` is null, or of `kind`.
#[inline(always)]
fn is_of_kind(kind: ColumnKind, value: &Value<'_>) -> bool
    ensures { result ≡ is_of_kind_of kind (value_view value.now) }
{
    match (kind, value) {
        (_, Value::Null) => true,
        (ColumnKind::Text, Value::Text(_)) => true,
        (ColumnKind::Number(NumberKind::Integer), Value::Int(_)) => true,
        (ColumnKind::Number(NumberKind::Decimal), Value::Decimal(_)) => true,
        (ColumnKind::Number(NumberKind::Boolean), Value::Bool(_)) => true,
        (ColumnKind::Number(NumberKind::Date), Value::Date(_)) => true,
        _ => false,
    }
}

/// Returns `value` if it is of `kind`, else null.
#[inline(always)]
pub fn of_kind(kind: ColumnKind, value: Value<'_>) -> Value<'_>
    ensures { value_view result ≡ of_kind_of kind (value_view value.entry) }
{
    if is_of_kind(kind, &value) {
        value
    } else {
        Value::Null
    }
}

/// Returns the number that stands for `value`; none for null, and for a text.
#[inline(always)]
pub fn number_of(value: &Value<'_>) -> Option<i128>
    ensures number { result ≡ number_of_value (value_view value.now) }
    ensures day { HasRealDay (value_view value.now) }
{
    match value {
        Value::Null | Value::Text(_) => None,
        Value::Int(number) => Some(*number),
        Value::Decimal(millionths) => Some(*millionths),
        Value::Bool(truth) => Some(i128::from(*truth)),
        Value::Date(date) => Some(i128::from(day_number(*date))),
    }
}

/// Returns the number that stands for `value`, if it is of `kind`.
pub fn number_in(kind: NumberKind, value: &Value<'_>) -> Option<i128>
    ensures { result ≡ number_in_of kind (value_view value.now) }
{
    match (kind, value) {
        (NumberKind::Integer, Value::Int(number)) => Some(*number),
        (NumberKind::Decimal, Value::Decimal(millionths)) => Some(*millionths),
        (NumberKind::Boolean, Value::Bool(truth)) => Some(i128::from(*truth)),
        (NumberKind::Date, Value::Date(date)) => Some(i128::from(day_number(*date))),
        _ => None,
    }
}

/// Returns the day of a number.
#[inline(always)]
fn day_of(number: i64) -> Date
    requires { IsNumberOf NumberKind.Date number }
    ensures { number ≡ day_number_of result.year result.month result.day }
{
    let place = number.rem_euclid(512) as u64;
    Date {
        year: number.div_euclid(512) as i16,
        month: (place / 32) as u8,
        day: (place % 32) as u8,
    }
}

/// Returns the value of a kind that a number stands for.
#[inline(always)]
pub fn typed_value(kind: NumberKind, number: i64) -> Value<'static>
    requires { IsNumberOf kind number }
    ensures { value_view result ≡ typed_cell kind number }
{
    match kind {
        NumberKind::Integer => Value::Int(i128::from(number)),
        NumberKind::Decimal => Value::Decimal(i128::from(number)),
        NumberKind::Boolean => Value::Bool(number == 1),
        NumberKind::Date => Value::Date(day_of(number)),
    }
}

/// Returns the day with a number, if the calendar has it.
fn day_at(number: u32) -> Option<Value<'static>>
    requires first { 512 ≤ number }
    requires last { number < 5_120_000 }
    ensures { (n : ℤ) → pos number ≡ n → option_map value_view result ≡ day_cell n }
{
    let year = (number / 512) as i16;
    let month = (number % 512 / 32) as i8;
    let day = (number % 32) as i8;
    match Date::new(year, month, day) {
        Ok(date) => Some(Value::Date(date)),
        Err(_) => None,
    }
}

/// Returns the day that a number stands for, if the calendar has it in the years 1 to 9999.
fn day_value(number: i128) -> Option<Value<'static>>
    ensures { option_map value_view result ≡ day_cell number }
{
    if number < FIRST_YEAR || number >= PAST_YEARS {
        return None;
    }
    day_at(number as u32)
}

/// Returns the boolean that a number stands for: false for 0, and true for 1.
fn truth_value(number: i128) -> Option<Value<'static>>
    ensures { option_map value_view result ≡ truth_cell number }
{
    if number == 0 {
        Some(Value::Bool(false))
    } else if number == 1 {
        Some(Value::Bool(true))
    } else {
        None
    }
}

/// Returns the value of the kind that a number stands for, if there is one; null for no number.
pub fn value_of_number(kind: NumberKind, number: Option<i128>) -> Option<Value<'static>>
    ensures { option_map value_view result ≡ number_cell kind number }
{
    let Some(number) = number else {
        return Some(Value::Null);
    };
    match kind {
        NumberKind::Integer => Some(Value::Int(number)),
        NumberKind::Decimal => Some(Value::Decimal(number)),
        NumberKind::Boolean => truth_value(number),
        NumberKind::Date => day_value(number),
    }
}

impl NumberKind {
    /// Returns the least number of 64 signed bits that stands for a value of the kind.
    pub fn least(self) -> i64
        ensures stands { IsNumberOf self result }
        ensures least { (number : ℤ) → FitsSigned w64 number → IsNumberOf self number
            → result ≤ℤ number }
    {
        match self {
            NumberKind::Integer | NumberKind::Decimal => i64::MIN,
            NumberKind::Boolean => 0,
            NumberKind::Date => day_number(Date::MIN),
        }
    }

    /// Returns the greatest number of 64 signed bits that stands for a value of the kind.
    pub fn greatest(self) -> i64
        ensures stands { IsNumberOf self result }
        ensures greatest { (number : ℤ) → FitsSigned w64 number → IsNumberOf self number
            → number ≤ℤ result }
    {
        match self {
            NumberKind::Integer | NumberKind::Decimal => i64::MAX,
            NumberKind::Boolean => 1,
            NumberKind::Date => day_number(Date::MAX),
        }
    }
}
