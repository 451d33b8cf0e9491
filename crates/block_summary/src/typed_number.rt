//! Numbers with their kinds.

ghost use Rattle.std.specs.Prelude.{◌≡◌, Some, pos, ◌/◌, ◌%◌};
ghost use Rattle.std.specs.Int.{int_div_euclid};
ghost use Rattle.jiff_core.specs.Calendar.{IsDate};
ghost use Rattle.cell_types.specs.Kind.{number_in, place_in_year, typed_cell};
ghost use Rattle.cell_types.specs.declared.kind.NumberKind.TheVariants as kinds;

use cell_types::{NumberKind, Value, day_number, numbers_stand_for_cells, typed_value};
use jiff_core::civil::Date;

/// A number with its kind: a value, kept small.
#[derive(Clone, Copy)]
pub struct TypedNumber {
    pub kind: NumberKind,
    pub number: i64,
    pub ghost back: { number_in kind (typed_cell kind number) ≡ Some number },
    pub ghost real: { kind ≡ kinds.Date → IsDate (int_div_euclid number (pos 512))
        (pos (place_in_year number / 32)) (pos (place_in_year number % 32)) },
}

impl TypedNumber {
    ghost use Rattle.cell_types.specs.Kind.{IsNumberOf};
    ghost use Rattle.cell_types.specs.Value.{boolean, date as day, value_view};
    ghost use Rattle.block_summary.specs.TypedNumbers.{typed_number_cell};

    /// Returns a number that stands for a value of `kind`.
    #[inline(always)]
    pub fn new(kind: NumberKind, number: i64) -> TypedNumber
        requires { IsNumberOf kind number }
        ensures kind { result.kind ≡ kind }
        ensures number { result.number ≡ number }
    {
        numbers_stand_for_cells();
        TypedNumber { kind, number }
    }

    /// Returns the number of a boolean.
    #[inline(always)]
    pub fn of_truth(truth: bool) -> TypedNumber
        ensures { typed_number_cell result ≡ boolean truth }
    {
        TypedNumber::new(NumberKind::Boolean, i64::from(truth))
    }

    /// Returns the number of a day.
    #[inline(always)]
    pub fn of_day(date: Date) -> TypedNumber
        ensures { typed_number_cell result ≡ day date.year date.month date.day }
    {
        numbers_stand_for_cells();
        TypedNumber::new(NumberKind::Date, day_number(date))
    }

    /// Returns the value that it stands for.
    #[inline(always)]
    pub fn value(self) -> Value<'static>
        ensures { value_view result ≡ typed_number_cell self }
    {
        numbers_stand_for_cells();
        typed_value(self.kind, self.number)
    }
}
