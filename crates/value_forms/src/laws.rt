//! The laws of the definitions of forms: each function is a theorem, and does nothing.
ghost use Rattle.value_forms.specs.Laws.{RoundsHalfToEven};
ghost use Rattle.value_forms.specs.Worked.{WorkedDates, WorkedMarks, WorkedTruths};

/// States texts of numbers with their values, worked out by hand.
pub fn worked_numbers()
    ensures { WorkedMarks }
{}

/// States texts of days with the days, worked out by hand.
pub fn worked_dates()
    ensures { WorkedDates }
{}

/// States words of true and false, worked out by hand.
pub fn worked_truths()
    ensures { WorkedTruths }
{}

/// States that a number is rounded to the nearest one, and half of one to the even one (ISO 80000-1, annex B, rule A).
pub fn rounds_half_to_even()
    ensures { RoundsHalfToEven }
{}
