//! The laws of outcomes: each function is a theorem, and does nothing.

ghost use Rattle.row_eval.specs.Laws.{DatesAreCompared, FaultsAreForeseen};
ghost use Rattle.row_eval.specs.Worked.{WorkedColumns, WorkedComparisons, WorkedFunctions};
ghost use Rattle.row_eval.specs.WorkedLogic.{WorkedLogic, WorkedNumbers};

/// An expression that cannot divide by zero has a value on each row.
pub fn faults_are_foreseen()
    ensures { FaultsAreForeseen }
{}

/// Dates that are compared as numbers are compared by year, then by month, then by day.
pub fn dates_are_compared()
    ensures { DatesAreCompared }
{}

/// Columns and literals of each type, with their values or null.
pub fn worked_columns()
    ensures { WorkedColumns }
{}

/// The six comparisons of values of each type, and beside null.
pub fn worked_comparisons()
    ensures { WorkedComparisons }
{}

/// Functions of texts and dates, and beside null.
pub fn worked_functions()
    ensures { WorkedFunctions }
{}

/// `and`, `or` and `not` of true, false and null, `in`, and the right sides that are passed over.
pub fn worked_logic()
    ensures { WorkedLogic }
{}

/// Arithmetic on integers and decimals, beside null, and by zero.
pub fn worked_numbers()
    ensures { WorkedNumbers }
{}
