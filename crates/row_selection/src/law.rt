//! The laws of selections: a theorem that does nothing.
ghost use Rattle.row_selection.specs.Worked.{WorkedSelections};

/// Gives marks with the numbers that they stand for, written by hand.
pub fn worked_selections()
    ensures { WorkedSelections }
{}
