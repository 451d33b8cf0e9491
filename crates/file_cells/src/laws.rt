//! The law of the definitions of headers and rows: the function is a theorem, and does nothing.
ghost use Rattle.file_cells.specs.Worked.{WorkedRows};

/// States headers and rows with what is found in them, worked out by hand.
pub fn worked_rows()
    ensures { WorkedRows }
{}
