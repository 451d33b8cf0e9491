//! The laws of the definitions of records: each function is a theorem, and does nothing.
ghost use Rattle.csv_records.specs.Worked.{WorkedExchanges};
ghost use Rattle.csv_records.specs.Written.{RowsReadBack};

/// States texts with other separators, worked out by hand.
pub fn worked_exchanges()
    ensures { WorkedExchanges }
{}

/// States that a reader of RFC 4180 reads the rows that are written, cell by cell.
pub fn rows_read_back()
    ensures { RowsReadBack }
{}
