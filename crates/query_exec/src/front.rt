//! Rows that are lent before the answer is there.
ghost use Rattle.std.specs.Prelude.{◌≡◌, length, map, string_bytes};
ghost use Rattle.query_exec.specs.Answer.{OrdersMoveRows};
ghost use Rattle.query_exec.specs.Sink.{AreKeptRows};

use result_rows::{Kept, OrderedRows};
use row_columns::Columns;

/// The names of an answer, and its first rows.
#[derive(Clone, Copy)]
pub struct FirstRows<'r> {
    pub names: &'r [String],
    pub columns: &'r Columns,
}

/// An order at the end of the steps moves rows, and does nothing else: so does one before columns are selected there.
pub fn orders_move_rows()
    ensures { OrdersMoveRows }
{
    query_meaning::rows_are_in_order();
}

/// Returns all rows of an answer, as they stood before they were put in order.
pub(crate) fn stored_front(rows: &OrderedRows) -> FirstRows<'_>
    ensures names { map string_bytes result.names.now ≡ rows.now.stored.names }
    ensures rows { result.columns.now.rows ≡ rows.now.stored.rows }
    ensures width { length result.columns.now.kinds ≡ length result.names.now }
{
    let rows = rows.table();
    FirstRows {
        names: rows.names(),
        columns: rows.columns(),
    }
}

/// Returns the names and the rows that are kept.
pub(crate) fn kept_front(kept: &Kept) -> FirstRows<'_>
    ensures { AreKeptRows kept.now result }
{
    FirstRows {
        names: kept.names.as_slice(),
        columns: &kept.columns,
    }
}
