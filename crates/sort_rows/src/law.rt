//! The laws of orders: each function is a theorem, and does nothing.
ghost use Rattle.sort_rows.specs.Best.{BestInPieces};
ghost use Rattle.sort_rows.specs.Cutoffs.{RowsAreCutOff};
ghost use Rattle.sort_rows.specs.Merge.{OrdersAreMerged};

/// The first rows of a whole are found in its pieces.
pub fn best_in_pieces()
    ensures { BestInPieces }
{
    query_meaning::rows_are_in_order();
    cell_types::values_are_ordered();
}

/// Rows that a cutoff drops are not among the first.
pub fn rows_are_cut_off()
    ensures { RowsAreCutOff }
{
    query_meaning::rows_are_in_order();
    cell_types::values_are_ordered();
}

/// Rows that were put in order apart and are then merged are in order.
pub fn orders_are_merged()
    ensures { OrdersAreMerged }
{}
