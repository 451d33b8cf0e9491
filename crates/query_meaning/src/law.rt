//! The laws of the numbers of expressions, and of filters, orders, groups and aggregates: each function is a theorem, and does nothing.

ghost use Rattle.query_meaning.specs.Laws.{BoundsHold, DistinctValuesAreCounted, ExtremesAreValues, RowsAreInGroups, RowsAreInOrder, SumsAddUp, TrueRowsPass};
ghost use Rattle.query_meaning.specs.Worked.{WorkedQueries};

/// On the rows of an input, of expressions of at most 1,024 nodes and texts of at most 2 to the 30 bytes, each number that is computed
/// fits 128 bits, and no value is greater in size than its bound.
pub fn bounds_hold()
    ensures { BoundsHold }
{}

/// A row passes a filter just if its outcome is true, and the rows that pass stay in their order; a division by zero on any row is
/// one of the whole.
pub fn true_rows_pass()
    ensures { TrueRowsPass }
{}

/// An order is the rows that are put in order, rising, and stable; a division by zero on any row is one of the whole.
pub fn rows_are_in_order()
    ensures { RowsAreInOrder }
{
    cell_types::values_are_ordered();
}

/// Each row is in one group, and each group has a row; groups come by their first rows, and rows of a group in their order.
pub fn rows_are_in_groups()
    ensures { RowsAreInGroups }
{
    cell_types::values_are_ordered();
}

/// The sum of a column passes over nulls, and is null of nothing; of rows and more rows it is the one sum and the other.
pub fn sums_add_up()
    ensures { SumsAddUp }
{}

/// The least and the greatest of a column pass over nulls, and are null of nothing; else they are values of it, which no value of it passes.
pub fn extremes_are_values()
    ensures { ExtremesAreValues }
{
    cell_types::values_are_ordered();
}

/// The count of a column's distinct values is that of those that are not null, each once.
pub fn distinct_values_are_counted()
    ensures { DistinctValuesAreCounted }
{
    cell_types::values_are_ordered();
}

/// The answers of some queries, written by hand.
pub fn worked_queries()
    ensures { WorkedQueries }
{}
