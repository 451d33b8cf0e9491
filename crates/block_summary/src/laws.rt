//! The laws of blocks: each function is a theorem, and does nothing.
ghost use Rattle.block_summary.specs.Laws.{OneRange, RangesJoin, RangesWiden, SkipsNoRow, SkipsNothing};

/// The range of no cells, and that of one cell more than some.
pub fn ranges_widen()
    ensures { RangesWiden }
{
    cell_types::values_are_ordered();
}

/// The range of cells and of others after them is the two ranges joined.
pub fn ranges_join()
    ensures { RangesJoin }
{
    cell_types::values_are_ordered();
}

/// Cells have a range, and no other.
pub fn one_range()
    ensures { OneRange }
{
    ranges_widen();
    cell_types::values_are_ordered();
}

/// A column that is not admitted has no cell that passes the test.
pub fn skips_nothing()
    ensures { SkipsNothing }
{
    cell_types::values_are_ordered();
}

/// A block that is not admitted has no row whose cell in that column passes the test.
pub fn skips_no_row()
    ensures { SkipsNoRow }
{
    cell_types::values_are_ordered();
}
