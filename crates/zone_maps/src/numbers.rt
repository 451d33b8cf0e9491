//! Columns of numbers that are compared with numbers.

ghost use Rattle.zone_maps.specs.Numbers.{NumbersAreTested};

use cell_types::{dates_read_back, numbers_stand_for_cells, values_are_ordered};

/// A column of numbers passes the test of the value that a number stands for if the comparison with the number holds.
pub fn numbers_are_tested()
    ensures { NumbersAreTested }
{
    dates_read_back();
    numbers_stand_for_cells();
    values_are_ordered();
}
