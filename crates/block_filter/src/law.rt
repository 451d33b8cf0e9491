//! The law of conditions in turn: it is a theorem, and does nothing.
ghost use Rattle.block_filter.specs.Conditions.{ConditionsInTurn};

use query_meaning::true_rows_pass;

/// What passes of rows is what passes of a first part, and then what passes of the rows after it.
pub fn conditions_in_turn()
    ensures { ConditionsInTurn }
{
    true_rows_pass();
}
