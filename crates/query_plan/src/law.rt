//! The laws of scans and plans: each function is a theorem, and does nothing.

ghost use Rattle.query_plan.specs.Laws.{BareScansReadAll, BlocksUpToTheStop, NeededBlocksAreRead, NodesInTurn, PlansNeedBlocks, QueriesAreTyped, QueriesFit, ResultsAreInputs, ResultsAreRows, ScansReadTableRows, TestsArePassed, UnadmittedBlocksPassNone};
ghost use Rattle.query_plan.specs.Worked.{WorkedBlocks, WorkedTests};

use odata_types::tables_are_inputs;
use query_meaning::bounds_hold;
use zone_maps::numbers_are_tested;

/// A bare scan reads every block, and gives all rows.
pub fn bare_scans_read_all()
    ensures { BareScansReadAll }
{}

/// A scan of the rows of a table gives rows of that table.
pub fn scans_read_table_rows()
    ensures { ScansReadTableRows }
{}

/// A block that is not admitted has no row that passes the tests.
pub fn unadmitted_blocks_pass_none()
    ensures { UnadmittedBlocksPassNone }
{
    block_summary::one_range();
    block_summary::skips_nothing();
}

/// A row of a table on which a condition is true passes the test that the condition is.
pub fn tests_are_passed()
    ensures { TestsArePassed }
{
    tables_are_inputs();
    numbers_are_tested();
}

/// The conditions of a query that was typed for a table compare its columns as what they are.
pub fn queries_are_typed()
    ensures { QueriesAreTyped }
{}

/// The plan of a query, rewritten, needs the blocks that the query needs.
pub fn needed_blocks_are_read()
    ensures { NeededBlocksAreRead }
{}

/// A scan reads its admitted blocks in order, and none after that of the row that its stop counts to.
pub fn blocks_up_to_the_stop()
    ensures { BlocksUpToTheStop }
{}

/// What a plan needs are blocks of the table, and no more than it has.
pub fn plans_need_blocks()
    ensures { PlansNeedBlocks }
{}

/// Each step of a plan is given what those before it give, and a division by zero below is one above; steps fit in turn.
pub fn nodes_in_turn()
    ensures { NodesInTurn }
{}

/// The columns of a result of `$apply` are those of an input: no number of them is too large.
pub fn results_are_inputs()
    ensures { ResultsAreInputs }
{}

/// Of rows of an input, no more than 2 to the 30, `$apply` gives no more, and each is a row of the columns that it has by its types.
pub fn results_are_rows()
    ensures { ResultsAreRows }
{}

/// computes fits 128 bits.
pub fn queries_fit()
    ensures { QueriesFit }
{
    bounds_hold();
    tables_are_inputs();
}

/// What some conditions ask of the summaries of blocks, written by hand.
pub fn worked_tests()
    ensures { WorkedTests }
{}

/// The blocks that some queries need, written by hand.
pub fn worked_blocks()
    ensures { WorkedBlocks }
{}
