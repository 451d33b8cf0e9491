//! What a plan reads of a table.

ghost use Rattle.std.specs.Prelude.{◌≡◌};
ghost use Rattle.query_plan.specs.Scan.{bare, is_bare, scan_view};

use block_summary::Test;
use std::alloc::Global;

/// A test of a column, by its number in the table.
#[derive(Drop)]
pub struct ColumnTest {
    pub column: usize,
    pub test: Test<'static>,
}

/// Which blocks of a table are read: those whose summaries admit all tests, and if there is a stop none after the block of the row that
/// is number `stop` among those that pass the conditions that the plan begins with, counted from 1.
#[derive(Drop)]
pub struct Scan {
    pub tests: Vec<ColumnTest>,
    pub stop: Option<u64>,
}

impl Scan {
    /// Returns the scan that reads every block.
    pub fn bare(alloc: Global) -> Scan
        ensures { scan_view result ≡ bare }
    {
        Scan {
            tests: Vec::new(alloc),
            stop: None,
        }
    }

    /// Returns true if it reads every block.
    pub fn is_bare(&self) -> bool
        ensures { result ≡ is_bare (scan_view self.now) }
    {
        self.tests.is_empty() && self.stop.is_none()
    }
}
