//! The blocks that the tests of a plan admit.
ghost use Rattle.std.specs.Prelude.{◌≡◌, IfOk, map};
ghost use Rattle.block_summary.specs.Tests.{admits as admits_test};
ghost use Rattle.cell_types.specs.Value.{value_view};
ghost use Rattle.query_plan.specs.Scan.{test_view};
ghost use Rattle.query_exec.specs.Admitted.{admitted_numbers, null_range, range_admits, ranges_admit};

use block_summary::{Summary, Test, admits};
use cell_types::{ComparisonOperator, Value};
use query_plan::ColumnTest;
use std::alloc::{AllocError, Global};
use std::collections::VecDeque;

/// Returns true if a column of nulls admits a test.
fn nulls_admit(test: &Test<'_>) -> bool
    ensures { result ≡ admits_test test.now.op null_range (value_view test.now.literal) }
{
    let is_null = matches!(test.literal, Value::Null);
    match test.op {
        ComparisonOperator::Equal
        | ComparisonOperator::GreaterOrEqual
        | ComparisonOperator::LessOrEqual => is_null,
        ComparisonOperator::NotEqual => !is_null,
        ComparisonOperator::GreaterThan | ComparisonOperator::LessThan => false,
    }
}

/// Returns true if the summary of a block admits a test. Each cell of a column that the table does not have is null.
fn admits_one(summary: &Summary, asked: &ColumnTest) -> bool
    ensures { result ≡ range_admits summary.now (test_view asked.now) }
{
    if asked.column < summary.width() {
        admits(summary, asked.column, &asked.test)
    } else {
        nulls_admit(&asked.test)
    }
}

/// Returns true if the summary of a block admits all tests.
fn admits_all(summary: &Summary, tests: &[ColumnTest]) -> bool
    ensures { result ≡ ranges_admit (map test_view tests.now) summary.now }
{
    for asked in tests {
        if !admits_one(summary, asked) {
            return false;
        }
    }
    true
}

/// Returns the numbers of the blocks whose summaries admit all tests.
pub(crate) fn admitted(
    alloc: Global,
    summaries: &[Summary],
    tests: &[ColumnTest],
) -> Result<VecDeque<usize>, AllocError>
    ensures { IfOk result
        (λ numbers. numbers.items ≡ admitted_numbers (map test_view tests.now) summaries.now) }
{
    let mut numbers = VecDeque::new(alloc);
    for (number, summary) in summaries.iter().enumerate() {
        if admits_all(summary, tests) {
            numbers.push_back(number)?;
        }
    }
    Ok(numbers)
}
