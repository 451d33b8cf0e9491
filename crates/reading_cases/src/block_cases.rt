//! Columns of blocks, summaries of blocks, and the tests that they admit.
ghost use Rattle.std.specs.Prelude.{◌≡◌, IfOk, length};

use block_summary::{PackedColumn, Summary, Test, admits};
use cell_types::{ComparisonOperator, NumberKind, Value};
use std::alloc::AllocError;
use std::process::Abort;
use std::test::Fail;

/// A comparison of an integer or null with each column of the rows `1 null null`, `5 null 3`, and which of the columns it admits.
type Case = (ComparisonOperator, Option<i64>, [bool; 3]);

const CASES: &[Case] = &[
    (ComparisonOperator::Equal, Some(3), [true, false, true]),
    (ComparisonOperator::Equal, Some(6), [false, false, false]),
    (ComparisonOperator::Equal, None, [false, true, true]),
    (ComparisonOperator::NotEqual, Some(3), [true, true, true]),
    (ComparisonOperator::NotEqual, None, [true, false, true]),
    (
        ComparisonOperator::GreaterThan,
        Some(3),
        [true, false, false],
    ),
    (
        ComparisonOperator::GreaterThan,
        Some(5),
        [false, false, false],
    ),
    (ComparisonOperator::GreaterThan, None, [false, false, false]),
    (
        ComparisonOperator::GreaterOrEqual,
        Some(5),
        [true, false, false],
    ),
    (
        ComparisonOperator::GreaterOrEqual,
        None,
        [false, true, true],
    ),
    (ComparisonOperator::LessThan, Some(1), [false, false, false]),
    (ComparisonOperator::LessThan, Some(3), [true, false, false]),
    (ComparisonOperator::LessThan, None, [false, false, false]),
    (
        ComparisonOperator::LessOrEqual,
        Some(1),
        [true, false, false],
    ),
    (
        ComparisonOperator::LessOrEqual,
        Some(3),
        [true, false, true],
    ),
    (ComparisonOperator::LessOrEqual, None, [false, true, true]),
];

/// Returns the summary of the two rows.
fn summary_of(rt: &(impl Abort + AllocGlobal)) -> Result<Summary, AllocError>
    ensures { IfOk result (λ summary. length summary ≡ 3) }
{
    let first = vec![in rt.alloc(); Value::Int(1), Value::Null, Value::Null]?;
    let second = vec![in rt.alloc(); Value::Int(5), Value::Null, Value::Int(3)]?;
    let rows = vec![in rt.alloc(); first, second]?;
    assert!(rt; rows.iter().all(|row| row.len() == 3));
    Summary::build(rt.alloc(), 3, rows.as_slice())
}

/// Returns which columns a test admits.
fn admitted(summary: &Summary, op: ComparisonOperator, literal: Option<i64>) -> [bool; 3]
    requires { length summary.now ≡ 3 }
{
    let test = Test {
        op,
        literal: match literal {
            Some(number) => Value::Int(i128::from(number)),
            None => Value::Null,
        },
    };
    [
        admits(summary, 0, &test),
        admits(summary, 1, &test),
        admits(summary, 2, &test),
    ]
}

#[test]
fn tests(rt: HostRuntime) -> Result<(), Fail> {
    let summary = summary_of(&rt)?;
    for (place, (op, literal, wanted)) in CASES.iter().enumerate() {
        assert!(rt;
            admitted(&summary, *op, *literal) == *wanted,
            "case {place}"
        );
    }
    Ok(())
}

/// The numbers of a column, in which what stands in the place of a null does not matter, and which of them are null.
const NUMBERS: [i64; 4] = [i64::MIN, 5, i64::MAX, 0];

const NULLS: [bool; 4] = [false, true, false, false];

/// The number of each row, and of one past the end.
const NUMBERS_OF_ROWS: &[Option<i64>] = &[Some(i64::MIN), None, Some(i64::MAX), Some(0), None];

#[test]
fn numbers_of_rows(rt: HostRuntime) -> Result<(), Fail> {
    let column = PackedColumn::pack(rt.alloc(), NumberKind::Integer, &NUMBERS, &NULLS)?;
    for (row, number) in NUMBERS_OF_ROWS.iter().enumerate() {
        assert!(rt; column.number(row) == *number, "row {row}");
    }
    Ok(())
}
