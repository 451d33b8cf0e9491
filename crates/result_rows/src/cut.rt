//! Pieces of the rows of an answer (OData 4.01 URL Conventions, section 5.1.6).
ghost use Rattle.std.specs.Prelude.{◌≡◌, IfOk, drop, take};
ghost use Rattle.row_selection.specs.Numbers.{numbers_from};
ghost use Rattle.sort_rows.specs.Runs.{left_rows, AreNumbersLeft, AreSortedRows};
ghost use Rattle.result_rows.specs.Ordered.{rows_in_order, HasLeft};

use crate::ordered::{OrderedRows, shown_rows};
use crate::rows::Rows;
use crate::skip::skip_rows;
use row_columns::Columns;
use row_selection::Selection;
use sort_rows::SortedRows;
use std::alloc::{AllocError, Global};

/// Returns the numbers of the first `len` rows.
pub fn all_numbers(alloc: Global, len: usize) -> Result<Vec<usize>, AllocError>
    ensures { IfOk result (λ numbers. numbers.items ≡ numbers_from 0 len) }
{
    Selection::all(len).to_vec(alloc)
}

/// Returns all but the first `skip` of numbers, and of these the first `top`.
fn piece(numbers: Vec<usize>, skip: u64, top: u64) -> Vec<usize>
    ensures { result.items ≡ take top (drop skip numbers.items) }
{
    let mut numbers = numbers;
    let skipped = skip.min(numbers.len() as u64) as usize;
    numbers.rotate_left(skipped);
    numbers.truncate(numbers.len() - skipped);
    numbers.truncate(top.min(numbers.len() as u64) as usize);
    numbers
}

/// Returns the numbers of the next rows of an order: of `most` of them, or of all that are left.
#[tactic(auto, using(crate::proofs::PieceLemmas::begins, crate::proofs::PieceLemmas::goes_on, crate::proofs::PieceLemmas::none_left, crate::proofs::PieceLemmas::all_taken))]
fn next_numbers(
    alloc: Global,
    columns: &Columns,
    order: SortedRows,
    most: u64,
) -> Result<Vec<usize>, AllocError>
    requires { AreSortedRows order columns.now.rows }
    ensures { IfOk result (λ made. AreNumbersLeft columns.now.rows
        (take most (left_rows order columns.now.rows)) made.items) }
{
    let mut order = order;
    let mut numbers = Vec::new(alloc);
    for _ in 0..most {
        let Some(number) = order.next(columns) else {
            return Ok(numbers);
        };
        numbers.push(number)?;
    }
    Ok(numbers)
}

/// Returns the numbers of all but the first `skip` rows in an order, or as they stand, and of these of the first `top`.
fn piece_numbers(
    alloc: Global,
    columns: &Columns,
    order: Option<SortedRows>,
    skip: u64,
    top: u64,
) -> Result<Vec<usize>, AllocError>
    requires { HasLeft order columns.now.rows 0 }
    ensures { IfOk result (λ made. AreNumbersLeft columns.now.rows
        (take top (drop skip (rows_in_order order columns.now.rows))) made.items) }
{
    let Some(order) = order else {
        let all = all_numbers(alloc, columns.len())?;
        return Ok(piece(all, skip, top));
    };
    let mut order = order;
    let skip = (skip as usize).min(columns.len()); // no more rows are passed over than there are
    skip_rows(&mut order, columns, skip);
    next_numbers(alloc, columns, order, top)
}

impl OrderedRows {
    /// Returns all but the first `skip` of the rows in their order, and of these the first `top`, with a count. Only the rows of the piece are looked for.
    pub fn cut(
        self,
        alloc: Global,
        skip: u64,
        top: u64,
        count: Option<u64>,
    ) -> Result<Rows, AllocError>
        requires { self.taken ≡ 0 }
        ensures { IfOk result (λ made. made ≡ record {
          names = self.rows.names;
          rows = take top (drop skip self.rows.rows);
          count = count;
        }) }
    {
        let OrderedRows {
            rows,
            order,
            shown,
            ..
        } = self;
        let numbers = piece_numbers(alloc, rows.columns(), order, skip, top)?;
        shown_rows(rows, shown).with_rows(alloc, numbers.as_slice(), count)
    }
}
