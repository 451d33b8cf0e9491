//! Rows that are taken in turn, some before they are needed: their cells are read together, if they are far from one another.
ghost use Rattle.std.specs.Prelude.{◌≡◌, ◌≤◌, ◌<◌, ◌+◌, ◌-◌, [], ℕ, get_or, length};
ghost use Rattle.std.specs.List.{All};
ghost use Rattle.result_rows.specs.Rows.{AreReordered};
ghost use Rattle.cell_texts.specs.Ahead.{HasPlace};

use crate::ahead::{are_near, read_ahead};
use result_rows::{OrderedRows, Rows};
use std::marker::Model;

/// How many rows are taken together.
const TOGETHER: usize = 8;

/// Rows in their order, of which the first ones were given.
#[derive(Drop)]
pub struct RowTurns {
    rows: OrderedRows,
    /// The numbers of the rows that were taken together.
    ahead: [usize; TOGETHER],
    /// The place of the first of them in the order.
    first: usize,
    /// How many rows were taken, and how many of these were given.
    taken: usize,
    given: usize,
    /// Whether the rows of the table are near one another.
    are_near: bool,
    /// What was read of cells before they were needed.
    seen: u8,
}

impl Model for RowTurns {
    ghost use Rattle.result_rows.specs.Rows.{OrderedOf};

    ghost Value = { OrderedOf };

    ghost use Rattle.cell_texts.specs.Turns.{turns_view, HaveTaken};

    ghost view = { turns_view };

    ghost invariant = { HaveTaken };
}

/// Takes the next rows, as many as there is room for, and returns how many were taken in all.
fn take_ahead(rows: &mut OrderedRows, ahead: &mut [usize], taken: usize) -> usize
    requires room { 0 < length ahead.old }
    requires taken { rows.old.taken ≡ taken }
    requires left { taken < length rows.old.rows.rows }
    ensures some { taken < result }
    ensures long { length ahead.new ≡ length ahead.old }
    ensures few { result ≤ taken + length ahead.new }
    ensures within { result ≤ length rows.old.rows.rows }
    ensures rest { rows.new ≡ record {
      stored = rows.old.stored;
      rows = rows.old.rows;
      taken = result;
    } }
    ensures numbers { (place : ℕ) → taken ≤ place → place < result
        → HasPlace rows.old place (get_or ahead.new (place - taken) 0) }
{
    let count = ahead.len().min(rows.len() - taken);
    for i in 0..count {
        ahead[i] = rows.next();
    }
    taken + count
}

/// Reads cells of the rows with these numbers, unless the rows follow on one another in a table whose rows are near.
fn look_ahead(rows: &Rows, numbers: &[usize], are_near: bool, seen: u8) -> u8
    requires some { 0 < length numbers.now }
    requires within { All (λ n. n < length rows.now.rows) numbers.now }
{
    if are_near && numbers[numbers.len() - 1].wrapping_sub(numbers[0]) < numbers.len() {
        return seen;
    }
    read_ahead(rows.columns(), numbers, seen)
}

impl RowTurns {
    /// Returns rows of which none was given.
    pub fn of(rows: OrderedRows) -> RowTurns
        requires { rows.taken ≡ 0 }
        ensures { result ≡ rows }
    {
        let are_near = are_near(rows.table().columns());
        RowTurns {
            rows,
            ahead: [0; TOGETHER],
            first: 0,
            taken: 0,
            given: 0,
            are_near,
            seen: 0,
        }
    }

    /// Returns the rows as they stood.
    pub fn table(&self) -> &Rows
        ensures rows { result.now ≡ self.now.stored }
        ensures moved { AreReordered self.now.stored self.now.rows }
    {
        self.rows.table()
    }

    /// Returns how many rows there are.
    pub fn len(&self) -> usize
        ensures { result ≡ length self.now.rows.rows }
    {
        self.rows.len()
    }

    /// Gives the next row: its number among the rows as they stood. It takes no memory.
    pub fn next(&mut self) -> usize
        requires { self.old.taken < length self.old.rows.rows }
        ensures within { result < length self.old.stored.rows }
        ensures row { get_or self.old.stored.rows result []
            ≡ get_or self.old.rows.rows self.old.taken [] }
        ensures rest { self.new ≡ record {
          stored = self.old.stored;
          rows = self.old.rows;
          taken = self.old.taken + 1;
        } }
    {
        if self.given < self.taken {
            let number = self.ahead[self.given - self.first];
            self.given += 1;
            return number;
        }
        let taken = take_ahead(&mut self.rows, &mut self.ahead, self.given);
        let count = taken - self.given;
        self.first = self.given;
        self.taken = taken;
        self.given += 1;
        self.seen = look_ahead(
            self.rows.table(),
            &self.ahead[..count],
            self.are_near,
            self.seen,
        );
        self.ahead[0]
    }
}
