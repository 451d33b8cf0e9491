//! Rows of a block that are selected.
ghost use Rattle.std.specs.Prelude.{◌≡◌, ◌∷◌, ◌<◌, ◌≤◌, ◌^◌, [], IfOk, IsTrue, drop, length, slice_index_or, take};
ghost use Rattle.std.specs.List.{All};
ghost use Rattle.row_selection.specs.Marks.{marked_numbers};
ghost use Rattle.row_selection.specs.Numbers.{numbers_from};

use crate::marks::numbers_of;
use std::alloc::{AllocError, Global};
use std::marker::Model;

/// The forms in which rows are selected.
#[derive(Drop)]
enum Rows {
    /// The first ones.
    All(usize),
    One(usize),
    Few(Vec<u16>),
}

/// Rows of a block by their numbers, which are counted from 0 and rise. They are seen as the list of the numbers.
#[derive(Drop)]
pub struct Selection {
    rows: Rows,
}

impl Model for Selection {
    ghost use Rattle.std.specs.Prelude.{ℕ, List};
    ghost use Rattle.row_selection.specs.Selection.{selected_view};

    ghost Value = { List ℕ };

    ghost view = { selected_view };
}

/// Returns the first `count` numbers.
fn first_numbers(alloc: Global, count: usize) -> Result<Vec<usize>, AllocError>
    ensures { IfOk result (λ made. made.items ≡ numbers_from 0 count) }
{
    let mut numbers = Vec::with_capacity(alloc, count)?;
    for number in 0..count {
        numbers.push(number)?;
    }
    Ok(numbers)
}

/// Returns the numbers of a list.
fn wide(alloc: Global, rows: &[u16]) -> Result<Vec<usize>, AllocError>
    ensures { IfOk result (λ made. made.items ≡ rows.now) }
{
    let mut numbers = Vec::with_capacity(alloc, rows.len())?;
    for row in rows {
        numbers.push(usize::from(*row))?;
    }
    Ok(numbers)
}

impl Selection {
    /// Selects the first `count` rows. It takes no memory.
    pub fn all(count: usize) -> Selection
        ensures { result ≡ numbers_from 0 count }
    {
        Selection {
            rows: Rows::All(count),
        }
    }

    /// Selects one row. It takes no memory.
    pub fn one(row: usize) -> Selection
        ensures { result ≡ row ∷ [] }
    {
        Selection {
            rows: Rows::One(row),
        }
    }

    /// Selects the rows with these numbers. It takes no memory.
    pub fn few(rows: Vec<u16>) -> Selection
        ensures { result ≡ rows.items }
    {
        Selection {
            rows: Rows::Few(rows),
        }
    }

    /// Selects the rows with these numbers, one by one.
    fn of_numbers(alloc: Global, numbers: &[usize]) -> Result<Selection, AllocError>
        requires { All (λ number. number < 2 ^ 16) numbers.now }
        ensures { IfOk result (λ made. made ≡ numbers.now) }
    {
        let mut rows = Vec::with_capacity(alloc, numbers.len())?;
        for number in numbers {
            rows.push(*number as u16)?;
        }
        Ok(Selection::few(rows))
    }

    /// Selects the first `most` of the rows whose marks are true, of which there are `count`.
    pub fn of_marks(
        alloc: Global,
        marks: &[bool],
        count: usize,
        most: usize,
    ) -> Result<Selection, AllocError>
        requires few { length marks.now ≤ 2 ^ 16 }
        requires count { count ≡ length (marked_numbers 0 marks.now) }
        ensures rows { IfOk result (λ made. made ≡ take most (marked_numbers 0 marks.now)) }
        ensures within { IfOk result (λ made. All (λ row. row < length marks.now) made) }
    {
        let len = count.min(most);
        if count == marks.len() {
            return Ok(Selection::all(len));
        }
        if len == 0 {
            return Ok(Selection::all(0));
        }
        let mut rows = numbers_of(alloc, marks, count)?;
        rows.truncate(len);
        Ok(Selection::few(rows))
    }

    /// Returns how many rows are selected.
    #[inline(always)]
    pub fn len(&self) -> usize
        ensures { result ≡ length self.now }
    {
        match &self.rows {
            Rows::All(count) => *count,
            Rows::One(_) => 1,
            Rows::Few(rows) => rows.len(),
        }
    }

    /// Returns true if the rows are kept as the first ones.
    pub fn is_all(&self) -> bool
        ensures { IsTrue result → self.now ≡ numbers_from 0 (length self.now) }
    {
        matches!(&self.rows, Rows::All(_))
    }

    /// Returns the number of the row at a place.
    #[inline(always)]
    pub fn at(&self, place: usize) -> usize
        requires { place < length self.now }
        ensures { result ≡ slice_index_or self.now place 0 }
    {
        match &self.rows {
            Rows::All(_) => place,
            Rows::One(row) => *row,
            Rows::Few(rows) => usize::from(rows[place]),
        }
    }

    /// Returns the rows without the first `skip`.
    pub fn after(self, alloc: Global, skip: u64) -> Result<Selection, AllocError>
        requires { All (λ row. row < 2 ^ 16) self }
        ensures { IfOk result (λ made. made ≡ drop skip self) }
    {
        if skip == 0 {
            return Ok(self);
        }
        if skip >= self.len() as u64 {
            return Ok(Selection::all(0));
        }
        let numbers = self.to_vec(alloc)?;
        Selection::of_numbers(alloc, &numbers[skip as usize..])
    }

    /// Returns the numbers of the rows, one by one.
    pub fn to_vec(&self, alloc: Global) -> Result<Vec<usize>, AllocError>
        ensures { IfOk result (λ made. made.items ≡ self.now) }
    {
        match &self.rows {
            Rows::All(count) => first_numbers(alloc, *count),
            Rows::One(row) => Vec::from_elem(alloc, *row, 1),
            Rows::Few(rows) => wide(alloc, rows.as_slice()),
        }
    }
}
