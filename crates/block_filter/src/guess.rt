//! A guess at the value that few rows of a block come before in an order, from the values of some of the rows.
ghost use Rattle.std.specs.Prelude.{◌<◌, length};
ghost use Rattle.std.specs.List.{All};

use cell_types::Value;
use row_selection::Selection;
use std::alloc::{AllocError, Global};
use table_store::Block;

/// How many rows are looked at for each one that is asked for, if there are as many.
const SAMPLE: u64 = 16;

/// The last of the first `most` values in a direction.
#[derive(Clone, Copy)]
pub struct Rank {
    pub most: u64,
    pub descending: bool,
}

impl Rank {
    /// Returns true if a value comes before another.
    fn is_before(self, a: &Value<'_>, b: &Value<'_>) -> bool {
        if self.descending { b < a } else { a < b }
    }

    /// Returns the last of values.
    fn last_of<'t>(self, values: Vec<Value<'t>>) -> Option<Value<'t>> {
        let mut last = None;
        for value in values {
            match &last {
                Some(other) if self.is_before(&value, other) => {}
                Some(_) | None => last = Some(value),
            }
        }
        last
    }
}

/// Returns the first of each part of the values of a column on one of every `step` rows. The parts are `rank.most`, of about as many rows each.
fn firsts_of<'t>(
    alloc: Global,
    block: &Block<'t>,
    numbers: &Selection,
    col: usize,
    rank: Rank,
) -> Result<Vec<Value<'t>>, AllocError>
    requires within { All (λ n. n < length block.now.rows) numbers.now }
    requires col { col < length block.now.schema.columns }
{
    let step = numbers.len() as u64 / rank.most.saturating_mul(SAMPLE).max(1);
    let mut firsts: Vec<Value<'t>> = Vec::new(alloc);
    let mut part = 0;
    let mut left = 0;
    for place in 0..numbers.len() {
        if left > 0 {
            left -= 1;
            continue;
        }
        left = step.saturating_sub(1);
        let value = block.value(alloc, numbers.at(place), col)?;
        match firsts.get_mut(part) {
            None => firsts.push(value)?,
            Some(first) => {
                if rank.is_before(&value, first) {
                    *first = value;
                }
            }
        }
        part = part.wrapping_add(1);
        if part as u64 >= rank.most {
            part = 0;
        }
    }
    Ok(firsts)
}

/// Guesses the value of a rank among those of a column on rows of a block. Nothing says which value it is. `None` if the rows are too few to be worth a guess.
pub fn guessed_value<'t>(
    alloc: Global,
    block: &Block<'t>,
    numbers: &Selection,
    col: usize,
    rank: Rank,
) -> Result<Option<Value<'t>>, AllocError>
    requires { All (λ n. n < length block.now.rows) numbers.now }
{
    if rank.most >= numbers.len() as u64 / 2 || col >= block.schema().columns.len() {
        return Ok(None);
    }
    let firsts = firsts_of(alloc, block, numbers, col, rank)?;
    Ok(rank.last_of(firsts))
}
