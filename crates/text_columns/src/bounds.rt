//! The least and the greatest text of a block.
ghost use Rattle.std.specs.Prelude.{◌≡◌, ◌⊎◌, Some, option_map};
ghost use Rattle.std.specs.Cmp.Lexicographic.{slice_cmp};
ghost use Rattle.std.specs.Ordering.{nat_cmp};
ghost use Rattle.block_summary.specs.Ranges.{greater, lesser};
ghost use Rattle.text_columns.specs.Bounds.{text_in_row, AreTextBounds};

use crate::column::TextColumn;
use std::cmp::Ordering;

/// A row of the least text of a block, a row of the greatest, and how many rows are null. If all are, there is no such row.
#[derive(Clone, Copy)]
pub struct TextBounds {
    pub least: Option<usize>,
    pub greatest: Option<usize>,
    pub null_count: usize,
}

/// A row, and its text.
#[derive(Clone, Copy)]
struct RowText<'t> {
    row: usize,
    text: &'t str,
}

/// Returns the order of `text` and `other`. Most texts differ in their first byte, which is compared before the others.
#[inline(always)]
fn text_order(text: &str, other: &str) -> Ordering
    ensures { result ≡ slice_cmp nat_cmp text.now other.now }
{
    match (text.as_bytes(), other.as_bytes()) {
        ([first, ..], [second, ..]) if first != second => first.cmp(second),
        _ => text.cmp(other),
    }
}

/// Returns `new` if its text is less than that of `least`, and `least` otherwise.
#[inline(always)]
#[tactic(auto, unfolding(cell_types::specs::Value::value_cmp))]
fn lesser_text<'t>(least: Option<RowText<'t>>, new: RowText<'t>) -> RowText<'t>
    ensures text { text_in_row result
        ≡ lesser (option_map text_in_row least.entry) (text_in_row new.entry) }
    ensures among { (result ≡ new.entry) ⊎ (Some result ≡ least.entry) }
{
    match least {
        Some(least) if text_order(least.text, new.text) != Ordering::Greater => least,
        _ => new,
    }
}

/// Returns `new` if its text is greater than that of `greatest`, and `greatest` otherwise.
#[inline(always)]
#[tactic(auto, unfolding(cell_types::specs::Value::value_cmp))]
fn greater_text<'t>(greatest: Option<RowText<'t>>, new: RowText<'t>) -> RowText<'t>
    ensures text { text_in_row result
        ≡ greater (option_map text_in_row greatest.entry) (text_in_row new.entry) }
    ensures among { (result ≡ new.entry) ⊎ (Some result ≡ greatest.entry) }
{
    match greatest {
        Some(greatest) if text_order(greatest.text, new.text) != Ordering::Less => greatest,
        _ => new,
    }
}

/// Returns the row of `found`, if there is one.
fn row_of(found: Option<RowText<'_>>) -> Option<usize>
    ensures { result ≡ option_map (λ it. it.row) found.entry }
{
    match found {
        Some(found) => Some(found.row),
        None => None,
    }
}

/// Returns the rows of the least and of the greatest text of `column`, and how many rows are null.
pub fn bounds_of(column: &TextColumn<'_>) -> TextBounds
    ensures { AreTextBounds column.now result }
{
    block_summary::ranges_widen();
    let mut least = None;
    let mut greatest = None;
    let mut null_count = 0;
    for row in 0..column.len() {
        match column.text(row) {
            Some(text) => {
                let new = RowText { row, text };
                least = Some(lesser_text(least, new));
                greatest = Some(greater_text(greatest, new));
            }
            None => null_count += 1,
        }
    }
    TextBounds {
        least: row_of(least),
        greatest: row_of(greatest),
        null_count,
    }
}
