//! How many bytes the cells of one block's column take, in JSON or in CSV. What the column has is asked once for all of them. None is written.
ghost use Rattle.std.specs.Prelude.{◌≡◌, ◌+◌, ◌<◌, ◌≤◌, ℕ, [], IsTrue, length, slice_index_or};
ghost use Rattle.block_summary.specs.declared.block.TheConstants.{BLOCK_ROWS};
ghost use Rattle.cell_texts.specs.Sizes.{AreCellsCounted, AreCellsCountedAt, AreCellsCountedFrom, ArePlainCounted, IsCountedIf};
ghost use Rattle.cell_types.specs.Value.{null};
ghost use Rattle.reply_values.specs.Printed.{printed_value};
ghost use Rattle.text_columns.specs.PlainParts.{ArePlainRows, IsPlainCell};
ghost use Rattle.text_columns.specs.Texts.{AreTextLengths};

use crate::sizes::{cell_size, known_size, lent_size};
use block_summary::PackedColumn;
use reply_values::{is_plain, plain_size};
use row_columns::{ColumnPart, PartCells, number_cell, text_cell};
use text_columns::TextColumn;
use value_rows::ValueRows;

/// How many texts are counted by their lengths alone.
const TOGETHER: usize = 64;

/// Adds to each size how many bytes a number takes, from that of the row `first` on.
#[inline(never)]
fn add_numbers<const JSON: bool>(numbers: &PackedColumn, first: usize, sizes: &mut [usize])
    requires { first + length sizes.old ≤ BLOCK_ROWS }
    ensures { AreCellsCountedFrom (printed_value JSON) first numbers.now sizes.old sizes.new }
{
    for i in 0..sizes.len() {
        let cell = number_cell(numbers, first + i);
        sizes[i] = sizes[i].saturating_add(cell_size::<JSON>(cell));
    }
}

/// Adds to each size how many bytes a text takes, from that of the row `first` on. None is looked at if `is_plain`: each of their bytes stands for itself.
#[inline(always)]
fn add_texts<const JSON: bool>(
    texts: &TextColumn<'_>,
    is_plain: bool,
    first: usize,
    sizes: &mut [usize],
)
    requires within { first + length sizes.old ≤ BLOCK_ROWS }
    requires plain { IsTrue is_plain → (i : ℕ) → i < length sizes.old
        → IsPlainCell JSON (slice_index_or texts.now (first + i) null) }
    ensures { AreCellsCountedFrom (printed_value JSON) first texts.now sizes.old sizes.new }
{
    for i in 0..sizes.len() {
        let cell = text_cell(texts, first + i);
        sizes[i] = sizes[i].saturating_add(known_size::<JSON>(cell, is_plain));
    }
}

/// Adds to each size how many bytes a text of a length takes, each byte of which stands for itself.
#[inline(always)]
fn add_lengths<const JSON: bool>(lengths: &[usize], sizes: &mut [usize])
    requires { length lengths.now ≡ length sizes.old }
    ensures long { length sizes.new ≡ length sizes.old }
    ensures each { ArePlainCounted JSON lengths.now sizes.old sizes.new }
{
    for i in 0..sizes.len() {
        sizes[i] = sizes[i].saturating_add(plain_size::<JSON>(lengths[i]));
    }
}

/// Adds to each size how many bytes the text of its row takes in a column, of rows of values from the row `first` on, and returns true. Returns false, and leaves the
/// sizes, unless there are few, and all are texts each byte of which stands for itself.
#[inline(always)]
fn add_plain_values<const JSON: bool>(
    rows: &ValueRows,
    first: usize,
    col: usize,
    sizes: &mut [usize],
) -> bool
    requires some { 0 < length sizes.old }
    requires rows { first + length sizes.old ≤ length rows.now.rows }
    requires col { col < rows.now.width }
    ensures { IsCountedIf result (printed_value JSON)
        (λ i. slice_index_or (slice_index_or rows.now.rows (first + i) []) col null)
        sizes.old sizes.new }
{
    if sizes.len() > TOGETHER {
        return false;
    }
    let mut room = [0; TOGETHER];
    let lengths = &mut room[..sizes.len()];
    let Some(bytes) = rows.text_lengths(first, col, lengths) else {
        return false;
    };
    if !is_plain::<JSON>(bytes) {
        return false;
    }
    add_lengths::<JSON>(lengths, sizes);
    true
}

/// Adds to each size how many bytes the value of its row takes in a column, of rows of values from the row `first` on.
#[inline(never)]
pub(crate) fn add_values<const JSON: bool>(
    rows: &ValueRows,
    first: usize,
    col: usize,
    sizes: &mut [usize],
)
    requires some { 0 < length sizes.old }
    requires rows { first + length sizes.old ≤ length rows.now.rows }
    requires col { col < rows.now.width }
    ensures { AreCellsCountedAt (printed_value JSON)
        (λ i. slice_index_or (slice_index_or rows.now.rows (first + i) []) col null)
        sizes.old sizes.new }
{
    if add_plain_values::<JSON>(rows, first, col, sizes) {
        return;
    }
    let _rows = rows.len(); // each row has a number that fits
    for i in 0..sizes.len() {
        let size = lent_size::<JSON>(rows.lent(first + i, col));
        sizes[i] = sizes[i].saturating_add(size);
    }
}

/// Adds to each size how many bytes a text takes, from that of the row `first` on. None is looked at if the block knows that each of their bytes stands for itself.
#[inline(always)]
fn add_any<const JSON: bool>(texts: &TextColumn<'_>, first: usize, sizes: &mut [usize])
    requires { first + length sizes.old ≤ BLOCK_ROWS }
    ensures { AreCellsCountedFrom (printed_value JSON) first texts.now sizes.old sizes.new }
{
    let count = sizes.len();
    if count > TOGETHER || first + count > texts.len() || !texts.is_plain::<JSON>(first, count) {
        add_texts::<JSON>(texts, false, first, sizes);
        return;
    }
    let mut room = [0; TOGETHER];
    let lengths = &mut room[..count];
    if texts.lengths(first, lengths) {
        add_lengths::<JSON>(lengths, sizes);
    } else {
        add_texts::<JSON>(texts, true, first, sizes);
    }
}

/// Adds to each size how many bytes its cell takes.
#[inline(never)]
pub(crate) fn add_cells<const JSON: bool>(cells: &ColumnPart<'_>, sizes: &mut [usize])
    requires { length cells.now ≡ length sizes.old }
    ensures { AreCellsCounted (printed_value JSON) cells.now sizes.old sizes.new }
{
    match cells.kept() {
        PartCells::Numbers(numbers, first) => add_numbers::<JSON>(numbers, first, sizes),
        PartCells::Texts(texts, first) => add_any::<JSON>(&texts, first, sizes),
    }
}
