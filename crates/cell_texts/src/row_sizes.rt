//! How many bytes the values of rows take, in JSON or in CSV. None is written. The cells that rows of one block have in a column are counted one after another.
ghost use Rattle.std.specs.Prelude.{◌≡◌, ◌+◌, ◌<◌, ◌≤◌, ℕ, [], get_or, length, slice_index_or};
ghost use Rattle.std.specs.List.{flat_map};
ghost use Rattle.cell_types.specs.Value.{null};
ghost use Rattle.cell_texts.specs.Sizes.{AreCellsCountedAt, AreRowsCounted};
ghost use Rattle.reply_values.specs.Printed.{printed_value};
ghost use Rattle.reply_values.specs.Size.{told};
ghost use Rattle.row_columns.specs.Cell.{cell_view};
ghost use Rattle.row_columns.specs.declared.cell.Cell.TheVariants.{Null};

use crate::part_sizes::{add_cells, add_values};
use crate::sizes::{cell_room, known_size};
use row_columns::{Cell, Columns, RowRef};

/// Returns a number of bytes that `start` and the values of the row with a number do not pass. No text is looked at.
pub fn row_room<const JSON: bool>(columns: &Columns, row: usize, start: usize) -> usize
    requires { row < length columns.now.rows }
    ensures { told (start + length (flat_map (printed_value JSON) (get_or columns.now.rows row [])))
        ≤ result }
{
    columns.rows_are_wide();
    let values = columns.row_ref(row);
    let mut room = start;
    for col in 0..columns.width() {
        room = room.saturating_add(cell_room::<JSON>(values.cell(col)));
    }
    room
}

/// How many cells are read before the first of them is counted.
const TOGETHER: usize = 64;

/// Returns the cell of a row in a column: the one at `place` in `cells` if it was read, else that of `values`.
#[inline(always)]
fn cell_at<'c>(cells: &[Cell<'c>], place: usize, values: &RowRef<'c>, col: usize) -> Cell<'c>
    requires col { col < length values.now }
    requires read { place < length cells.now
        → cell_view (slice_index_or cells.now place Null) ≡ get_or values.now col null }
    ensures { cell_view result ≡ get_or values.now col null }
{
    match cells.get(place) {
        Some(cell) => *cell,
        None => values.cell(col),
    }
}

/// Adds to each size how many bytes the cell of its row takes in a column, of as many rows from `first` on as there are places. Such cells may be far from one
/// another: nothing is done with one before the next is read, so several come from memory at once. A text is not looked at if its block knows that each of its
/// bytes stands for itself.
#[inline(never)]
fn add_far_cells<const JSON: bool>(columns: &Columns, first: usize, col: usize, sizes: &mut [usize])
    requires rows { first + length sizes.old ≤ length columns.now.rows }
    requires col { col < length columns.now.kinds }
    ensures { AreCellsCountedAt (printed_value JSON)
        (λ i. get_or (get_or columns.now.rows (first + i) []) col null) sizes.old sizes.new }
{
    let _rows = columns.len(); // each row has a number that fits
    let mut cells = [Cell::Null; TOGETHER];
    for i in 0..TOGETHER.min(sizes.len()) {
        cells[i] = columns.row_ref(first + i).cell(col);
    }
    for i in 0..sizes.len() {
        let values = columns.row_ref(first + i);
        let cell = cell_at(&cells, i, &values, col);
        sizes[i] = sizes[i].saturating_add(known_size::<JSON>(cell, values.is_plain::<JSON>(col)));
    }
}

/// Adds to each size how many bytes the cell of its row takes in a column, of as many rows from `first` on as there are places, which are values or far from one another.
fn add_column<const JSON: bool>(columns: &Columns, first: usize, col: usize, sizes: &mut [usize])
    requires rows { first + length sizes.old ≤ length columns.now.rows }
    requires col { col < length columns.now.kinds }
    ensures { AreCellsCountedAt (printed_value JSON)
        (λ i. get_or (get_or columns.now.rows (first + i) []) col null) sizes.old sizes.new }
{
    if !sizes.is_empty() {
        if let Some((rows, start)) = columns.value_rows(first) {
            add_values::<JSON>(rows, start, col, sizes);
            return;
        }
    }
    add_far_cells::<JSON>(columns, first, col, sizes);
}

/// Writes the size of each of as many rows from `first` on as there are places: `frame` bytes, and those of its values.
pub fn put_sizes<const JSON: bool>(
    columns: &Columns,
    first: usize,
    frame: usize,
    sizes: &mut [usize],
)
    requires { first + length sizes.old ≤ length columns.now.rows }
    ensures long { length sizes.new ≡ length sizes.old }
    ensures sizes { AreRowsCounted (printed_value JSON) columns.now.rows first frame sizes.new }
{
    columns.rows_are_wide();
    let _rows = columns.len(); // each row has a number that fits
    sizes.fill(frame);
    match columns.block_rows(first, sizes.len()) {
        Some(rows) => {
            for col in 0..columns.width() {
                add_cells::<JSON>(&rows.column(col), sizes);
            }
        }
        None => {
            for col in 0..columns.width() {
                add_column::<JSON>(columns, first, col, sizes);
            }
        }
    }
}
