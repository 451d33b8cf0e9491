//! Keys of one integer each that rise from row to row, of which nothing is kept.
ghost use Rattle.std.specs.Prelude.{◌≡◌, ◌<◌, ◌≤◌, IfSome, All, length, map};
ghost use Rattle.cell_types.specs.Value.{value_view};
ghost use Rattle.key_index.specs.Key.{row_key};
ghost use Rattle.key_index.specs.Keys.{typed_row, IsRowWithKey};
ghost use Rattle.key_index.specs.Rising.{AreRising, Rises};

use cell_types::Value;
use column_blocks::TypedColumn;

/// Rows whose keys rise: how many they are, and the number of the last key.
#[derive(Clone, Copy)]
pub struct Rise {
    pub row: usize,
    pub last: i128,
}

/// Returns the rise up to the row `end` if the keys of the rows up to it are one integer each, above the one before it.
pub fn rises_on(columns: &[TypedColumn], places: &[usize], rise: Rise, end: usize) -> Option<Rise>
    requires places { All (λ place. place < length columns.now) places.now }
    requires first { rise.row ≤ end }
    requires rises { Rises (λ row. row_key places.now (typed_row row columns.now)) rise }
    ensures rises { IfSome result (Rises (λ row. row_key places.now (typed_row row columns.now))) }
    ensures row { IfSome result (λ next. next.row ≡ end) }
{
    if places.len() != 1 {
        return None;
    }
    let column = &columns[places[0]];
    let mut last = rise.last;
    for row in rise.row..end {
        let Value::Int(number) = column.value(row) else {
            return None;
        };
        if number <= last {
            return None;
        }
        last = number;
    }
    Some(Rise { row: end, last })
}

/// Returns the row below `rows` that has a key, among keys that rise.
pub fn row_among(
    columns: &[TypedColumn],
    places: &[usize],
    rows: usize,
    key: &[Value<'_>],
) -> Option<usize>
    requires places { All (λ place. place < length columns.now) places.now }
    requires rising { AreRising (λ row. row_key places.now (typed_row row columns.now)) rows }
    ensures { IsRowWithKey rows (λ row. row_key places.now (typed_row row columns.now))
        (map value_view key.now) result }
{
    if places.len() != 1 || key.len() != 1 {
        return None;
    }
    let Value::Int(number) = &key[0] else {
        return None;
    };
    let column = &columns[places[0]];
    let mut low = 0;
    let mut high = rows;
    while low < high {
        let middle = low + (high - low) / 2;
        let Value::Int(found) = column.value(middle) else {
            unreachable!();
        };
        if found == *number {
            return Some(middle);
        }
        if found < *number {
            low = middle + 1;
        } else {
            high = middle;
        }
    }
    None
}
