//! The keys of a table's rows.
ghost use Rattle.std.specs.Prelude.{◌≡◌, ◌≢◌, ◌<◌, ◌+◌, ◌^◌, ℕ, true, false, All, length, map};
ghost use Rattle.cell_types.specs.Value.{value_view};
ghost use Rattle.key_index.specs.Key.{row_key, row_of};
ghost use Rattle.key_index.specs.Keys.{typed_keys, typed_row, AreKeysOf};
ghost use Rattle.key_index.specs.Slots.{free_slots, AreSeated};

use crate::hashes::hash_of;
use crate::rising::row_among;
use crate::slots::{Met, raise, walk};
use cell_types::Value;
use column_blocks::TypedColumn;

/// The rows of a table by their keys, of which no value is kept here.
#[derive(Drop)]
pub enum Keys {
    /// The keys of that many rows are one integer each, which rises from row to row.
    Rising(usize),
    /// That many rows have a key, and are in slots.
    Slots(usize, Vec<u32>),
}

/// Why rows have no keys. Rows count from 0.
#[derive(Clone, Copy)]
pub enum KeyFault {
    /// The first row whose key has a null.
    Null(usize),
    /// The first row whose key is that of an earlier row.
    Twice(usize),
}

/// Puts a row, whose key is `key`, in a slot; returns false if an earlier row has its key.
pub(crate) fn seat(
    columns: &[TypedColumn],
    places: &[usize],
    key: &[Value<'_>],
    slots: &mut [u32],
    row: usize,
) -> bool
    requires places { All (λ place. place < length columns.now) places.now }
    requires few { length slots.old < 2 ^ 32 }
    requires room { row + free_slots slots.old ≡ length slots.old }
    requires some { row < length slots.old }
    requires key { map value_view key.now ≡ row_key places.now (typed_row row columns.now) }
    requires seated { AreSeated (λ r. row_key places.now (typed_row r columns.now)) slots.old row }
    ensures length { length slots.new ≡ length slots.old }
    ensures seated { result ≡ true
        → AreSeated (λ r. row_key places.now (typed_row r columns.now)) slots.new (row + 1) }
    ensures room { result ≡ true → row + 1 + free_slots slots.new ≡ length slots.new }
    ensures new { result ≡ true → (r : ℕ) → r < row
        → map value_view key.now ≢ row_key places.now (typed_row r columns.now) }
    ensures again { result ≡ false → (r : ℕ) × (r < row)
        × (map value_view key.now ≡ row_key places.now (typed_row r columns.now)) }
{
    match walk(columns, places, key, slots, row) {
        Met::Row(_) => false,
        Met::Free(at) => {
            slots[at] = raise(hash_of(key), slots.len()) + row as u32;
            true
        }
        Met::Nothing => unreachable!(),
    }
}

impl Keys {
    /// Returns the row that has a key, by the columns and places that the keys are of.
    pub fn find(
        &self,
        columns: &[TypedColumn],
        places: &[usize],
        key: &[Value<'_>],
    ) -> Option<usize>
        requires places { All (λ place. place < length columns.now) places.now }
        requires keys { (rows : ℕ) × AreKeysOf self.now (typed_keys places.now columns.now rows) }
        ensures { (rows : ℕ) → AreKeysOf self.now (typed_keys places.now columns.now rows)
            → result ≡ row_of (typed_keys places.now columns.now rows) (map value_view key.now) }
    {
        cell_types::values_are_ordered();
        match self {
            Keys::Rising(rows) => row_among(columns, places, *rows, key),
            Keys::Slots(rows, slots) => {
                match walk(columns, places, key, slots.as_slice(), *rows) {
                    Met::Row(row) => Some(row),
                    _ => None,
                }
            }
        }
    }
}
