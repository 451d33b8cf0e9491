//! The keys of rows are read in steps, each of which reads a part of the rows.
ghost use Rattle.std.specs.Prelude.{◌≡◌, ◌<◌, ◌≤◌, ◌+◌, ◌*◌, ◌^◌, ℕ, min, List, Some, IfOk, IfErr, All, length};
ghost use Rattle.key_index.specs.Key.{null_row, row_key};
ghost use Rattle.key_index.specs.Keys.{typed_keys, typed_row};
ghost use Rattle.key_index.specs.Rising.{Rises};
ghost use Rattle.key_index.specs.Reading.{keys_left, slots_for, AreHeld, AreHeldBy, HasFreeSlots, HoldsOn, KeysGoOn, SeatsRows};
ghost use Rattle.key_index.specs.declared.reading.TheConstants.{ROWS};
ghost use Rattle.column_blocks.specs.ColumnCells.{ColumnCells};

use crate::cells::{has_null, write_key};
use crate::keys::{KeyFault, Keys, seat};
use crate::rising::{Rise, rises_on};
use crate::slots::FREE;
use column_blocks::TypedColumn;
use std::alloc::{AllocError, Global};

/// How many rows a step reads: about a millisecond's, if their keys do not rise.
const ROWS: usize = 4096;

/// How many slots a step makes: those of a MiB, in less than a millisecond.
const SLOTS: usize = 262_144;

/// Rows in slots by their keys: how many there are, and the first whose key is that of an earlier row.
#[derive(Drop)]
struct Seats {
    row: usize,
    slots: Vec<u32>,
    repeated: Option<usize>,
}

/// How the keys of the first rows are held.
#[derive(Drop)]
enum Held {
    Rising(Rise),
    /// They do not rise. These slots are made, all of them free, and no row is in one.
    Free(Vec<u32>),
    Slots(Seats),
}

/// What is known after more rows.
#[derive(Drop)]
enum Next {
    On(Held),
    Over(Keys),
    Refused(KeyFault),
}

/// Rows of columns, of which the keys of the first are read.
#[derive(Drop)]
pub struct KeysReading {
    pub rows: usize,
    pub columns: Vec<TypedColumn>,
    held: Held,
}

/// Rows of columns with their keys.
#[derive(Drop)]
pub struct KeyedRows {
    pub rows: usize,
    pub columns: Vec<TypedColumn>,
    pub keys: Keys,
}

/// What a step leaves.
#[derive(Drop)]
pub enum KeyStep {
    /// There are more rows.
    On(KeysReading),
    /// The keys of all rows are read.
    Over(KeyedRows),
    /// The rows have no keys.
    Refused(KeyFault),
}

/// Returns how many rows have keys: none if there is no key.
fn key_count(places: &[usize], rows: usize) -> usize
    ensures count { (columns : List ColumnCells)
        → result ≡ length (typed_keys places.now columns rows) }
    ensures most { result ≤ rows }
{
    if places.is_empty() { 0 } else { rows }
}

/// Returns how many slots `rows` rows take.
fn slot_count(places: &[usize], rows: usize) -> usize
    requires few { rows ≤ 2 ^ 31 }
    ensures count { (columns : List ColumnCells)
        → result ≡ slots_for (length (typed_keys places.now columns rows)) }
    ensures most { result ≤ 2 * rows + 1 }
{
    let count = key_count(places, rows);
    count + count / 3 + 1
}

/// Makes more slots, all of them free. Once there are enough, begins to put rows in them.
fn make_slots(places: &[usize], rows: usize, slots: Vec<u32>) -> Result<Next, AllocError>
    requires few { rows ≤ 2 ^ 31 }
    requires free { (columns : List ColumnCells)
        → HasFreeSlots (length (typed_keys places.now columns rows)) slots }
    ensures { IfOk result (λ next. (columns : List ColumnCells)
        → HoldsOn places.now columns rows (Held.Free slots) next) }
{
    let count = slot_count(places, rows);
    let mut slots = slots;
    let more = count.min(slots.len() + SLOTS);
    slots.resize(more, FREE)?;
    if more < count {
        return Ok(Next::On(Held::Free(slots)));
    }
    Ok(Next::On(Held::Slots(Seats {
        row: 0,
        slots,
        repeated: None,
    })))
}

/// Puts the next [`ROWS`] rows, or all that are left, in slots. The error is the first row whose key has a null.
fn seat_rows(
    alloc: Global,
    columns: &[TypedColumn],
    places: &[usize],
    rows: usize,
    seats: Seats,
) -> Result<Result<Seats, usize>, AllocError>
    requires places { All (λ place. place < length columns.now) places.now }
    requires few { rows ≤ 2 ^ 31 }
    requires seats { SeatsRows places.now columns.now rows seats }
    ensures seats { IfOk result (λ found. IfOk found (SeatsRows places.now columns.now rows)) }
    ensures row { IfOk result (λ found. IfOk found (λ next.
        next.row ≡ min (length (typed_keys places.now columns.now rows)) (seats.row + ROWS))) }
    ensures null { IfOk result (λ found. IfErr found
        (λ row. null_row (typed_keys places.now columns.now rows) ≡ Some row)) }
{
    cell_types::values_are_ordered();
    let Seats {
        row: first,
        mut slots,
        mut repeated,
    } = seats;
    let end = key_count(places, rows).min(first + ROWS);
    let mut key = Vec::with_capacity(alloc, places.len())?;
    for row in first..end {
        write_key(columns, places, row, &mut key)?;
        if has_null(key.as_slice()) {
            return Ok(Err(row));
        }
        if repeated.is_none() && !seat(columns, places, key.as_slice(), slots.as_mut_slice(), row) {
            repeated = Some(row);
        }
    }
    Ok(Ok(Seats {
        row: end,
        slots,
        repeated,
    }))
}

/// Reads the keys of more rows by slots.
fn seat_on(
    alloc: Global,
    columns: &[TypedColumn],
    places: &[usize],
    rows: usize,
    seats: Seats,
) -> Result<Next, AllocError>
    requires places { All (λ place. place < length columns.now) places.now }
    requires few { rows ≤ 2 ^ 31 }
    requires seats { SeatsRows places.now columns.now rows seats }
    ensures { IfOk result (HoldsOn places.now columns.now rows (Held.Slots seats)) }
{
    let seats = match seat_rows(alloc, columns, places, rows, seats)? {
        Ok(seats) => seats,
        Err(row) => return Ok(Next::Refused(KeyFault::Null(row))),
    };
    if seats.row < key_count(places, rows) {
        return Ok(Next::On(Held::Slots(seats)));
    }
    match seats.repeated {
        Some(row) => Ok(Next::Refused(KeyFault::Twice(row))),
        None => Ok(Next::Over(Keys::Slots(seats.row, seats.slots))),
    }
}

/// Reads the keys of more rows while they rise, or begins to make slots, for which it takes room.
fn rise_on(
    alloc: Global,
    columns: &[TypedColumn],
    places: &[usize],
    rows: usize,
    rise: Rise,
) -> Result<Next, AllocError>
    requires places { All (λ place. place < length columns.now) places.now }
    requires few { rows ≤ 2 ^ 31 }
    requires within { rise.row ≤ rows }
    requires rises { Rises (λ row. row_key places.now (typed_row row columns.now)) rise }
    ensures { IfOk result (HoldsOn places.now columns.now rows (Held.Rising rise)) }
{
    cell_types::values_are_ordered();
    let end = rows.min(rise.row + ROWS);
    let Some(rise) = rises_on(columns, places, rise, end) else {
        let slots = Vec::with_capacity(alloc, slot_count(places, rows))?;
        return Ok(Next::On(Held::Free(slots)));
    };
    if end < rows {
        return Ok(Next::On(Held::Rising(rise)));
    }
    Ok(Next::Over(Keys::Rising(rows)))
}

/// Reads the keys of more rows.
fn read_on(
    alloc: Global,
    columns: &[TypedColumn],
    places: &[usize],
    rows: usize,
    held: Held,
) -> Result<Next, AllocError>
    requires places { All (λ place. place < length columns.now) places.now }
    requires few { rows ≤ 2 ^ 31 }
    requires held { AreHeldBy places.now columns.now rows held }
    ensures { IfOk result (HoldsOn places.now columns.now rows held) }
{
    match held {
        Held::Rising(rise) => rise_on(alloc, columns, places, rows, rise),
        Held::Free(slots) => make_slots(places, rows, slots),
        Held::Slots(seats) => seat_on(alloc, columns, places, rows, seats),
    }
}

impl KeysReading {
    /// Begins to read the keys of `rows` rows of columns.
    pub fn start(columns: Vec<TypedColumn>, rows: usize) -> KeysReading
        ensures held { (places : List ℕ) → AreHeld places result }
        ensures rows { result.rows ≡ rows }
        ensures columns { result.columns.items ≡ columns.items }
        ensures left { keys_left result ≡ 4 * rows + 5 }
    {
        KeysReading {
            rows,
            columns,
            held: Held::Rising(Rise {
                row: 0,
                last: i128::MIN,
            }),
        }
    }

    /// Reads the keys of more rows, at the places of the key's columns. Once those of all are, returns them, or why the rows have none: a null in any
    /// of them comes before a key that two rows have.
    pub fn step(self, alloc: Global, places: &[usize]) -> Result<KeyStep, AllocError>
        requires places { All (λ place. place < length self.columns.items) places.now }
        requires few { self.rows ≤ 2 ^ 31 }
        requires held { AreHeld places.now self }
        ensures { IfOk result (KeysGoOn places.now self) }
    {
        let KeysReading {
            rows,
            columns,
            held,
        } = self;
        match read_on(alloc, columns.as_slice(), places, rows, held) {
            Ok(Next::On(held)) => Ok(KeyStep::On(KeysReading {
                rows,
                columns,
                held,
            })),
            Ok(Next::Over(keys)) => Ok(KeyStep::Over(KeyedRows {
                rows,
                columns,
                keys,
            })),
            Ok(Next::Refused(fault)) => Ok(KeyStep::Refused(fault)),
            Err(e) => Err(e),
        }
    }
}
