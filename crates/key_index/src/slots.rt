//! Rows in slots by the hashes of their keys. Slots propose rows, and the columns of a table decide.
ghost use Rattle.std.specs.Prelude.{◌≡◌, ◌<◌, ◌≤◌, ◌+◌, ◌^◌, All, length, map};
ghost use Rattle.cell_types.specs.Value.{value_view};
ghost use Rattle.key_index.specs.Key.{row_key};
ghost use Rattle.key_index.specs.Keys.{typed_row};
ghost use Rattle.key_index.specs.Slots.{first_slot as first_slot_of, raise_of, share_of, IsFirstMet};

use crate::cells::has_key;
use crate::hashes::hash_of;
use cell_types::Value;
use column_blocks::TypedColumn;

/// What a free slot holds.
pub const FREE: u32 = 0xFFFF_FFFF;

/// What is met first, from the slot of a hash on.
#[derive(Clone, Copy)]
pub enum Met {
    /// A row that has the key.
    Row(usize),
    /// A slot that is free.
    Free(usize),
    Nothing,
}

/// Returns the share of a count that a number has of 2^32.
#[tactic(auto, unfolding(crate::specs::Slots::share_of))]
fn share(number: u64, count: u64) -> u64
    requires number { number < 2 ^ 32 }
    requires count { count < 2 ^ 32 }
    ensures share { result ≡ share_of number count }
    ensures within { result ≤ count }
    ensures below { 0 < count → result < count }
{
    number * count >> 32
}

/// Returns the first slot of a hash.
#[tactic(auto, unfolding(crate::specs::Slots::first_slot))]
pub fn first_slot(hash: u64, slots: usize) -> usize
    requires some { 0 < slots }
    requires few { slots < 2 ^ 32 }
    ensures slot { result ≡ first_slot_of hash slots }
    ensures within { result < slots }
{
    share(hash >> 32, slots as u64) as usize
}

/// Returns by how much a slot raises the number of its row, for a hash.
#[tactic(auto, unfolding(crate::specs::Slots::raise_of))]
pub fn raise(hash: u64, slots: usize) -> u32
    requires { slots < 2 ^ 32 }
    ensures raise { result ≡ raise_of hash slots }
    ensures room { result + slots ≤ 0xFFFF_FFFF }
{
    share(hash & 0xFFFF_FFFF, 0xFFFF_FFFF - slots as u64) as u32
}

/// Returns the row below `rows` that has a key, or else the first free slot from that of the key's hash on.
pub fn walk(
    columns: &[TypedColumn],
    places: &[usize],
    key: &[Value<'_>],
    slots: &[u32],
    rows: usize,
) -> Met
    requires places { All (λ place. place < length columns.now) places.now }
    requires some { 0 < length slots.now }
    requires few { length slots.now < 2 ^ 32 }
    requires rows { rows ≤ length slots.now }
    ensures { IsFirstMet slots.now rows (λ row. row_key places.now (typed_row row columns.now))
        (map value_view key.now) result }
{
    let hash = hash_of(key);
    let raised = raise(hash, slots.len());
    let mut at = first_slot(hash, slots.len());
    for _look in 0..slots.len() {
        let slot = slots[at];
        if slot == FREE {
            return Met::Free(at);
        }
        if slot >= raised {
            let row = (slot - raised) as usize;
            if row < rows && has_key(columns, places, row, key) {
                return Met::Row(row);
            }
        }
        at += 1;
        if at == slots.len() {
            at = 0;
        }
    }
    Met::Nothing
}
