//! The last place of each hash.
ghost use Rattle.std.specs.Prelude.{◌≡◌, ◌≤◌, ◌<◌, ◌+◌, ◌/◌, ◌^◌, [], ℕ, None, Some, false, true, IfOk, IsOk, OnErr, OnOk, cond, length, nat_eq};
ghost use Rattle.std.specs.HashMap.{Updates, spare};
ghost use Rattle.insertion_map.specs.LastPlaces.{entries_at, last_of};

use std::alloc::{AllocError, Global};
use std::collections::HashMap;
use std::marker::Model;

/// The first map takes at least this many hashes before others go into parts.
const FEW: usize = 4_096;

/// The last place of each hash. A map that grows moves all that it has, so of many hashes it has a part.
#[derive(Drop)]
pub(crate) struct LastPlaces {
    alloc: Global,
    /// The last places of the first hashes.
    first: HashMap<u32, u32>,
    /// The last places of later hashes, in a part for each top byte.
    parts: Vec<HashMap<u32, u32>>,
}

impl Model for LastPlaces {
    ghost use Rattle.std.specs.HashMap.{spare};
    ghost use Rattle.insertion_map.specs.LastPlaces.{LastOf, entries_of, first_room};

    ghost Value = { LastOf };

    ghost view = { λ p. record {
      first = p.first.entries;
      parts = entries_of p.parts.items;
      room = first_room p.parts.items (spare p.first);
    } };
}

/// Returns the number of the part that takes a hash.
#[inline(always)]
fn part_of(hash: u32) -> usize
    ensures { result ≡ hash / 2 ^ 24 }
{
    (hash / 0x100_0000) as usize
}

/// Puts the last place of a hash into a map.
fn put_in(map: &mut HashMap<u32, u32>, hash: u32, place: u32) -> Result<(), AllocError>
    ensures put { OnOk result (Updates nat_eq map.old map.new hash (Some place)) }
    ensures refused { OnErr result (map.new.entries ≡ map.old.entries) }
    ensures succeeds { 0 < spare map.old → IsOk result }
    ensures room { spare map.old ≤ spare map.new + 1 }
{
    match map.insert(hash, place) {
        Ok(_) => Ok(()),
        Err(_) => Err(AllocError),
    }
}

/// Appends empty parts until there is one with this number.
fn grow(parts: &mut Vec<HashMap<u32, u32>>, alloc: Global, part: usize) -> Result<(), AllocError>
    ensures parts { (at : ℕ) → entries_at parts.new.items at ≡ entries_at parts.old.items at }
    ensures long { OnOk result (part < length parts.new.items) }
{
    while parts.len() <= part {
        parts.push(HashMap::new(alloc))?;
    }
    Ok(())
}

/// Returns true if the next hash goes into the first map: as long as this has room, or is small.
fn takes_first(first: &HashMap<u32, u32>, parts: &[HashMap<u32, u32>]) -> bool
    ensures none { result ≡ true → parts.now ≡ [] }
    ensures full { result ≡ false → parts.now ≡ [] → spare first.now ≡ 0 }
{
    if !parts.is_empty() {
        return false;
    }
    if first.len() < first.capacity().max(FEW) {
        return true;
    }
    false
}

impl LastPlaces {
    /// Returns the last places of no hashes.
    pub(crate) fn new(alloc: Global) -> LastPlaces
        ensures { (hash : ℕ) → last_of result hash ≡ None }
    {
        LastPlaces {
            alloc,
            first: HashMap::new(alloc),
            parts: Vec::new(alloc),
        }
    }

    /// Returns the last places of no hashes, with room for `hashes` of them.
    pub(crate) fn with_capacity(alloc: Global, hashes: usize) -> Result<LastPlaces, AllocError>
        ensures last { IfOk result (λ made. (hash : ℕ) → last_of made hash ≡ None) }
        ensures room { IfOk result (λ made. hashes ≤ made.room) }
    {
        let first = HashMap::with_capacity(alloc, hashes)?;
        Ok(LastPlaces {
            alloc,
            first,
            parts: Vec::new(alloc),
        })
    }

    /// Returns the last place of a hash.
    #[inline(always)]
    pub(crate) fn get(&self, hash: u32) -> Option<u32>
        ensures { result ≡ last_of self.now hash }
    {
        let part = part_of(hash);
        if part < self.parts.len() {
            if let Some(last) = self.parts[part].get(&hash) {
                return Some(*last);
            }
        }
        self.first.get(&hash).copied()
    }

    /// Makes a place the last one of a hash.
    pub(crate) fn put(&mut self, hash: u32, place: u32) -> Result<(), AllocError>
        ensures put { OnOk result ((h : ℕ)
            → last_of self.new h ≡ cond (nat_eq hash h) (Some place) (last_of self.old h)) }
        ensures refused { OnErr result ((h : ℕ) → last_of self.new h ≡ last_of self.old h) }
        ensures succeeds { 0 < self.old.room → IsOk result }
        ensures room { self.old.room ≤ self.new.room + 1 }
    {
        if takes_first(&self.first, self.parts.as_slice()) {
            return put_in(&mut self.first, hash, place);
        }
        let part = part_of(hash);
        grow(&mut self.parts, self.alloc, part)?;
        put_in(&mut self.parts[part], hash, place)
    }
}
