//! The structural places of a file (RFC 4180, section 2), kept as masks: which bytes of each block of 64 part fields or end
//! records, in 8 bytes, and how many do before every sixteenth block. So the place of a given number is found by a search of these counts, a
//! few masks and one [`select`], and no list of places is kept.
ghost use Rattle.std.specs.Prelude.{◌≡◌, ◌≤◌, ◌<◌, ◌+◌, ◌*◌, ◌++◌, ℕ, [], ◌∷◌, IfOk, MatchOption, length, slice_index, take};
ghost use Rattle.std.specs.Vec.{vec_len};
ghost use Rattle.csv_index.specs.Blocks.{block_places, AreRanked, HasRoomFor, Stands};

use lane_class::BLOCK;
use quote_parity::select;
use std::alloc::{AllocError, Global};

/// How many blocks are in a group, before which places are counted.
const GROUP: usize = 16;

/// The structural places of a text, by blocks of 64 bytes.
#[derive(Drop)]
pub struct ByteBlocks {
    /// Those of each block: bit i of its mask speaks of its byte i.
    pub masks: Vec<u64>,
    /// How many stand before each group of blocks.
    pub before: Vec<usize>,
}

impl ByteBlocks {
    /// Returns no blocks, and room for those of `bytes` bytes.
    pub fn with_room(alloc: Global, bytes: usize) -> Result<ByteBlocks, AllocError>
        ensures count { IfOk result (λ blocks. vec_len blocks.masks ≡ 0) }
        ensures none { IfOk result (λ blocks. blocks.masks.items ≡ []) }
        ensures ranked { IfOk result (λ blocks. AreRanked [] blocks.before.items) }
        ensures room { IfOk result (HasRoomFor bytes) }
    {
        let count = bytes.div_ceil(BLOCK);
        Ok(ByteBlocks {
            masks: Vec::with_capacity(alloc, count)?,
            before: Vec::with_capacity(alloc, count.div_ceil(GROUP))?,
        })
    }

    /// Adds a block, before which `before` structural places stand. There is room for it.
    #[inline(always)]
    pub fn push(&mut self, mask: u64, before: usize)
        requires room { HasRoomFor (64 * vec_len self.old.masks + 1) self.old }
        requires ranked { AreRanked self.old.masks.items self.old.before.items }
        requires before { before ≡ length (block_places 0 self.old.masks.items) }
        ensures masks { self.new.masks.items ≡ self.old.masks.items ++ mask ∷ [] }
        ensures ranked { AreRanked self.new.masks.items self.new.before.items }
        ensures room { (bytes : ℕ) → HasRoomFor bytes self.old → HasRoomFor bytes self.new }
    {
        if self.masks.len() % GROUP == 0 {
            self.before.push_reserved(before);
        }
        self.masks.push_reserved(mask);
    }

    /// Returns the structural place of number `n`, counted from 0: the number of its block, and its bit there.
    pub fn find(&self, n: usize) -> Option<(usize, u32)>
        requires { AreRanked self.now.masks.items self.now.before.items }
        ensures { MatchOption result (length (block_places 0 self.now.masks.items) ≤ n)
            (λ found. Stands self.now.masks.items n found.0 found.1) }
    {
        let masks = self.masks.as_slice();
        if masks.is_empty() {
            return None;
        }
        let group = last_before(self.before.as_slice(), n);
        let mut number = group * GROUP;
        let mut left = n - self.before[group];
        while number + 1 < masks.len() && masks[number].count_ones() as usize <= left {
            left -= masks[number].count_ones() as usize;
            number += 1;
        }
        let bit = select(masks[number], left.min(64) as u32)?;
        Some((number, bit))
    }
}

/// Returns the number of a group before which there are no more than `n` structural places, by halving: of the last one, if the counts rise.
fn last_before(before: &[usize], n: usize) -> usize
    requires some { 0 < length before.now }
    requires first { slice_index before.now 0 ≤ n }
    ensures within { result < length before.now }
    ensures before { slice_index before.now result ≤ n }
{
    let mut low = 0;
    let mut high = before.len();
    while high - low > 1 {
        let middle = low + (high - low) / 2;
        if before[middle] <= n {
            low = middle;
        } else {
            high = middle;
        }
    }
    low
}
