//! A text, read in blocks of 64 bytes, one after another (RFC 4180, section 2).
ghost use Rattle.std.specs.Prelude.{◌≡◌, ℕ, ◌+◌, ◌-◌, ◌*◌, ◌^◌, ◌<◌, ◌≤◌, min, List, length, drop, IfOk, IfErr};
ghost use Rattle.std.specs.Vec.{vec_len};
ghost use Rattle.csv_index.specs.Blocks.{block_places, AreRanked, HasRoomFor};
ghost use Rattle.csv_index.specs.Reading.{bytes_left, HasReadBlocks, IsBlockReading, HasFaultFrom};

use crate::blocks::ByteBlocks;
use crate::widths::Widths;
use csv_grammar::{one_structure, what_follows};
use lane_class::{BLOCK, classify, load};
use quote_parity::Carry;
use std::alloc::{AllocError, Global};

/// What is known after the blocks that are read.
#[derive(Drop)]
pub struct Reading {
    pub blocks: ByteBlocks,
    pub carry: Carry,
    pub widths: Widths,
    /// The last byte ends no record, so one is under way.
    pub unended: bool,
}

impl Reading {
    /// Begins to read a text: there is room for all of its blocks.
    pub fn start(alloc: Global, text: &[u8]) -> Result<Reading, AllocError>
        ensures { IfOk result (IsBlockReading text.now) }
    {
        one_structure();
        what_follows();
        Ok(Reading {
            blocks: ByteBlocks::with_room(alloc, text.len())?,
            carry: Carry::start(),
            widths: Widths::new(),
            unended: false,
        })
    }

    /// Reads on, at most `most` blocks. The error is how many bytes there are from the first fault on.
    pub fn go_on(self, text: &[u8], most: usize) -> Result<Reading, usize>
        requires { IsBlockReading text.now self }
        ensures reads { IfOk result (IsBlockReading text.now) }
        ensures left { IfOk result
            (λ r. bytes_left text.now r ≤ bytes_left text.now self - 64 * most) }
        ensures fault { IfErr result (HasFaultFrom text.now) }
    {
        one_structure();
        let mut reading = self;
        let mut rest = &text[(reading.blocks.masks.len() * BLOCK).min(text.len())..];
        let stop = rest.len().saturating_sub(most.saturating_mul(BLOCK));
        while rest.len() >= BLOCK && rest.len() > stop {
            reading = reading.read(rest, BLOCK)?;
            rest = &rest[BLOCK..];
        }
        if rest.len() > stop {
            reading = reading.read(rest, rest.len())?;
        }
        Ok(reading)
    }

    /// Reads one more block, the first `len` bytes of those that are left: 64, or all if there are fewer. The error is how many
    /// bytes there are from the first fault on.
    #[inline(always)]
    fn read(self, rest: &[u8], len: usize) -> Result<Reading, usize>
        requires some { 0 < len }
        requires len { len ≡ min (length rest.now) 64 }
        requires room { HasRoomFor (64 * vec_len self.blocks.masks + 1) self.blocks }
        requires ranked { AreRanked self.blocks.masks.items self.blocks.before.items }
        requires before { self.widths.places ≡ length (block_places 0 self.blocks.masks.items) }
        requires start { self.widths.start ≤ self.widths.places }
        requires places { self.widths.places < 2 ^ 63 }
        requires records { self.widths.records < 2 ^ 63 }
        ensures read { (text : List ℕ) (n : ℕ) → rest.now ≡ drop (64 * n) text
            → HasReadBlocks text n self → IfOk result (HasReadBlocks text (n + 1)) }
        ensures fault { (text : List ℕ) (n : ℕ) → rest.now ≡ drop (64 * n) text
            → HasReadBlocks text n self
            → IfErr result (λ left. HasFaultFrom text left) }
        ensures ranked { IfOk result
            (λ r. AreRanked r.blocks.masks.items r.blocks.before.items) }
        ensures count { IfOk result
            (λ r. vec_len r.blocks.masks ≡ vec_len self.blocks.masks + 1) }
        ensures room { IfOk result (λ r. (bytes : ℕ)
            → HasRoomFor bytes self.blocks → HasRoomFor bytes r.blocks) }
    {
        one_structure();
        let Reading {
            mut blocks,
            carry,
            mut widths,
            ..
        } = self;
        let (masks, carry) = carry.step(classify(load(rest, 0)), len as u32);
        if masks.fault != 0 {
            return Err(rest.len() - masks.fault.trailing_zeros() as usize);
        }
        let ends = masks.sep | masks.eol;
        blocks.push(ends, widths.places);
        widths.add(ends, masks.eol);
        let unended = (masks.eol >> (len - 1)) & 1 == 0;
        Ok(Reading {
            blocks,
            carry,
            widths,
            unended,
        })
    }
}
