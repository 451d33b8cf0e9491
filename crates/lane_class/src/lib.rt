//! The bytes of a text in blocks of 64, and which of them are the bytes that the grammar of CSV names (RFC 4180, section 2): a
//! double quote, a comma, CR and LF. Bit i of a word speaks of byte i of its block, exactly.
#![tactic(auto)]

ghost use Rattle.std.specs.Prelude.{◌≡◌, ◌<◌, length};
ghost use Rattle.lane_class.specs.Classes.{block_from, Marks, AreClasses};

use std::simd::prelude::*;

/// How many bytes a block has.
pub const BLOCK: usize = 64;

/// Which bytes of a block are of each kind: bit i speaks of byte i.
#[derive(Clone, Copy, PartialEq, Eq)]
pub struct Classes {
    pub quote: u64,
    pub comma: u64,
    pub cr: u64,
    pub lf: u64,
}

/// Returns the 64 bytes from `at` on, with zeros past the end.
#[inline(always)]
pub fn load(bytes: &[u8], at: usize) -> u8x64
    ensures { result ≡ block_from bytes.now at }
{
    if at >= bytes.len() {
        return u8x64::splat(0);
    }
    let rest = &bytes[at..];
    if rest.len() < BLOCK {
        return load_short(rest);
    }
    u8x64::from_slice(rest)
}

/// Returns the last block, which is short.
#[inline(never)]
fn load_short(rest: &[u8]) -> u8x64
    requires { length rest.now < 64 }
    ensures { result ≡ block_from rest.now 0 }
{
    let mut lanes = [0u8; BLOCK];
    lanes[..rest.len()].copy_from_slice(rest);
    u8x64::from_array(lanes)
}

/// Returns which bytes of a block are double quotes, commas, CR and LF.
#[inline(always)]
pub fn classify(block: u8x64) -> Classes
    ensures { AreClasses result block }
{
    Classes {
        quote: marks_of(block, b'"'),
        comma: marks_of(block, b','),
        cr: marks_of(block, b'\r'),
        lf: marks_of(block, b'\n'),
    }
}

/// Returns which bytes of a block are this one.
#[inline(always)]
fn marks_of(block: u8x64, byte: u8) -> u64
    requires { 0 < byte }
    ensures { Marks result block byte }
{
    block.simd_eq(u8x64::splat(byte)).to_bitmask()
}
