//! The first byte of a block of a text that does not stand for itself. The bytes of a block are looked at together.
ghost use Rattle.std.specs.Prelude.{◌≡◌, ◌==◌, ◌+◌, ◌≤◌, if◌then◌else◌, drop, length, take};
ghost use Rattle.std.specs.Int.{trailing_zeros, w64};
ghost use Rattle.std.specs.List.{position_or_len};
ghost use Rattle.reply_values.specs.Printed.{needs_more};

use std::simd::prelude::*;

/// Returns how many bits are below the lowest that is set, or `lanes` if none is set.
#[inline(always)]
fn first_set(mask: u64, lanes: usize) -> usize
    ensures { result ≡ (if mask == 0 then lanes else trailing_zeros w64 mask) }
{
    if mask == 0 {
        lanes
    } else {
        mask.trailing_zeros() as usize
    }
}

/// Returns how many bytes of the block from `at` on come before the first that does not stand for itself.
#[inline(always)]
pub fn run_in<const JSON: bool, const N: usize>(text: &[u8], at: usize) -> usize
    requires most { N ≤ 64 }
    requires room { at + N ≤ length text.now }
    ensures { result ≡ position_or_len (needs_more JSON) (take N (drop at text.now)) }
{
    let block = Simd::<u8, N>::from_slice(&text[at..]);
    let quotes = block.simd_eq(Simd::splat(b'"'));
    if JSON {
        let others = block.simd_eq(Simd::splat(b'\\')) | block.simd_lt(Simd::splat(0x20));
        first_set((quotes | others).to_bitmask(), N)
    } else {
        let breaks = block.simd_eq(Simd::splat(b'\r')) | block.simd_eq(Simd::splat(b'\n'));
        let others = block.simd_eq(Simd::splat(b',')) | breaks;
        first_set((quotes | others).to_bitmask(), N)
    }
}
