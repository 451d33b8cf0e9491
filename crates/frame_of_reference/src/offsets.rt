//! The offsets of the rows of a block from its least value.

ghost use Rattle.std.specs.Prelude.{◌≡◌, ◌<◌, IfOk, length, MatchOption, slice_index_or, ◌≤◌, ◌≤ℤ◌};
ghost use Rattle.frame_of_reference.specs.Offsets.{AreBelow, AreOffsets, AreSums, AreWithin};
ghost use Rattle.frame_of_reference.specs.OffsetList.{offset_list};
ghost use Rattle.frame_of_reference.specs.Marks.{AreMarkedBetween};

use crate::lanes::{
    add_eights, add_fours, add_ones, add_twos, write_eights, write_fours, write_ones, write_twos,
};
use crate::marks::{mark_eights, mark_fours, mark_ones, mark_twos};
use std::alloc::{AllocError, Global};

/// An offset for each row, in one, two, four or eight bytes.
#[derive(Drop)]
pub enum Offsets {
    Ones(Vec<u8>),
    Twos(Vec<u16>),
    Fours(Vec<u32>),
    Eights(Vec<u64>),
}

/// Returns the offsets of values that lie between two numbers, as narrow as these allow.
pub fn offsets_of(
    alloc: Global,
    least: i64,
    greatest: i64,
    values: &[i64],
    nulls: &[bool],
) -> Result<Offsets, AllocError>
    requires ordered { least ≤ℤ greatest }
    requires nulls_long { length nulls.now ≡ length values.now }
    requires within { AreWithin least greatest nulls.now values.now }
    ensures { IfOk result
        (λ offsets. AreOffsets least greatest nulls.now values.now (offset_list offsets)) }
{
    let range = greatest.abs_diff(least);
    if range <= 0xFF {
        let mut offsets = Vec::from_elem(alloc, 0u8, values.len())?;
        write_ones(least, greatest, values, nulls, offsets.as_mut_slice());
        Ok(Offsets::Ones(offsets))
    } else if range <= 0xFFFF {
        let mut offsets = Vec::from_elem(alloc, 0u16, values.len())?;
        write_twos(least, greatest, values, nulls, offsets.as_mut_slice());
        Ok(Offsets::Twos(offsets))
    } else if range <= 0xFFFF_FFFF {
        let mut offsets = Vec::from_elem(alloc, 0u32, values.len())?;
        write_fours(least, greatest, values, nulls, offsets.as_mut_slice());
        Ok(Offsets::Fours(offsets))
    } else {
        let mut offsets = Vec::from_elem(alloc, 0u64, values.len())?;
        write_eights(least, greatest, values, nulls, offsets.as_mut_slice());
        Ok(Offsets::Eights(offsets))
    }
}

/// Returns how many rows there are.
#[inline(always)]
pub fn rows_of(offsets: &Offsets) -> usize
    ensures { result ≡ length (offset_list offsets.now) }
{
    match offsets {
        Offsets::Ones(offsets) => offsets.len(),
        Offsets::Twos(offsets) => offsets.len(),
        Offsets::Fours(offsets) => offsets.len(),
        Offsets::Eights(offsets) => offsets.len(),
    }
}

/// Returns the offset of a row.
#[inline(always)]
pub fn offset_at(offsets: &Offsets, row: usize) -> Option<u64>
    ensures { MatchOption result (length (offset_list offsets.now) ≤ row)
        (λ offset. (row < length (offset_list offsets.now))
        × (offset ≡ slice_index_or (offset_list offsets.now) row 0)) }
{
    match offsets {
        Offsets::Ones(offsets) => match offsets.get(row) {
            Some(offset) => Some(u64::from(*offset)),
            None => None,
        },
        Offsets::Twos(offsets) => match offsets.get(row) {
            Some(offset) => Some(u64::from(*offset)),
            None => None,
        },
        Offsets::Fours(offsets) => match offsets.get(row) {
            Some(offset) => Some(u64::from(*offset)),
            None => None,
        },
        Offsets::Eights(offsets) => match offsets.get(row) {
            Some(offset) => Some(*offset),
            None => None,
        },
    }
}

/// Writes the sum of the least value and the offset of each row.
pub fn add_each(least: i64, offsets: &Offsets, out: &mut [i64])
    requires fits { AreBelow least (offset_list offsets.now) }
    requires long { length out.old ≡ length (offset_list offsets.now) }
    ensures { AreSums least (offset_list offsets.now) out.new }
{
    match offsets {
        Offsets::Ones(offsets) => add_ones(least, offsets.as_slice(), out),
        Offsets::Twos(offsets) => add_twos(least, offsets.as_slice(), out),
        Offsets::Fours(offsets) => add_fours(least, offsets.as_slice(), out),
        Offsets::Eights(offsets) => add_eights(least, offsets.as_slice(), out),
    }
}

/// Marks the rows whose offsets lie between two.
pub fn mark_each(offsets: &Offsets, low: u64, high: u64, out: &mut [bool])
    requires { length out.old ≡ length (offset_list offsets.now) }
    ensures { AreMarkedBetween low high (offset_list offsets.now) out.new }
{
    match offsets {
        Offsets::Ones(offsets) => mark_ones(offsets.as_slice(), low, high, out),
        Offsets::Twos(offsets) => mark_twos(offsets.as_slice(), low, high, out),
        Offsets::Fours(offsets) => mark_fours(offsets.as_slice(), low, high, out),
        Offsets::Eights(offsets) => mark_eights(offsets.as_slice(), low, high, out),
    }
}
