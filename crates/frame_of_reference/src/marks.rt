//! Loops that mark the rows of a block by their offsets. Each looks at a row without a branch, so that LLVM makes vector instructions of it. The widths differ in
//! nothing else: the ends are clipped to what an offset of the width can be.

ghost use Rattle.std.specs.Prelude.{◌≡◌, ◌<◌, ◌&&◌, ℕ, false, not, length, slice_index_or};
ghost use Rattle.frame_of_reference.specs.Marks.{AreMarkedBetween};

/// Marks the rows whose offsets, in one byte, lie between two.
pub fn mark_ones(offsets: &[u8], low: u64, high: u64, out: &mut [bool])
    requires { length out.old ≡ length offsets.now }
    ensures { AreMarkedBetween low high offsets.now out.new }
{
    if low > 0xFF {
        out.fill(false);
        return;
    }
    let least = low as u8;
    let greatest = high.min(0xFF) as u8;
    for i in 0..out.len() {
        out[i] = (least <= offsets[i]) & (offsets[i] <= greatest);
    }
}

/// Marks the rows whose offsets, in two bytes, lie between two.
pub fn mark_twos(offsets: &[u16], low: u64, high: u64, out: &mut [bool])
    requires { length out.old ≡ length offsets.now }
    ensures { AreMarkedBetween low high offsets.now out.new }
{
    if low > 0xFFFF {
        out.fill(false);
        return;
    }
    let least = low as u16;
    let greatest = high.min(0xFFFF) as u16;
    for i in 0..out.len() {
        out[i] = (least <= offsets[i]) & (offsets[i] <= greatest);
    }
}

/// Marks the rows whose offsets, in four bytes, lie between two.
pub fn mark_fours(offsets: &[u32], low: u64, high: u64, out: &mut [bool])
    requires { length out.old ≡ length offsets.now }
    ensures { AreMarkedBetween low high offsets.now out.new }
{
    if low > 0xFFFF_FFFF {
        out.fill(false);
        return;
    }
    let least = low as u32;
    let greatest = high.min(0xFFFF_FFFF) as u32;
    for i in 0..out.len() {
        out[i] = (least <= offsets[i]) & (offsets[i] <= greatest);
    }
}

/// Marks the rows whose offsets, in eight bytes, lie between two.
pub fn mark_eights(offsets: &[u64], low: u64, high: u64, out: &mut [bool])
    requires { length out.old ≡ length offsets.now }
    ensures { AreMarkedBetween low high offsets.now out.new }
{
    for i in 0..out.len() {
        out[i] = (low <= offsets[i]) & (offsets[i] <= high);
    }
}

/// Takes the marks of the rows that are null away; if no mark of a null is kept, none is.
pub fn unmark_nulls(nulls: &[bool], out: &mut [bool])
    ensures { (i : ℕ) → i < length out.new → slice_index_or out.new i false
        ≡ (slice_index_or out.old i false && not (slice_index_or nulls.now i false)) }
{
    let rows = out.len().min(nulls.len());
    for i in 0..rows {
        out[i] = out[i] & !nulls[i];
    }
}

/// Marks the rows that were not marked, and no others.
pub fn turn_each(out: &mut [bool])
    ensures { (i : ℕ) → i < length out.new
        → slice_index_or out.new i false ≡ not (slice_index_or out.old i false) }
{
    for i in 0..out.len() {
        out[i] = !out[i];
    }
}
