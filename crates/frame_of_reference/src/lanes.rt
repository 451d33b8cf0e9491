//! Loops over the rows of a block. Each reads all that it needs of a row, computes one number without a branch and writes it, so that LLVM makes vector
//! instructions of it. The widths differ in nothing else.

ghost use Rattle.std.specs.Prelude.{◌≡◌, ◌+◌, ◌^◌, pos, false, length, ◌+ℤ◌, ◌≤ℤ◌, ◌<ℤ◌};
ghost use Rattle.frame_of_reference.specs.Offsets.{AreBelow, AreOffsets, AreSums, AreWithin};

/// Returns how far a value that is no null is above the least one; of a null, 0.
#[inline(always)]
fn offset_of(least: i64, greatest: i64, value: i64, is_null: bool) -> u64
    requires ordered { least ≤ℤ greatest }
    requires within { is_null ≡ false → (least ≤ℤ value) × (value ≤ℤ greatest) }
    ensures bound { (least +ℤ pos result) ≤ℤ greatest }
    ensures value { is_null ≡ false → least +ℤ pos result ≡ value }
{
    let value = if is_null { least } else { value };
    value.cast_unsigned().wrapping_sub(least.cast_unsigned())
}

/// Returns the number that is so far above the least one.
#[inline(always)]
pub fn sum_of(least: i64, offset: u64) -> i64
    requires { (least +ℤ pos offset) <ℤ pos (2 ^ 63) }
    ensures { result ≡ least +ℤ pos offset }
{
    least.wrapping_add_unsigned(offset)
}

/// Writes the offset of each row in one byte.
pub fn write_ones(least: i64, greatest: i64, values: &[i64], nulls: &[bool], out: &mut [u8])
    requires ordered { least ≤ℤ greatest }
    requires small { greatest <ℤ (least +ℤ pos (2 ^ 8)) }
    requires nulls_long { length nulls.now ≡ length values.now }
    requires out_long { length out.old ≡ length values.now }
    requires within { AreWithin least greatest nulls.now values.now }
    ensures { AreOffsets least greatest nulls.now values.now out.new }
{
    for i in 0..out.len() {
        out[i] = offset_of(least, greatest, values[i], nulls[i]) as u8;
    }
}

/// Writes the sum of the least value and the offset of each row.
pub fn add_ones(least: i64, offsets: &[u8], out: &mut [i64])
    requires fits { AreBelow least offsets.now }
    requires long { length out.old ≡ length offsets.now }
    ensures { AreSums least offsets.now out.new }
{
    for i in 0..out.len() {
        out[i] = sum_of(least, u64::from(offsets[i]));
    }
}

/// Writes the offset of each row in two bytes.
pub fn write_twos(least: i64, greatest: i64, values: &[i64], nulls: &[bool], out: &mut [u16])
    requires ordered { least ≤ℤ greatest }
    requires small { greatest <ℤ (least +ℤ pos (2 ^ 16)) }
    requires nulls_long { length nulls.now ≡ length values.now }
    requires out_long { length out.old ≡ length values.now }
    requires within { AreWithin least greatest nulls.now values.now }
    ensures { AreOffsets least greatest nulls.now values.now out.new }
{
    for i in 0..out.len() {
        out[i] = offset_of(least, greatest, values[i], nulls[i]) as u16;
    }
}

/// Writes the sum of the least value and the offset of each row.
pub fn add_twos(least: i64, offsets: &[u16], out: &mut [i64])
    requires fits { AreBelow least offsets.now }
    requires long { length out.old ≡ length offsets.now }
    ensures { AreSums least offsets.now out.new }
{
    for i in 0..out.len() {
        out[i] = sum_of(least, u64::from(offsets[i]));
    }
}

/// Writes the offset of each row in four bytes.
pub fn write_fours(least: i64, greatest: i64, values: &[i64], nulls: &[bool], out: &mut [u32])
    requires ordered { least ≤ℤ greatest }
    requires small { greatest <ℤ (least +ℤ pos (2 ^ 32)) }
    requires nulls_long { length nulls.now ≡ length values.now }
    requires out_long { length out.old ≡ length values.now }
    requires within { AreWithin least greatest nulls.now values.now }
    ensures { AreOffsets least greatest nulls.now values.now out.new }
{
    for i in 0..out.len() {
        out[i] = offset_of(least, greatest, values[i], nulls[i]) as u32;
    }
}

/// Writes the sum of the least value and the offset of each row.
pub fn add_fours(least: i64, offsets: &[u32], out: &mut [i64])
    requires fits { AreBelow least offsets.now }
    requires long { length out.old ≡ length offsets.now }
    ensures { AreSums least offsets.now out.new }
{
    for i in 0..out.len() {
        out[i] = sum_of(least, u64::from(offsets[i]));
    }
}

/// Writes the offset of each row in eight bytes.
pub fn write_eights(least: i64, greatest: i64, values: &[i64], nulls: &[bool], out: &mut [u64])
    requires ordered { least ≤ℤ greatest }
    requires nulls_long { length nulls.now ≡ length values.now }
    requires out_long { length out.old ≡ length values.now }
    requires within { AreWithin least greatest nulls.now values.now }
    ensures { AreOffsets least greatest nulls.now values.now out.new }
{
    for i in 0..out.len() {
        out[i] = offset_of(least, greatest, values[i], nulls[i]);
    }
}

/// Writes the sum of the least value and the offset of each row.
pub fn add_eights(least: i64, offsets: &[u64], out: &mut [i64])
    requires fits { AreBelow least offsets.now }
    requires long { length out.old ≡ length offsets.now }
    ensures { AreSums least offsets.now out.new }
{
    for i in 0..out.len() {
        out[i] = sum_of(least, offsets[i]);
    }
}
