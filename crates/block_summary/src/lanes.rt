//! Loops over the values of a block, before they are packed.

ghost use Rattle.std.specs.Prelude.{◌≡◌, length, if◌then◌else◌};
ghost use Rattle.std.specs.List.{count_by};
ghost use Rattle.block_summary.specs.Cells.{HaveBounds, cells_of};
ghost use Rattle.block_summary.specs.Sums.{number_sum};

use crate::bounds::Bounds;

/// Returns the value of a row that is no null; at a null, another number.
#[inline(always)]
fn value_or(value: i64, is_null: bool, other: i64) -> i64
    ensures { result ≡ (if is_null then other else value) }
{
    if is_null { other } else { value }
}

/// Returns the least and the greatest number; none of nulls alone.
pub fn bounds_of(values: &[i64], nulls: &[bool]) -> Option<Bounds>
    requires { length nulls.now ≡ length values.now }
    ensures { HaveBounds result (cells_of nulls.now values.now) }
{
    let mut least = i64::MAX;
    let mut greatest = i64::MIN;
    for i in 0..values.len() {
        least = least.min(value_or(values[i], nulls[i], i64::MAX));
        greatest = greatest.max(value_or(values[i], nulls[i], i64::MIN));
    }
    if least <= greatest {
        Some(Bounds { least, greatest })
    } else {
        None
    }
}

/// Returns how many rows are null.
pub fn null_count_of(nulls: &[bool]) -> usize
    ensures { result ≡ count_by (λ is_null. is_null) nulls.now }
{
    let mut count = 0;
    for is_null in nulls {
        count += usize::from(*is_null);
    }
    count
}

/// Returns the sum of the numbers; nulls are passed over.
pub fn total_of(values: &[i64], nulls: &[bool]) -> i128
    requires { length nulls.now ≡ length values.now }
    ensures { result ≡ number_sum (cells_of nulls.now values.now) }
{
    let mut sum: i128 = 0;
    for i in 0..values.len() {
        sum += i128::from(value_or(values[i], nulls[i], 0));
    }
    sum
}
