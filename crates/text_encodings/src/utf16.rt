//! UTF-16, in either order of bytes.
ghost use Rattle.std.specs.Prelude.{◌≡◌, ◌≤◌, IfOk, IfSome, length};
ghost use Rattle.text_encodings.specs.Encodings.{AreUnits, unit_of};

use std::alloc::{AllocError, Global};

/// Which byte of a unit comes first.
#[derive(Clone, Copy)]
pub enum ByteOrder {
    /// The less significant one.
    Little,
    /// The more significant one.
    Big,
}

/// Returns the unit of two bytes.
fn unit(order: ByteOrder, first: u8, second: u8) -> u16
    ensures { result ≡ unit_of order first second }
{
    match order {
        ByteOrder::Little => u16::from(first) + 256 * u16::from(second),
        ByteOrder::Big => 256 * u16::from(first) + u16::from(second),
    }
}

/// Returns the units that bytes are; `None` if there is an odd number of bytes.
pub(crate) fn units_of(
    alloc: Global,
    order: ByteOrder,
    bytes: &[u8],
) -> Result<Option<Vec<u16>>, AllocError>
    ensures { IfOk result (λ units. IfSome units (λ units. AreUnits order bytes.now units.items)) }
{
    let mut units = Vec::with_capacity(alloc, bytes.len() / 2)?;
    let mut left = bytes;
    while let [first, second, rest @ ..] = left {
        units.push(unit(order, *first, *second))?;
        left = rest;
    }
    Ok(if left.is_empty() { Some(units) } else { None })
}

/// Returns the number of bytes of the units at the front of a text, without a last one that the next unit may make a pair with.
pub(crate) fn whole_len(order: ByteOrder, bytes: &[u8]) -> usize
    ensures { result ≤ length bytes.now }
{
    let len = bytes.len() - bytes.len() % 2;
    if len == 0 {
        return 0;
    }
    let high = match order {
        ByteOrder::Little => bytes[len - 1],
        ByteOrder::Big => bytes[len - 2],
    };
    if (0xD8..0xDC).contains(&high) {
        len - 2
    } else {
        len
    }
}
