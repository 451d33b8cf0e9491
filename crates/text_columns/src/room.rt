//! Room for texts that are written one after another.
ghost use Rattle.std.specs.Prelude.{◌≡◌, ◌+◌, ◌≤◌, OnOk, OnErr, length, take};
ghost use Rattle.text_columns.specs.declared.content.TheConstants.{LANES};

use crate::content::LANES;
use std::alloc::AllocError;

/// How many bytes at most are added to those that are needed. A long block takes over the memory, so more of it would be written for nothing.
const SPARE: usize = 0x1_0000;

/// Makes room for `more` bytes from `at` on, and a few more.
#[inline(always)]
pub fn make_room(bytes: &mut Vec<u8>, at: usize, more: usize) -> Result<(), AllocError>
    requires { at ≤ length bytes.old.items }
    ensures room { OnOk result (at + more + LANES ≤ length bytes.new.items) }
    ensures kept { OnOk result (take at bytes.new.items ≡ take at bytes.old.items) }
    ensures err { OnErr result (bytes.new.items ≡ bytes.old.items) }
{
    let free = bytes.len() - at;
    if more < free && LANES <= free - more {
        return Ok(());
    }
    grow(bytes, at, more)
}

/// Makes the room if there is too little.
#[inline(never)]
fn grow(bytes: &mut Vec<u8>, at: usize, more: usize) -> Result<(), AllocError>
    requires { at ≤ length bytes.old.items }
    ensures room { OnOk result (at + more + LANES ≤ length bytes.new.items) }
    ensures kept { OnOk result (take at bytes.new.items ≡ take at bytes.old.items) }
    ensures err { OnErr result (bytes.new.items ≡ bytes.old.items) }
{
    let Some(needed) = at.checked_add(more) else {
        return Err(AllocError);
    };
    let Some(needed) = needed.checked_add(LANES) else {
        return Err(AllocError);
    };
    let spare = bytes.len().min(SPARE);
    bytes.resize(needed.max(bytes.len().saturating_add(spare)), 0)
}
