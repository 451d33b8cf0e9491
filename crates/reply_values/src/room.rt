//! Bytes written into room that is there.
ghost use Rattle.std.specs.Prelude.{◌≡◌, ◌+◌, ◌++◌, ◌∷◌, [], ◌<◌, ◌≤◌, IfOk, OnErr, length, take, vec_capacity, vec_len};
ghost use Rattle.reply_values.specs.Size.{IsWrittenAt};

use std::alloc::AllocError;

/// Writes the first `N` bytes of a block.
#[inline(always)]
#[tactic(auto, using(crate::proofs::PutLemmas::copied, crate::proofs::PutLemmas::front_long))]
pub fn put_block<const N: usize>(out: &mut [u8], at: usize, block: &[u8]) -> usize
    requires block { N ≤ length block.now }
    requires room { at + N ≤ length out.old }
    ensures { IsWrittenAt out.old out.new at result (take N block.now) }
{
    out[at..at + N].copy_from_slice(&block[..N]);
    at + N
}

/// Writes a byte.
#[inline(always)]
pub fn put_byte(out: &mut [u8], at: usize, byte: u8) -> usize
    requires { at < length out.old }
    ensures { IsWrittenAt out.old out.new at result (byte ∷ []) }
{
    put_block::<1>(out, at, &[byte])
}

/// Writes bytes that have one block at least and two at most. The second ends where they do, over bytes of the first.
#[inline(always)]
fn put_by<const N: usize>(out: &mut [u8], at: usize, bytes: &[u8]) -> usize
    requires some { N ≤ length bytes.now }
    requires most { length bytes.now ≤ N + N }
    requires room { at + length bytes.now ≤ length out.old }
    ensures { IsWrittenAt out.old out.new at result bytes.now }
{
    let last = bytes.len() - N;
    put_block::<N>(out, at, bytes);
    put_block::<N>(out, at + last, &bytes[last..])
}

/// Writes bytes, which are mostly few.
#[inline(always)]
#[tactic(auto, using(crate::proofs::PutLemmas::copied_whole))]
pub fn put_piece(out: &mut [u8], at: usize, bytes: &[u8]) -> usize
    requires { at + length bytes.now ≤ length out.old }
    ensures { IsWrittenAt out.old out.new at result bytes.now }
{
    match bytes.len() {
        8..16 => put_by::<8>(out, at, bytes),
        4..8 => put_by::<4>(out, at, bytes),
        2..4 => put_by::<2>(out, at, bytes),
        1 => put_by::<1>(out, at, bytes),
        16..33 => put_by::<16>(out, at, bytes),
        _ => {
            out[at..at + bytes.len()].copy_from_slice(bytes);
            at + bytes.len()
        }
    }
}

/// Makes room for `size` bytes after those of `out`, and returns where it begins.
pub fn make_room(out: &mut Vec<u8>, size: usize) -> Result<usize, AllocError>
    ensures at { IfOk result (λ at. at ≡ vec_len out.old) }
    ensures long { IfOk result (λ at. length out.new.items ≡ at + size) }
    ensures kept { IfOk result (λ at. take at out.new.items ≡ out.old.items) }
    ensures room { vec_capacity out.old ≤ vec_capacity out.new }
    ensures full { OnErr result (vec_capacity out.old < vec_len out.old + size) }
{
    let at = out.len();
    out.resize(at.saturating_add(size), 0)?;
    Ok(at)
}
