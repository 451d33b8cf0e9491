//! A stream of requests, cut into heads as its pieces come.
ghost use Rattle.std.specs.Prelude.{◌≡◌, ◌↔◌, ◌<◌, ◌≤◌, ◌++◌, [], IfOk, IsSome, OnErr, drop, length, map, take};
ghost use Rattle.http_heads.specs.Cut.{IsCut};
ghost use Rattle.http_heads.specs.Head.{IsRest, head_view};
ghost use Rattle.http_heads.specs.Hopeless.{TellsHopeless};
ghost use Rattle.http_heads.specs.Splitter.{IsAdded, Splits};
ghost use Rattle.http_heads.specs.declared.head.TheConstants.{MAX_HEAD};

use crate::checked::{CheckedHead, first_checked};
use crate::head::{Head, MAX_HEAD, cut_heads, is_refused};
use std::alloc::{AllocError, Global};
use std::marker::Model;

/// What is left of a stream when it ends has no head.
#[derive(Clone, Copy, PartialEq, Eq)]
pub struct Unreadable;

/// The heads that a piece made whole, none after one that closes.
#[derive(Drop)]
pub struct Cut {
    pub heads: Vec<CheckedHead>,
    /// Whether the last of them closes.
    pub closed: bool,
}

/// The rest of a stream that was read so far: what follows the last whole head, at most 8,192 bytes of it. It is seen as
/// those bytes.
#[derive(Drop)]
pub struct Splitter {
    rest: Vec<u8>,
}

impl Model for Splitter {
    ghost use Rattle.std.specs.Prelude.{ℕ, List};
    ghost use Rattle.http_heads.specs.Head.{IsRest};

    ghost Value = { List ℕ };

    ghost view = { λ splitter. splitter.rest.items };

    ghost invariant = { λ splitter. IsRest splitter.rest.items };
}

/// Adds a piece to a rest. How long the rest was, if a head can end in the piece; if none can, no more is added than is kept: the
/// piece has no line feed, or follows a rest of 8,192 bytes.
fn add(rest: &mut Vec<u8>, piece: &[u8]) -> Result<Option<usize>, AllocError>
    requires { IsRest rest.old.items }
    ensures ok { IfOk result (IsAdded rest.old.items piece.now rest.new.items) }
    ensures unchanged { OnErr result (rest.new.items ≡ rest.old.items) }
{
    let before = rest.len();
    if before == MAX_HEAD {
        return Ok(None);
    }
    rest.extend_from_slice(piece)?;
    if !piece.contains(&b'\n') {
        rest.truncate(MAX_HEAD);
        return Ok(None);
    }
    Ok(Some(before))
}

/// Returns the heads at the front of the bytes, up to one that closes, and how many bytes are done with: all if one closes.
fn cut_checked(alloc: Global, bytes: &[u8]) -> Result<(Cut, usize), AllocError>
    ensures within { IfOk result (λ cut. cut.1 ≤ length bytes.now) }
    ensures cut { IfOk result (λ cut. IsCut bytes.now cut.0.heads.items
        (take MAX_HEAD (drop cut.1 bytes.now)) cut.0.closed) }
{
    let mut heads = Vec::new(alloc);
    let mut at = 0;
    while let Some((head, len)) = first_checked(alloc, &bytes[at..])? {
        let closed = head.checks().closes;
        heads.push(head)?;
        if closed {
            let all = bytes.len(); // nothing behind it is read
            return Ok((Cut { heads, closed }, all));
        }
        at += len;
    }
    let cut = Cut {
        heads,
        closed: false,
    };
    Ok((cut, at))
}

impl Splitter {
    /// Returns a splitter before the first byte of a stream.
    pub fn new(alloc: Global) -> Splitter
        ensures { result ≡ [] }
    {
        Splitter {
            rest: Vec::new(alloc),
        }
    }

    /// Returns the heads that are whole with this piece, in their order, closing or not. If memory ran out, nothing changed, and the piece can be
    /// given again. The rest is not read again for a piece that can't end a head: one with no line feed, and any after a rest of 8,192 bytes.
    pub fn feed(&mut self, alloc: Global, piece: &[u8]) -> Result<Vec<Head>, AllocError>
        ensures heads { IfOk result
            (λ heads. Splits self.old piece.now (map head_view heads.items) self.new) }
        ensures unchanged { OnErr result (self.new ≡ self.old) }
    {
        let Some(before) = add(&mut self.rest, piece)? else {
            return Ok(Vec::new(alloc));
        };
        match cut_heads(alloc, self.rest.as_slice()) {
            Ok((heads, at)) => {
                self.rest.drain(..at);
                self.rest.truncate(MAX_HEAD);
                Ok(heads)
            }
            Err(fault) => {
                self.rest.truncate(before);
                Err(fault)
            }
        }
    }

    /// Returns the heads that are whole with this piece, up to one that closes, each checked once. After that nothing is kept. If memory ran out,
    /// nothing changed. The rest is read again as [`Splitter::feed`] reads it.
    pub fn cut(&mut self, alloc: Global, piece: &[u8]) -> Result<Cut, AllocError>
        ensures ok { IfOk result (λ cut.
            IsCut (self.old ++ piece.now) cut.heads.items self.new cut.closed) }
        ensures unchanged { OnErr result (self.new ≡ self.old) }
    {
        let Some(before) = add(&mut self.rest, piece)? else {
            return Ok(Cut {
                heads: Vec::new(alloc),
                closed: false,
            });
        };
        match cut_checked(alloc, self.rest.as_slice()) {
            Ok((cut, at)) => {
                self.rest.drain(..at);
                self.rest.truncate(MAX_HEAD);
                Ok(cut)
            }
            Err(fault) => {
                self.rest.truncate(before);
                Err(fault)
            }
        }
    }

    /// Returns true if the rest can begin no head any more, whatever follows. The rest is read for it, once at each call. A target that is no UTF-8 is
    /// told at its end.
    pub fn is_hopeless(&self) -> bool
        ensures { TellsHopeless self.now result }
    {
        is_refused(self.rest.as_slice())
    }

    /// Returns the end of the stream: whether a rest was left. There is none afterwards.
    pub fn end(&mut self) -> Option<Unreadable>
        ensures unreadable { IsSome result ↔ (0 < length self.old) }
        ensures empty { self.new ≡ [] }
    {
        let unreadable = !self.rest.is_empty();
        self.rest.clear();
        if unreadable { Some(Unreadable) } else { None }
    }
}
