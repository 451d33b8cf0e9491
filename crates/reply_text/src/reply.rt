//! A reply that waits to be taken.
ghost use Rattle.std.specs.Prelude.{◌≡◌, ◌≢◌, ◌+◌, ◌++◌, ◌==◌, ◌<◌, ◌≤◌, [], IfOk, drop, length, min, vec_capacity, vec_len};
ghost use Rattle.reply_text.specs.Waiting.{IsFront};

use crate::cursor::BodyCursor;
use std::alloc::{AllocError, Global};
use std::marker::Model;

/// How many bytes of a body are written at once, beside room for its longest row: so a long row here and there does not have the others taken one by one.
const ROOM: usize = 65_536;

/// The bytes that are written, of which the first `at` were taken, and the body that is not. It is seen as the bytes that wait. None of the body is left
/// where all that was written was taken, and no piece of it needs memory.
#[derive(Drop)]
pub struct Reply {
    laid: Vec<u8>,
    at: usize,
    body: BodyCursor,
}

impl Model for Reply {
    ghost use Rattle.std.specs.Prelude.{◌≡◌, ◌++◌, ◌≤◌, ℕ, List, [], drop, length, vec_capacity};

    ghost Value = { List ℕ };

    ghost view = { λ reply. drop reply.at reply.laid.items ++ reply.body.bytes };

    ghost invariant = { λ reply. (reply.at ≤ length reply.laid.items) × (reply.body.longest ≤ vec_capacity reply.laid)
        × (length reply.laid.items ≤ reply.at → reply.body.bytes ≡ []) };
}

/// Writes pieces of a body while the longest has room. It takes no memory.
fn fill(laid: &mut Vec<u8>, body: &mut BodyCursor)
    ensures bytes { laid.new.items ++ body.new.bytes ≡ laid.old.items ++ body.old.bytes }
    ensures longest { body.new.longest ≡ body.old.longest }
    ensures room { vec_capacity laid.old ≤ vec_capacity laid.new }
    ensures all { vec_len laid.new + body.old.longest ≤ vec_capacity laid.old
        → body.new.bytes ≡ [] }
{
    let room = laid.capacity();
    let mut end = laid.len();
    let Ok(()) = laid.resize(room, 0) else {
        return;
    };
    while !body.is_empty() && body.longest() <= room - end {
        end = body.put_next(laid.as_mut_slice(), end);
    }
    laid.truncate(end);
}

impl Reply {
    /// Returns a reply of these bytes.
    pub fn of_bytes(alloc: Global, bytes: Vec<u8>) -> Reply
        ensures { result ≡ bytes.items }
    {
        Reply {
            laid: bytes,
            at: 0,
            body: BodyCursor::of_bytes(Vec::new(alloc)),
        }
    }

    /// Returns the lines and the body after them. All memory that it takes is taken here.
    pub fn start(lines: Vec<u8>, body: BodyCursor) -> Result<Reply, AllocError>
        ensures { IfOk result (λ reply. reply ≡ lines.items ++ body.bytes) }
    {
        let mut laid = lines;
        let mut body = body;
        let others = if body.size() == body.longest() {
            0
        } else {
            body.size().min(ROOM)
        };
        laid.reserve(body.longest().saturating_add(others))?;
        fill(&mut laid, &mut body);
        Ok(Reply { laid, at: 0, body })
    }

    /// Returns all bytes that wait, written.
    pub fn into_bytes(self) -> Result<Vec<u8>, AllocError>
        ensures { IfOk result (λ bytes. bytes.items ≡ self) }
    {
        let Reply {
            mut laid,
            at,
            mut body,
        } = self;
        laid.drain(..at);
        laid.reserve(body.size().saturating_add(body.longest()))?;
        fill(&mut laid, &mut body);
        Ok(laid)
    }

    /// Returns true if nothing waits.
    pub fn is_empty(&self) -> bool
        ensures { result ≡ (length self.now == 0) }
    {
        self.at == self.laid.len()
    }

    /// Returns first bytes of those that wait: one at least, if any waits.
    pub fn waiting(&self) -> &[u8]
        ensures { IsFront result.now self.now }
    {
        &self.laid[self.at..]
    }

    /// Consumes up to `count` of the written bytes, and returns how many. If all were taken, more are written.
    fn took_laid(&mut self, count: usize) -> usize
        ensures within { result ≤ count }
        ensures some { 0 < count → 0 < length self.old → 0 < result }
        ensures left { self.new ≡ drop result self.old }
        ensures had { result ≤ length self.old }
    {
        let gone = count.min(self.laid.len() - self.at);
        self.at += gone;
        if self.at == self.laid.len() {
            self.laid.clear();
            self.at = 0;
            fill(&mut self.laid, &mut self.body);
        }
        gone
    }

    /// Consumes up to `count` bytes, and returns how many. It takes no memory.
    pub fn took(&mut self, count: usize) -> usize
        ensures count { result ≡ min count (length self.old) }
        ensures left { self.new ≡ drop result self.old }
    {
        let mut passed = 0;
        while passed < count && !self.is_empty() {
            passed += self.took_laid(count - passed);
        }
        passed
    }
}
