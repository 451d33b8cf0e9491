//! The output of a session or a connection: replies that wait to be taken.
ghost use Rattle.std.specs.Prelude.{◌≡◌, ◌≢◌, ◌++◌, ◌==◌, [], drop, if◌then◌else◌, is_ok, length, min, take, IsErr};
ghost use Rattle.std.specs.List.{concat};
ghost use Rattle.reply_text.specs.Waiting.{IsFront};

use crate::reply::Reply;
use std::alloc::{AllocError, Global};
use std::collections::VecDeque;
use std::marker::Model;

/// Replies that wait one after another, of the first what was not taken yet. It is seen as their bytes.
#[derive(Drop)]
pub struct Output {
    alloc: Global,
    first: Reply,
    others: VecDeque<Reply>,
}

impl Model for Output {
    ghost use Rattle.std.specs.Prelude.{◌≡◌, ◌++◌, [], ℕ, List};
    ghost use Rattle.std.specs.List.{concat};

    ghost Value = { List ℕ };

    ghost view = { λ output. output.first ++ concat output.others.items };

    ghost invariant = { λ output. output.first ≡ [] → output.others.items ≡ [] };
}

/// Moves the first bytes of one slice into the front of another, as many as there are or fit, and answers how many.
fn copy_front(from: &[u8], to: &mut [u8]) -> usize
    ensures count { result ≡ min (length from.now) (length to.old) }
    ensures bytes { to.new ≡ take result from.now ++ drop result to.old }
{
    let count = from.len().min(to.len());
    to[..count].copy_from_slice(&from[..count]);
    count
}

/// Consumes up to `count` bytes and drops finished replies.
fn took_of(first: &mut Reply, others: &mut VecDeque<Reply>, count: usize)
    requires { first.old ≡ [] → others.old.items ≡ [] }
    ensures left { first.new ++ concat others.new.items
        ≡ drop count (first.old ++ concat others.old.items) }
    ensures first { first.new ≡ [] → others.new.items ≡ [] }
{
    let mut passed = first.took(count);
    while first.is_empty() {
        match others.pop_front() {
            Some(reply) => {
                *first = reply;
                passed += first.took(count - passed);
            }
            None => return,
        }
    }
}

/// Drops a reply of which nothing waits, with its buffer and with what its body was written from.
fn let_go(alloc: Global, first: &mut Reply)
    ensures { first.new ≡ first.old }
{
    if first.is_empty() {
        *first = Reply::of_bytes(alloc, Vec::new(alloc));
    }
}

impl Output {
    /// Returns an output of which nothing waits. It takes no memory.
    pub fn new(alloc: Global) -> Output
        ensures { result ≡ [] }
    {
        Output {
            alloc,
            first: Reply::of_bytes(alloc, Vec::new(alloc)),
            others: VecDeque::new(alloc),
        }
    }

    /// Returns true if nothing waits.
    pub fn is_empty(&self) -> bool
        ensures { result ≡ (length self.now == 0) }
    {
        self.first.is_empty()
    }

    /// Adds a whole reply after the bytes that wait, in its own buffer. If none wait, no memory is taken. At an `Err` memory ran out, and
    /// none of it was added.
    pub fn give(&mut self, reply: Vec<u8>) -> Result<(), AllocError>
        ensures added { self.new ≡ (if is_ok result then self.old ++ reply.items else self.old) }
        ensures memory { IsErr result → self.old ≢ [] }
    {
        self.give_reply(Reply::of_bytes(self.alloc, reply))
    }

    /// Adds a reply after the bytes that wait. If none wait, no memory is taken. At an `Err` memory ran out, and none of it was added.
    pub fn give_reply(&mut self, reply: Reply) -> Result<(), AllocError>
        ensures added { self.new ≡ (if is_ok result then self.old ++ reply else self.old) }
        ensures memory { IsErr result → self.old ≢ [] }
    {
        if self.is_empty() {
            self.first = reply;
            return Ok(());
        }
        self.others.push_back(reply)?;
        Ok(())
    }

    /// Returns first bytes of those that wait: one at least, if any waits.
    pub fn waiting(&self) -> &[u8]
        ensures { IsFront result.now self.now }
    {
        self.first.waiting()
    }

    /// Consumes up to `count` bytes.
    pub fn took(&mut self, count: usize)
        ensures { self.new ≡ drop count self.old }
    {
        took_of(&mut self.first, &mut self.others, count);
        let_go(self.alloc, &mut self.first);
    }

    /// Moves the first bytes into the front of a buffer, as many as wait or fit, and answers how many. The rest of the buffer stays as it is.
    pub fn take(&mut self, buf: &mut [u8]) -> usize
        ensures count { result ≡ min (length self.old) (length buf.old) }
        ensures bytes { buf.new ≡ take result self.old ++ drop result buf.old }
        ensures left { self.new ≡ drop result self.old }
    {
        let mut count = 0;
        while count < buf.len() && !self.is_empty() {
            let moved = copy_front(self.waiting(), &mut buf[count..]);
            self.took(moved);
            count += moved;
        }
        count
    }
}
