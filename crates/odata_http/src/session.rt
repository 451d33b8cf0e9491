//! A connection's part of a service, without devices: bytes go in by pieces, and the replies wait to be taken.
ghost use Rattle.std.specs.Prelude.{◌≡◌};
ghost use Rattle.odata_http.specs.Reply.{IsReply};
ghost use Rattle.odata_http.specs.Session.{IsEnded, IsFedSession, IsLiveOr, Takes, new_session};

use crate::answer::{answer_rest, take_in};
use http_heads::Splitter;
use reply_text::Output;
use std::alloc::Global;
use std::marker::Model;
use table_store::Catalog;

/// Why a session took nothing.
#[derive(Clone, Copy, Debug, PartialEq, Eq)]
pub enum SessionFault {
    /// It failed before: memory ran out.
    Failed,
    /// It ended before.
    Ended,
    /// Memory ran out, and the session has failed. Replies that were made wait, each of them whole.
    NoMemory,
}

/// Whether a session takes pieces.
#[derive(Clone, Copy)]
enum State {
    Live,
    Ended,
    Failed,
}

/// The answers to one stream that comes in pieces. It is seen as the rest of the stream, the output that waits, and whether a reply closed, it ended, or it failed.
#[derive(Drop)]
pub struct Session {
    splitter: Splitter,
    output: Output,
    closed: bool,
    state: State,
}

impl Model for Session {
    ghost use Rattle.odata_http.specs.Session.{SessionOf};
    ghost use Rattle.odata_http.specs.States.{has_ended, has_failed};

    ghost Value = { SessionOf };

    ghost view = { λ s. record { rest = s.splitter; output = s.output; closed = s.closed; ended = has_ended s.state; failed = has_failed s.state } };
}

impl Session {
    /// Returns a session before the first byte of a stream.
    pub fn new(alloc: Global) -> Session
        ensures { result ≡ new_session }
    {
        Session {
            splitter: Splitter::new(alloc),
            output: Output::new(alloc),
            closed: false,
            state: State::Live,
        }
    }

    /// Returns whether it takes what comes, or why not.
    fn check_live(&self) -> Result<(), SessionFault>
        ensures { IsLiveOr self.now result }
    {
        match self.state {
            State::Live => Ok(()),
            State::Ended => Err(SessionFault::Ended),
            State::Failed => Err(SessionFault::Failed),
        }
    }

    /// Takes a piece of the stream in, and adds the replies that are certain with it. Once a reply closed, pieces change nothing.
    pub fn feed(
        &mut self,
        alloc: Global,
        catalog: &Catalog,
        piece: &[u8],
    ) -> Result<(), SessionFault>
        ensures { IsFedSession (IsReply catalog.now) piece.now self.old self.new result }
    {
        self.check_live()?;
        if self.closed {
            return Ok(());
        }
        match take_in(alloc, catalog, &mut self.splitter, piece, &mut self.output) {
            Ok(closed) => {
                self.closed = closed;
                Ok(())
            }
            Err(_) => {
                self.state = State::Failed;
                Err(SessionFault::NoMemory)
            }
        }
    }

    /// Returns the end of the stream: adds the reply to a rest, if the rest is not empty. It closes.
    pub fn end(&mut self, alloc: Global) -> Result<(), SessionFault>
        ensures { IsEnded self.old self.new result }
    {
        self.check_live()?;
        match answer_rest(alloc, &mut self.splitter, &mut self.output) {
            Ok(answered) => {
                self.closed = self.closed || answered;
                self.state = State::Ended;
                Ok(())
            }
            Err(_) => {
                self.state = State::Failed;
                Err(SessionFault::NoMemory)
            }
        }
    }

    /// Moves the first bytes of the output into the front of a buffer, as many as wait or fit, and answers how many.
    pub fn take(&mut self, buf: &mut [u8]) -> usize
        ensures { Takes self.old self.new result buf.old buf.new }
    {
        self.output.take(buf)
    }

    /// Returns true if a reply closed: that to a head, or that to a rest at the end.
    pub fn closed(&self) -> bool
        ensures { result ≡ self.now.closed }
    {
        self.closed
    }
}
