//! The engine: a piece of a stream is cut into heads, and these are answered in turn, one reply made and given away before the next.
ghost use Rattle.std.specs.Prelude.{◌≡◌, ◌++◌, [], ℕ, List, Result, ⊤};
ghost use Rattle.odata_http.specs.declared.answer.AnswerFault.{AnswerFault};
ghost use Rattle.odata_http.specs.Answer.{AreSmall, IsAnswered, IsRestAnswered, IsSent, IsTakenIn};
ghost use Rattle.odata_http.specs.Output.{IsAddedReply};
ghost use Rattle.odata_http.specs.Reply.{IsReply};

use crate::device::{DeviceFault, Sink, send};
use crate::laws::cuts_are_small;
use crate::lazy::lazy_reply_to;
use crate::reply::reply_to_rest;
use http_heads::{CheckedHead, Splitter, Unreadable, one_cut};
use reply_text::{Output, Reply};
use std::alloc::{AllocError, Global};
use table_store::Catalog;

/// Why not all replies were given away.
#[derive(Clone, Copy)]
pub enum AnswerFault {
    /// Memory ran out.
    NoMemory,
    /// A write failed.
    Write,
}

impl From<AllocError> for AnswerFault {
    ghost use Rattle.odata_http.specs.declared.answer.AnswerFault.TheVariants.{NoMemory};

    ghost from_gives = { λ _ fault. fault ≡ NoMemory };

    fn from(_error: AllocError) -> AnswerFault {
        AnswerFault::NoMemory
    }
}

impl From<DeviceFault> for AnswerFault {
    ghost use Rattle.odata_http.specs.declared.answer.AnswerFault.TheVariants.{Write};

    ghost from_gives = { λ _ fault. fault ≡ Write };

    fn from(_fault: DeviceFault) -> AnswerFault {
        AnswerFault::Write
    }
}

/// Where replies go, one after another.
pub(crate) trait Outlet {
    /// What giving it a reply makes of it, by how that ended.
    ghost takes: { Self → List ℕ → Result ⊤ AnswerFault → Self → Type 0 };

    /// Gives it a reply.
    fn put(&mut self, reply: Reply) -> Result<(), AnswerFault>
        ensures { takes self.old reply result self.new };
}

impl<W: Sink> Outlet for W {
    ghost takes = { λ old reply result new. IsSent (W.sink old) reply result (W.sink new) };

    fn put(&mut self, reply: Reply) -> Result<(), AnswerFault> {
        send_reply(self, reply)
    }
}

impl Outlet for Output {
    ghost takes = { λ old reply result new. IsAddedReply old reply result new };

    fn put(&mut self, reply: Reply) -> Result<(), AnswerFault> {
        self.give_reply(reply)?;
        Ok(())
    }
}

/// Writes a reply, piece by piece.
fn send_reply<W: Sink>(out: &mut W, reply: Reply) -> Result<(), AnswerFault>
    ensures { IsSent (W.sink out.old) reply result (W.sink out.new) }
{
    let mut reply = reply;
    while !reply.is_empty() {
        let piece = reply.waiting();
        let count = piece.len();
        send(out, piece)?;
        let _count = reply.took(count);
    }
    Ok(())
}

/// Answers heads in turn.
fn answer_heads<O: Outlet>(
    alloc: Global,
    catalog: &Catalog,
    heads: &[CheckedHead],
    out: &mut O,
) -> Result<(), AnswerFault>
    requires { AreSmall heads.now }
    ensures { IsAnswered (IsReply catalog.now) O.takes heads.now out.old out.new result }
{
    for head in heads {
        let reply = lazy_reply_to(alloc, catalog, head)?;
        out.put(reply)?;
    }
    Ok(())
}

/// Takes in a piece of a stream: answers the heads that are whole with it. Whether one closed the connection.
pub(crate) fn take_in<O: Outlet>(
    alloc: Global,
    catalog: &Catalog,
    splitter: &mut Splitter,
    piece: &[u8],
    out: &mut O,
) -> Result<bool, AnswerFault>
    ensures { IsTakenIn (IsReply catalog.now) O.takes
        (splitter.old ++ piece.now) splitter.new out.old out.new result }
{
    cuts_are_small();
    one_cut();
    let cut = splitter.cut(alloc, piece)?;
    answer_heads(alloc, catalog, cut.heads.as_slice(), out)?;
    Ok(cut.closed)
}

/// Answers the rest of a stream that ended. Whether there was one.
pub(crate) fn answer_rest<O: Outlet>(
    alloc: Global,
    splitter: &mut Splitter,
    out: &mut O,
) -> Result<bool, AnswerFault>
    ensures answered { IsRestAnswered O.takes splitter.old out.old out.new result }
    ensures none { splitter.new ≡ [] }
{
    match splitter.end() {
        None => Ok(false),
        Some(Unreadable) => {
            let reply = reply_to_rest(alloc)?;
            out.put(Reply::of_bytes(alloc, reply))?;
            Ok(true)
        }
    }
}
