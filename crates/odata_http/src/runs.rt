//! Streams of requests and their replies, over devices.
ghost use Rattle.std.specs.Prelude.{◌≡◌};
ghost use Rattle.odata_http.specs.Device.{CountsFit};
ghost use Rattle.odata_http.specs.Reply.{IsReply};
ghost use Rattle.odata_http.specs.Runs.{IsRun, course};

use crate::answer::{AnswerFault, answer_rest, take_in};
use crate::device::{Sink, Source};
use http_heads::{Splitter, cuts_join, one_cut};
use std::alloc::Global;
use table_store::Catalog;

/// How many bytes are read at once.
const PIECE: usize = 4096;

/// Why a run ended early.
#[derive(Clone, Copy, PartialEq, Eq)]
pub enum RunFault {
    /// Memory ran out.
    NoMemory,
    /// A read failed.
    Read,
    /// A write failed.
    Write,
    /// The greatest number of reads was made, and none reported the end of the stream.
    TooManyReads,
}

impl From<AnswerFault> for RunFault {
    ghost use Rattle.odata_http.specs.RunFaults.{run_fault};

    ghost from_gives = { λ fault run. run ≡ run_fault fault };

    fn from(fault: AnswerFault) -> RunFault {
        match fault {
            AnswerFault::NoMemory => RunFault::NoMemory,
            AnswerFault::Write => RunFault::Write,
        }
    }
}

/// Answers a stream: writes the replies to all whole heads before each read, and that to a rest at the end. It makes at most `limit` reads.
pub fn run<R: Source, W: Sink>(
    alloc: Global,
    catalog: &Catalog,
    input: &mut R,
    out: &mut W,
    limit: u32,
) -> Result<(), RunFault>
    requires { CountsFit (R.source input.old) (W.sink out.old) }
    ensures { IsRun (IsReply catalog.now) limit
        (course (R.source input.old) (R.source input.new) (W.sink out.old) (W.sink out.new))
        result }
{
    one_cut();
    cuts_join();
    let mut splitter = Splitter::new(alloc);
    let mut piece = [0u8; PIECE];
    for _turn in 0..limit {
        let n = match input.read(&mut piece) {
            Ok(n) => n,
            Err(_) => return Err(RunFault::Read),
        };
        if n == 0 {
            answer_rest(alloc, &mut splitter, out)?;
            return Ok(());
        }
        let closed = take_in(alloc, catalog, &mut splitter, &piece[..n], out)?;
        if closed {
            return Ok(());
        }
    }
    Err(RunFault::TooManyReads)
}
