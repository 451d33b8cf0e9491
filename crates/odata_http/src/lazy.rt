//! The exchange of a head for its reply, whose body is written as it is taken.
ghost use Rattle.std.specs.Prelude.{◌≡◌, ◌≤◌, ℕ, List, IfOk, IsErr, Ok, OnErr, length};
ghost use Rattle.query_exec.specs.declared.run.Step.TheVariants.{Done};
ghost use Rattle.http_heads.specs.Head.{HeadOf};
ghost use Rattle.odata_http.specs.Lazy.{AnswersLazily, BeginsLazily, GivesLazily, GoesOnLazily, HasLazilyFailed, IsLazilyDone, KeepsLazily, MayGoOnLazily};
ghost use Rattle.odata_http.specs.Reply.{IsReply};

use crate::exchange::Exchange;
use crate::work::{Work, let_go};
use http_heads::CheckedHead;
use query_exec::{RunKept, Step};
use reply_text::Reply;
use std::alloc::{AllocError, Global};
use table_store::Catalog;

/// The answering of a head, as by an exchange. What its reply needs of memory it takes at the last call.
#[derive(Drop)]
pub struct LazyExchange {
    exchange: Exchange,
}

impl LazyExchange {
    /// Begins an exchange for a head that was checked before. No block is read.
    #[tactic(auto, using(crate::proofs::LazyLemmas::begins_lazily))]
    pub fn begin_checked(
        alloc: Global,
        catalog: &Catalog,
        head: &CheckedHead,
    ) -> Result<LazyExchange, AllocError>
        requires { length head.now.target ≤ 8192 }
        ensures { IfOk result (BeginsLazily catalog.now head.now) }
    {
        Ok(LazyExchange {
            exchange: Exchange::begin_checked(alloc, catalog, head)?,
        })
    }

    /// Reads one block of the table at most. Answers Done at the last call that a head takes and after it, and an error from the call on in which memory ran out.
    pub fn advance(&mut self, alloc: Global, catalog: &Catalog) -> Result<Step, AllocError>
        requires { MayGoOnLazily catalog.now self.old }
        ensures goes_on { (head : HeadOf) (left : ℕ)
            → AnswersLazily catalog.now head left self.old
            → GoesOnLazily catalog.now head left self.new result }
        ensures done { (reply : List ℕ) → GivesLazily self.old reply
            → (result ≡ Ok Done) × GivesLazily self.new reply }
        ensures failed { HasLazilyFailed self.old → IsErr result }
        ensures refused { OnErr result (HasLazilyFailed self.new) }
    {
        self.exchange.go_on(alloc, catalog)
    }

    /// Returns what the run of its query keeps, if one is under way.
    pub fn kept(&self) -> RunKept
        ensures { KeepsLazily self.now result }
    {
        match &self.exchange.work {
            Work::Read(query_run) => query_run.run.kept(),
            _ => RunKept::Nothing,
        }
    }

    /// Returns the reply of an exchange that answered Done. It takes no memory, nor does a take from it.
    pub fn reply(self) -> Reply
        requires { IsLazilyDone self }
        ensures { (reply : List ℕ) → GivesLazily self reply → result ≡ reply }
    {
        match self.exchange.work {
            Work::Waits(reply) => reply,
            _ => unreachable!(),
        }
    }
}

/// Returns the reply to a head: what the engine calls, head by head.
pub(crate) fn lazy_reply_to(
    alloc: Global,
    catalog: &Catalog,
    head: &CheckedHead,
) -> Result<Reply, AllocError>
    requires { length head.now.target ≤ 8192 }
    ensures { IfOk result (λ reply. IsReply catalog.now head.now reply) }
{
    let mut lazy = LazyExchange::begin_checked(alloc, catalog, head)?;
    for _call in 0..lazy.exchange.work.most_calls() {
        match lazy.advance(alloc, catalog) {
            Ok(Step::More) => {}
            Ok(Step::Done) => return Ok(lazy.reply()),
            Err(fault) => {
                let_go(lazy.exchange.work);
                return Err(fault);
            }
        }
    }
    unreachable!()
}
