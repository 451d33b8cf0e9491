//! The exchange of a head for its reply, block by block.
ghost use Rattle.std.specs.Prelude.{◌≡◌, ◌≤◌, ℕ, List, IfOk, IsErr, IsOk, Ok, OnErr, OnOk, length};
ghost use Rattle.query_exec.specs.declared.run.Step.TheVariants.{Done};
ghost use Rattle.http_heads.specs.Checks.{checks_of};
ghost use Rattle.http_heads.specs.Head.{HeadOf, head_view};
ghost use Rattle.odata_http.specs.Exchange.{Answers, Begins, GivesReply, GoesOn, HasFailed, IsDone, MayGoOn};
ghost use Rattle.odata_http.specs.Lazy.{GoesUnlaid, IsWaiting};
ghost use Rattle.odata_http.specs.Reply.{IsReply};
ghost use Rattle.odata_http.specs.Work.{MayWork};

use crate::lazy::lazy_reply_to;
use crate::work::{Work, let_go};
use http_heads::{CheckedHead, Checks, Head, Method, check_head};
use odata_request::request_of;
use query_exec::Step;
use std::alloc::{AllocError, Global};
use std::mem;
use table_store::Catalog;

/// The answering of a head. It owns what the head asks for and the run of its query, and borrows nothing of the catalog between two calls.
#[derive(Drop)]
pub struct Exchange {
    /// None if another method is refused.
    method: Option<Method>,
    closes: bool,
    pub(crate) work: Work,
}

impl Exchange {
    /// Begins an exchange. No block is read.
    pub fn begin(alloc: Global, catalog: &Catalog, head: Head) -> Result<Exchange, AllocError>
        requires { length head.target.items ≤ 8192 }
        ensures { IfOk result (Begins catalog.now (head_view head)) }
    {
        let checks = check_head(&head);
        Exchange::begin_with(alloc, catalog, &head.method, &head.target, checks)
    }

    /// Returns the same for a head that was checked before.
    pub fn begin_checked(
        alloc: Global,
        catalog: &Catalog,
        head: &CheckedHead,
    ) -> Result<Exchange, AllocError>
        requires { length head.now.target ≤ 8192 }
        ensures { IfOk result (Begins catalog.now head.now) }
    {
        Exchange::begin_with(alloc, catalog, head.method(), head.target(), head.checks())
    }

    /// Returns the same for a head of that method and target, with its checks.
    fn begin_with(
        alloc: Global,
        catalog: &Catalog,
        method: &[u8],
        target: &[u8],
        checks: Checks,
    ) -> Result<Exchange, AllocError>
        requires small { length target.now ≤ 8192 }
        ensures { (head : HeadOf) → head.method ≡ method.now → head.target ≡ target.now
            → checks ≡ checks_of head → IfOk result (Begins catalog.now head) }
    {
        let method = Method::of(method);
        let request = request_of(alloc, catalog, checks.fault, target)?;
        let work = Work::start(alloc, catalog, request)?;
        Ok(Exchange {
            method,
            closes: checks.closes,
            work,
        })
    }

    /// Makes one call, before the reply is written.
    pub(crate) fn go_on(&mut self, alloc: Global, catalog: &Catalog) -> Result<Step, AllocError>
        requires { MayWork catalog.now self.old.work }
        ensures goes_on { (head : HeadOf) (left : ℕ) → Answers catalog.now head left self.old
            → GoesUnlaid catalog.now head left self.new result }
        ensures waiting { (reply : List ℕ) → IsWaiting self.old.work reply
            → (result ≡ Ok Done) × IsWaiting self.new.work reply }
        ensures replied { (reply : List ℕ) → GivesReply self.old reply
            → (result ≡ Ok Done) × GivesReply self.new reply }
        ensures failed { HasFailed self.old → IsErr result }
        ensures refused { OnErr result (HasFailed self.new) }
    {
        let work = mem::replace(&mut self.work, Work::Failed);
        let work = work.go_on(alloc, catalog, self.method, self.closes)?;
        let step = work.step();
        let_go(mem::replace(&mut self.work, work));
        Ok(step)
    }

    /// Writes the reply that waits.
    fn lay_down(&mut self) -> Result<(), AllocError>
        ensures waiting { (reply : List ℕ) → IsWaiting self.old.work reply
            → OnOk result (GivesReply self.new reply) }
        ensures replied { (reply : List ℕ) → GivesReply self.old reply
            → IsOk result × GivesReply self.new reply }
        ensures refused { OnErr result (HasFailed self.new) }
    {
        let work = mem::replace(&mut self.work, Work::Failed);
        let work = work.lay_down()?;
        let_go(mem::replace(&mut self.work, work));
        Ok(())
    }

    /// Reads one block of the table at most. Answers Done at the last call that a head takes and after it, and an error from the call on in which memory ran out.
    pub fn advance(&mut self, alloc: Global, catalog: &Catalog) -> Result<Step, AllocError>
        requires { MayGoOn catalog.now self.old }
        ensures goes_on { (head : HeadOf) (left : ℕ) → Answers catalog.now head left self.old
            → GoesOn catalog.now head left self.new result }
        ensures done { (reply : List ℕ) → GivesReply self.old reply
            → (result ≡ Ok Done) × GivesReply self.new reply }
        ensures failed { HasFailed self.old → IsErr result }
        ensures refused { OnErr result (HasFailed self.new) }
    {
        match self.go_on(alloc, catalog)? {
            Step::More => Ok(Step::More),
            Step::Done => {
                self.lay_down()?;
                Ok(Step::Done)
            }
        }
    }

    /// Returns the reply of an exchange that answered Done. It takes no memory.
    pub fn reply(self) -> Vec<u8>
        requires { IsDone self }
        ensures { (reply : List ℕ) → GivesReply self reply → result.items ≡ reply }
    {
        let Exchange { work, .. } = self;
        match work {
            Work::Replied(reply) => reply,
            _ => unreachable!(),
        }
    }
}

/// Returns the reply to a head, written whole.
pub fn reply_to(alloc: Global, catalog: &Catalog, head: &CheckedHead) -> Result<Vec<u8>, AllocError>
    requires { length head.now.target ≤ 8192 }
    ensures { IfOk result (λ reply. IsReply catalog.now head.now reply.items) }
{
    lazy_reply_to(alloc, catalog, head)?.into_bytes()
}
