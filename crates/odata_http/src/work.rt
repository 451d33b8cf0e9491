//! The work for a request, call by call.
ghost use Rattle.std.specs.Prelude.{◌≡◌, ℕ, List, IfOk, IsErr, IsOkAnd};
ghost use Rattle.odata_request.specs.Request.{IsInside, IsRowsInside, RequestOf, request_view, rows, rows_request_view};
ghost use Rattle.odata_http.specs.Exchange.{IsReplied, IsWork, most_calls};
ghost use Rattle.odata_http.specs.Lazy.{IsWaiting};
ghost use Rattle.odata_http.specs.declared.work.Work.TheVariants.{Failed};
ghost use Rattle.odata_http.specs.Work.{IsAskedFor, MayWork, StartsWork, WorksOn, step_of};

use crate::key_lookup::KeyLookup;
use crate::query_run::{QueryRun, Reached};
use crate::response::{error_response, reply_of, service_response};
use http_heads::Method;
use odata_request::{Request, RowsRequest, keys_stand_alone};
use query_exec::Step;
use reply_text::{Code, Reply};
use std::alloc::{AllocError, Global};
use table_store::Catalog;

/// What is left to be done for a request.
#[derive(Drop)]
pub(crate) enum Work {
    /// The error of that code is the reply.
    Refuse(Code),
    /// The tables are listed.
    ListTables,
    /// A row is asked for by its key.
    Find(KeyLookup),
    /// A query is under way.
    Read(QueryRun),
    /// Nothing: this is the reply, whose body is written as it is taken.
    Waits(Reply),
    /// Nothing: this is the reply, written whole.
    Replied(Vec<u8>),
    /// Nothing: memory ran out.
    Failed,
}

/// Drops work, here alone: each function that may drop some is dear to prove.
pub(crate) fn let_go(_work: Work) {}

impl Work {
    /// Returns the work for a query: the row of a key is found in one call, and any other query is a run.
    fn for_query(alloc: Global, catalog: &Catalog, asked: RowsRequest) -> Result<Work, AllocError>
        requires asked { IsAskedFor catalog.now (rows (rows_request_view asked)) }
        requires inside { IsRowsInside catalog.now (rows_request_view asked) }
        ensures { IfOk result (StartsWork catalog.now (rows (rows_request_view asked))) }
    {
        keys_stand_alone();
        let mut query = asked.query;
        match query.key.take() {
            Some(key) => Ok(Work::Find(KeyLookup {
                table: asked.table,
                key,
                select: query.select,
                format: asked.format,
            })),
            None => {
                let asked = RowsRequest { query, ..asked };
                Ok(Work::Read(QueryRun::start(alloc, catalog, asked)?))
            }
        }
    }

    /// Returns the work for a request.
    pub(crate) fn start(
        alloc: Global,
        catalog: &Catalog,
        request: Request,
    ) -> Result<Work, AllocError>
        requires asked { IsAskedFor catalog.now (request_view request) }
        requires inside { IsInside catalog.now (request_view request) }
        ensures { IfOk result (StartsWork catalog.now (request_view request)) }
    {
        match request {
            Request::Refused(code) => Ok(Work::Refuse(code)),
            Request::Service => Ok(Work::ListTables),
            Request::Rows(asked) => Work::for_query(alloc, catalog, asked),
        }
    }

    /// Returns what a call answers that leaves this work.
    pub(crate) fn step(&self) -> Step
        ensures { result ≡ step_of self.now }
    {
        match self {
            Work::Waits(_) | Work::Replied(_) => Step::Done,
            _ => Step::More,
        }
    }

    /// Returns an upper bound on the remaining calls.
    pub(crate) fn most_calls(&self) -> usize
        ensures { result ≡ most_calls self.now }
    {
        match self {
            Work::Read(query_run) => query_run.most,
            _ => 1,
        }
    }

    /// Returns one call's part of the work for a request of that method.
    pub(crate) fn go_on(
        self,
        alloc: Global,
        catalog: &Catalog,
        method: Option<Method>,
        closes: bool,
    ) -> Result<Work, AllocError>
        requires { MayWork catalog.now self }
        ensures works { (request : RequestOf) (left : ℕ)
            → IsWork catalog.now request left self
            → IfOk result (WorksOn catalog.now method closes request left) }
        ensures waiting { (reply : List ℕ) → IsWaiting self reply
            → IsOkAnd result (λ work. IsWaiting work reply) }
        ensures replied { (reply : List ℕ) → IsReplied self reply
            → IsOkAnd result (λ work. IsReplied work reply) }
        ensures failed { self ≡ Failed → IsErr result }
    {
        match self {
            Work::Refuse(code) => {
                let response = error_response(alloc, code)?;
                Ok(Work::Waits(reply_of(alloc, method, response, closes)?))
            }
            Work::ListTables => {
                let response = service_response(alloc, catalog)?;
                Ok(Work::Waits(reply_of(alloc, method, response, closes)?))
            }
            Work::Find(key_lookup) => {
                let response = key_lookup.answer(alloc, catalog)?;
                Ok(Work::Waits(reply_of(alloc, method, response, closes)?))
            }
            Work::Read(query_run) => match query_run.read_on(alloc, catalog)? {
                Reached::On(query_run) => Ok(Work::Read(query_run)),
                Reached::Over(response) => {
                    Ok(Work::Waits(reply_of(alloc, method, response, closes)?))
                }
            },
            Work::Waits(reply) => Ok(Work::Waits(reply)),
            Work::Replied(reply) => Ok(Work::Replied(reply)),
            Work::Failed => Err(AllocError),
        }
    }

    /// Writes the reply of work that waits.
    pub(crate) fn lay_down(self) -> Result<Work, AllocError>
        ensures waiting { (reply : List ℕ) → IsWaiting self reply
            → IfOk result (λ work. IsReplied work reply) }
        ensures replied { (reply : List ℕ) → IsReplied self reply
            → IsOkAnd result (λ work. IsReplied work reply) }
    {
        match self {
            Work::Waits(reply) => Ok(Work::Replied(reply.into_bytes()?)),
            Work::Replied(reply) => Ok(Work::Replied(reply)),
            work => Ok(work),
        }
    }
}
