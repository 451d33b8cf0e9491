//! One connection.
use crate::answers::{HubFault, Turned};
use crate::flight::{Gone, InFlight, QueuedHead, cut_into};
use http_heads::{Splitter, Unreadable};
use odata_http::{Output, RunKept, reply_to_rest};
use std::alloc::{AllocError, Global};
use std::collections::VecDeque;
use std::rc::Rc;
use table_store::Catalog;

/// The rest of a stream, the heads that wait, the exchange in flight, and the output that waits.
#[derive(Drop)]
pub(crate) struct Connection {
    splitter: Splitter,
    waiting: VecDeque<QueuedHead>,
    flight: Option<InFlight>,
    output: Output,
    closed: bool,
    ended: bool,
    failed: bool,
}

impl Connection {
    ghost use Rattle.std.specs.Prelude.{◌≡◌, ◌≤◌, [], IfOk, None, Some, Option, OnErr, drop, length, take};
    ghost use Rattle.http_heads.specs.Hopeless.{TellsHopeless};
    ghost use Rattle.odata_http.specs.Waiting.{IsFront};
    ghost use Rattle.odata_hub.specs.Connections.{ConnOf, Done, End, FlightOf, Gave, IsFailed, Piece, Take, Turn, Went, call_answer, fresh, is_over};
    ghost use Rattle.odata_hub.specs.Held.{FlightKeeps, IsFlight, IsInFlight};
    ghost use Rattle.odata_hub.specs.Stands.{ConnStandsFor, IsConnStep, IsConnTook, conn_of};
    ghost use Rattle.odata_hub.specs.Work.{FoundWork, IsWorked, KeepsOutput};

    /// Returns a connection that holds nothing.
    pub(crate) fn new(alloc: Global) -> Connection
        ensures { ConnStandsFor result fresh }
    {
        Connection {
            splitter: Splitter::new(alloc),
            waiting: VecDeque::new(alloc),
            flight: None,
            output: Output::new(alloc),
            closed: false,
            ended: false,
            failed: false,
        }
    }

    /// Puts another exchange in flight, or none. Here alone the one before it is dropped, since each function that may drop one is dear to prove.
    fn set_flight(&mut self, flight: Option<InFlight>)
        ensures { self.new ≡ record self.old { flight = flight } }
    {
        self.flight = flight;
    }

    /// Fails the connection, for which memory ran out: of what it held only the output is kept.
    fn fail(&mut self, alloc: Global)
        ensures flight { self.new.flight ≡ None }
        ensures failed { IsFailed (conn_of self.old None) (conn_of self.new None) }
    {
        self.splitter = Splitter::new(alloc);
        self.waiting = VecDeque::new(alloc);
        self.set_flight(None);
        self.failed = true;
    }

    /// Returns the next piece of the stream, under these tables.
    pub(crate) fn piece(
        &mut self,
        alloc: Global,
        catalog: &Rc<Catalog>,
        piece: &[u8],
    ) -> Result<(), HubFault>
        ensures { IsConnStep self.old (Piece catalog.now.value piece.now)
            (call_answer (λ _. Done) result) self.new }
    {
        if self.failed {
            return Err(HubFault::Failed);
        }
        if self.ended {
            return Err(HubFault::Ended);
        }
        if self.closed {
            return Ok(());
        }
        match cut_into(alloc, &mut self.splitter, &mut self.waiting, catalog, piece) {
            Ok(closed) => {
                self.closed = closed;
                Ok(())
            }
            Err(_) => {
                self.fail(alloc);
                Err(HubFault::NoMemory)
            }
        }
    }

    /// Returns the end of the stream.
    pub(crate) fn end(&mut self) -> Result<(), HubFault>
        ensures { IsConnStep self.old End (call_answer (λ _. Done) result) self.new }
    {
        if self.failed {
            return Err(HubFault::Failed);
        }
        if self.ended {
            return Err(HubFault::Ended);
        }
        self.ended = true;
        Ok(())
    }

    /// Makes one call of the exchange that was in flight.
    fn go_on(&mut self, alloc: Global, flight: InFlight) -> Result<Turned, AllocError>
        ensures ok { IfOk result (λ went. (f : FlightOf) → IsFlight flight f
            → IsWorked self.old (Some f) went self.new) }
        ensures err { OnErr result (KeepsOutput self.old self.new) }
    {
        match flight.go_on(alloc)? {
            Gone::On(flight) => self.set_flight(Some(flight)),
            Gone::Replied(reply) => {
                self.output.give_reply(reply)?;
                self.set_flight(None);
            }
        }
        Ok(Turned::Worked)
    }

    /// Adds the reply to a rest, once the stream ended.
    fn answer_rest(&mut self, alloc: Global) -> Result<Turned, AllocError>
        ensures ok { self.old.flight ≡ None → self.old.waiting.items ≡ []
            → IfOk result (λ went. IsWorked self.old None went self.new) }
        ensures err { OnErr result (KeepsOutput self.old self.new) }
        ensures wants { self.old.waiting.items ≡ [] → OnErr result (FoundWork self.old None) }
    {
        if !self.ended {
            return Ok(Turned::Idle);
        }
        match self.splitter.end() {
            None => Ok(Turned::Idle),
            Some(Unreadable) => {
                let reply = reply_to_rest(alloc)?;
                self.output.give(reply)?;
                Ok(Turned::Worked)
            }
        }
    }

    /// Begins the exchange of the first head that waits, or adds the reply to a rest, if none is in flight.
    fn begin_next(&mut self, alloc: Global) -> Result<Turned, AllocError>
        ensures ok { self.old.flight ≡ None
            → IfOk result (λ went. IsWorked self.old None went self.new) }
        ensures err { OnErr result (KeepsOutput self.old self.new) }
        ensures wants { OnErr result (FoundWork self.old None) }
    {
        match self.waiting.pop_front() {
            Some(next) => {
                let flight = next.begin(alloc)?;
                self.set_flight(Some(flight));
                Ok(Turned::Worked)
            }
            None => self.answer_rest(alloc),
        }
    }

    /// Makes one step. An `Err` leaves the output, and comes only if there was something to do.
    fn work(&mut self, alloc: Global) -> Result<Turned, AllocError>
        ensures ok { IfOk result (λ went. (f : Option FlightOf) → IsInFlight self.old.flight f
            → IsWorked self.old f went self.new) }
        ensures err { OnErr result (KeepsOutput self.old self.new) }
        ensures wants { OnErr result ((f : Option FlightOf) → IsInFlight self.old.flight f
            → FoundWork self.old f) }
    {
        match self.flight.take() {
            Some(flight) => self.go_on(alloc, flight),
            None => self.begin_next(alloc),
        }
    }

    /// Returns one turn.
    pub(crate) fn turn(&mut self, alloc: Global) -> Result<Turned, HubFault>
        ensures { IsConnStep self.old Turn (call_answer Went result) self.new }
    {
        if self.failed {
            return Err(HubFault::Failed);
        }
        match self.work(alloc) {
            Ok(turned) => Ok(turned),
            Err(_) => {
                self.fail(alloc);
                Err(HubFault::NoMemory)
            }
        }
    }

    /// Moves the first bytes of the output out, as many as wait or fit.
    pub(crate) fn take(&mut self, out: &mut [u8]) -> usize
        ensures step { IsConnStep self.old (Take (length out.old))
            (Gave (take result out.new)) self.new }
        ensures within { result ≤ length out.old }
        ensures others { drop result out.new ≡ drop result out.old }
    {
        self.output.take(out)
    }

    /// Returns first bytes of the output: one at least, if any waits.
    pub(crate) fn waiting(&self) -> &[u8]
        ensures { IsFront result.now self.now.output }
    {
        self.output.waiting()
    }

    /// Consumes up to `count` bytes of the output.
    pub(crate) fn took(&mut self, count: usize)
        ensures { IsConnTook self.old count self.new }
    {
        self.output.took(count);
    }

    /// Returns what the run of the query in flight keeps, if there is one.
    pub(crate) fn kept(&self) -> RunKept
        ensures { FlightKeeps self.now.flight result }
    {
        match &self.flight {
            Some(flight) => flight.kept(),
            None => RunKept::Nothing,
        }
    }

    /// Returns true if a closing head was cut off, and all replies were taken: if memory ran out, one of them was never made.
    pub(crate) fn closed(&self) -> bool
        ensures { (c : ConnOf) → ConnStandsFor self.now c → result ≡ is_over c }
    {
        !self.failed
            && self.closed
            && self.flight.is_none()
            && self.waiting.is_empty()
            && self.output.is_empty()
    }

    /// Returns true if what is left of the stream can begin no head any more.
    pub(crate) fn is_hopeless(&self) -> bool
        ensures { (c : ConnOf) → ConnStandsFor self.now c → TellsHopeless c.rest result }
    {
        self.splitter.is_hopeless()
    }
}
