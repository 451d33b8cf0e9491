//! Heads that wait, and the exchange in flight.
ghost use Rattle.std.specs.Prelude.{◌≡◌, ◌++◌, ◌≤◌, IfOk};
ghost use Rattle.odata_http.specs.Answer.{AreSmall};
ghost use Rattle.odata_http.specs.Lazy.{KeepsLazily};
ghost use Rattle.odata_hub.specs.Connections.{FlightOf};
ghost use Rattle.odata_hub.specs.Held.{IsFlight};
ghost use Rattle.odata_hub.specs.Pieces.{IsCutInto};
ghost use Rattle.odata_hub.specs.Streams.{asked};
ghost use Rattle.odata_hub.specs.Work.{BeginsFlight, GoesOnTo};

use http_heads::{CheckedHead, Splitter};
use odata_http::{LazyExchange, Reply, RunKept, Step, cuts_are_small};
use std::alloc::{AllocError, Global};
use std::collections::VecDeque;
use std::marker::Model;
use std::rc::Rc;
use table_store::Catalog;

/// A head that waits with its checks, and the tables that were current as its last byte came.
#[derive(Drop)]
pub(crate) struct QueuedHead {
    head: CheckedHead,
    catalog: Rc<Catalog>,
}

impl Model for QueuedHead {
    ghost use Rattle.std.specs.Prelude.{◌≤◌, length};
    ghost use Rattle.odata_hub.specs.Streams.{Asked};

    ghost Value = { Asked };

    ghost view = { λ waiting. record { catalog = waiting.catalog.value; head = waiting.head } };

    ghost invariant = { λ waiting. length waiting.head.target ≤ 8192 };
}

/// The exchange in flight, and the tables that were current as the last byte of its head came.
#[derive(Drop)]
pub(crate) struct InFlight {
    exchange: LazyExchange,
    catalog: Rc<Catalog>,
}

impl Model for InFlight {
    ghost use Rattle.std.specs.Coded.{codes};
    ghost use Rattle.odata_http.specs.contracts.lazy.LazyExchange as exchanges;
    ghost use Rattle.odata_http.specs.Lazy.{MayGoOnLazily};
    ghost use Rattle.odata_hub.specs.Held.{FlightHeld};

    ghost Value = { FlightHeld };

    ghost coded = { Prim.hlevel (codes, exchanges.the_row.coded) };

    ghost view = { λ flight. record { catalog = flight.catalog.value; exchange = flight.exchange } };

    ghost invariant = { λ flight. MayGoOnLazily flight.catalog.value flight.exchange };
}

/// How far one call of an exchange came.
#[derive(Drop)]
pub(crate) enum Gone {
    /// Calls are left.
    On(InFlight),
    /// This is the reply.
    Replied(Reply),
}

impl QueuedHead {
    /// Begins the exchange of the head. No block is read.
    pub(crate) fn begin(self, alloc: Global) -> Result<InFlight, AllocError>
        ensures { IfOk result (BeginsFlight self) }
    {
        let QueuedHead { head, catalog } = self;
        let exchange = LazyExchange::begin_checked(alloc, &catalog, &head)?;
        Ok(InFlight { exchange, catalog })
    }
}

impl InFlight {
    /// Makes one call: a run is handed one block at most.
    pub(crate) fn go_on(self, alloc: Global) -> Result<Gone, AllocError>
        ensures { IfOk result (λ gone. (f : FlightOf) → IsFlight self f → GoesOnTo f gone) }
    {
        let InFlight {
            mut exchange,
            catalog,
        } = self;
        match exchange.advance(alloc, &catalog)? {
            Step::More => Ok(Gone::On(InFlight { exchange, catalog })),
            Step::Done => Ok(Gone::Replied(exchange.reply())),
        }
    }

    /// Returns what the run of its query keeps, if one is under way.
    pub(crate) fn kept(&self) -> RunKept
        ensures { KeepsLazily self.now.exchange result }
    {
        self.exchange.kept()
    }
}

/// Appends the heads to those that wait, each with these tables.
fn wait_all(
    waiting: &mut VecDeque<QueuedHead>,
    catalog: &Rc<Catalog>,
    heads: Vec<CheckedHead>,
) -> Result<(), AllocError>
    requires { AreSmall heads.items }
    ensures { IfOk result (λ _. waiting.new.items
        ≡ waiting.old.items ++ asked catalog.now.value heads.items) }
{
    for head in heads {
        let tables = catalog.clone()?;
        waiting.push_back(QueuedHead {
            head,
            catalog: tables,
        })?;
    }
    Ok(())
}

/// Returns the heads that are cut off the rest and the piece wait, each with these tables. Whether the last of them closes.
pub(crate) fn cut_into(
    alloc: Global,
    splitter: &mut Splitter,
    waiting: &mut VecDeque<QueuedHead>,
    catalog: &Rc<Catalog>,
    piece: &[u8],
) -> Result<bool, AllocError>
    ensures { IfOk result (IsCutInto catalog.now.value (splitter.old ++ piece.now)
        waiting.old.items waiting.new.items splitter.new) }
{
    cuts_are_small();
    let cut = splitter.cut(alloc, piece)?;
    wait_all(waiting, catalog, cut.heads)?;
    Ok(cut.closed)
}
