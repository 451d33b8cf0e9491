//! The table of places and the current tables.
ghost use Rattle.std.specs.Prelude.{◌<◌, ◌^◌, length};

use crate::answers::{HubFault, Turned};
use crate::connection::Connection;
use crate::places::{
    closed_at, end_at, first_free, free_at, hopeless_at, kept_at, piece_at, put_at, take_at,
    took_at, turn_at, waiting_at,
};
use odata_http::RunKept;
use std::alloc::{AllocError, Global};
use std::rc::Rc;
use table_store::Catalog;

/// The number of a place.
#[derive(Clone, Copy, PartialEq, Eq)]
pub struct Conn(pub u32);

/// Connections that are answered in turns. Each call is one step of the hub that this one stands for.
#[derive(Drop)]
pub struct Hub {
    alloc: Global,
    catalog: Rc<Catalog>,
    places: Vec<Option<Connection>>,
    ghost few: { length places.items < 2 ^ 32 },
}

impl Hub {
    ghost use Rattle.std.specs.Prelude.{◌≡◌, ◌≤◌, IfOk, None, OnErr, drop, length, replicate, take};
    ghost use Rattle.odata_hub.specs.Connections.{Done, End, Gave, Opened, Piece, Take, Turn, Went, call_answer};
    ghost use Rattle.odata_hub.specs.Schedules.{Drop, HubOf, On, Open, Reload, conn_at};
    ghost use Rattle.odata_hub.specs.Stands.{IsHubStep, IsHubTook, HubKeeps, LendsAt, Models, TellsHopelessAt, TellsOver, TellsTook, current_tables};

    /// Creates a hub of `places` slots, all of them free, over these tables.
    pub fn new(alloc: Global, catalog: Rc<Catalog>, places: u32) -> Result<Hub, AllocError>
        ensures { IfOk result (λ hub. Models hub
            (record { catalog = catalog.value; places = replicate places None })) }
    {
        let mut free = Vec::with_capacity(alloc, places as usize)?;
        for _place in 0..places {
            free.push(None)?;
        }
        Ok(Hub {
            alloc,
            catalog,
            places: free,
        })
    }

    /// Returns a connection at the least free place.
    pub fn open(&mut self) -> Result<Conn, HubFault>
        ensures { IsHubStep self.old Open (call_answer (λ conn. Opened conn.0) result) self.new }
    {
        match first_free(self.places.as_slice()) {
            Some(place) => {
                let opened = Connection::new(self.alloc);
                put_at(&mut self.places, place, Some(opened));
                Ok(Conn(place as u32))
            }
            None => Err(HubFault::Full),
        }
    }

    /// Returns the next piece of a connection's stream.
    pub fn piece(&mut self, conn: Conn, piece: &[u8]) -> Result<(), HubFault>
        ensures { IsHubStep self.old (On conn.0 (Piece (current_tables self.old) piece.now))
            (call_answer (λ _. Done) result) self.new }
    {
        piece_at(self.alloc, &mut self.places, conn.0, &self.catalog, piece)
    }

    /// Returns the end of a connection's stream.
    pub fn end(&mut self, conn: Conn) -> Result<(), HubFault>
        ensures { IsHubStep self.old (On conn.0 End) (call_answer (λ _. Done) result) self.new }
    {
        end_at(&mut self.places, conn.0)
    }

    /// Gives a connection one turn: a run is handed one block at most.
    pub fn turn(&mut self, conn: Conn) -> Result<Turned, HubFault>
        ensures { IsHubStep self.old (On conn.0 Turn) (call_answer Went result) self.new }
    {
        turn_at(self.alloc, &mut self.places, conn.0)
    }

    /// Moves the first bytes of a connection's output into the front of a buffer, as many as wait or fit.
    pub fn take(&mut self, conn: Conn, out: &mut [u8]) -> Result<usize, HubFault>
        ensures step { IsHubStep self.old (On conn.0 (Take (length out.old)))
            (call_answer (λ n. Gave (take n out.new)) result) self.new }
        ensures within { IfOk result (λ n. n ≤ length out.old) }
        ensures others { IfOk result (λ n. drop n out.new ≡ drop n out.old) }
        ensures err { OnErr result (out.new ≡ out.old) }
    {
        take_at(&mut self.places, conn.0, out)
    }

    /// Returns first bytes of a connection's output: one at least, if any waits.
    pub fn waiting(&self, conn: Conn) -> Result<&[u8], HubFault>
        ensures { (h : HubOf) → Models self.now h → LendsAt (conn_at h conn.0) result }
    {
        waiting_at(&self.places, conn.0)
    }

    /// Consumes up to `count` bytes of a connection's output: as `take` with that room, without a buffer.
    pub fn took(&mut self, conn: Conn, count: usize) -> Result<(), HubFault>
        ensures took { IsHubTook self.old conn.0 count self.new }
        ensures tells { (h : HubOf) → Models self.old h → TellsTook (conn_at h conn.0) result }
    {
        took_at(&mut self.places, conn.0, count)
    }

    /// Gives a connection's place back.
    pub fn drop_conn(&mut self, conn: Conn) -> Result<(), HubFault>
        ensures { IsHubStep self.old (Drop conn.0) (call_answer (λ _. Done) result) self.new }
    {
        free_at(&mut self.places, conn.0)
    }

    /// Exchanges the tables, for the heads whose last byte is still to come.
    pub fn reload(&mut self, catalog: Rc<Catalog>)
        ensures { IsHubStep self.old (Reload catalog.value) Done self.new }
    {
        self.catalog = catalog;
    }

    /// Returns whether a closing head was cut off a connection's stream, and all its replies were taken. It is false if memory ran out for the connection.
    pub fn closed(&self, conn: Conn) -> Result<bool, HubFault>
        ensures { (h : HubOf) → Models self.now h → TellsOver (conn_at h conn.0) result }
    {
        closed_at(&self.places, conn.0)
    }

    /// Returns what the run of the query keeps that a connection has in flight: rows for an order, or groups. It is nothing without such a run.
    pub fn kept(&self, conn: Conn) -> RunKept
        ensures { HubKeeps self.now conn.0 result }
    {
        kept_at(&self.places, conn.0)
    }

    /// Returns whether what is left of a connection's stream can begin no head any more, whatever follows. To call `end` at once then gives the replies that every
    /// longer stream has.
    pub fn is_hopeless(&self, conn: Conn) -> Result<bool, HubFault>
        ensures { (h : HubOf) → Models self.now h → TellsHopelessAt (conn_at h conn.0) result }
    {
        hopeless_at(&self.places, conn.0)
    }
}
