//! The hub with its places: what is kept of each, and its socket.
ghost use Rattle.std.specs.Prelude.{◌≡◌, ◌<◌, ◌^◌, length, slice_set};
ghost use Rattle.odata_rounds.specs.Lives.{free_slot};

use crate::lingering::Lingering;
use crate::peer::Peer;
use crate::slow::{Due, Seen, TimeLimits};
use crate::sockets::Sockets;
use mio::Poll;
use odata_hub::{Conn, Hub, HubFault};
use odata_rounds::{Slot, SlotState, visit_place};
use std::alloc::{AllocError, Global};
use std::rc::Rc;
use table_store::Catalog;

/// The most bytes that are read at once when a peer's bytes are dropped.
const WASTE_BYTES: usize = 16_384;

/// The most bytes that come to a connection at once: the heads of one piece are kept until each is answered, and the shortest take some fifteen times
/// their length.
const PIECE_BYTES: usize = 2_048;

/// Clears what is kept of a place: nothing became of it yet.
fn clear_slot(slots: &mut [Slot], place: u32)
    ensures len { length slots.new ≡ length slots.old }
    ensures cleared { slots.new ≡ slice_set slots.old place free_slot }
{
    let at = place as usize;
    if at < slots.len() {
        slots[at].state = SlotState::Free;
    }
}

/// A hub, its places, room for one piece, and for bytes that are dropped.
#[derive(Drop)]
pub struct Server {
    pub hub: Hub,
    pub slots: Vec<Slot>,
    pub sockets: Sockets,
    pub lingering: Lingering,
    room: Vec<u8>,
    waste: Vec<u8>,
    ghost some_room: { 0 < length room.items },
    ghost some_waste: { 0 < length waste.items },
    ghost few_slots: { length slots.items < 2 ^ 32 },
}

impl Server {
    ghost use Rattle.std.specs.Prelude.{IfOk, None, OnErr, replicate};
    ghost use Rattle.odata_rounds.specs.Sights.{VisitsAt, sight};
    ghost use Rattle.odata_hub.specs.Connections.{Done, Opened, call_answer};
    ghost use Rattle.odata_hub.specs.Schedules.{Drop, HubOf, Open, conn_at};
    ghost use Rattle.odata_hub.specs.Stands.{IsHubStep, Models};
    ghost use Rattle.listen_sockets.specs.Lingering.{MayHold, TendsAt};
    ghost use Rattle.listen_sockets.specs.Server.{AreFree, EndsHopeless, EndsIfHopeless, IsDueAt, NotesWork, TellsHopelessOf, has_waiting, state_at};
    ghost use Rattle.listen_sockets.specs.Sockets.{EndsStream, IsPut, KeepsStreams, OthersStay, SocketsStay, TakesPeer, peer_at, wire_at};

    /// Returns a server of `places` places, all of them free, over these tables.
    pub fn new(alloc: Global, catalog: Rc<Catalog>, places: u32) -> Result<Server, AllocError>
        ensures free { IfOk result (λ server. AreFree catalog.value places
            server.hub server.slots.items server.sockets.wires.items) }
        ensures lingering { IfOk result (λ server.
            server.lingering.held.items ≡ replicate places None) }
    {
        let mut slots = Vec::with_capacity(alloc, places as usize)?;
        for _place in 0..places {
            slots.push(Slot {
                state: SlotState::Free,
            })?;
        }
        Ok(Server {
            hub: Hub::new(alloc, catalog, places)?,
            slots,
            sockets: Sockets::new(alloc, places)?,
            lingering: Lingering::new(alloc, places)?,
            room: Vec::from_elem(alloc, 0u8, PIECE_BYTES)?,
            waste: Vec::from_elem(alloc, 0u8, WASTE_BYTES)?,
        })
    }

    /// Visits `place` once, and notes what became of it. Does nothing if there is no such place.
    pub fn visit(&mut self, place: u32)
        ensures visit { VisitsAt place
            (sight self.old.hub self.old.slots.items (wire_at self.old.sockets.wires.items))
            (sight self.new.hub self.new.slots.items (wire_at self.new.sockets.wires.items)) }
        ensures lingering { self.new.lingering ≡ self.old.lingering }
    {
        if place < self.places() {
            visit_place(
                &mut self.hub,
                &mut self.slots,
                &mut self.sockets,
                place,
                &mut self.room,
            );
        }
    }

    /// Opens a connection at the least free place, and answers which; none if there is no free place.
    pub fn open(&mut self, peer: Peer) -> Result<Conn, HubFault>
        ensures step { IsHubStep self.old.hub Open (call_answer (λ conn. Opened conn.0) result)
            self.new.hub }
        ensures slots { IfOk result (λ conn.
            self.new.slots.items ≡ slice_set self.old.slots.items conn.0 free_slot) }
        ensures kept { OnErr result (self.new.slots.items ≡ self.old.slots.items) }
        ensures sockets { OnErr result (self.new.sockets ≡ self.old.sockets) }
        ensures peer { IfOk result (λ conn.
            IsPut conn.0 peer self.old.sockets.wires.items self.new.sockets.wires.items) }
        ensures others { IfOk result (λ conn.
            OthersStay conn.0 self.old.sockets.wires.items self.new.sockets.wires.items) }
        ensures lingering { self.new.lingering ≡ self.old.lingering }
    {
        let conn = self.hub.open()?;
        clear_slot(&mut self.slots, conn.0);
        self.sockets.put(conn.0, peer);
        Ok(conn)
    }

    /// Frees a place, and closes its socket.
    pub fn free(&mut self, place: u32) -> Result<(), HubFault>
        ensures step { IsHubStep self.old.hub (Drop place) (call_answer (λ _. Done) result)
            self.new.hub }
        ensures slots { self.new.slots.items ≡ slice_set self.old.slots.items place free_slot }
        ensures sockets { TakesPeer place
            self.old.sockets.wires.items self.new.sockets.wires.items }
        ensures streams { EndsStream place
            self.old.sockets.wires.items self.new.sockets.wires.items }
        ensures others { OthersStay place
            self.old.sockets.wires.items self.new.sockets.wires.items }
        ensures lingering { self.new.lingering ≡ self.old.lingering }
    {
        clear_slot(&mut self.slots, place);
        let _closed = self.sockets.close(place, &mut self.waste);
        self.hub.drop_conn(Conn(place))
    }

    /// Holds a socket open that was closed at its place, if its peer may still send. The system reports it no more: its place may have another.
    fn hold(&mut self, closed: Option<Peer>, poll: &Poll)
        ensures hub { self.new.hub ≡ self.old.hub }
        ensures slots { self.new.slots.items ≡ self.old.slots.items }
        ensures sockets { self.new.sockets ≡ self.old.sockets }
        ensures lingering { MayHold closed self.old.lingering.held.items
            self.new.lingering.held.items }
    {
        if let Some(mut peer) = closed {
            if peer.deregister(poll) {
                self.lingering.hold(peer, &mut self.waste);
            }
        }
    }

    /// Frees a place whose connection is over, and closes its socket once its peer has closed too, or after a while.
    pub fn linger(&mut self, place: u32, poll: &Poll) -> Result<(), HubFault>
        ensures step { IsHubStep self.old.hub (Drop place) (call_answer (λ _. Done) result)
            self.new.hub }
        ensures slots { self.new.slots.items ≡ slice_set self.old.slots.items place free_slot }
        ensures sockets { TakesPeer place
            self.old.sockets.wires.items self.new.sockets.wires.items }
        ensures streams { EndsStream place
            self.old.sockets.wires.items self.new.sockets.wires.items }
        ensures others { OthersStay place
            self.old.sockets.wires.items self.new.sockets.wires.items }
        ensures lingering { MayHold (peer_at self.old.sockets.wires.items place)
            self.old.lingering.held.items self.new.lingering.held.items }
    {
        clear_slot(&mut self.slots, place);
        let closed = self.sockets.close(place, &mut self.waste);
        self.hold(closed, poll);
        self.hub.drop_conn(Conn(place))
    }

    /// Tends one of the sockets that are held open, once a second.
    pub fn tend_lingering_at(&mut self, at: u32)
        ensures hub { self.new.hub ≡ self.old.hub }
        ensures slots { self.new.slots.items ≡ self.old.slots.items }
        ensures sockets { self.new.sockets ≡ self.old.sockets }
        ensures lingering { TendsAt at 1 self.old.lingering.held.items
            self.new.lingering.held.items }
    {
        self.lingering.tend(at as usize, 1, &mut self.waste);
    }

    /// Returns how many places there are.
    pub fn places(&self) -> u32
        ensures { result ≡ length self.now.slots.items }
    {
        self.slots.len() as u32
    }

    /// Returns what became of a place at its last visit.
    pub fn state(&self, place: u32) -> SlotState
        ensures { result ≡ state_at self.now.slots.items place }
    {
        match self.slots.get(place as usize) {
            Some(slot) => slot.state,
            None => SlotState::Free,
        }
    }

    /// Returns true if output of the connection at a place waits for its socket.
    pub fn has_waiting(&self, place: u32) -> bool
        ensures { (h : HubOf) → Models self.now.hub h → result ≡ has_waiting (conn_at h place) }
    {
        match self.hub.waiting(Conn(place)) {
            Ok(output) => !output.is_empty(),
            Err(_) => false,
        }
    }

    /// Returns true if the rest of the connection at a place can begin no head any more.
    fn is_hopeless(&self, place: u32) -> bool
        ensures { (h : HubOf) → Models self.now.hub h
            → TellsHopelessOf (conn_at h place) result }
    {
        match self.hub.is_hopeless(Conn(place)) {
            Ok(told) => told,
            Err(_) => false,
        }
    }

    /// Ends the stream at a place whose rest can begin no head any more, and no other: its reply need not wait for what still comes.
    pub fn end_hopeless(&mut self, place: u32, now: u64)
        ensures hub { self.new.hub ≡ self.old.hub }
        ensures slots { self.new.slots.items ≡ self.old.slots.items }
        ensures sockets { EndsIfHopeless now place self.old.hub
            self.old.sockets.wires.items self.new.sockets.wires.items }
        ensures ends { EndsHopeless place self.old.hub
            self.old.sockets.wires.items self.new.sockets.wires.items }
        ensures stay { SocketsStay
            self.old.sockets.wires.items self.new.sockets.wires.items }
        ensures lingering { self.new.lingering ≡ self.old.lingering }
    {
        if self.is_hopeless(place) {
            self.sockets.end_stream(place, now);
        }
    }

    /// Notes what a visit that worked did at `place`.
    pub fn note_work(&mut self, place: u32, now: u64)
        ensures hub { self.new.hub ≡ self.old.hub }
        ensures slots { self.new.slots.items ≡ self.old.slots.items }
        ensures sockets { NotesWork now place self.old.hub
            self.old.sockets.wires.items self.new.sockets.wires.items }
        ensures streams { KeepsStreams
            self.old.sockets.wires.items self.new.sockets.wires.items }
        ensures stay { SocketsStay
            self.old.sockets.wires.items self.new.sockets.wires.items }
        ensures lingering { self.new.lingering ≡ self.old.lingering }
    {
        let waits = self.has_waiting(place);
        self.sockets.note_work(place, now, waits);
    }

    /// Returns what is due of the connection at `place`, by whether another waits for a place.
    pub fn due(&self, place: u32, limits: &TimeLimits, now: u64, crowded: bool) -> Due
        ensures { IsDueAt limits.now crowded now place
            self.now.hub self.now.sockets.wires.items result }
    {
        match self.sockets.times(place) {
            Some(times) => {
                let seen = Seen {
                    crowded,
                    awake: self.sockets.is_awake(place),
                    waits: self.has_waiting(place),
                };
                times.due(limits, seen, now)
            }
            None => Due::Nothing,
        }
    }
}
