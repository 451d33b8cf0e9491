//! The sockets of the places. Contracts see only counts: how often a call would have blocked, and how often a socket was found lost.
ghost use Rattle.std.specs.Prelude.{◌≡◌, length, true};
ghost use Rattle.std.specs.Io.{ReadsAtMost, WritesAtMost};
ghost use Rattle.odata_http.specs.Device.{TakesSome};

use crate::peer::Peer;
use crate::slow::Times;
use mio::Poll;
use mio::event::Event;
use odata_rounds::PeerFault;
use std::alloc::{AllocError, Global};

/// A place, and what is counted there.
#[derive(Drop)]
pub struct Wire {
    pub peer: Option<Peer>,
    pub waits: u64,
    pub losses: u64,
}

impl Wire {
    ghost use Rattle.std.specs.Prelude.{is_some, option_map};
    ghost use Rattle.odata_rounds.specs.Peers.{CountsFault, IsRead, IsWrite};
    ghost use Rattle.listen_sockets.specs.Peer.{after_charge, after_end, after_event, after_visit, before_try, but_for_reads, but_for_writes};
    ghost use Rattle.listen_sockets.specs.Sockets.{RestBy, is_awake_peer, is_ended_peer, is_lost_peer, peer_sent, peer_times, socket_of, untold_wire, with_peer};

    /// Counts what a socket answered.
    fn count(&mut self, answer: Result<usize, PeerFault>)
        ensures counts { CountsFault (untold_wire self.old) (untold_wire self.new) answer }
        ensures peer { self.new.peer ≡ self.old.peer }
    {
        match answer {
            Ok(_) => {}
            Err(PeerFault::Waits) => self.waits = self.waits.saturating_add(1),
            Err(PeerFault::Lost) => self.losses = self.losses.saturating_add(1),
        }
    }

    /// Gives bytes to the socket if there is one.
    fn write_peer(&mut self, bytes: &[u8]) -> Result<usize, PeerFault>
        ensures bound { WritesAtMost result bytes.now }
        ensures some { TakesSome bytes.now result }
        ensures counts { untold_wire self.new ≡ untold_wire self.old }
        ensures peer { option_map but_for_writes self.new.peer
            ≡ option_map but_for_writes self.old.peer }
        ensures rests { RestBy (λ peer. peer.writable) result
            self.old.peer self.new.peer }
    {
        match &mut self.peer {
            Some(peer) => peer.write(bytes),
            None => Err(PeerFault::Lost),
        }
    }

    /// Takes bytes of the socket if there is one.
    fn read_peer(&mut self, buf: &mut [u8]) -> Result<usize, PeerFault>
        ensures bound { ReadsAtMost result buf.new }
        ensures counts { untold_wire self.new ≡ untold_wire self.old }
        ensures peer { option_map but_for_reads self.new.peer
            ≡ option_map but_for_reads self.old.peer }
        ensures rests { RestBy (λ peer. peer.readable) result
            self.old.peer self.new.peer }
    {
        match &mut self.peer {
            Some(peer) => peer.read(buf),
            None => Err(PeerFault::Lost),
        }
    }

    /// Returns true if the system said that the connection is lost.
    pub(crate) fn is_lost(&self) -> bool
        ensures { result ≡ is_lost_peer self.now.peer }
    {
        match &self.peer {
            Some(peer) => peer.lost,
            None => false,
        }
    }

    /// Returns whether something was said or done since the socket last had to wait.
    pub(crate) fn is_awake(&self) -> bool
        ensures { result ≡ is_awake_peer self.now.peer }
    {
        match &self.peer {
            Some(peer) => peer.awake,
            None => false,
        }
    }

    /// Has the system report the socket under a number. If there is none, it reports nothing.
    pub(crate) fn register(&mut self, poll: &Poll, place: u32) -> bool
        ensures wire { self.new ≡ self.old }
        ensures reported { result ≡ true → is_some self.old.peer ≡ true }
    {
        match &mut self.peer {
            Some(peer) => peer.register(poll, place),
            None => false,
        }
    }

    /// Sets what the system says of the socket now.
    pub(crate) fn mark(&mut self, event: &Event)
        ensures peer { self.new ≡ with_peer (after_event event.now) self.old }
        ensures socket { socket_of self.new.peer ≡ socket_of self.old.peer }
        ensures stream { is_ended_peer self.new.peer ≡ is_ended_peer self.old.peer }
    {
        if let Some(peer) = &mut self.peer {
            peer.mark(event);
        }
    }

    /// Has the next write to the socket tried.
    pub(crate) fn try_write(&mut self)
        ensures peer { self.new ≡ with_peer before_try self.old }
        ensures socket { socket_of self.new.peer ≡ socket_of self.old.peer }
        ensures stream { is_ended_peer self.new.peer ≡ is_ended_peer self.old.peer }
    {
        if let Some(peer) = &mut self.peer {
            peer.try_write();
        }
    }

    /// Notes what a visit that worked did.
    pub(crate) fn note_work(&mut self, now: u64, waits: bool)
        ensures peer { self.new ≡ with_peer (after_visit now waits) self.old }
        ensures socket { socket_of self.new.peer ≡ socket_of self.old.peer }
        ensures stream { is_ended_peer self.new.peer ≡ is_ended_peer self.old.peer }
    {
        if let Some(peer) = &mut self.peer {
            peer.note_work(now, waits);
        }
    }

    /// Notes the microseconds that the service worked for the socket.
    pub(crate) fn charge(&mut self, micros: u64)
        ensures peer { self.new ≡ with_peer (after_charge micros) self.old }
        ensures socket { socket_of self.new.peer ≡ socket_of self.old.peer }
        ensures stream { is_ended_peer self.new.peer ≡ is_ended_peer self.old.peer }
    {
        if let Some(peer) = &mut self.peer {
            peer.charge(micros);
        }
    }

    /// Ends its stream: no more of it is read.
    pub(crate) fn end(&mut self, now: u64)
        ensures peer { self.new ≡ with_peer (after_end now) self.old }
        ensures socket { socket_of self.new.peer ≡ socket_of self.old.peer }
        ensures stream { is_ended_peer self.new.peer ≡ true }
    {
        if let Some(peer) = &mut self.peer {
            peer.end(now);
        }
    }

    /// Returns how many bytes the socket took since that was last noted.
    pub(crate) fn sent(&self) -> u64
        ensures { result ≡ peer_sent self.now.peer }
    {
        match &self.peer {
            Some(peer) => peer.written,
            None => 0,
        }
    }

    /// Returns the times of the socket if there is one.
    pub(crate) fn times(&self) -> Option<Times>
        ensures { result ≡ peer_times self.now.peer }
    {
        match &self.peer {
            Some(peer) => Some(peer.times),
            None => None,
        }
    }

    /// Gives bytes to the socket, and counts what it answered.
    pub(crate) fn write(&mut self, bytes: &[u8]) -> Result<usize, PeerFault>
        ensures write { IsWrite (untold_wire self.old) (untold_wire self.new) bytes.now result }
        ensures peer { option_map but_for_writes self.new.peer
            ≡ option_map but_for_writes self.old.peer }
        ensures rests { RestBy (λ peer. peer.writable) result
            self.old.peer self.new.peer }
    {
        let answer = self.write_peer(bytes);
        self.count(answer);
        answer
    }

    /// Takes bytes of the socket, and counts what it answered.
    pub(crate) fn read(&mut self, buf: &mut [u8]) -> Result<usize, PeerFault>
        ensures read { IsRead (untold_wire self.old) (untold_wire self.new) buf.new result }
        ensures peer { option_map but_for_reads self.new.peer
            ≡ option_map but_for_reads self.old.peer }
        ensures rests { RestBy (λ peer. peer.readable) result
            self.old.peer self.new.peer }
    {
        let answer = self.read_peer(buf);
        self.count(answer);
        answer
    }
}

/// The sockets of a number of places.
#[derive(Drop)]
pub struct Sockets {
    pub wires: Vec<Wire>,
}

impl Sockets {
    ghost use Rattle.std.specs.List.{list_all, list_any};
    ghost use Rattle.std.specs.Prelude.{IfOk, IfSome, Some, replicate};
    ghost use Rattle.listen_sockets.specs.Sockets.{EndsStream, IsPut, OthersStay, TakesPeer, free_wire, has_no_peer, peer_at};

    /// Returns `places` places without a socket.
    pub fn new(alloc: Global, places: u32) -> Result<Sockets, AllocError>
        ensures { IfOk result (λ sockets. sockets.wires.items ≡ replicate places free_wire) }
    {
        let mut wires = Vec::with_capacity(alloc, places as usize)?;
        for _place in 0..places {
            wires.push(Wire {
                peer: None,
                waits: 0,
                losses: 0,
            })?;
        }
        Ok(Sockets { wires })
    }

    /// Puts a socket at a place.
    pub fn put(&mut self, place: u32, peer: Peer)
        ensures put { IsPut place peer self.old.wires.items self.new.wires.items }
        ensures others { OthersStay place self.old.wires.items self.new.wires.items }
    {
        let place = place as usize;
        if place < self.wires.len() {
            self.wires[place].peer = Some(peer);
        }
    }

    /// Takes the socket of a place from there if there is one.
    fn take(&mut self, place: u32) -> Option<Peer>
        ensures peer { result ≡ peer_at self.old.wires.items place }
        ensures sockets { TakesPeer place self.old.wires.items self.new.wires.items }
        ensures streams { EndsStream place self.old.wires.items self.new.wires.items }
        ensures others { OthersStay place self.old.wires.items self.new.wires.items }
    {
        let place = place as usize;
        if place >= self.wires.len() {
            return None;
        }
        self.wires[place].peer.take()
    }

    /// Sends no more to the socket at a place, and gives it if its peer may still send. No other stream ends by that.
    pub fn close(&mut self, place: u32, room: &mut [u8]) -> Option<Peer>
        ensures len { length room.new ≡ length room.old }
        ensures peer { IfSome result (λ peer. peer_at self.old.wires.items place ≡ Some peer) }
        ensures sockets { TakesPeer place self.old.wires.items self.new.wires.items }
        ensures streams { EndsStream place self.old.wires.items self.new.wires.items }
        ensures others { OthersStay place self.old.wires.items self.new.wires.items }
    {
        let mut peer = self.take(place)?;
        if peer.close(room) {
            return Some(peer);
        }
        None
    }

    /// Returns true if there is a place with no socket.
    pub fn has_free(&self) -> bool
        ensures { result ≡ list_any has_no_peer self.now.wires.items }
    {
        self.wires.iter().any(|wire| wire.peer.is_none())
    }

    /// Returns true if no place has a socket.
    pub fn are_free(&self) -> bool
        ensures { result ≡ list_all has_no_peer self.now.wires.items }
    {
        self.wires.iter().all(|wire| wire.peer.is_none())
    }
}
