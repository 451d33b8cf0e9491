//! What the system is asked and says of the sockets of the places. No stream ends by that, and each socket stays at its place.
ghost use Rattle.std.specs.Prelude.{◌≡◌, is_some, length, map, nat_lt, true};
ghost use Rattle.mio.specs.Event.{event_token};

use crate::sockets::Sockets;
use mio::Poll;
use mio::event::Event;

impl Sockets {
    ghost use Rattle.listen_sockets.specs.Peer.{after_event, before_try};
    ghost use Rattle.listen_sockets.specs.Sockets.{ChangesPeer, KeepsStreams, SocketsStay, is_awake_at, is_lost_at, peer_at, with_peer};

    /// Has the system report the socket at a place under its number. If there is none, it reports nothing.
    pub fn register(&mut self, poll: &Poll, place: u32) -> bool
        ensures reported { result ≡ true → is_some (peer_at self.old.wires.items place) ≡ true }
        ensures sockets { self.new.wires.items ≡ self.old.wires.items }
        ensures streams { KeepsStreams self.old.wires.items self.new.wires.items }
        ensures stay { SocketsStay self.old.wires.items self.new.wires.items }
    {
        let at = place as usize;
        if at >= self.wires.len() {
            return false;
        }
        self.wires[at].register(poll, place)
    }

    /// Sets what the system says of the socket of an event. Whether there is such a place.
    pub(crate) fn mark(&mut self, event: &Event) -> bool
        ensures place { result ≡ nat_lt (event_token event.now).0 (length self.old.wires.items) }
        ensures sockets { ChangesPeer (event_token event.now).0 (after_event event.now)
            self.old.wires.items self.new.wires.items }
        ensures streams { KeepsStreams self.old.wires.items self.new.wires.items }
        ensures stay { SocketsStay self.old.wires.items self.new.wires.items }
    {
        let place = event.token().0;
        if place >= self.wires.len() {
            return false;
        }
        self.wires[place].mark(event);
        true
    }

    /// Returns true if the system said that the connection at a place is lost.
    pub fn is_lost(&self, place: u32) -> bool
        ensures { result ≡ is_lost_at self.now.wires.items place }
    {
        match self.wires.get(place as usize) {
            Some(wire) => wire.is_lost(),
            None => false,
        }
    }

    /// Returns whether something was said or done at `place` since its socket last had to wait.
    pub fn is_awake(&self, place: u32) -> bool
        ensures { result ≡ is_awake_at self.now.wires.items place }
    {
        match self.wires.get(place as usize) {
            Some(wire) => wire.is_awake(),
            None => false,
        }
    }

    /// Has the next write to the socket at a place tried.
    fn try_write(&mut self, place: usize)
        ensures sockets { ChangesPeer place before_try self.old.wires.items self.new.wires.items }
        ensures streams { KeepsStreams self.old.wires.items self.new.wires.items }
        ensures stay { SocketsStay self.old.wires.items self.new.wires.items }
    {
        if place < self.wires.len() {
            self.wires[place].try_write();
        }
    }

    /// Has the next write to each socket tried.
    pub fn try_writes(&mut self)
        ensures sockets { self.new.wires.items ≡ map (with_peer before_try) self.old.wires.items }
        ensures streams { KeepsStreams self.old.wires.items self.new.wires.items }
        ensures stay { SocketsStay self.old.wires.items self.new.wires.items }
    {
        for place in 0..self.wires.len() {
            self.try_write(place);
        }
    }
}
