//! What is noted of the sockets of the places: what visits did, how long the service worked, and that a stream ends here. Each socket stays at its place.
ghost use Rattle.std.specs.Prelude.{◌≡◌};

use crate::slow::Times;
use crate::sockets::Sockets;

impl Sockets {
    ghost use Rattle.listen_sockets.specs.Peer.{after_charge, after_end, after_visit};
    ghost use Rattle.listen_sockets.specs.Sockets.{ChangesPeer, EndsStream, KeepsStreams, SocketsStay, is_heavy_at, sent_at, times_at};

    /// Notes what a visit that worked did at a place, and whether output waits after it.
    pub fn note_work(&mut self, place: u32, now: u64, waits: bool)
        ensures sockets { ChangesPeer place (after_visit now waits)
            self.old.wires.items self.new.wires.items }
        ensures streams { KeepsStreams self.old.wires.items self.new.wires.items }
        ensures stay { SocketsStay self.old.wires.items self.new.wires.items }
    {
        let place = place as usize;
        if place >= self.wires.len() {
            return;
        }
        self.wires[place].note_work(now, waits);
    }

    /// Returns how many bytes the socket at `place` took since that was last noted.
    pub fn sent(&self, place: u32) -> u64
        ensures { result ≡ sent_at self.now.wires.items place }
    {
        match self.wires.get(place as usize) {
            Some(wire) => wire.sent(),
            None => 0,
        }
    }

    /// Ends the stream of the socket at a place.
    pub fn end_stream(&mut self, place: u32, now: u64)
        ensures sockets { ChangesPeer place (after_end now)
            self.old.wires.items self.new.wires.items }
        ensures streams { EndsStream place self.old.wires.items self.new.wires.items }
        ensures stay { SocketsStay self.old.wires.items self.new.wires.items }
    {
        let place = place as usize;
        if place >= self.wires.len() {
            return;
        }
        self.wires[place].end(now);
    }

    /// Returns the times of the socket at a place.
    pub fn times(&self, place: u32) -> Option<Times>
        ensures { result ≡ times_at self.now.wires.items place }
    {
        match self.wires.get(place as usize) {
            Some(wire) => wire.times(),
            None => None,
        }
    }

    /// Notes the microseconds that the service worked for the connection at `place`.
    pub fn charge(&mut self, place: u32, micros: u64)
        ensures sockets { ChangesPeer place (after_charge micros)
            self.old.wires.items self.new.wires.items }
        ensures streams { KeepsStreams self.old.wires.items self.new.wires.items }
        ensures stay { SocketsStay self.old.wires.items self.new.wires.items }
    {
        let place = place as usize;
        if place >= self.wires.len() {
            return;
        }
        self.wires[place].charge(micros);
    }

    /// Returns whether the service worked so long for the connection at `place` that others go before it.
    pub fn is_heavy(&self, place: u32) -> bool
        ensures { result ≡ is_heavy_at self.now.wires.items place }
    {
        match self.times(place) {
            Some(times) => times.is_heavy(),
            None => false,
        }
    }
}
