//! What rounds write to the sockets of the places and read from them. Each socket stays at its place.
use crate::sockets::Sockets;
use odata_rounds::{PeerFault, Peers};

impl Peers for Sockets {
    ghost use Rattle.odata_rounds.specs.Peers.{IsRead, IsWrite, KeepsOthers};
    ghost use Rattle.listen_sockets.specs.Peer.{but_for_reads, but_for_writes};
    ghost use Rattle.listen_sockets.specs.Sockets.{KeepsAt, RestBy, peer_at, wire_at};

    ghost wires = { λ s place. wire_at s.wires.items place };

    fn write(&mut self, place: u32, bytes: &[u8]) -> Result<usize, PeerFault>
        ensures write { IsWrite (wire_at self.old.wires.items place)
            (wire_at self.new.wires.items place) bytes.now result }
        ensures others { KeepsOthers place
            (wire_at self.old.wires.items) (wire_at self.new.wires.items) }
        ensures sockets { KeepsAt but_for_writes place self.old.wires.items self.new.wires.items }
        ensures rests { RestBy (λ peer. peer.writable) result
            (peer_at self.old.wires.items place) (peer_at self.new.wires.items place) }
    {
        let place = place as usize;
        if place >= self.wires.len() {
            return Err(PeerFault::Lost);
        }
        self.wires[place].write(bytes)
    }

    fn read(&mut self, place: u32, buf: &mut [u8]) -> Result<usize, PeerFault>
        ensures read { IsRead (wire_at self.old.wires.items place)
            (wire_at self.new.wires.items place) buf.new result }
        ensures others { KeepsOthers place
            (wire_at self.old.wires.items) (wire_at self.new.wires.items) }
        ensures sockets { KeepsAt but_for_reads place self.old.wires.items self.new.wires.items }
        ensures rests { RestBy (λ peer. peer.readable) result
            (peer_at self.old.wires.items place) (peer_at self.new.wires.items place) }
    {
        let place = place as usize;
        if place >= self.wires.len() {
            return Err(PeerFault::Lost);
        }
        self.wires[place].read(buf)
    }
}
