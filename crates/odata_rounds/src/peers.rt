//! The sockets of the places. Contracts see each as one record: what it reports of its bytes, and what it counts.
ghost use Rattle.std.specs.Prelude.{ℕ};
ghost use Rattle.odata_rounds.specs.Peers.{IsRead, IsWrite, KeepsOthers, WireOf};

use crate::answers::PeerFault;

/// What the connections at the places of a hub read from and write to.
pub trait Peers {
    /// The socket at each place.
    ghost wires: { Self → ℕ → WireOf };

    /// Gives bytes to the socket at a place, and answers how many it took: of a nonempty piece at least one byte.
    fn write(&mut self, place: u32, bytes: &[u8]) -> Result<usize, PeerFault>
        ensures write { IsWrite (wires self.old place) (wires self.new place) bytes.now result }
        ensures others { KeepsOthers place (wires self.old) (wires self.new) };

    /// Moves the next bytes of the socket at a place into the front of the buffer, and answers how many: 0 only at the end of its stream, or
    /// where the buffer has no room.
    fn read(&mut self, place: u32, buf: &mut [u8]) -> Result<usize, PeerFault>
        ensures read { IsRead (wires self.old place) (wires self.new place) buf.new result }
        ensures others { KeepsOthers place (wires self.old) (wires self.new) };
}
