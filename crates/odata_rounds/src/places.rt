//! The places of a hub: each visit notes what became of its place.
ghost use Rattle.std.specs.Prelude.{◌≡◌, ◌<◌, length};
ghost use Rattle.odata_rounds.specs.Sights.{ServesAt, sight};

use crate::answers::SlotState;
use crate::peers::Peers;
use crate::slot::Slot;
use crate::visits::visit;
use odata_hub::Hub;

/// Visits `place` once, and notes what became of it in its slot.
pub fn visit_place<P: Peers>(
    hub: &mut Hub,
    slots: &mut [Slot],
    peers: &mut P,
    place: u32,
    room: &mut [u8],
)
    requires room { 0 < length room.old }
    requires slot { place < length slots.old }
    ensures visit { ServesAt place (sight hub.old slots.old (P.wires peers.old))
        (sight hub.new slots.new (P.wires peers.new)) }
    ensures len { length slots.new ≡ length slots.old }
{
    let slot = &mut slots[place as usize];
    slot.state = visit(hub, peers, place, room);
}
