//! One visit at a place: output that waits is written; else the connection has one turn; else, where that was idle, one piece is read, or the end told.
ghost use Rattle.std.specs.Prelude.{◌≡◌, ◌<◌, false, length};
ghost use Rattle.odata_rounds.specs.Visits.{AfterIdle, AfterTake, MakesCalls, IsOverAt, Serves, came_to};

use crate::answers::{PeerFault, SlotState};
use crate::peers::Peers;
use odata_hub::{Conn, Hub, HubFault, Turned};

/// Returns what an answer to a piece or an end makes of its place.
fn came_of(answer: Result<(), HubFault>) -> SlotState
    ensures { result ≡ came_to answer }
{
    match answer {
        Ok(()) => SlotState::Worked,
        Err(HubFault::Ended) => SlotState::Answered,
        Err(_) => SlotState::Failed,
    }
}

/// Returns true if the connection at a place is over.
fn is_over(hub: &Hub, place: u32) -> bool
    ensures { IsOverAt hub.now place result }
{
    match hub.closed(Conn(place)) {
        Ok(over) => over,
        Err(_) => false,
    }
}

/// Reads one piece of an idle connection that is not over, or reports the end of its stream to it.
fn read_in<P: Peers>(hub: &mut Hub, peers: &mut P, place: u32, room: &mut [u8]) -> SlotState
    requires room { 0 < length room.old }
    requires not_over { IsOverAt hub.old place false }
    ensures { MakesCalls AfterIdle place hub.old hub.new
        (P.wires peers.old) (P.wires peers.new) result }
{
    match peers.read(place, room) {
        Ok(0) => came_of(hub.end(Conn(place))),
        Ok(count) => came_of(hub.piece(Conn(place), &room[..count])),
        Err(PeerFault::Waits) => SlotState::Rests,
        Err(PeerFault::Lost) => SlotState::Lost,
    }
}

/// Drops an idle connection that is over, or reads on.
fn read_unless_over<P: Peers>(
    hub: &mut Hub,
    peers: &mut P,
    place: u32,
    room: &mut [u8],
) -> SlotState
    requires { 0 < length room.old }
    ensures { MakesCalls AfterIdle place hub.old hub.new
        (P.wires peers.old) (P.wires peers.new) result }
{
    if is_over(hub, place) {
        SlotState::Answered
    } else {
        read_in(hub, peers, place, room)
    }
}

/// Gives one turn to a connection of which no output waits, and reads a piece if it is idle.
fn turn_or_read<P: Peers>(hub: &mut Hub, peers: &mut P, place: u32, room: &mut [u8]) -> SlotState
    requires { 0 < length room.old }
    ensures { MakesCalls AfterTake place hub.old hub.new
        (P.wires peers.old) (P.wires peers.new) result }
{
    match hub.turn(Conn(place)) {
        Ok(Turned::Worked) => SlotState::Worked,
        Ok(Turned::Idle) => read_unless_over(hub, peers, place, room),
        Err(_) => SlotState::Failed,
    }
}

/// Returns one visit at a place.
pub fn visit<P: Peers>(hub: &mut Hub, peers: &mut P, place: u32, room: &mut [u8]) -> SlotState
    requires { 0 < length room.old }
    ensures { Serves place hub.old hub.new (P.wires peers.old) (P.wires peers.new) result }
{
    match hub.waiting(Conn(place)) {
        Ok(output) => {
            if output.is_empty() {
                return turn_or_read(hub, peers, place, room);
            }
            match peers.write(place, output) {
                Ok(count) => {
                    // the connection is there, since its output was lent
                    let _told = hub.took(Conn(place), count);
                    SlotState::Worked
                }
                Err(PeerFault::Waits) => SlotState::Rests,
                Err(PeerFault::Lost) => SlotState::Lost,
            }
        }
        Err(_) => SlotState::Free,
    }
}
