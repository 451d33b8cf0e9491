//! A hub of one place: what its calls answer.
use crate::rounds::tables;
use odata_hub::{Conn, Hub, HubFault, Turned};
use std::test::Fail;

/// Returns true if the calls of a free hub of one place are answered as they have to be.
fn is_right(hub: &mut Hub) -> bool {
    let place = Conn(0);
    let is_full = hub.open() == Ok(place) && hub.open() == Err(HubFault::Full);
    let has_nothing = hub.turn(place) == Ok(Turned::Idle)
        && hub.piece(Conn(1), b"x") == Err(HubFault::NoSuchConnection);
    let has_ended = hub.end(place) == Ok(()) && hub.piece(place, b"x") == Err(HubFault::Ended);
    let is_free = hub.take(place, &mut [0]) == Ok(0)
        && hub.drop_conn(place) == Ok(())
        && hub.open() == Ok(place);
    is_full && has_nothing && has_ended && is_free
}

#[test]
fn one_place(rt: HostRuntime) -> Result<(), Fail> {
    let mut hub = Hub::new(rt.alloc(), tables(rt.alloc(), "Id\n")?, 1)?;
    assert!(rt; is_right(&mut hub));
    Ok(())
}

/// The front of a reply to what is no head.
const REFUSED: &[u8] = b"HTTP/1.1 400 Bad Request\r\n";

/// Returns true if the rest of a connection is hopeless with the byte that no head has at its place, and not before; and its end brings the reply.
fn tells_rests(hub: &mut Hub, place: Conn) -> bool {
    let may_begin = hub.is_hopeless(place) == Ok(false)
        && hub.piece(place, b"GET / HTTP/1.1\r\nX") == Ok(())
        && hub.is_hopeless(place) == Ok(false);
    let is_hopeless = hub.piece(place, b" ") == Ok(()) && hub.is_hopeless(place) == Ok(true);
    let ends = hub.turn(place) == Ok(Turned::Idle)
        && hub.end(place) == Ok(())
        && hub.turn(place) == Ok(Turned::Worked);
    let mut front = [0u8; 26];
    let is_refused = hub.take(place, &mut front) == Ok(REFUSED.len())
        && front.as_slice() == REFUSED;
    may_begin && is_hopeless && ends && is_refused && hub.is_hopeless(place) == Ok(false)
}

#[test]
fn rests(rt: HostRuntime) -> Result<(), Fail> {
    let mut hub = Hub::new(rt.alloc(), tables(rt.alloc(), "Id\n")?, 2)?;
    assert!(rt; hub.open() == Ok(Conn(0)));
    assert!(rt; tells_rests(&mut hub, Conn(0)));
    assert!(rt; hub.is_hopeless(Conn(1)) == Err(HubFault::NoSuchConnection));
    Ok(())
}
