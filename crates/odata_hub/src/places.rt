//! Calls on the connection at a place.
ghost use Rattle.std.specs.Prelude.{◌≡◌, ◌<◌, ◌≤◌, IfOk, OnErr, drop, is_none, length, set, slice_get, take};
ghost use Rattle.std.specs.List.{position};
ghost use Rattle.table_store.specs.Catalog.{CatalogOf};
ghost use Rattle.odata_hub.specs.Connections.{Done, End, Gave, Piece, Take, Turn, Went, call_answer};
ghost use Rattle.odata_hub.specs.Schedules.{Drop, HubOf, On, conn_at};
ghost use Rattle.odata_hub.specs.Stands.{ArePlacesTook, AreHub, IsPlacesStep, LendsAt, PlaceKeeps, TellsHopelessAt, TellsOver, TellsTook};

use crate::answers::{HubFault, Turned};
use crate::connection::Connection;
use odata_http::RunKept;
use std::alloc::Global;
use std::rc::Rc;
use table_store::Catalog;

/// Returns the least free place.
pub(crate) fn first_free(places: &[Option<Connection>]) -> Option<usize>
    ensures { result ≡ position is_none places.now }
{
    places.iter().position(|place| place.is_none())
}

/// Returns the next piece of the stream of the connection at a place.
pub(crate) fn piece_at(
    alloc: Global,
    places: &mut [Option<Connection>],
    place: u32,
    catalog: &Rc<Catalog>,
    piece: &[u8],
) -> Result<(), HubFault>
    ensures step { IsPlacesStep catalog.now.value places.old
        (On place (Piece catalog.now.value piece.now)) (call_answer (λ _. Done) result) places.new }
    ensures len { length places.new ≡ length places.old }
{
    let place = place as usize;
    if place >= places.len() {
        return Err(HubFault::NoSuchConnection);
    }
    match &mut places[place] {
        Some(connection) => connection.piece(alloc, catalog, piece),
        None => Err(HubFault::NoSuchConnection),
    }
}

/// Returns the end of the stream of the connection at a place.
pub(crate) fn end_at(places: &mut [Option<Connection>], place: u32) -> Result<(), HubFault>
    ensures step { (catalog : CatalogOf) → IsPlacesStep catalog places.old (On place End)
        (call_answer (λ _. Done) result) places.new }
    ensures len { length places.new ≡ length places.old }
{
    let place = place as usize;
    if place >= places.len() {
        return Err(HubFault::NoSuchConnection);
    }
    match &mut places[place] {
        Some(connection) => connection.end(),
        None => Err(HubFault::NoSuchConnection),
    }
}

/// Returns one turn of the connection at a place.
pub(crate) fn turn_at(
    alloc: Global,
    places: &mut [Option<Connection>],
    place: u32,
) -> Result<Turned, HubFault>
    ensures step { (catalog : CatalogOf) → IsPlacesStep catalog places.old (On place Turn)
        (call_answer Went result) places.new }
    ensures len { length places.new ≡ length places.old }
{
    let place = place as usize;
    if place >= places.len() {
        return Err(HubFault::NoSuchConnection);
    }
    match &mut places[place] {
        Some(connection) => connection.turn(alloc),
        None => Err(HubFault::NoSuchConnection),
    }
}

/// Moves the first bytes of the output of the connection at a place out.
pub(crate) fn take_at(
    places: &mut [Option<Connection>],
    place: u32,
    out: &mut [u8],
) -> Result<usize, HubFault>
    ensures step { (catalog : CatalogOf) → IsPlacesStep catalog places.old
        (On place (Take (length out.old))) (call_answer (λ n. Gave (take n out.new)) result) places.new }
    ensures len { length places.new ≡ length places.old }
    ensures within { IfOk result (λ n. n ≤ length out.old) }
    ensures others { IfOk result (λ n. drop n out.new ≡ drop n out.old) }
    ensures err { OnErr result (out.new ≡ out.old) }
{
    let place = place as usize;
    if place >= places.len() {
        return Err(HubFault::NoSuchConnection);
    }
    match &mut places[place] {
        Some(connection) => Ok(connection.take(out)),
        None => Err(HubFault::NoSuchConnection),
    }
}

/// Returns first bytes of the output of the connection at a place.
pub(crate) fn waiting_at(places: &[Option<Connection>], place: u32) -> Result<&[u8], HubFault>
    ensures { (catalog : CatalogOf) (h : HubOf) → AreHub catalog places.now h
        → LendsAt (conn_at h place) result }
{
    let place = place as usize;
    if place >= places.len() {
        return Err(HubFault::NoSuchConnection);
    }
    match &places[place] {
        Some(connection) => Ok(connection.waiting()),
        None => Err(HubFault::NoSuchConnection),
    }
}

/// Returns the first bytes of the output of the connection at a place wait no more.
pub(crate) fn took_at(
    places: &mut [Option<Connection>],
    place: u32,
    count: usize,
) -> Result<(), HubFault>
    ensures took { (catalog : CatalogOf) → ArePlacesTook catalog places.old place count places.new }
    ensures tells { (catalog : CatalogOf) (h : HubOf) → AreHub catalog places.old h
        → TellsTook (conn_at h place) result }
    ensures len { length places.new ≡ length places.old }
{
    let place = place as usize;
    if place >= places.len() {
        return Err(HubFault::NoSuchConnection);
    }
    match &mut places[place] {
        Some(connection) => {
            connection.took(count);
            Ok(())
        }
        None => Err(HubFault::NoSuchConnection),
    }
}

/// Puts a connection, or none, at a place. Here alone one that was there is let go, since each function that may let one go is dear to prove.
pub(crate) fn put_at(
    places: &mut [Option<Connection>],
    place: usize,
    connection: Option<Connection>,
)
    requires { place < length places.old }
    ensures { places.new ≡ set places.old place connection }
{
    places[place] = connection;
}

/// Frees a place that is taken.
pub(crate) fn free_at(places: &mut [Option<Connection>], place: u32) -> Result<(), HubFault>
    ensures step { (catalog : CatalogOf) → IsPlacesStep catalog places.old (Drop place)
        (call_answer (λ _. Done) result) places.new }
    ensures len { length places.new ≡ length places.old }
{
    let place = place as usize;
    if place >= places.len() {
        return Err(HubFault::NoSuchConnection);
    }
    if places[place].is_none() {
        return Err(HubFault::NoSuchConnection);
    }
    put_at(places, place, None);
    Ok(())
}

/// Returns whether the connection at a place is over.
pub(crate) fn closed_at(places: &[Option<Connection>], place: u32) -> Result<bool, HubFault>
    ensures { (catalog : CatalogOf) (h : HubOf) → AreHub catalog places.now h
        → TellsOver (conn_at h place) result }
{
    let place = place as usize;
    if place >= places.len() {
        return Err(HubFault::NoSuchConnection);
    }
    match &places[place] {
        Some(connection) => Ok(connection.closed()),
        None => Err(HubFault::NoSuchConnection),
    }
}

/// Returns what the run of the query keeps that the connection at a place has in flight.
pub(crate) fn kept_at(places: &[Option<Connection>], place: u32) -> RunKept
    ensures { PlaceKeeps (slice_get places.now place) result }
{
    match places.get(place as usize) {
        Some(Some(connection)) => connection.kept(),
        Some(None) | None => RunKept::Nothing,
    }
}

/// Returns whether the rest of the connection at a place can begin no head any more.
pub(crate) fn hopeless_at(places: &[Option<Connection>], place: u32) -> Result<bool, HubFault>
    ensures { (catalog : CatalogOf) (h : HubOf) → AreHub catalog places.now h
        → TellsHopelessAt (conn_at h place) result }
{
    let place = place as usize;
    if place >= places.len() {
        return Err(HubFault::NoSuchConnection);
    }
    match &places[place] {
        Some(connection) => Ok(connection.is_hopeless()),
        None => Err(HubFault::NoSuchConnection),
    }
}
