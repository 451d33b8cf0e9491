//! Sockets whose connections are over here, and whose peers may still send. The system takes back what a peer did not take yet where bytes come to a
//! socket that is closed, so these are held open for a while, and what comes is dropped (RFC 9112, section 9.6).
ghost use Rattle.std.specs.Prelude.{◌≡◌, ◌<◌, Some, length, true};
ghost use Rattle.listen_sockets.specs.Lingering.{AreInTime, IsNextPlace, LetsGoOrShortens, HoldsOneMore, MakesRoom, TendsAt, held_at, seconds_left, shorter};

use crate::peer::Peer;
use std::alloc::{AllocError, Global};

/// How many seconds a socket is held open at most.
const MOST_SECONDS: u8 = 30;

/// A socket that is held open for some seconds more.
#[derive(Drop)]
pub struct LingeringPeer {
    pub peer: Peer,
    pub seconds: u8,
}

impl LingeringPeer {
    /// Drops what came, `seconds` later. Returns whether the peer may still send and is waited for.
    fn tend(&mut self, seconds: u8, room: &mut [u8]) -> bool
        ensures len { length room.new ≡ length room.old }
        ensures held { result ≡ true → Some self.new ≡ shorter seconds self.old }
    {
        self.seconds = self.seconds.saturating_sub(seconds);
        self.peer.drop_rest(room) && self.seconds > 0
    }
}

/// Drops what came to a socket that is held, `seconds` later, and closes it if its peer has closed too or its time is over.
fn tend_held(held: &mut Option<LingeringPeer>, seconds: u8, room: &mut [u8])
    ensures len { length room.new ≡ length room.old }
    ensures held { LetsGoOrShortens seconds held.old held.new }
{
    let goes_on = match held {
        Some(peer) => peer.tend(seconds, room),
        None => false,
    };
    if !goes_on {
        *held = None;
    }
}

/// The sockets that are held open: no more than there are places.
#[derive(Drop)]
pub struct Lingering {
    pub held: Vec<Option<LingeringPeer>>,
    ghost in_time: { AreInTime held.items },
}

impl Lingering {
    ghost use Rattle.std.specs.List.{list_any};
    ghost use Rattle.std.specs.Prelude.{IfOk, None, is_none, replicate};

    /// Returns no held socket, with room for `places` of them.
    pub fn new(alloc: Global, places: u32) -> Result<Lingering, AllocError>
        ensures { IfOk result (λ lingering. lingering.held.items ≡ replicate places None) }
    {
        let mut held = Vec::with_capacity(alloc, places as usize)?;
        for _place in 0..places {
            held.push(None)?;
        }
        Ok(Lingering { held })
    }

    /// Returns how many seconds are left of the time of what is held at a place.
    fn seconds_at(&self, at: usize) -> u8
        requires { at < length self.now.held.items }
        ensures { result ≡ seconds_left (held_at self.now.held.items at) }
    {
        match &self.held[at] {
            Some(peer) => peer.seconds,
            None => 0,
        }
    }

    /// Returns where one more is held: if none is, or else where the one is whose time is over first.
    fn next_at(&self) -> usize
        ensures { 0 < length self.now.held.items → IsNextPlace self.now.held.items result }
    {
        let mut at = 0;
        for next in 1..self.held.len() {
            if self.seconds_at(next) < self.seconds_at(at) {
                at = next;
            }
        }
        at
    }

    /// Returns true if at some place none is held.
    fn has_free(&self) -> bool
        ensures { result ≡ list_any is_none self.now.held.items }
    {
        self.held.iter().any(|held| held.is_none())
    }

    /// Closes those whose peers have closed too, if there is no room for one more.
    fn make_room(&mut self, room: &mut [u8])
        ensures len { length room.new ≡ length room.old }
        ensures held { MakesRoom self.old.held.items self.new.held.items }
    {
        if self.has_free() {
            return;
        }
        for at in 0..self.held.len() {
            self.tend(at, 0, room);
        }
    }

    /// Holds a socket open. If there is no room, those are closed whose peers have closed too; and if that leaves none, the one whose
    /// time is over first.
    pub fn hold(&mut self, peer: Peer, room: &mut [u8])
        ensures len { length room.new ≡ length room.old }
        ensures held { HoldsOneMore peer self.old.held.items self.new.held.items }
    {
        self.make_room(room);
        let at = self.next_at();
        if at < self.held.len() {
            self.held[at] = Some(LingeringPeer {
                peer,
                seconds: MOST_SECONDS,
            });
        }
    }

    /// Drops what came to one of them, `seconds` later, and closes it if its peer has closed too or its time is over.
    pub fn tend(&mut self, at: usize, seconds: u8, room: &mut [u8])
        ensures len { length room.new ≡ length room.old }
        ensures held { TendsAt at seconds self.old.held.items self.new.held.items }
    {
        if at < self.held.len() {
            tend_held(&mut self.held[at], seconds, room);
        }
    }
}
