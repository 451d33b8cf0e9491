//! Peers that follow scripts: each sends a stream in pieces, takes some bytes at once, may have and take nothing at each other call, and may be lost
//! at one.
ghost use Rattle.std.specs.Io.{ReadsAtMost, WritesAtMost};
ghost use Rattle.odata_http.specs.Device.{TakesSome};

use odata_rounds::{PeerFault, Peers, SlotState};
use std::alloc::Global;

/// What a peer sends; how many bytes it sends and takes at once, of which 0 takes nothing; whether it waits at each other call; and at which call it is
/// lost, counted from 1.
#[derive(Clone, Copy)]
pub(crate) struct Script<'a> {
    pub(crate) sends: &'a str,
    pub(crate) drips: usize,
    pub(crate) takes: usize,
    pub(crate) waits: bool,
    pub(crate) lost_at: u32,
}

/// A peer, with what it has not sent yet, what it took, and what became of its place last.
#[derive(Drop)]
pub(crate) struct Peer<'a> {
    script: Script<'a>,
    rest: &'a [u8],
    calls: u32,
    pub(crate) taken: Vec<u8>,
    pub(crate) end: SlotState,
}

impl<'a> Peer<'a> {
    pub(crate) fn new(alloc: Global, script: Script<'a>) -> Peer<'a> {
        Peer {
            script,
            rest: script.sends.as_bytes(),
            calls: 0,
            taken: Vec::new(alloc),
            end: SlotState::Free,
        }
    }

    /// Returns what this call finds.
    fn call(&mut self) -> Result<(), PeerFault> {
        self.calls = self.calls.saturating_add(1);
        if self.calls == self.script.lost_at {
            Err(PeerFault::Lost)
        } else if self.script.waits && self.calls % 2 == 1 {
            Err(PeerFault::Waits)
        } else {
            Ok(())
        }
    }

    fn write(&mut self, bytes: &[u8]) -> Result<usize, PeerFault>
        ensures bound { WritesAtMost result bytes.now }
        ensures some { TakesSome bytes.now result }
    {
        self.call()?;
        let takes = self.script.takes;
        if takes == 0 {
            return Err(PeerFault::Waits);
        }
        let count = bytes.len().min(takes);
        match self.taken.extend_from_slice(&bytes[..count]) {
            Ok(()) => Ok(count),
            Err(_) => Err(PeerFault::Lost),
        }
    }

    fn read(&mut self, buf: &mut [u8]) -> Result<usize, PeerFault>
        ensures bound { ReadsAtMost result buf.new }
    {
        self.call()?;
        let rest = self.rest;
        let count = rest.len().min(buf.len()).min(self.script.drips);
        let (front, back) = rest.split_at(count);
        buf[..count].copy_from_slice(front);
        self.rest = back;
        Ok(count)
    }
}

/// The peers at the places. Contracts say nothing of their bytes, and their counts are full.
#[derive(Drop)]
pub(crate) struct Scripts<'a> {
    pub(crate) peers: Vec<Peer<'a>>,
}

impl<'a> Scripts<'a> {
    /// Notes what became of a place.
    pub(crate) fn note(&mut self, place: u32, state: SlotState) {
        if let Some(peer) = self.peers.get_mut(place as usize) {
            peer.end = state;
        }
    }
}

impl<'a> Peers for Scripts<'a> {
    ghost use Rattle.std.specs.Prelude.{◌-◌, ◌^◌, None};

    ghost wires = { λ s place.
        record {
          socket = None;
          left = None;
          taken = None;
          waits = 2 ^ 64 - 1;
          losses = 2 ^ 64 - 1;
        } };

    fn write(&mut self, place: u32, bytes: &[u8]) -> Result<usize, PeerFault> {
        match self.peers.get_mut(place as usize) {
            Some(peer) => peer.write(bytes),
            None => Err(PeerFault::Lost),
        }
    }

    fn read(&mut self, place: u32, buf: &mut [u8]) -> Result<usize, PeerFault> {
        match self.peers.get_mut(place as usize) {
            Some(peer) => peer.read(buf),
            None => Err(PeerFault::Lost),
        }
    }
}
