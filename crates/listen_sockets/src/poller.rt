//! The system's part of the service, over `mio`: where connections come from, and what the system says of them.
ghost use Rattle.std.specs.Prelude.{◌≡◌, ◌==◌, ◌||◌, IfOk, length, not, true};
ghost use Rattle.mio.specs.Events.{items as events_of};
ghost use Rattle.listen_sockets.specs.Sockets.{AreMarked, KeepsSockets, KeepsStreams, SocketsStay, tells_listener};

use crate::sockets::Sockets;
use mio::{Events, Poll, Token};
use socket_listener::ListeningSocket;
use std::io;
use std::net::Net;
use std::rt::Clock;
use std::time::{Duration, Instant};

/// The most events that are taken of the system at once.
const EVENTS: usize = 256;

/// The longest wait for an event, in milliseconds.
const TICK: u64 = 500;

/// The listener's token: no place has it.
const LISTENER: Token = Token(0xffff_ffff);

/// Sets what the system says of each socket. Whether it says something of the listener.
fn mark(sockets: &mut Sockets, events: &Events) -> bool
    ensures listener { result
        ≡ tells_listener (length sockets.old.wires.items) (events_of events.now) }
    ensures marks { AreMarked (events_of events.now)
        sockets.old.wires.items sockets.new.wires.items }
    ensures sockets { KeepsSockets sockets.old.wires.items sockets.new.wires.items }
    ensures streams { KeepsStreams sockets.old.wires.items sockets.new.wires.items }
    ensures stay { SocketsStay sockets.old.wires.items sockets.new.wires.items }
{
    let mut accepts = false;
    for event in events {
        if !sockets.mark(event) {
            accepts = true;
        }
    }
    accepts
}

/// The system's part of the service: where connections come from, what it says of them, and since when.
#[derive(Drop)]
pub struct Poller {
    pub poll: Poll,
    pub listener: ListeningSocket,
    /// A connection may wait.
    pub accepts: bool,
    /// What the system said last.
    pub events: Events,
    start: Instant,
    /// The second at which the system was asked last.
    pub second: u64,
    /// The second of the last look at the folder.
    pub looked: u64,
}

impl Poller {
    /// Returns a poller over a listener. A connection may wait from the start.
    pub fn new<R: Net + Clock + AllocGlobal>(
        rt: &R,
        mut listener: ListeningSocket,
    ) -> io::Result<Poller>
        ensures accepts { IfOk result (λ poller. poller.accepts ≡ true) }
        ensures looked { IfOk result (λ poller. poller.looked ≡ 0) }
    {
        let start = Instant::now(rt)?;
        let poll = Poll::new(rt)?;
        let events = Events::with_capacity(rt.alloc(), EVENTS)?;
        listener.register(&poll, LISTENER)?;
        Ok(Poller {
            poll,
            listener,
            accepts: true,
            events,
            start,
            second: 0,
            looked: 0,
        })
    }

    /// Takes no connection any more.
    pub fn close(&mut self)
        ensures looked { self.new.looked ≡ self.old.looked }
    {
        self.listener.close(&self.poll);
    }

    /// Waits for events, and notes when that was. No stream ends by that, and each socket stays at its place. A connection may wait if
    /// one did, or the system says something of the listener.
    pub fn wait<R: Clock>(&mut self, rt: &R, sockets: &mut Sockets, busy: bool) -> io::Result<()>
        ensures accepts { self.new.accepts
            ≡ (tells_listener (length sockets.old.wires.items) (events_of self.new.events)
            || self.old.accepts) }
        ensures marks { AreMarked (events_of self.new.events)
            sockets.old.wires.items sockets.new.wires.items }
        ensures looked { self.new.looked ≡ self.old.looked }
        ensures sockets { KeepsSockets sockets.old.wires.items sockets.new.wires.items }
        ensures streams { KeepsStreams sockets.old.wires.items sockets.new.wires.items }
        ensures stay { SocketsStay sockets.old.wires.items sockets.new.wires.items }
    {
        let wait = Duration::from_millis(if busy { 0 } else { TICK });
        self.poll.poll(&mut self.events, Some(wait))?;
        self.accepts = mark(sockets, &self.events) || self.accepts;
        self.second = Instant::now(rt)?.duration_since(self.start).as_secs();
        Ok(())
    }

    /// Returns whether a second began since this was last asked.
    pub fn is_new_second(&mut self) -> bool
        ensures new { result ≡ not (self.old.second == self.old.looked) }
        ensures looked { self.new ≡ record self.old { looked = self.old.second } }
    {
        let is_new = self.second != self.looked;
        self.looked = self.second;
        is_new
    }
}
