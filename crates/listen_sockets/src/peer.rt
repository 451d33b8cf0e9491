//! One socket, over `mio`.
ghost use Rattle.std.specs.Prelude.{◌≡◌, Some, length};
ghost use Rattle.std.specs.Io.{ReadsAtMost, WritesAtMost};
ghost use Rattle.odata_http.specs.Device.{TakesSome};

use crate::slow::Times;
use mio::event::Event;
use mio::net::TcpStream;
use mio::{Interest, Poll, Token};
use odata_rounds::PeerFault;
use std::io::{ErrorKind, Read, Write};
use std::net::Shutdown;

/// How many reads of a peer whose stream is over are dropped in a row.
const MOST_DROPPED_READS: u32 = 16;

/// One socket, and what the system last said of it.
#[derive(Drop)]
pub struct Peer {
    stream: TcpStream,
    readable: bool,
    writable: bool,
    /// Something was said or done since a read or a write last had to wait.
    pub awake: bool,
    /// The peer said that it sends no more: bytes may be left before its end.
    closing: bool,
    /// Its stream ended, or is ended here: no more is read of it.
    pub ended: bool,
    /// The system said that the connection is lost.
    pub lost: bool,
    /// Something was read since this was last asked.
    has_read: bool,
    /// How many bytes were written since this was last asked.
    pub written: u64,
    pub times: Times,
}

impl Peer {
    ghost use Rattle.listen_sockets.specs.Peer.{IsReadableAfter, RestsBy, after_charge, after_end, after_event, after_visit, before_try, but_for_reads, but_for_writes, fresh_peer};
    ghost use Rattle.listen_sockets.specs.Sockets.{socket_of};

    /// Returns a socket of which nothing is known yet.
    pub fn new(stream: TcpStream, now: u64) -> Peer
        ensures { result ≡ fresh_peer stream now }
    {
        Peer {
            stream,
            readable: true,
            writable: true,
            awake: true,
            closing: false,
            ended: false,
            lost: false,
            has_read: false,
            written: 0,
            times: Times::new(now),
        }
    }

    /// Has the system report it under a number.
    pub fn register(&mut self, poll: &Poll, place: u32) -> bool
        ensures { self.new ≡ self.old }
    {
        let both = Interest::READABLE | Interest::WRITABLE;
        poll.registry()
            .register(&mut self.stream, Token(place as usize), both)
            .is_ok()
    }

    /// Has the system report it no more.
    pub fn deregister(&mut self, poll: &Poll) -> bool
        ensures { self.new ≡ self.old }
    {
        poll.registry().deregister(&mut self.stream).is_ok()
    }

    /// Notes what the system says of it now.
    pub fn mark(&mut self, event: &Event)
        ensures { self.new ≡ after_event event.now self.old }
    {
        let fails = event.is_error();
        self.readable |= event.is_readable() | fails;
        self.writable |= event.is_writable() | fails;
        self.awake = true;
        self.closing |= event.is_read_closed() | fails;
        self.lost |= fails;
    }

    /// Makes the next write be tried, whatever the system said: it reports room only when a third of what it keeps for a peer is free, so that a peer
    /// that takes bytes slowly would seem to stand still.
    pub fn try_write(&mut self)
        ensures { self.new ≡ before_try self.old }
    {
        self.awake |= !self.writable;
        self.writable = true;
    }

    /// Ends its stream: no more of it is read.
    pub fn end(&mut self, now: u64)
        ensures { self.new ≡ after_end now self.old }
    {
        self.ended = true;
        self.awake = true;
        self.times.turned(now);
    }

    /// Notes what a visit that worked did, by the clock, and whether output waits after it. There may be more to do.
    pub fn note_work(&mut self, now: u64, waits: bool)
        ensures { self.new ≡ after_visit now waits self.old }
    {
        if self.has_read {
            self.times.read(now);
        } else if self.written > 0 {
            self.times.wrote(now, self.written, waits);
        } else {
            self.times.turned(now);
        }
        self.awake = true;
        self.has_read = false;
        self.written = 0;
    }

    /// Notes the microseconds that the service worked for it.
    pub fn charge(&mut self, micros: u64)
        ensures { self.new ≡ after_charge micros self.old }
    {
        self.times.charge(micros);
    }

    /// Drops what came and was not read. Whether the peer may still send.
    pub fn drop_rest(&mut self, room: &mut [u8]) -> bool
        ensures peer { self.new ≡ self.old }
        ensures len { length room.new ≡ length room.old }
    {
        for _ in 0..MOST_DROPPED_READS {
            match self.stream.read(room) {
                Ok(0) => return false,
                Ok(_) => {}
                Err(error) => return fault_of(error.kind()) == PeerFault::Waits,
            }
        }
        true
    }

    /// Says that no more is sent, and drops what came and was not read. Whether the peer may still send.
    pub fn close(&mut self, room: &mut [u8]) -> bool
        ensures peer { self.new ≡ self.old }
        ensures len { length room.new ≡ length room.old }
    {
        let _ = self.stream.shutdown(Shutdown::Write);
        self.drop_rest(room)
    }

    /// Gives it bytes.
    pub fn write(&mut self, bytes: &[u8]) -> Result<usize, PeerFault>
        ensures bound { WritesAtMost result bytes.now }
        ensures some { TakesSome bytes.now result }
        ensures peer { but_for_writes self.new ≡ but_for_writes self.old }
        ensures socket { socket_of (Some self.new) ≡ socket_of (Some self.old) }
        ensures rests { RestsBy (λ peer. peer.writable) result self.old self.new }
    {
        if !self.writable {
            self.awake = false;
            return Err(PeerFault::Waits);
        }
        match self.stream.write(bytes) {
            Ok(0) if !bytes.is_empty() => Err(PeerFault::Lost),
            Ok(count) => {
                self.written = self.written.saturating_add(count as u64);
                Ok(count)
            }
            Err(error) => {
                self.writable = error.kind() == ErrorKind::Interrupted;
                self.awake = self.writable;
                Err(fault_of(error.kind()))
            }
        }
    }

    /// Takes bytes of it.
    pub fn read(&mut self, buf: &mut [u8]) -> Result<usize, PeerFault>
        ensures bound { ReadsAtMost result buf.new }
        ensures peer { but_for_reads self.new ≡ but_for_reads self.old }
        ensures socket { socket_of (Some self.new) ≡ socket_of (Some self.old) }
        ensures rests { RestsBy (λ peer. peer.readable) result self.old self.new }
        ensures on { IsReadableAfter result (length buf.new) self.old self.new }
    {
        if self.ended {
            return Ok(0);
        }
        if !self.readable {
            self.awake = false;
            return Err(PeerFault::Waits);
        }
        match self.stream.read(buf) {
            Ok(count) => {
                self.ended = count == 0;
                self.has_read = true;
                self.readable = count == buf.len() || self.closing;
                Ok(count)
            }
            Err(error) => {
                self.readable = error.kind() == ErrorKind::Interrupted;
                self.awake = self.readable;
                Err(fault_of(error.kind()))
            }
        }
    }
}

/// Returns what an error of the system means for a socket.
fn fault_of(kind: ErrorKind) -> PeerFault {
    match kind {
        ErrorKind::WouldBlock | ErrorKind::Interrupted => PeerFault::Waits,
        _ => PeerFault::Lost,
    }
}
