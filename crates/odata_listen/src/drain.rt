//! How the service ends once a file appears: it takes no connection any more, reads no more of those that it has, answers what came, and ends when all of that was sent or
//! some seconds later.
ghost use Rattle.odata_listen.specs.Serving.{RunsOn};

use listen_sockets::{Poller, Server};
use std::fs;
use std::rt::Files;

/// The most seconds from the file's appearance to the end.
const DRAIN_SECONDS: u64 = 30;

/// The file that ends the service, if it has one, the second of the last look for it, and the second at which it appeared.
#[derive(Drop)]
pub struct Drain<'a> {
    file: Option<&'a str>,
    looked: u64,
    since: Option<u64>,
}

/// Ends the stream at each place.
#[tactic(auto, using(crate::proofs::ServingLemmas::on_none))]
fn end_streams(server: &mut Server, now: u64)
    ensures { RunsOn server.old server.new }
{
    for place in 0..server.places() {
        server.sockets.end_stream(place, now);
    }
}

impl<'a> Drain<'a> {
    /// Returns a drain by a file.
    pub fn new(file: Option<&'a str>) -> Drain<'a> {
        Drain {
            file,
            looked: 0,
            since: None,
        }
    }

    /// Looks for the file, once a second until it is there. True if it appears.
    fn appears(&mut self, rt: &HostRuntime, now: u64) -> bool {
        if self.since.is_some() || now == self.looked {
            return false;
        }
        self.looked = now;
        match self.file {
            Some(file) => fs::symlink_metadata(rt, file).is_ok(),
            None => false,
        }
    }

    /// Looks for the file, and closes the listener and ends each stream when it appears.
    #[tactic(auto, using(crate::proofs::ServingLemmas::on_none))]
    pub fn look(&mut self, rt: &HostRuntime, server: &mut Server, poller: &mut Poller)
        ensures { RunsOn server.old server.new }
    {
        let now = poller.second;
        if self.appears(rt, now) {
            self.since = Some(now);
            poller.close();
            end_streams(server, now);
        }
    }

    /// Returns true if the service is to end: no connection is left, or the seconds are over.
    pub fn is_over(&self, server: &Server, now: u64) -> bool {
        match self.since {
            Some(since) => server.sockets.are_free() || now.saturating_sub(since) > DRAIN_SECONDS,
            None => false,
        }
    }
}
