//! The service: connections are taken in as places are free, each tick has one round and a step of a load, and once a second slow peers are ended
//! and the folder is looked at. Whatever that does is a life over its hub, so what holds of each connection in every life holds of the service.
ghost use Rattle.odata_listen.specs.Serving.{RunsOn, TakesAccepted, TakesPeerIn};

use crate::drain::Drain;
use crate::endings::{Moment, end_all_slow};
use crate::folder::Folder;
use crate::limits::{KeptLimits, Terms};
use crate::older_tables::OlderTables;
use crate::turns::{Circle, Circles, run_round};
use listen_args::MOST_PLACES;
use listen_sockets::{Peer, Poller, Server, TimeLimits};
use mio::Poll;
use mio::net::TcpStream;
use odata_hub::Conn;
use round_clock::Stopwatch;
use service_log::Log;
use socket_listener::ListeningSocket;
use std::io::{self, ErrorKind};
use std::rt::{Clock, Files};

/// The most turns in one tick in which older tables are dropped.
const MOST_TURNS: u32 = 1_000;

/// What the service has beside its places and sockets: the folder that it serves, how long a peer may take, how much a query may keep, and its log.
#[derive(Drop)]
pub struct Service<'a> {
    pub folder: Folder<'a>,
    pub limits: TimeLimits,
    pub kept: KeptLimits,
    pub log: Log<'a>,
    pub drain: Drain<'a>,
}

/// Opens a connection for `peer`, and has the system report it. Closes `peer` if no connection is opened or the system does not report it.
fn open(server: &mut Server, poll: &Poll, peer: Peer, log: &mut Log<'_>)
    ensures runs { RunsOn server.old server.new }
    ensures peer { TakesPeerIn peer server.old server.new }
{
    let Ok(Conn(place)) = server.open(peer) else {
        return;
    };
    if server.sockets.register(poll, place) {
        log.opened(place);
        return;
    }
    let _ = server.free(place);
}

/// What came of one try to take a connection in.
#[derive(Clone, Copy)]
enum Taken {
    /// One was taken in.
    One,
    /// None waits.
    Nothing,
    /// One may wait that cannot be taken in now.
    Later,
}

/// Takes in a connection that was accepted.
#[tactic(auto, using(crate::proofs::ServingLemmas::on_none))]
fn take_accepted(
    server: &mut Server,
    poller: &Poller,
    accepted: io::Result<TcpStream>,
    log: &mut Log<'_>,
) -> Taken
    ensures runs { RunsOn server.old server.new }
    ensures taken { TakesAccepted poller.now.second accepted server.old server.new }
{
    match accepted {
        Ok(stream) => {
            let _ = stream.set_nodelay(true);
            let peer = Peer::new(stream, poller.second);
            open(server, &poller.poll, peer, log);
            Taken::One
        }
        Err(error) if error.kind() == ErrorKind::WouldBlock => Taken::Nothing,
        // want of descriptors and its kin leave the connection where it waits
        Err(_) => Taken::Later,
    }
}

/// Takes in a connection that waits, if a place is free.
#[tactic(auto, using(crate::proofs::ServingLemmas::on_none))]
fn take_in(server: &mut Server, poller: &Poller, log: &mut Log<'_>) -> Taken
    ensures { RunsOn server.old server.new }
{
    if !server.sockets.has_free() {
        return Taken::Later;
    }
    take_accepted(server, poller, poller.listener.accept(), log)
}

/// Takes in connections, if some may wait, as long as places are free. Whether one was taken in.
#[tactic(auto, using(crate::proofs::ServingLemmas::on_none))]
fn accept(server: &mut Server, poller: &mut Poller, log: &mut Log<'_>) -> bool
    ensures { RunsOn server.old server.new }
{
    let mut took = false;
    if !poller.accepts {
        return took;
    }
    for _turn in 0..MOST_PLACES {
        match take_in(server, poller, log) {
            Taken::One => took = true,
            Taken::Nothing => {
                poller.accepts = false;
                return took;
            }
            Taken::Later => return took,
        }
    }
    took
}

/// Tends the sockets that are held open.
#[tactic(auto, using(crate::proofs::ServingLemmas::on_none))]
fn tend_lingering(server: &mut Server)
    ensures { RunsOn server.old server.new }
{
    for at in 0..server.places() {
        server.tend_lingering_at(at);
    }
}

/// Does what is due once a second: ends slow peers, and looks at the folder. The next write to each socket is tried.
#[tactic(auto, using(crate::proofs::ServingLemmas::on_none))]
fn tend(
    rt: &HostRuntime,
    server: &mut Server,
    service: &mut Service<'_>,
    poller: &Poller,
    is_new: bool,
)
    ensures { RunsOn server.old server.new }
{
    if !is_new {
        return;
    }
    let moment = Moment {
        second: poller.second,
        crowded: poller.accepts && !server.sockets.has_free(),
    };
    end_all_slow(server, &service.limits, moment, &mut service.log);
    tend_lingering(server);
    service.folder.look(rt, &mut server.hub, &mut service.log);
    server.sockets.try_writes();
}

/// Drops parts of older tables until the time of the round is over.
fn drop_older(watch: &mut Stopwatch<'_>, older: &mut OlderTables) {
    for _turn in 0..MOST_TURNS {
        older.drop_some();
        if !older.is_dropping() {
            return;
        }
        let _micros = watch.lap();
        if watch.is_over() {
            return;
        }
    }
}

/// Drops parts of older tables, and if none are left takes one step of the load of the folder that is under way, if there is one and a step is due.
#[tactic(auto, using(crate::proofs::ServingLemmas::on_none))]
fn load_on(
    rt: &HostRuntime,
    watch: &mut Stopwatch<'_>,
    server: &mut Server,
    service: &mut Service<'_>,
)
    ensures { RunsOn server.old server.new }
{
    drop_older(watch, &mut service.folder.older);
    if service.folder.older.is_dropping() {
        return;
    }
    if !watch.is_due() {
        return;
    }
    service.folder.work(rt, &mut server.hub, &mut service.log);
    watch.end_step();
}

/// What goes on from one tick to the next: whose turn it is, and whether there is more to do at once.
#[derive(Drop)]
struct Course<'a> {
    watch: Stopwatch<'a>,
    circles: Circles,
    busy: bool,
}

/// Does one tick: the events that there are, one round, a step of a load, what is done once a second, and new connections.
fn tick(
    rt: &HostRuntime,
    poller: &mut Poller,
    server: &mut Server,
    service: &mut Service<'_>,
    course: &mut Course<'_>,
) -> io::Result<()>
    ensures { RunsOn server.old server.new }
{
    poller.wait(rt, &mut server.sockets, course.busy)?;
    let is_new = poller.is_new_second();
    let watch = &mut course.watch;
    let terms = Terms {
        poller,
        kept: service.kept,
    };
    let busy = run_round(watch, server, &terms, &mut service.log, &mut course.circles);
    load_on(rt, watch, server, service);
    tend(rt, server, service, poller, is_new);
    let took = accept(server, poller, &mut service.log);
    service.drain.look(rt, server, poller);
    service.log.flush();
    course.busy = busy || took || service.folder.is_busy();
    Ok(())
}

/// Serves a folder for a number of ticks.
#[tactic(auto, using(crate::proofs::ServingLemmas::on_none))]
pub fn serve(
    rt: &HostRuntime,
    server: &mut Server,
    listener: ListeningSocket,
    service: &mut Service<'_>,
    ticks: u64,
) -> io::Result<()>
    ensures { RunsOn server.old server.new }
{
    let mut poller = Poller::new(rt, listener)?;
    let mut course = Course {
        watch: Stopwatch::new(rt)?,
        circles: Circles {
            light: Circle::new(server.places(), false),
            heavy: Circle::new(server.places(), true),
        },
        busy: false,
    };
    for _tick in 0..ticks {
        tick(rt, &mut poller, server, service, &mut course)?;
        if service.drain.is_over(server, poller.second) {
            return Ok(());
        }
    }
    Ok(())
}
