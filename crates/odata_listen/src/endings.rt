//! How connections end: over after a visit, lost or failed; since their peers are slow; or since the system says that they are lost. And how streams
//! end before their peers end them: those that can bring no head any more, and those whose heads take too long.
ghost use Rattle.std.specs.Prelude.{◌≡◌};
ghost use Rattle.listen_sockets.specs.Server.{state_at};
ghost use Rattle.odata_listen.specs.Limits.{EndsOver};
ghost use Rattle.odata_listen.specs.Serving.{CountsSent, CountsWork, DoesDue, EndsSlow, Frees, Notes, RunsOn, Settles};

use crate::limits::KeptLimits;
use listen_sockets::{Due, Poller, Server, TimeLimits};
use mio::Poll;
use odata_hub::Conn;
use odata_rounds::SlotState;
use service_log::{CloseReason, Log};

/// Frees a place, and reports why.
pub fn end(server: &mut Server, place: u32, reason: CloseReason, log: &mut Log<'_>)
    ensures frees { Frees place server.old server.new }
    ensures work { log.new.tally.work ≡ log.old.tally.work }
{
    let _ = server.free(place);
    log.ended(place, reason);
}

/// Frees a place whose connection is over. What its peer still sends is dropped for a while.
fn linger(server: &mut Server, place: u32, poll: &Poll, log: &mut Log<'_>)
    ensures frees { Frees place server.old server.new }
    ensures work { log.new.tally.work ≡ log.old.tally.work }
{
    let _ = server.linger(place, poll);
    log.ended(place, CloseReason::Answered);
}

/// Notes that something was done at a place, counts what was sent, and ends its stream if what came can begin no head any more: its 400 need not wait for the
/// seconds that a head may take.
fn note(server: &mut Server, place: u32, now: u64, log: &mut Log<'_>)
    ensures notes { Notes now place server.old server.new }
    ensures work { CountsSent place server.old log.old.tally.work log.new.tally.work }
{
    let count = server.sockets.sent(place);
    let waits = server.has_waiting(place);
    log.tally.work.sent(count, waits);
    server.note_work(place, now);
    server.end_hopeless(place, now);
}

/// Notes what the last visit did at `place`, and frees it if its connection is over, lost or failed.
pub fn settle(server: &mut Server, place: u32, poller: &Poller, log: &mut Log<'_>)
    ensures settles { Settles poller.now.second (state_at server.old.slots.items place) place
        server.old server.new }
    ensures work { CountsWork (state_at server.old.slots.items place) place
        server.old log.old.tally.work log.new.tally.work }
{
    match server.state(place) {
        SlotState::Free | SlotState::Rests => {}
        SlotState::Worked => note(server, place, poller.second, log),
        SlotState::Answered => linger(server, place, &poller.poll, log),
        SlotState::Lost => end(server, place, CloseReason::Lost, log),
        SlotState::Failed => end(server, place, CloseReason::NoMemory, log),
    }
}

/// Frees a place whose query keeps more than it may, and reports that it takes too long.
pub fn end_over(server: &mut Server, place: u32, limits: &KeptLimits, log: &mut Log<'_>)
    ensures ends { EndsOver limits.now place server.old server.new }
    ensures work { log.new.tally.work ≡ log.old.tally.work }
{
    if !limits.are_passed(server.hub.kept(Conn(place))) {
        return;
    }
    end(server, place, CloseReason::TooLong, log);
}

/// Does what is due of the connection at a place: ends the stream of a peer whose head takes too long, and drops one that stands still or takes too little, or
/// whose query takes too long.
fn do_due(server: &mut Server, place: u32, due: Due, now: u64, log: &mut Log<'_>)
    ensures { EndsSlow now due place server.old server.new }
{
    match due {
        Due::Nothing => {}
        Due::End => server.sockets.end_stream(place, now),
        Due::Drop => end(server, place, CloseReason::Slow, log),
        Due::TooLong => end(server, place, CloseReason::TooLong, log),
    }
}

/// The second at which peers are looked at, and whether another one waits for a place.
#[derive(Clone, Copy)]
pub struct Moment {
    pub second: u64,
    pub crowded: bool,
}

/// Does what is due at `place`.
fn end_slow(server: &mut Server, place: u32, limits: &TimeLimits, moment: Moment, log: &mut Log<'_>)
    ensures { DoesDue limits.now moment place server.old server.new }
{
    let due = server.due(place, limits, moment.second, moment.crowded);
    do_due(server, place, due, moment.second, log);
}

/// Does what is due at each place.
#[tactic(auto, using(crate::proofs::ServingLemmas::on_none))]
pub fn end_all_slow(server: &mut Server, limits: &TimeLimits, moment: Moment, log: &mut Log<'_>)
    ensures { RunsOn server.old server.new }
{
    for place in 0..server.places() {
        end_slow(server, place, limits, moment, log);
    }
}
