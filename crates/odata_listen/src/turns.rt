//! Turns: each place in a circle is served for a while, so that one reply is in hand at a time, and the system is asked again after a few milliseconds,
//! however many places have work. Who asks for little has its turn before those for whom much was done already.
ghost use Rattle.std.specs.Prelude.{◌≡◌, ◌-◌, ◌<◌, ◌^◌, false, true};
ghost use Rattle.odata_listen.specs.Turns.{Charges, GoesRound, HasTurn, HasTurnOf, IsRound, IsVisited, TookTurn, HadTurns, Visited, left_of, served, turn_at};

use crate::endings::{end, end_over, settle};
use crate::limits::Terms;
use listen_sockets::Server;
use odata_rounds::SlotState;
use round_clock::Stopwatch;
use service_log::{CloseReason, Log};

/// The most visits of one turn: a request that came whole is read, begun, answered and given to its socket, and what came is looked at once more.
const VISITS: u32 = 5;

/// A circle of turns at `places`: the place whose turn is next, and how many have theirs until all had it; whether it is of those for whom much was done, or
/// of the others; and whether one of them has more to do.
#[derive(Clone, Copy)]
pub struct Circle {
    pub places: u32,
    pub next: u32,
    pub left: u32,
    pub heavy: bool,
    pub busy: bool,
}

impl Circle {
    /// Returns a circle before the first turn.
    pub fn new(places: u32, heavy: bool) -> Circle {
        Circle {
            places,
            next: 0,
            left: 0,
            heavy,
            busy: false,
        }
    }
}

/// The circles of those who ask for little and of those for whom much was done.
#[derive(Clone, Copy)]
pub struct Circles {
    pub light: Circle,
    pub heavy: Circle,
}

/// Adds what the service worked for the connection at `place`.
fn charge(server: &mut Server, place: u32, micros: u64, log: &mut Log<'_>)
    ensures { Charges place (served server.old log.old) (served server.new log.new) }
{
    server.sockets.charge(place, micros);
    log.tally.work.charge(micros);
}

/// Visits `place` once, settles what became of it, and ends a query that keeps too much. Returns whether something was done.
fn visit(
    watch: &mut Stopwatch<'_>,
    server: &mut Server,
    terms: &Terms<'_>,
    place: u32,
    log: &mut Log<'_>,
) -> bool
    ensures { Visited terms.now place
        (served server.old log.old) (served server.new log.new) }
{
    server.visit(place);
    charge(server, place, watch.lap(), log);
    let worked = server.state(place) == SlotState::Worked;
    settle(server, place, terms.poller, log);
    end_over(server, place, &terms.kept, log);
    worked
}

/// Visits `place` until a visit does nothing, or the turn or the time of a round is over. Returns whether there may be more to do.
fn visit_on(
    watch: &mut Stopwatch<'_>,
    server: &mut Server,
    terms: &Terms<'_>,
    place: u32,
    log: &mut Log<'_>,
) -> bool
    ensures { IsVisited terms.now place
        (served server.old log.old) (served server.new log.new) }
{
    for _visit in 0..VISITS {
        if !visit(watch, server, terms, place, log) {
            return false;
        }
        if watch.is_over() {
            return true;
        }
    }
    true
}

/// Gives `place` its turn if it is awake: frees it if the system said that its connection is lost, since nobody takes its reply; else visits it. Returns
/// whether there may be more to do.
fn serve_place(
    watch: &mut Stopwatch<'_>,
    server: &mut Server,
    terms: &Terms<'_>,
    place: u32,
    log: &mut Log<'_>,
) -> bool
    ensures { HasTurn terms.now place
        (served server.old log.old) (served server.new log.new) }
{
    if !server.sockets.is_awake(place) {
        return false;
    }
    if server.sockets.is_lost(place) {
        end(server, place, CloseReason::Lost, log);
        return false;
    }
    let more = visit_on(watch, server, terms, place, log);
    log.tally.work.end_turn();
    more
}

/// Returns the place whose turn it is, of `places` in a circle: the first comes after the last one.
fn turn_at(places: u32, next: u32) -> u32
    ensures turn { result ≡ turn_at places next }
    ensures within { result < 2 ^ 32 - 1 }
{
    if next < places { next } else { 0 }
}

/// Returns how many of `places` have their turn until all had it: all if none is `left`, since a circle begins there.
fn left_of(places: u32, left: u32) -> u32
    ensures { result ≡ left_of places left }
{
    if left == 0 { places } else { left }
}

/// Gives the next place of `circle` its turn, if it is of those that have theirs there.
fn take_turn(
    watch: &mut Stopwatch<'_>,
    server: &mut Server,
    terms: &Terms<'_>,
    log: &mut Log<'_>,
    circle: &mut Circle,
)
    ensures turn { HasTurnOf circle.old.heavy terms.now
        (turn_at circle.old.places circle.old.next)
        (served server.old log.old) (served server.new log.new) }
    ensures circle { TookTurn circle.old circle.new }
{
    let place = turn_at(circle.places, circle.next);
    circle.next = place + 1;
    circle.left = circle.left.saturating_sub(1);
    if server.sockets.is_heavy(place) != circle.heavy {
        return;
    }
    circle.busy |= serve_place(watch, server, terms, place, log);
}

/// Gives the places of `circle` their turns, from if it was left, until all had theirs or the time of a round is over.
fn go_round(
    watch: &mut Stopwatch<'_>,
    server: &mut Server,
    terms: &Terms<'_>,
    log: &mut Log<'_>,
    circle: &mut Circle,
)
    ensures { GoesRound terms.now circle.old circle.new
        (served server.old log.old) (served server.new log.new) }
{
    circle.busy &= circle.left > 0;
    circle.left = left_of(circle.places, circle.left);
    for _turn in 0..circle.left {
        take_turn(watch, server, terms, log, circle);
        if watch.is_over() {
            return;
        }
    }
}

/// Returns whether each place had its turn in both circles.
fn is_whole(circles: &Circles) -> bool
    ensures { result ≡ true → HadTurns circles.now }
{
    if circles.light.left != 0 {
        return false;
    }
    circles.heavy.left == 0
}

/// Returns whether some place has more to do, or did not have its turn.
fn has_more(circles: &Circles) -> bool
    ensures { result ≡ false → HadTurns circles.now }
{
    if !is_whole(circles) {
        return true;
    }
    circles.light.busy || circles.heavy.busy
}

/// Gives one round of turns: those who ask for little have their turns, and once all had theirs, the others, until the time of the round is over. Returns whether there is more
/// to do at once.
pub fn run_round(
    watch: &mut Stopwatch<'_>,
    server: &mut Server,
    terms: &Terms<'_>,
    log: &mut Log<'_>,
    circles: &mut Circles,
) -> bool
    ensures round { IsRound terms.now circles.old circles.new
        (served server.old log.old) (served server.new log.new) }
    ensures whole { result ≡ false → HadTurns circles.old × HadTurns circles.new }
{
    let was_whole = is_whole(circles);
    watch.begin();
    go_round(watch, server, terms, log, &mut circles.light);
    if circles.light.left > 0 {
        return true;
    }
    go_round(watch, server, terms, log, &mut circles.heavy);
    // a place that had its turn before this round may have been woken since then
    if !was_whole {
        return true;
    }
    has_more(circles)
}
