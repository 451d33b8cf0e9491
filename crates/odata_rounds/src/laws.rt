//! What holds of a connection whatever visits there are. The functions here are theorems, and do nothing.
ghost use Rattle.odata_rounds.specs.Comes.{AreSchedules};
ghost use Rattle.odata_rounds.specs.Laws.{MovesJoin, RunsJoin, ServesSocket, VisitMoves};
ghost use Rattle.odata_rounds.specs.Leaves.{VisitLeaves};
ghost use Rattle.odata_rounds.specs.Lives.{LivesMove};

/// The calls of a visit are a run of the hub; and at each place what its socket took is what was taken of the output, in order, and what was read came
/// as pieces, each byte once.
pub fn visit_moves()
    ensures { VisitMoves }
{}

/// What visits do with a hub is a schedule of its calls: what holds of a connection in every schedule holds there.
pub fn are_schedules()
    ensures { AreSchedules }
{}

/// One run of a hub after another is a run: so is the life of a service, which opens, visits and frees places, and reloads.
pub fn runs_join()
    ensures { RunsJoin }
{}

/// What moved at a place in one visit and in the next moved in both together.
pub fn moves_join()
    ensures { MovesJoin }
{}

/// What the socket of a connection took since that was opened is a front of the replies of what was read from it, each head answered from its own tables.
pub fn serves_socket()
    ensures { ServesSocket }
{
    odata_hub::laws::gives_replies();
}

/// No more than one reply waits at a place; a visit that did nothing leaves its place with nothing to do before its socket takes or has bytes; a place
/// whose connection is over learns it; and what is at all other places is as it was.
pub fn visit_leaves()
    ensures { VisitLeaves }
{}

/// In a life of a service that opens connections, visits places, gives them back and takes other tables, what moved between each connection and its
/// socket is by its own calls alone, from if it was opened to where its place was given back, or to the end.
pub fn lives_move()
    ensures { LivesMove }
{}
