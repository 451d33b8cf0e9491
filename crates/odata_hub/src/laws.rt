//! What holds of a connection in every schedule. The functions here are theorems, and do nothing.
ghost use Rattle.odata_hub.specs.Laws.{AnswersAlike, BringsNext, BringsReply, BringsWithin, GivesReplies, HopelessConnectionsEnd, IdlesWhenAnswered, JoinsStreams, KeepsCatalogs, OneListOfHeads, OverWhenTaken, RunsAlone, SameReplies};

/// A stream has one list of heads, each with the tables of the piece that brought its last byte.
pub fn one_reading()
    ensures { OneListOfHeads }
{
    http_heads::one_cut();
}

/// A piece adds the heads that are cut off the rest and the piece, each with the piece's tables; after a closing head it adds nothing.
pub fn joins()
    ensures { JoinsStreams }
{
    http_heads::cuts_join();
}

/// If the tables never change, the replies of a stream are those of its bytes that a run over devices and a session give.
pub fn same_replies()
    ensures { SameReplies }
{
    http_heads::one_cut();
    http_heads::cuts_join();
}

/// A connection's own events are a run of it, whatever else happens: what holds of every run of a connection holds of it in every schedule.
pub fn runs_alone()
    ensures { RunsAlone }
{}

/// What a connection is given is a front of the replies of its stream, each head answered from its own tables.
pub fn gives_replies()
    ensures { GivesReplies }
{
    http_heads::one_cut();
    http_heads::cuts_join();
    odata_http::one_reply();
}

/// A turn is idle only if all is answered.
pub fn idles_when_answered()
    ensures { IdlesWhenAnswered }
{
    http_heads::one_cut();
    http_heads::cuts_join();
}

/// A connection is over only if all of its replies were taken, that to the closing head too.
pub fn over_when_taken()
    ensures { OverWhenTaken }
{
    http_heads::one_cut();
    http_heads::cuts_join();
}

/// If nothing that follows can put a head at the front of a connection's rest, its end brings the replies now that it would bring later: those that are
/// certain, and one to the rest.
pub fn hopeless_ends()
    ensures { HopelessConnectionsEnd }
{
    http_heads::one_cut();
    http_heads::cuts_join();
    http_heads::hopeless_rests();
}

/// The exchange in flight has its reply in the output after as many turns of its connection as it has calls left, whatever else is called.
pub fn brings_reply()
    ensures { BringsReply }
{
    odata_http::one_length();
}

/// The first waiting head has its reply in the output after one turn more than its reply takes calls, whatever else is called.
pub fn brings_next()
    ensures { BringsNext }
{
    odata_http::one_length();
}

/// On a table that is within one turn more than it has blocks, or 2 if it has none; on no table within 2.
pub fn brings_within()
    ensures { BringsWithin }
{
    odata_http::one_length();
}

/// A connection's answers depend on its own events alone.
pub fn answers_alike()
    ensures { AnswersAlike }
{
    http_heads::one_cut();
    odata_http::one_reply();
    odata_http::one_length();
}

/// A head that came before a reload is answered from the older tables, a later one from the newer.
pub fn keeps_catalogs()
    ensures { KeepsCatalogs }
{
    http_heads::one_cut();
    http_heads::cuts_join();
}
