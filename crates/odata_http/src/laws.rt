//! What holds of the heads and the replies of every stream, and of the calls that each takes. The functions here are theorems, and do nothing.
ghost use Rattle.std.specs.Prelude.{◌≡◌};
ghost use Rattle.odata_http.specs.Laws.{CutsAreSmall, HopelessEnds, Joins, OneLength, OneReading, OneReply, UnderTables};

use crate::response::OK;

/// The status of a reply that has what was asked for (RFC 9110, section 15.3.1).
pub fn statuses()
    ensures { OK ≡ 200 }
{}

/// No head that is cut off a stream has a target of more bytes than a head may have.
pub fn cuts_are_small()
    ensures { CutsAreSmall }
{
    http_heads::head_limits();
}

/// Under some tables a head has one reply at most. That it has one is not said here: whether tokens have a tree is known if they are parsed.
pub fn one_reply()
    ensures { UnderTables OneReply }
{
    odata_request::one_request();
}

/// A stream has one list of replies at most.
pub fn one_reading()
    ensures { UnderTables OneReading }
{
    http_heads::one_cut();
    odata_request::one_request();
}

/// Unless the connection closed, what follows a stream is answered as what follows its rest. So replies do not depend on how a stream is cut.
pub fn joins()
    ensures { UnderTables Joins }
{
    http_heads::cuts_join();
}

/// If nothing that follows a stream can put a head at the front of its rest, the replies are those that are certain and one to the rest.
pub fn hopeless_ends()
    ensures { UnderTables HopelessEnds }
{
    http_heads::hopeless_rests();
}

/// The exchange of a head takes one number of calls before its reply: one at least, and no more than its table has blocks, or one if it has none.
pub fn one_length()
    ensures { OneLength }
{
    odata_request::one_request();
    query_plan::plans_need_blocks();
}
