//! What follows of any sessions, for those who gather them.
ghost use Rattle.ask_session.specs.Copies.{ClientsKeepCopies, CopiesStay, TurnsTell};
ghost use Rattle.ask_session.specs.Sessions.{AsksGetReplies, LinksTellSessions, QueriesKeepReplies, RepliesStay};

/// What was answered on a front of a history was answered on the history: the replies of all sessions are replies on
/// the history that is seen in the end.
pub fn replies_stay()
    ensures { RepliesStay }
{}

/// A line that asks something offered, and no end, is taken as asking that, and gets the reply to it.
pub fn asks_get_their_replies()
    ensures { AsksGetReplies }
{}

/// A line that is a query of `bmp_specs` is taken as that query, and gets its plain reply, whatever else lines may ask.
pub fn queries_keep_their_replies()
    ensures { QueriesKeepReplies }
{}

/// A link that tells the connections that it gave tells what was read of each that was served.
pub fn links_tell_sessions()
    ensures { LinksTellSessions }
{}

/// Each reply to a line that asks of one lane for all its rows, or for all that came after a copy, tells of the lane what
/// the copy needs.
pub fn turns_tell()
    ensures { TurnsTell }
{}

/// A copy of a lane's rows that is exact at one reply is exact at another of no lower revision, by what that one tells, or
/// known to be none, be they of one connection or of two.
pub fn copies_stay()
    ensures { CopiesStay }
{}

/// A client that keeps a copy of a lane's rows by the replies of a connection has an exact one at each reply by which it
/// keeps it, or knows that it has none.
pub fn clients_keep_copies()
    ensures { ClientsKeepCopies }
{}
