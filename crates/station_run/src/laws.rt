//! What follows of a whole run: of its ports' counts, for those who know their plans, and for the clients.
ghost use Rattle.bmp_specs.specs.LenientBody.{lenient};
ghost use Rattle.bmp_specs.specs.MessageEffects.{strict};
ghost use Rattle.station_run.specs.Copied.{ClientsAreTold, CopiesAreExact};
ghost use Rattle.station_run.specs.Counting.{DoneCountsLives, EndCountsConnections};
ghost use Rattle.station_run.specs.Seen.{LanesAreServed, LanesAreTellable};

use crate::ending::FromEnding;
use bmp_message::BodyReading;
use station_doors::Yard;

/// The revision that a run ends with is the number of entries in the lives of the first connections of each port's plan,
/// where the yard tells the plans, none of them fails a call, and no memory was wanting.
pub fn revisions_count_lives<B: BodyReading, Y: Yard>()
where
    Y::Ending: FromEnding,
    ensures { DoneCountsLives Y.Ending.shows B.meaning }
{}

/// The revision that a run ends with is the number of entries that its lanes published, whatever the yard tells. Where no
/// memory was wanting, those of a lane are the lives of some connections, as many as its port counts.
pub fn revisions_count_connections<B: BodyReading, Y: Yard>()
where
    Y::Ending: FromEnding,
    ensures { EndCountsConnections Y.Ending.shows B.meaning }
{}

/// Each lane of a station that served began with nothing, and its part of the one history is what it published. So what is
/// seen of it are lives of connections (`feed_worker`).
pub fn lanes_are_served<B: BodyReading>()
    ensures { LanesAreServed B.meaning }
{}

/// Clients of a station that served can keep copies of the rows of each of its lanes, in either reading (`ask_session`).
pub fn lanes_are_tellable()
    ensures { LanesAreTellable strict × LanesAreTellable lenient }
{}

/// A client of a station that served, which keeps a copy of a lane's rows by its replies, is told what the copy needs, and has
/// an exact one at each reply, or knows that it has none, in either reading.
pub fn clients_keep_copies()
    ensures told { ClientsAreTold strict × ClientsAreTold lenient }
    ensures exact { CopiesAreExact strict × CopiesAreExact lenient }
{}
