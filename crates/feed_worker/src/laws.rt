//! What follows of the connections that were served, for those who gather them, and for those who see what was published.
ghost use Rattle.bmp_specs.specs.LenientBody.{lenient};
ghost use Rattle.bmp_specs.specs.MessageEffects.{strict};
ghost use Rattle.feed_worker.specs.Feed.{FewRoundsFit, PortsTellConnections};
ghost use Rattle.feed_worker.specs.Lives.{KeepsCopyOfLane, SeenAnnounceOfUp, SeenAreLives};
ghost use Rattle.feed_worker.specs.Planned.{FewLivesFit, PublishesPlan};

use bmp_message::BodyReading;

/// A port that tells the connections that it gave tells what was read of each that was served.
pub fn ports_tell_connections<B: BodyReading>()
    ensures { PortsTellConnections B.meaning }
{}

/// A lane that had published nothing and serves up to 4,096 connections ends early only where its port gave none.
pub fn few_rounds_fit<B: BodyReading>()
    ensures { FewRoundsFit B.meaning }
{}

/// A lane that had published nothing and serves the connections of a port whose plan fails no call publishes the lives of
/// the plan's first connections, where these have at most 2^56 entries.
pub fn lanes_publish_plans<B: BodyReading>()
    ensures { PublishesPlan B.meaning }
{}

/// The lives of up to 4,096 connections have no more than that.
pub fn few_lives_fit<B: BodyReading>()
    ensures { FewLivesFit B.meaning }
{}

/// What is seen of a lane that began with nothing are lives of connections, of which the last may be open, whichever front of
/// the history is seen.
pub fn lanes_are_lives<B: BodyReading>()
    ensures { SeenAreLives B.meaning }
{}

/// So each announcement that is seen is of a peer that is up, in either reading.
pub fn lanes_announce_of_up()
    ensures { SeenAnnounceOfUp strict × SeenAnnounceOfUp lenient }
{}

/// A client that asks for the changes of a lane keeps an exact copy of its rows, or knows that it has none, in either reading.
pub fn lanes_keep_copies()
    ensures { KeepsCopyOfLane strict × KeepsCopyOfLane lenient }
{}
