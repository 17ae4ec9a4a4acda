//! A station that serves routers and clients at once.
//!
//! Each router's connections are the work of a lane (`feed_worker`), each client's the work of an asker
//! (`ask_session`); all of them publish to, and read of, one history (`cut_publisher`). `run_all` does any number of
//! works side by side, each in a thread of its own where one can be started. `serve` is a whole run
//! over any yard: it asks for all ports and links, serves them, gives all back, ends the history and gives the yard the
//! ending. `drill` is a run without a yard: lanes take streams that follow from a few numbers (`drill_streams`), side by
//! side with askers.
//!
//! Proved of `serve`: which calls of the yard were made, in which order and how many; that what was handed out comes back,
//! under its number, on every way out; that `ready` is written only once all ports and links stand; that all passes
//! have seen one history in the end, whose part of each lane is what that lane's connections said and on which each asker's
//! replies are; that the revision of that history is the one that is written; and which outcome comes. The works of lanes
//! know of their ports what `FeedPort` has, and so get no bytes before all earlier messages are published, and no
//! further connection before the closing of the last one is.
//! Of `drill`: that its cut stands for a history whose part of each lane is the opening and all messages of its stream.
//! That threads run at once, and that they get on, no contract says.
//! Begin with `specs/Serve.antt`, `specs/Served.antt` and `specs/Handed.antt`, then `src/run.rt`; for a drill with
//! `specs/Drill.antt`, then `src/drilling.rt`. `src/works.rt` has the join.
#![tactic(auto)]

mod doors;
mod drill_tasks;
mod drilling;
mod ending;
mod laws;
mod outcome;
mod pairing;
mod room;
mod run;
mod serving;
mod tasks;
mod works;

pub use drilling::drill;
pub use ending::FromEnding;
pub use laws::{
    clients_keep_copies, lanes_are_served, lanes_are_tellable, revisions_count_connections,
    revisions_count_lives,
};
pub use outcome::Outcome;
pub use run::serve;
pub use tasks::{AskWork, LaneWork, Task};
pub use works::{Work, run_all};
