//! The works of lanes and askers.
ghost use Rattle.std.specs.Prelude.{◌≡◌, []};
ghost use Rattle.station_run.specs.Tasks.{LaneIsDone};

use crate::works::Work;
use ask_session::serve_session;
use bmp_message::BodyReading;
use cut_publisher::{AskPass, FeedPass, Naming, Publisher};
use feed_worker::{FeedPort, LaneEnd, serve_feed};
use router_tables::RouterTables;
use station_doors::Link;
use std::alloc::Global;
use std::marker::PhantomData;
use std::sync::Wait;
use std::thread::Threads;

/// The work of a lane: its pass, its port, how many connections it serves at most, and how its work ended. `B` reads the
/// bodies of the messages.
#[derive(Drop)]
pub struct LaneWork<B: BodyReading + Drop, P: Drop> {
    pub pass: FeedPass<RouterTables>,
    pub port: P,
    pub rounds: u32,
    pub end: LaneEnd,
    pub reads: PhantomData<B>,
}

/// The work of an asker: its pass, its link, how many connections it serves at most, and how many it served.
#[derive(Drop)]
pub struct AskWork<K: Link + Drop> {
    pub pass: AskPass<RouterTables>,
    pub link: K,
    pub rounds: u32,
    pub served: u32,
}

/// The work of a lane or of an asker, so that both are done side by side.
#[derive(Drop)]
pub enum Task<B: BodyReading + Drop, P: Drop, K: Link + Drop> {
    Lane(LaneWork<B, P>),
    Ask(AskWork<K>),
}

impl<B: BodyReading + Drop, J: Naming + Send + Sync, P: FeedPort<B, J> + Drop, K: Link + Drop> Work<
    RouterTables,
    J,
> for Task<B, P, K> {
    ghost use Rattle.station_run.specs.Tasks.{station_of, IsDone, MayBegin};

    ghost station = { station_of };

    ghost ready = { MayBegin };

    ghost done = { IsDone B.meaning P.aside K.aside K.told K.faults };

    fn work<R: Threads + Wait + Sync>(
        &mut self,
        rt: &R,
        alloc: Global,
        publisher: &Publisher<RouterTables, J>,
    ) {
        match self {
            Task::Lane(work) => serve_lane::<B, J, P, R>(rt, alloc, publisher, work),
            Task::Ask(work) => work.serve(),
        }
    }
}

// Serves the connections of a lane.
fn serve_lane<B: BodyReading + Drop, J: Naming, P: FeedPort<B, J> + Drop, R: Wait>(
    rt: &R,
    alloc: Global,
    publisher: &Publisher<RouterTables, J>,
    work: &mut LaneWork<B, P>,
)
    requires station { work.old.pass.station ≡ J.site }
    requires none { work.old.pass.entries ≡ [] }
    ensures { LaneIsDone B.meaning P.aside work.old work.new }
{
    work.end = serve_feed::<B, J, P, R>(
        rt,
        alloc,
        publisher,
        &mut work.pass,
        &mut work.port,
        work.rounds,
    );
}

impl<K: Link + Drop> AskWork<K> {
    ghost use Rattle.station_run.specs.Tasks.{AskIsDone};

    // Serves the connections of the asker.
    pub(crate) fn serve(&mut self)
        ensures { AskIsDone K.aside K.told K.faults self.old self.new }
    {
        self.served = serve_session(&mut self.pass, &mut self.link, self.rounds);
    }
}
