//! Lanes that take their streams at once, each in a thread of its own where one can be made.
ghost use Rattle.std.specs.Prelude.{◌≡◌, ◌<◌};
ghost use Rattle.cut_publisher.specs.Opening.{AreFeedsOf};

use super::watch::{Client, Watch};
use bmp_message::Reading;
use cut_publisher::{AskList, FeedList, FeedPass, Naming, Publisher};
use feed_worker::{LaneEnd, LanePort, serve_feed};
use router_tables::RouterTables;
use station_doors::SurePort;
use std::alloc::Global;
use std::marker::PhantomData;
use std::rt::Clock;
use std::sync::Wait;
use std::thread;
use std::thread::Threads;
use std::time::{Duration, Instant};
use wire_io::ByteList;

/// What lanes come to: how many entries they published and how many of these were messages, how many turns their
/// clients had, the greatest revision that one of these saw last, and how many versions they kept; the longest time that
/// one of them took for a read; and when the last of them had published its connection.
#[derive(Clone, Copy)]
pub struct Outcome {
    pub entries: u64,
    pub messages: u64,
    pub turns: u64,
    pub revision: u64,
    pub kept: u64,
    pub longest: Duration,
    pub published: Option<Instant>,
}

impl Outcome {
    // What no lane comes to.
    const NONE: Outcome = Outcome {
        entries: 0,
        messages: 0,
        turns: 0,
        revision: 0,
        kept: 0,
        longest: Duration::ZERO,
        published: None,
    };

    // What these lanes and others come to.
    fn and(self, other: Outcome) -> Outcome {
        Outcome {
            entries: self.entries.saturating_add(other.entries),
            messages: self.messages.saturating_add(other.messages),
            turns: self.turns.saturating_add(other.turns),
            revision: self.revision.max(other.revision),
            kept: self.kept.saturating_add(other.kept),
            longest: self.longest.max(other.longest),
            published: self.published.max(other.published),
        }
    }
}

/// A lane that has one connection to take, and its client. It is of the station `J`.
#[derive(Drop)]
pub struct Lane<'a, J: Naming, R> {
    pass: FeedPass<RouterTables>,
    port: LanePort<Watch<'a, R>>,
    station: PhantomData<J>,
    ghost of: { pass.station ≡ J.site },
}

/// A lane for each pass, with this one connection, which it takes in reads of at most so many bytes.
pub fn lanes_of<'a, J: Naming, R: Clock>(
    rt: &'a R,
    alloc: Global,
    feeds: &mut FeedList<RouterTables>,
    asks: &mut AskList<RouterTables>,
    connection: &[ByteList; 1],
    client: Client,
    piece: u32,
) -> Option<Vec<Lane<'a, J, R>>>
    requires feeds { AreFeedsOf J.site feeds.old }
    requires piece { 0 < piece }
{
    let mut lanes = Vec::new(alloc);
    while let Some(pass) = feeds.pop() {
        let port = SurePort::new(alloc, connection, piece).ok()?;
        let asker = asks.pop()?;
        lanes
            .push(Lane {
                pass,
                port: LanePort::new(Watch::new(rt, alloc, port, client, asker)),
                station: PhantomData,
            })
            .ok()?;
    }
    Some(lanes)
}

// Takes the connection of a lane. None where memory runs out.
fn take<'a, J: Naming, R: Wait + Clock>(
    rt: &R,
    alloc: Global,
    publisher: &Publisher<RouterTables, J>,
    mut pass: FeedPass<RouterTables>,
    mut port: LanePort<Watch<'a, R>>,
) -> Option<Outcome>
    requires { pass.station ≡ J.site }
{
    if pass.count() > 0 {
        drop(port);
        return None;
    }
    let end = serve_feed::<Reading, J, LanePort<Watch<'a, R>>, R>(
        rt, alloc, publisher, &mut pass, &mut port, 1,
    );
    if end == LaneEnd::NoMemory {
        drop(port);
        return None;
    }
    let watch = port.as_port();
    let (turns, revision, kept) = watch.seen();
    let longest = watch.longest();
    let published = watch.closed();
    drop(port);
    Some(Outcome {
        entries: pass.count(),
        // without the opening and the closing
        messages: pass.count().saturating_sub(2),
        turns,
        revision,
        kept: kept as u64,
        longest,
        published,
    })
}

impl<'a, J: Naming, R: Wait + Clock> Lane<'a, J, R> {
    // Takes the connection. None where memory runs out.
    fn serve(
        self,
        rt: &R,
        alloc: Global,
        publisher: &Publisher<RouterTables, J>,
    ) -> Option<Outcome> {
        let Lane {
            pass,
            port,
            station: _,
        } = self;
        take::<J, R>(rt, alloc, publisher, pass, port)
    }
}

/// Takes the connections of all lanes at once, each in a thread beside the one that calls, as a station's lanes are. None
/// where memory runs out.
pub fn serve_all<J: Naming + Send + Sync, R: Threads + Wait + Clock + Sync>(
    rt: &R,
    alloc: Global,
    publisher: &Publisher<RouterTables, J>,
    lanes: Vec<Lane<J, R>>,
) -> Option<Outcome> {
    let (outcome, ()) = thread::join(rt, move || serve_lanes(rt, alloc, publisher, lanes), || ());
    outcome
}

// Takes the connections of all lanes at once.
fn serve_lanes<J: Naming + Send + Sync, R: Threads + Wait + Clock + Sync>(
    rt: &R,
    alloc: Global,
    publisher: &Publisher<RouterTables, J>,
    lanes: Vec<Lane<J, R>>,
) -> Option<Outcome> {
    let outcomes = thread::map_vec(
        rt,
        lanes,
        &|lane: Lane<J, R>| lane.serve(rt, alloc, publisher),
    )
    .ok()?;
    let mut all = Outcome::NONE;
    for outcome in outcomes.as_slice() {
        all = all.and((*outcome)?);
    }
    Some(all)
}
