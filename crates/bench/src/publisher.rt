ghost use Rattle.std.specs.Prelude.{◌≡◌, ℕ, ◌<◌, ◌≤◌};
ghost use Rattle.cut_publisher.specs.Opening.{IsOpened, AreFeedsOf};

use cut_publisher::{
    AskList, AskPass, FeedList, FeedPass, Naming, Publisher, Station, Subject, name, open_station,
    publish, snapshot,
};
use station_doors::MOST_PLACES;
use std::alloc::Global;
use std::io;
use std::marker::Brand;
use std::sync::{Arc, Wait};

/// The most calls of one run, and the number where no other is given.
const MOST: u32 = 1_000_000_000;

const USUAL: u32 = 1_000_000;

/// How many entries a lane has published.
#[derive(Drop)]
struct Tally {
    count: u64,
}

impl Subject for Tally {
    type Entry = u32;

    ghost use Rattle.std.specs.Prelude.{◌≡◌, length};

    ghost stands = { λ v es. v.count ≡ length es };
}

/// The call that is measured.
#[derive(Clone, Copy)]
pub enum Call {
    Publish,
    /// Each with a snapshot after it, so that somebody holds the cut that the next one replaces.
    PublishHeld,
    Snapshot,
}

/// Makes the call so many times, in a station of so many lanes and askers (one of each), from 1 to 1,024, of which
/// one lane and one asker are at work. It prints the asker's revision after its last snapshot.
pub fn run<R: Wait + Print>(
    rt: &R,
    alloc: Global,
    call: Call,
    times: Option<usize>,
    lanes: Option<u32>,
    askers: Option<u32>,
) -> io::Result<()> {
    let times = times.map_or(USUAL, |times| times.min(MOST as usize) as u32);
    let lanes = lanes.unwrap_or(1).clamp(1, MOST_PLACES);
    let askers = askers.unwrap_or(1).clamp(1, MOST_PLACES);
    match revision(rt, alloc, call, times, lanes, askers) {
        Some(revision) => println!(rt; "revision {revision}"),
        None => Err(io::Error::from(io::ErrorKind::OutOfMemory)),
    }
}

fn revision<R: Wait>(
    rt: &R,
    alloc: Global,
    call: Call,
    times: u32,
    lanes: u32,
    askers: u32,
) -> Option<u64>
    requires lanes { (0 < lanes) × (lanes ≤ MOST_PLACES) }
    requires askers { (0 < askers) × (askers ≤ MOST_PLACES) }
{
    let first = Arc::new(alloc, Tally { count: 0 }).ok()?;
    let station = open_station(alloc, first, lanes, askers).ok()?;
    revision_in::<Brand, R>(rt, alloc, station, call, times)
}

fn revision_in<J: Naming, R: Wait>(
    rt: &R,
    alloc: Global,
    station: Station<Tally>,
    call: Call,
    times: u32,
) -> Option<u64>
    requires named { station.publisher.station ≡ J.site }
    requires opened { (lanes : ℕ) × (askers : ℕ) × IsOpened lanes askers station.publisher station.feeds station.asks }
{
    let Station {
        publisher,
        mut feeds,
        mut asks,
    } = station;
    let publisher = name::<Tally, J, R>(rt, publisher, &mut asks);
    let revision = calls_of(rt, alloc, &publisher, &mut feeds, &mut asks, call, times);
    publisher.close(rt);
    revision
}

// The calls by the lane and the asker.
fn calls_of<J: Naming, R: Wait>(
    rt: &R,
    alloc: Global,
    publisher: &Publisher<Tally, J>,
    feeds: &mut FeedList<Tally>,
    asks: &mut AskList<Tally>,
    call: Call,
    times: u32,
) -> Option<u64>
    requires { AreFeedsOf J.site feeds.old }
{
    let ask = asks.pop()?;
    let feed = feeds.pop()?;
    Some(calls(rt, alloc, publisher, feed, ask, call, times))
}

fn calls<J: Naming, R: Wait>(
    rt: &R,
    alloc: Global,
    publisher: &Publisher<Tally, J>,
    mut feed: FeedPass<Tally>,
    mut ask: AskPass<Tally>,
    call: Call,
    times: u32,
) -> u64
    requires { feed.station ≡ J.site }
{
    let is_held = matches!(call, Call::PublishHeld);
    match call {
        Call::Publish | Call::PublishHeld => {
            for _ in 0..times {
                publish_one(rt, alloc, publisher, &mut feed);
                if is_held {
                    snapshot(&mut ask);
                }
            }
            snapshot(&mut ask);
        }
        Call::Snapshot => {
            publish_one(rt, alloc, publisher, &mut feed);
            for _ in 0..times {
                snapshot(&mut ask);
            }
        }
    }
    ask.cut().rev()
}

// Publishes one entry. Where there is no memory, the lane is as before.
fn publish_one<J: Naming, R: Wait>(
    rt: &R,
    alloc: Global,
    publisher: &Publisher<Tally, J>,
    feed: &mut FeedPass<Tally>,
)
    requires { feed.old.station ≡ J.site }
    ensures { feed.new.station ≡ J.site }
{
    let count = feed.count();
    if count >= 1 << 57 {
        return;
    }
    if let Ok(value) = Arc::new(alloc, Tally { count: count + 1 }) {
        let _ = publish(rt, alloc, publisher, feed, &[0], value);
    }
}
