//! A station whose entries are numbers, and whose values are the lists of them.
ghost use Rattle.std.specs.Prelude.{◌≡◌};
ghost use Rattle.cut_publisher.specs.Opening.{IsOpened, AreAsksOf, AreFeedsOf};

mod numbers;
mod threads;

use crate::opened::named;
use cut_publisher::*;
use numbers::{Numbers, has, put_askers, put_lanes, take_askers, take_lanes, tell};
use std::alloc::Global;
use std::marker::Brand;
use std::sync::{Arc, Wait};
use std::test::Fail;
use std::thread::Threads;
use threads::on_threads;

// Opens a station of two lanes and two askers, and publishes on it. Whether all is seen as it should be.
fn run<R: Threads + Wait + Sync>(rt: &R, alloc: Global) -> Result<bool, NoMemory> {
    let station = open_station(alloc, Numbers::none(alloc)?, 2, 2)?;
    run_in::<Brand, R>(rt, alloc, station)
}

fn run_in<J: Naming + Send + Sync, R: Threads + Wait + Sync>(
    rt: &R,
    alloc: Global,
    station: Station<Numbers>,
) -> Result<bool, NoMemory>
    requires named { station.publisher.station ≡ J.site }
    requires opened { IsOpened 2 2 station.publisher station.feeds station.asks }
{
    let (publisher, mut feeds, mut asks) = named::<Numbers, J, R>(rt, station);
    let seen = published(rt, alloc, &publisher, &mut feeds, &mut asks);
    match finish(rt, alloc, publisher, feeds, asks) {
        Ok(ending) => Ok(seen? & are_alike(&ending)),
        Err(
            Unfinished::NoMemory {
                publisher,
                feeds: _feeds,
                asks: _asks,
            },
        ) => {
            publisher.close(rt);
            Err(NoMemory)
        }
    }
}

// Publishes on one thread and then on four. What an asker kept meanwhile is as it was. The passes stand in their lists
// again then.
fn published<J: Naming + Send + Sync, R: Threads + Wait + Sync>(
    rt: &R,
    alloc: Global,
    publisher: &Publisher<Numbers, J>,
    feeds: &mut FeedList<Numbers>,
    asks: &mut AskList<Numbers>,
) -> Result<bool, NoMemory>
    requires feeds { AreFeedsOf J.site feeds.old }
    requires asks { AreAsksOf J.site asks.old }
    ensures feeds { AreFeedsOf J.site feeds.new }
    ensures asks { AreAsksOf J.site asks.new }
{
    let mut askers = take_askers::<J>(asks)?;
    let mut lanes = take_lanes::<J>(feeds)?;
    let told = on_one_thread(rt, alloc, publisher, &mut lanes, &mut askers);
    let (lanes, (askers, rises)) = on_threads(rt, alloc, publisher, lanes, askers);
    put_lanes::<J>(feeds, lanes)?;
    put_askers::<J>(asks, askers)?;
    Ok(told & rises)
}

// Publishes on one thread. Whether all is seen as it should be.
fn on_one_thread<J: Naming + Send + Sync, R: Threads + Wait + Sync>(
    rt: &R,
    alloc: Global,
    publisher: &Publisher<Numbers, J>,
    lanes: &mut (FeedPass<Numbers>, FeedPass<Numbers>),
    askers: &mut (AskPass<Numbers>, AskPass<Numbers>),
) -> bool
    requires lanes { (lanes.old.0.station ≡ J.site) × (lanes.old.1.station ≡ J.site) }
    requires askers { (askers.old.0.station ≡ J.site) × (askers.old.1.station ≡ J.site) }
    ensures lanes { (lanes.new.0.station ≡ J.site) × (lanes.new.1.station ≡ J.site) }
    ensures askers { (askers.new.0.station ≡ J.site) × (askers.new.1.station ≡ J.site) }
{
    let (zero, one) = lanes;
    let (first, second) = askers;
    let told = two_lanes(rt, alloc, publisher, zero, one, first, second);
    let gone = is_let_go(rt, alloc, publisher, zero, first);
    told & gone & is_first(second.cut())
}

// Whether the cut is that of the first number, 7 of lane 1.
fn is_first(cut: &Cut<Numbers>) -> bool {
    cut.rev() == 1 && has(cut, 0, 0, &[]) && has(cut, 1, 1, &[7])
}

// Whether an asker sees what was published when it looks, or learns of it. Not where memory ran out.
fn two_lanes<J: Naming, R: Wait>(
    rt: &R,
    alloc: Global,
    publisher: &Publisher<Numbers, J>,
    zero: &mut FeedPass<Numbers>,
    one: &mut FeedPass<Numbers>,
    first: &mut AskPass<Numbers>,
    second: &mut AskPass<Numbers>,
) -> bool
    requires zero { zero.old.station ≡ J.site }
    requires one { one.old.station ≡ J.site }
    requires first { first.old.station ≡ J.site }
    ensures zero { zero.new.station ≡ J.site }
    ensures one { one.new.station ≡ J.site }
    ensures first { first.new.station ≡ J.site }
    ensures second { second.new.station ≡ second.old.station }
{
    let Ok(note) = tell(rt, alloc, publisher, one, &[7]) else {
        return false;
    };
    snapshot(second);
    let before = first.cut().rev();
    learn(first, note);
    let learnt = is_first(first.cut());
    snapshot(first);
    let told = tell(rt, alloc, publisher, zero, &[5, 6]).is_ok();
    told & learnt & (before == 0) & is_first(first.cut()) & is_first(second.cut())
}

// Whether nothing of the publisher holds an older value once no pass does. Not where memory ran out.
fn is_let_go<J: Naming, R: Wait>(
    rt: &R,
    alloc: Global,
    publisher: &Publisher<Numbers, J>,
    feed: &mut FeedPass<Numbers>,
    ask: &mut AskPass<Numbers>,
) -> bool
    requires feed { feed.old.station ≡ J.site }
    requires ask { ask.old.station ≡ J.site }
    ensures feed { feed.new.station ≡ J.site }
    ensures ask { ask.new.station ≡ J.site }
{
    let Ok(note) = tell(rt, alloc, publisher, feed, &[3]) else {
        return false;
    };
    learn(ask, note);
    let Some(mut older) = feed.last() else {
        return false;
    };
    let Ok(note) = tell(rt, alloc, publisher, feed, &[4]) else {
        return false;
    };
    let is_held = Arc::get_mut(&mut older).is_none();
    learn(ask, note);
    is_held & Arc::get_mut(&mut older).is_some()
}

// Whether the cut has all numbers: four and a hundred of lane 0, and one and a hundred of lane 1.
fn is_last(cut: &Cut<Numbers>) -> bool {
    cut.rev() == 205 && has(cut, 0, 104, &[5, 6, 3, 4, 0, 1]) && has(cut, 1, 101, &[7, 0, 1])
}

// Whether the end and each asker have these numbers, and no others.
fn are_alike(ending: &Ending<Numbers>) -> bool {
    let asks = ending.asks.as_slice();
    let mut alike = is_last(&ending.cut) & (asks.len() == 2);
    for ask in asks {
        alike = alike & is_last(ask.cut()) & is_same(&ending.cut, ask.cut());
    }
    alike & are_last(ending.feeds.as_slice())
}

// Whether two cuts have the same numbers of both lanes.
fn is_same(cut: &Cut<Numbers>, other: &Cut<Numbers>) -> bool {
    for lane in 0..2 {
        if lane >= cut.lanes() || lane >= other.lanes() {
            return false;
        }
        if cut.value(lane).items.as_slice() != other.value(lane).items.as_slice() {
            return false;
        }
    }
    true
}

// Whether the lanes have published so many.
fn are_last(feeds: &[FeedPass<Numbers>]) -> bool {
    feeds.len() == 2 && feeds[0].count() == 104 && feeds[1].count() == 101
}

#[test]
fn numbers_are_published(rt: HostRuntime) -> Result<(), Fail> {
    assert!(rt; run(&rt, rt.alloc())?);
    Ok(())
}
