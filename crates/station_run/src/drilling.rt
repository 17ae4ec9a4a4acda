//! A drill: lanes and askers at once, over streams that follow from a few numbers.
ghost use Rattle.std.specs.Prelude.{◌≡◌, ◌≤◌, ◌<◌, ℕ, [], length, IfOk, IfSome, IsTrue, OnOk};
ghost use Rattle.std.specs.Arc.{arc_value};
ghost use Rattle.bmp_specs.specs.Life.{most_taken};
ghost use Rattle.bmp_specs.specs.Octets.{AreOctets};
ghost use Rattle.cut_publisher.specs.History.{Site};
ghost use Rattle.cut_publisher.specs.Opening.{AreAsksOf, AreFreshFeeds, IsOpened};
ghost use Rattle.drill_streams.specs.DrillStream.{IsDrillStream};
ghost use Rattle.station_run.specs.Drill.{AreWorks, Begins, Ends, HasDrilled, HaveDrilled, IsDrillCut, MayDrill, drill_station};
ghost use Rattle.station_run.specs.Works.{AreDone, AreReady};

use crate::drill_tasks::{DrillLane, DrillTask};
use crate::pairing::{keep_ask, keep_feed};
use crate::run::no_tables;
use crate::tasks::AskWork;
use crate::works::run_all;
use bmp_specs::MOST_TAKEN;
use cut_publisher::{
    AskList, Cut, FeedList, Naming, Publisher, Station, Unfinished, finish, name, open_station,
};
use drill_streams::drill_stream;
use router_tables::RouterTables;
use station_doors::SureLink;
use std::alloc::Global;
use std::marker::Brand;
use std::sync::{Arc, Wait};
use std::thread::Threads;
use wire_io::{ByteList, NoMemory};

/// How many askers a drill has.
const ASKERS: u32 = 4;

/// How often each of them asks.
const ASKED: u32 = 16;

// Whether a stream can be taken whole. That its numbers are octets, only a slice of it says.
fn is_short(stream: &[u8]) -> bool
    ensures short { IsTrue result → length stream.now < most_taken }
    ensures octets { AreOctets stream.now }
{
    (stream.len() as u64) < MOST_TAKEN
}

// The stream of a lane. One that is too long to be taken whole counts as out of memory.
fn short_stream(alloc: Global, seed: u32, lane: u32, messages: u32) -> Result<ByteList, NoMemory>
    ensures stream { IfOk result (λ bytes. IsDrillStream seed lane messages bytes) }
    ensures octets { IfOk result AreOctets }
    ensures short { IfOk result (λ bytes. length bytes < most_taken) }
{
    let stream = drill_stream(alloc, seed, lane, messages)?;
    if !is_short(stream.as_slice()) {
        return Err(NoMemory);
    }
    Ok(stream)
}

// The works of the lanes, each with its stream.
fn add_lanes(
    alloc: Global,
    seed: u32,
    messages: u32,
    feeds: &mut FeedList<RouterTables>,
    tasks: &mut Vec<DrillTask>,
) -> Result<(), NoMemory>
    requires { tasks.old.items ≡ [] }
    ensures { OnOk result ((b : Site) (lanes : ℕ) → AreFreshFeeds b lanes feeds.old → AreWorks (Begins seed messages b) lanes tasks.new.items) }
{
    while let Some(pass) = feeds.pop() {
        let stream = short_stream(alloc, seed, pass.lane(), messages)?;
        tasks.push(DrillTask::Lane(DrillLane {
            pass,
            stream,
            is_whole: false,
        }))?;
    }
    Ok(())
}

// What an asker says.
fn questions(alloc: Global) -> Result<ByteList, NoMemory> {
    let mut lines = ByteList::new(alloc);
    for _ in 0..ASKED {
        lines.extend(b"cut\n")?;
    }
    Ok(lines)
}

// The works of the askers.
fn add_askers(
    alloc: Global,
    asks: &mut AskList<RouterTables>,
    tasks: &mut Vec<DrillTask>,
) -> Result<(), NoMemory>
    ensures { OnOk result ((seed messages : ℕ) (b : Site) (lanes : ℕ) → AreAsksOf b asks.old
        → AreWorks (Begins seed messages b) lanes tasks.old.items → AreWorks (Begins seed messages b) lanes tasks.new.items) }
{
    let lines = questions(alloc)?;
    while let Some(pass) = asks.pop() {
        let link = SureLink::new(alloc, &lines)?;
        tasks.push(DrillTask::Ask(AskWork {
            pass,
            link,
            rounds: 1,
            served: 0,
        }))?;
    }
    Ok(())
}

// The works of all lanes and askers.
fn make_works(
    alloc: Global,
    seed: u32,
    messages: u32,
    mut feeds: FeedList<RouterTables>,
    mut asks: AskList<RouterTables>,
) -> Result<Vec<DrillTask>, NoMemory>
    ensures { IfOk result (λ tasks. (b : Site) (lanes : ℕ) → AreFreshFeeds b lanes feeds → AreAsksOf b asks → AreWorks (Begins seed messages b) lanes tasks.items) }
{
    let mut tasks = Vec::new(alloc);
    add_lanes(alloc, seed, messages, &mut feeds, &mut tasks)?;
    add_askers(alloc, &mut asks, &mut tasks)?;
    Ok(tasks)
}

// The passes of works that are done, where each lane took its stream whole.
fn take_apart(
    mut tasks: Vec<DrillTask>,
    feeds: &mut FeedList<RouterTables>,
    asks: &mut AskList<RouterTables>,
) -> Result<(), NoMemory>
    requires { (feeds.old ≡ []) × (asks.old ≡ []) }
    ensures { OnOk result ((seed messages : ℕ) (b : Site) (lanes : ℕ) → AreWorks (Ends seed messages b) lanes tasks.items → HaveDrilled seed messages b lanes feeds.new asks.new) }
{
    while let Some(task) = tasks.pop() {
        match task {
            DrillTask::Lane(lane) => {
                let DrillLane {
                    pass,
                    stream,
                    is_whole,
                } = lane;
                drop(stream);
                let kept = keep_feed(feeds, pass, is_whole);
                if !kept {
                    return Err(NoMemory);
                }
            }
            DrillTask::Ask(work) => {
                let AskWork {
                    pass,
                    link: _,
                    rounds: _,
                    served: _,
                } = work;
                let held = keep_ask(asks, pass, true);
                if !held {
                    return Err(NoMemory);
                }
            }
        }
    }
    Ok(())
}

// Does all works.
fn do_all<J: Naming + Send + Sync, R: Threads + Wait + Sync>(
    rt: &R,
    alloc: Global,
    publisher: &Publisher<RouterTables, J>,
    tasks: &mut Vec<DrillTask>,
)
    requires { AreReady drill_station MayDrill J.site tasks.old.items }
    ensures { AreDone HasDrilled tasks.old.items tasks.new.items }
{
    run_all(rt, alloc, publisher, tasks.as_mut_slice());
}

// Does all works, and gives their passes, where each lane took its stream whole.
fn do_works<J: Naming + Send + Sync, R: Threads + Wait + Sync>(
    rt: &R,
    alloc: Global,
    publisher: &Publisher<RouterTables, J>,
    mut tasks: Vec<DrillTask>,
    feeds: &mut FeedList<RouterTables>,
    asks: &mut AskList<RouterTables>,
) -> Result<(), NoMemory>
    requires begin { (seed : ℕ) × (messages : ℕ) × (lanes : ℕ) × AreWorks (Begins seed messages J.site) lanes tasks.items }
    requires none { (feeds.old ≡ []) × (asks.old ≡ []) }
    ensures { OnOk result ((seed messages lanes : ℕ) → AreWorks (Begins seed messages J.site) lanes tasks.items → HaveDrilled seed messages J.site lanes feeds.new asks.new) }
{
    do_all(rt, alloc, publisher, &mut tasks);
    take_apart(tasks, feeds, asks)?;
    Ok(())
}

// Runs the drill on a station that was just opened.
fn run_drill<J: Naming + Send + Sync, R: Threads + Wait + Sync>(
    rt: &R,
    alloc: Global,
    station: Station<RouterTables>,
    seed: u32,
    lanes: u32,
    messages: u32,
) -> Result<Arc<Cut<RouterTables>>, NoMemory>
    requires named { station.publisher.station ≡ J.site }
    requires opened { IsOpened lanes ASKERS station.publisher station.feeds station.asks }
    ensures { IfOk result (λ cut. IsDrillCut seed lanes messages (arc_value cut)) }
{
    let Station {
        publisher,
        feeds,
        mut asks,
    } = station;
    let publisher = name::<RouterTables, J, R>(rt, publisher, &mut asks);
    let Ok(tasks) = make_works(alloc, seed, messages, feeds, asks) else {
        publisher.close(rt);
        return Err(NoMemory);
    };
    let mut feeds = FeedList::new(alloc);
    let mut asks = AskList::new(alloc);
    let Ok(()) = do_works(rt, alloc, &publisher, tasks, &mut feeds, &mut asks) else {
        publisher.close(rt);
        return Err(NoMemory);
    };
    match finish(rt, alloc, publisher, feeds, asks) {
        Ok(ending) => Ok(ending.cut),
        Err(
            Unfinished::NoMemory {
                publisher,
                feeds: _,
                asks: _,
            },
        ) => {
            publisher.close(rt);
            Err(NoMemory)
        }
    }
}

/// Runs a drill: so many lanes take the streams that follow from the seed, their numbers and the number of messages
/// (`drill_streams`), all at once, while four askers ask `cut` sixteen times each. The cut that it gives is that of the
/// end: it stands for a history whose part of each lane is the opening of a connection and all messages of that lane's
/// stream, and no connection is closed.
///
/// The streams are made first. Bodies are read by the RFCs alone.
pub fn drill<R: Threads + Wait + Sync>(
    rt: &R,
    alloc: Global,
    seed: u32,
    lanes: u32,
    messages: u32,
) -> Result<Arc<Cut<RouterTables>>, NoMemory>
    requires lanes { (1 ≤ lanes) × (lanes ≤ 64) }
    ensures { IfOk result (λ cut. IsDrillCut seed lanes messages (arc_value cut)) }
{
    let Some(first) = no_tables(alloc) else {
        return Err(NoMemory);
    };
    let Ok(station) = open_station(alloc, first, lanes, ASKERS) else {
        return Err(NoMemory);
    };
    run_drill::<Brand, R>(rt, alloc, station, seed, lanes, messages)
}
