//! Passes with their ports and links, and what is left of them once all is served.
ghost use Rattle.std.specs.Prelude.{◌≡◌, ◌+◌, ◌≤◌, ◌++◌, ◌∷◌, [], length, vec_len, reverse, IsTrue};
ghost use Rattle.std.specs.Vec.{vec_capacity};
ghost use Rattle.station_run.specs.Pairing.{ArePaired, AsksArePaired, LanesArePaired, after_one, ask_passes, asks_of, ends, lanes_of, links, outcome_of, passes, ports, starved};

use crate::outcome::Outcome;
use crate::room::place;
use crate::tasks::{AskWork, LaneWork, Task};
use bmp_message::BodyReading;
use cut_publisher::{AskList, AskPass, FeedList, FeedPass};
use feed_worker::LaneEnd;
use router_tables::RouterTables;
use station_doors::Link;
use std::marker::PhantomData;

// The works of the askers, the last one first.
fn pair_asks<B: BodyReading + Drop, P: Drop, K: Link + Drop>(
    asks: &mut AskList<RouterTables>,
    doors: &mut Vec<K>,
    rounds: u32,
    tasks: &mut Vec<Task<B, P, K>>,
)
    requires same { length asks.old ≡ length doors.old.items }
    requires none { tasks.old.items ≡ [] }
    requires room { vec_len tasks.old + length asks.old ≤ vec_capacity tasks.old }
    ensures asks { AsksArePaired asks.old doors.old.items rounds (reverse tasks.new.items) }
    ensures lanes { lanes_of (reverse tasks.new.items) ≡ [] }
    ensures empty { (asks.new ≡ []) × (doors.new.items ≡ []) }
    ensures len { vec_len tasks.new ≡ vec_len tasks.old + length asks.old }
    ensures room { vec_capacity tasks.old ≤ vec_capacity tasks.new }
    ensures capacity { vec_capacity doors.new ≡ vec_capacity doors.old }
{
    while let Some(pass) = asks.pop() {
        let Some(link) = doors.pop() else {
            // the premise: as many links as passes
            unreachable!();
        };
        let work = AskWork {
            pass,
            link,
            rounds,
            served: 0,
        };
        place(tasks, Task::Ask(work));
    }
}

// The works of the lanes, the last one first, after those of the askers.
fn pair_lanes<B: BodyReading + Drop, P: Drop, K: Link + Drop>(
    feeds: &mut FeedList<RouterTables>,
    doors: &mut Vec<P>,
    rounds: u32,
    tasks: &mut Vec<Task<B, P, K>>,
)
    requires same { length feeds.old ≡ length doors.old.items }
    requires none { lanes_of (reverse tasks.old.items) ≡ [] }
    requires room { vec_len tasks.old + length feeds.old ≤ vec_capacity tasks.old }
    ensures lanes { LanesArePaired feeds.old doors.old.items rounds (reverse tasks.new.items) }
    ensures asks { asks_of (reverse tasks.new.items) ≡ asks_of (reverse tasks.old.items) }
    ensures empty { (feeds.new ≡ []) × (doors.new.items ≡ []) }
    ensures capacity { vec_capacity doors.new ≡ vec_capacity doors.old }
{
    while let Some(pass) = feeds.pop() {
        let Some(port) = doors.pop() else {
            // the premise: as many ports as passes
            unreachable!();
        };
        let work = LaneWork {
            pass,
            port,
            rounds,
            end: LaneEnd::Over,
            reads: PhantomData,
        };
        place(tasks, Task::Lane(work));
    }
}

/// The works of the lanes and of the askers, in order: each has the pass and the port or link of its number. The lists that
/// they come from are empty then. There is room for them.
pub fn pair<B: BodyReading + Drop, P: Drop, K: Link + Drop>(
    feeds: &mut FeedList<RouterTables>,
    asks: &mut AskList<RouterTables>,
    doors: &mut Vec<P>,
    ask_doors: &mut Vec<K>,
    rounds: u32,
    tasks: &mut Vec<Task<B, P, K>>,
)
    requires lanes { length feeds.old ≡ length doors.old.items }
    requires askers { length asks.old ≡ length ask_doors.old.items }
    requires none { tasks.old.items ≡ [] }
    requires room { length feeds.old + length asks.old ≤ vec_capacity tasks.old }
    ensures pairs { ArePaired feeds.old doors.old.items asks.old ask_doors.old.items rounds tasks.new.items }
    ensures passes { (feeds.new ≡ []) × (asks.new ≡ []) }
    ensures doors { (doors.new.items ≡ []) × (ask_doors.new.items ≡ []) }
    ensures capacity { (vec_capacity doors.new ≡ vec_capacity doors.old) × (vec_capacity ask_doors.new ≡ vec_capacity ask_doors.old) }
{
    pair_asks(asks, ask_doors, rounds, tasks);
    pair_lanes(feeds, doors, rounds, tasks);
    tasks.reverse();
}

// Keeps the pass, where all were kept so far and there is memory for it. True where it is kept.
pub(crate) fn keep_feed(
    feeds: &mut FeedList<RouterTables>,
    pass: FeedPass<RouterTables>,
    kept: bool,
) -> bool
    ensures { IsTrue result → IsTrue kept × (feeds.new ≡ feeds.old ++ pass ∷ []) }
{
    if kept {
        feeds.push(pass).is_ok()
    } else {
        false
    }
}

// The same of an asker's pass.
pub(crate) fn keep_ask(
    asks: &mut AskList<RouterTables>,
    pass: AskPass<RouterTables>,
    kept: bool,
) -> bool
    ensures { IsTrue result → IsTrue kept × (asks.new ≡ asks.old ++ pass ∷ []) }
{
    if kept { asks.push(pass).is_ok() } else { false }
}

/// Takes the works apart: all ports and links come back into the lists, which have room for them. False where there is no
/// memory for the lists of the passes.
pub fn part<B: BodyReading + Drop, P: Drop, K: Link + Drop>(
    mut tasks: Vec<Task<B, P, K>>,
    doors: &mut Vec<P>,
    ask_doors: &mut Vec<K>,
    feeds: &mut FeedList<RouterTables>,
    asks: &mut AskList<RouterTables>,
) -> bool
    requires passes { (feeds.old ≡ []) × (asks.old ≡ []) }
    requires doors { (doors.old.items ≡ []) × (ask_doors.old.items ≡ []) }
    requires room { (length (lanes_of tasks.items) ≤ vec_capacity doors.old) × (length (asks_of tasks.items) ≤ vec_capacity ask_doors.old) }
    ensures ports { doors.new.items ≡ ports (lanes_of tasks.items) }
    ensures links { ask_doors.new.items ≡ links (asks_of tasks.items) }
    ensures kept { IsTrue result → (feeds.new ≡ passes (lanes_of tasks.items)) × (asks.new ≡ ask_passes (asks_of tasks.items)) }
{
    tasks.reverse();
    let mut kept = true;
    while let Some(task) = tasks.pop() {
        match task {
            Task::Lane(work) => {
                let LaneWork {
                    pass,
                    port,
                    rounds: _,
                    end: _,
                    reads: _,
                } = work;
                place(doors, port);
                kept = keep_feed(feeds, pass, kept);
            }
            Task::Ask(work) => {
                let AskWork {
                    pass,
                    link,
                    rounds: _,
                    served: _,
                } = work;
                place(ask_doors, link);
                kept = keep_ask(asks, pass, kept);
            }
        }
    }
    kept
}

/// What a station answers that did these works: whether one of its lanes ended out of memory.
pub fn outcome_after<B: BodyReading + Drop, P: Drop, K: Link + Drop>(
    tasks: &[Task<B, P, K>],
) -> Outcome
    ensures { result ≡ outcome_of (ends (lanes_of tasks.now)) }
{
    let mut outcome = Outcome::Done;
    for task in tasks {
        outcome = after(task, outcome);
    }
    outcome
}

// The outcome after one more work.
fn after<B: BodyReading + Drop, P: Drop, K: Link + Drop>(
    task: &Task<B, P, K>,
    outcome: Outcome,
) -> Outcome
    ensures { result ≡ after_one (starved task.now) outcome }
{
    match task {
        Task::Lane(work) => match work.end {
            LaneEnd::NoMemory => Outcome::NoMemory,
            LaneEnd::Over => outcome,
        },
        Task::Ask(_) => outcome,
    }
}
