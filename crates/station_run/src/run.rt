//! A whole run: routers and clients at once, over any yard that hands out the ports of lanes.
ghost use Rattle.std.specs.Prelude.{◌≡◌, ◌<◌, ◌≤◌, ◌+◌, ◌++◌, ℕ, [], List, length, IfOk, IfSome};
ghost use Rattle.std.specs.Arc.{arc_value};
ghost use Rattle.std.specs.Vec.{vec_capacity};
ghost use Rattle.cut_publisher.specs.Opening.{IsOpened};
ghost use Rattle.rib_model.specs.Entries.{entry_values};
ghost use Rattle.router_tables.specs.Tables.{StandsFor};
ghost use Rattle.wire_io.specs.Writes.{Writes};
ghost use Rattle.station_doors.specs.Doors.{most_places};
ghost use Rattle.station_run.specs.Serve.{AnswersFault, Comes, done_line, ready_line};

use crate::doors::{Doors, give_back, open_doors};
use crate::ending::FromEnding;
use crate::outcome::Outcome;
use crate::serving::serve_doors;
use crate::tasks::Task;
use bmp_message::BodyReading;
use cut_publisher::{Naming, Station, Unfinished, finish, name, open_station};
use feed_worker::{LanePort, LaneYard};
use itoa::Buffer;
use router_tables::RouterTables;
use station_doors::{Link, Listening, Port};
use std::alloc::Global;
use std::marker::Brand;
use std::sync::{Arc, Wait};
use std::thread::Threads;
use wire_io::{Failed, Sink, write_all, write_pieces};

// What a run takes its memory for before it asks the yard for anything.
#[derive(Drop)]
struct Room<B: BodyReading + Drop, P: Port + Drop, K: Link + Drop> {
    doors: Doors<P, K>,
    tasks: Vec<Task<B, LanePort<P>, K>>,
}

// Room for the ports, the links and the works.
fn make_room<B: BodyReading + Drop, P: Port + Drop, K: Link + Drop>(
    alloc: Global,
    at: &Listening,
) -> Option<Room<B, P, K>>
    requires { (at.now.feeds ≤ most_places) × (at.now.askers ≤ most_places) }
    ensures ports { IfSome result (λ r. (r.doors.ports.items ≡ []) × (at.now.feeds ≤ vec_capacity r.doors.ports)) }
    ensures links { IfSome result (λ r. (r.doors.links.items ≡ []) × (at.now.askers ≤ vec_capacity r.doors.links)) }
    ensures tasks { IfSome result (λ r. (r.tasks.items ≡ []) × (at.now.feeds + at.now.askers ≤ vec_capacity r.tasks)) }
{
    let Ok(ports) = Vec::with_capacity(alloc, at.feeds as usize) else {
        return None;
    };
    let Ok(links) = Vec::with_capacity(alloc, at.askers as usize) else {
        return None;
    };
    let Ok(tasks) = Vec::with_capacity(alloc, (at.feeds + at.askers) as usize) else {
        return None;
    };
    Some(Room {
        doors: Doors { ports, links },
        tasks,
    })
}

// What every lane has until it publishes.
pub(crate) fn no_tables(alloc: Global) -> Option<Arc<RouterTables>>
    ensures { IfSome result (λ t. StandsFor (arc_value t) (entry_values [])) }
{
    let tables = RouterTables::new(alloc).ok()?;
    Arc::new(alloc, tables).ok()
}

// Writes the last line.
fn put_done<O: Sink>(out: &mut O, rev: u64) -> Result<(), Failed>
    ensures { Writes O.faults O.told O.aside out.old (done_line rev) result out.new }
{
    write_pieces(
        out,
        &[b"done ", Buffer::new().format(rev).as_bytes(), b"\n"],
    )
}

// Writes the first line.
fn put_ready<O: Sink>(out: &mut O) -> Result<(), Failed>
    ensures { Writes O.faults O.told O.aside out.old ready_line result out.new }
{
    write_all(out, b"ready\n")
}

// Runs a station that was just opened.
fn run<
    B: BodyReading + Drop + Send,
    Y: LaneYard,
    O: Sink,
    J: Naming + Send + Sync,
    R: Threads + Wait + Sync,
>(
    rt: &R,
    alloc: Global,
    station: Station<RouterTables>,
    room: Room<B, Y::Port, Y::Link>,
    at: &Listening,
    rounds: u32,
    yard: &mut Y,
    out: &mut O,
) -> Outcome
where
    Y::Ending: FromEnding,
    requires named { station.publisher.station ≡ J.site }
    requires opened { IsOpened at.now.feeds at.now.askers station.publisher station.feeds station.asks }
    requires few { (at.now.feeds ≤ most_places) × (at.now.askers ≤ most_places) }
    requires ports { (room.doors.ports.items ≡ []) × (at.now.feeds ≤ vec_capacity room.doors.ports) }
    requires links { (room.doors.links.items ≡ []) × (at.now.askers ≤ vec_capacity room.doors.links) }
    requires tasks { (room.tasks.items ≡ []) × (at.now.feeds + at.now.askers ≤ vec_capacity room.tasks) }
    ensures comes { Comes Y.Ending.shows B.meaning at.now rounds (Y.seen yard.old) (Y.seen yard.new) (O.told out.old) (O.told out.new) result }
    ensures out { AnswersFault (O.faults out.old) (O.faults out.new) result Outcome.WriteFault }
    ensures yard { AnswersFault (Y.faults yard.old) (Y.faults yard.new) result Outcome.YardFault }
    ensures aside { O.aside out.new ≡ O.aside out.old }
{
    let Station {
        publisher,
        mut feeds,
        mut asks,
    } = station;
    let Room { doors, tasks } = room;
    let publisher = name::<RouterTables, J, R>(rt, publisher, &mut asks);
    let Ok(doors) = open_doors(at, yard, doors) else {
        publisher.close(rt);
        return Outcome::YardFault;
    };
    let Ok(()) = put_ready(out) else {
        give_back(yard, doors);
        publisher.close(rt);
        return Outcome::WriteFault;
    };
    let Doors {
        mut ports,
        mut links,
    } = doors;
    let (outcome, kept) = serve_doors(
        rt, alloc, &publisher, &mut feeds, &mut asks, &mut ports, &mut links, tasks, rounds,
    );
    give_back(yard, Doors { ports, links });
    if !kept {
        publisher.close(rt);
        return Outcome::NoMemory;
    }
    match finish(rt, alloc, publisher, feeds, asks) {
        Ok(ending) => {
            let rev = ending.cut.rev();
            yard.take_ending(<Y::Ending as FromEnding>::of(ending));
            match put_done(out, rev) {
                Ok(()) => outcome,
                Err(_) => Outcome::WriteFault,
            }
        }
        Err(
            Unfinished::NoMemory {
                publisher,
                feeds: _,
                asks: _,
            },
        ) => {
            publisher.close(rt);
            Outcome::NoMemory
        }
    }
}

/// Serves routers and clients at once, as many as `at` says: lane n takes the connections of port n, up to so many
/// (`rounds`), reads them as `B` does and publishes what they say; asker n answers the connections of link n.
///
/// It asks the yard to listen, then for all ports, then for all links, and then writes `ready`. Once all is served it gives
/// every port and every link back, finishes the history, gives the yard the ending and writes `done` with the history's
/// revision. All memory of its own but the ending's is taken before the yard is asked for anything.
///
/// | Outcome | Where |
/// |---|---|
/// | `YardFault` | exactly where the yard's count of faults rose, by one: a call failed, what had been handed out was given back, and nothing is written |
/// | `WriteFault` | exactly where the sink's count of faults rose, by one: nothing is written after a write that failed, and after a failed `ready` nothing is served |
/// | `NoMemory` | the call ran out of memory, before anything was asked for or, once all was served, as the history was to be finished; or it ended a lane, and `done` is still written |
/// | `Done` | else |
pub fn serve<B: BodyReading + Drop + Send, Y: LaneYard, O: Sink, R: Threads + Wait + Sync>(
    rt: &R,
    alloc: Global,
    at: &Listening,
    rounds: u32,
    yard: &mut Y,
    out: &mut O,
) -> Outcome
where
    Y::Ending: FromEnding,
    requires feeds { (0 < at.now.feeds) × (at.now.feeds ≤ most_places) }
    requires askers { (0 < at.now.askers) × (at.now.askers ≤ most_places) }
    ensures comes { Comes Y.Ending.shows B.meaning at.now rounds (Y.seen yard.old) (Y.seen yard.new) (O.told out.old) (O.told out.new) result }
    ensures out { AnswersFault (O.faults out.old) (O.faults out.new) result Outcome.WriteFault }
    ensures yard { AnswersFault (Y.faults yard.old) (Y.faults yard.new) result Outcome.YardFault }
    ensures aside { O.aside out.new ≡ O.aside out.old }
{
    let Some(room) = make_room::<B, Y::Port, Y::Link>(alloc, at) else {
        return Outcome::NoMemory;
    };
    let Some(first) = no_tables(alloc) else {
        return Outcome::NoMemory;
    };
    let Ok(station) = open_station(alloc, first, at.feeds, at.askers) else {
        return Outcome::NoMemory;
    };
    run::<B, Y, O, Brand, R>(rt, alloc, station, room, at, rounds, yard, out)
}
