//! Worked schedules: their replies, the events that change nothing, and faults.

use super::{Ran, ask, run, take};
use crate::streams::{INITIATION, TERMINATION, VERSION_4, bytes};
use station_core::{Event, ScheduleFault};
use std::alloc::Global;
use std::test::Fail;

// An event: a part of an Initiation Message that a lane takes, between two offsets, or the line that the first or the
// second asker asks.
#[derive(Clone, Copy)]
enum Plan {
    Begin(u32),
    Take(u32, usize, usize),
    End(u32, bool),
    Publish(u32),
    Ask(u32, &'static str),
    Tell(u32, u64),
    Finish,
}

fn part(alloc: Global, lane: u32, from: usize, to: usize) -> Option<Event> {
    let message = bytes(alloc, &[INITIATION])?;
    let message = message.as_slice();
    if from <= to && to <= message.len() {
        take(alloc, lane, &message[from..to])
    } else {
        None
    }
}

fn event(alloc: Global, plan: Plan) -> Option<Event> {
    match plan {
        Plan::Take(lane, from, to) => part(alloc, lane, from, to),
        Plan::Ask(asker, line) => ask(asker, line.as_bytes()),
        _ => small_event(plan),
    }
}

// The event without bytes and without a line.
fn small_event(plan: Plan) -> Option<Event> {
    match plan {
        Plan::Begin(lane) => Some(Event::Begin { lane }),
        Plan::End(lane, failed) => Some(Event::End { lane, failed }),
        Plan::Publish(lane) => Some(Event::Publish { lane }),
        Plan::Tell(asker, rev) => Some(Event::Tell { asker, rev }),
        Plan::Finish => Some(Event::Finish),
        _ => None,
    }
}

// Appends these events.
fn put(alloc: Global, events: &mut Vec<Event>, plans: &[Plan]) -> Option<()> {
    for plan in plans {
        events.push(event(alloc, *plan)?).ok()?;
    }
    Some(())
}

// What these events come to, one list after the other, with so many lanes, one or two, and an asker.
fn ran(alloc: Global, lanes: u32, lists: &[&[Plan]]) -> Option<Ran> {
    let mut events = Vec::new(alloc);
    for plans in lists {
        put(alloc, &mut events, *plans)?;
    }
    run(alloc, lanes.clamp(1, 2), 1, &events, 1024, &[])
}

// Lane 0 opens; lane 1 opens and takes a message, and the history ends.
const WORKED: &[Plan] = &[
    Plan::Begin(0),
    Plan::Publish(0),
    Plan::Ask(0, "cut"),
    Plan::Begin(1),
    Plan::Take(1, 0, 20),
    Plan::Publish(1),
    Plan::Ask(0, "cut"),
    Plan::Finish,
    Plan::Ask(0, "cut"),
];

const TWO_CUTS: &[u8] = b"at 1\nlane 0 1\nlane 1 0\nend 2\n\
    at 3\nlane 0 1\nlane 1 2\nend 2\n";

// Events that change no reply wherever they stand: they name no lane or asker, or ask for the end of a session, or tell an
// asker, which is answered on the whole history anyhow.
const IDLE: &[Plan] = &[
    Plan::Begin(2),
    Plan::Take(2, 0, 20),
    Plan::End(2, false),
    Plan::Publish(2),
    Plan::Tell(1, 1),
    Plan::Ask(1, "cut"),
    Plan::Ask(0, "quit"),
    Plan::Tell(0, 9),
];

// Whether these events, one list after the other, come to these replies and this revision.
fn come_to(
    alloc: Global,
    lanes: u32,
    lists: &[&[Plan]],
    replies: &[u8],
    last: u64,
) -> Option<bool> {
    let ran = ran(alloc, lanes, lists)?;
    Some(ran.is(replies, last))
}

// What three lists of events come to with two lanes, one after the other.
fn ran_through(alloc: Global, before: &[Plan], plans: &[Plan], behind: &[Plan]) -> Option<Ran> {
    let mut events = Vec::new(alloc);
    put(alloc, &mut events, before)?;
    put(alloc, &mut events, plans)?;
    put(alloc, &mut events, behind)?;
    run(alloc, 2, 1, &events, 1024, &[])
}

// Whether the worked schedule comes to the two cuts where these events stand before this place of it, and so many of its
// own are left out there. None past its end.
fn come_to_two_cuts(alloc: Global, place: usize, plans: &[Plan], left_out: usize) -> Option<bool> {
    let before = WORKED.get(..place)?;
    let behind = WORKED.get(place.saturating_add(left_out)..)?;
    let ran = ran_through(alloc, before, plans, behind)?;
    Some(ran.is(TWO_CUTS, 3))
}

// The message of the worked schedule, its event 4, in twenty pieces.
const PIECES: &[Plan] = &[
    Plan::Take(1, 0, 1),
    Plan::Take(1, 1, 2),
    Plan::Take(1, 2, 3),
    Plan::Take(1, 3, 4),
    Plan::Take(1, 4, 5),
    Plan::Take(1, 5, 6),
    Plan::Take(1, 6, 7),
    Plan::Take(1, 7, 8),
    Plan::Take(1, 8, 9),
    Plan::Take(1, 9, 10),
    Plan::Take(1, 10, 11),
    Plan::Take(1, 11, 12),
    Plan::Take(1, 12, 13),
    Plan::Take(1, 13, 14),
    Plan::Take(1, 14, 15),
    Plan::Take(1, 15, 16),
    Plan::Take(1, 16, 17),
    Plan::Take(1, 17, 18),
    Plan::Take(1, 18, 19),
    Plan::Take(1, 19, 20),
];

// After the end no event changes anything, nor gives a reply.
const LATE: &[Plan] = &[
    Plan::End(0, false),
    Plan::Publish(0),
    Plan::Ask(0, "routers"),
];

// Whether the worked schedule comes to the two cuts: alone, with what stands after its end, and in pieces.
fn is_worked(alloc: Global) -> bool {
    come_to(alloc, 2, &[WORKED], TWO_CUTS, 3) == Some(true)
        && come_to(alloc, 2, &[WORKED, WORKED, LATE], TWO_CUTS, 3) == Some(true)
        && come_to_two_cuts(alloc, 4, PIECES, 1) == Some(true)
}

// An idle event before each place changes nothing.
#[test]
fn the_worked_schedule(rt: HostRuntime) -> Result<(), Fail> {
    assert!(rt; is_worked(rt.alloc()));
    for plan in IDLE {
        for place in 0..=WORKED.len() {
            let right = come_to_two_cuts(rt.alloc(), place, &[*plan], 0);
            assert!(rt; right == Some(true), "before {place}");
        }
    }
    Ok(())
}

// The connections of one lane: a first one that ends in the midst of a message, and what is idle where a lane has a live
// connection, or none.
const LIVES: &[Plan] = &[
    // there is no connection yet
    Plan::Take(0, 0, 20),
    Plan::End(0, true),
    Plan::Publish(0),
    Plan::Ask(0, "cut"),
    Plan::Begin(0),
    Plan::Take(0, 0, 20),
    // it is live
    Plan::Begin(0),
    Plan::Take(0, 0, 7),
    Plan::End(0, false),
    // it has ended
    Plan::Take(0, 7, 20),
    Plan::End(0, true),
    // the messages first, then the closing alone
    Plan::Publish(0),
    Plan::Ask(0, "routers"),
    Plan::Publish(0),
    Plan::Ask(0, "routers"),
    // nothing is due
    Plan::Publish(0),
    Plan::Ask(0, "cut"),
    Plan::Begin(0),
    Plan::End(0, true),
    Plan::Publish(0),
    Plan::Publish(0),
    Plan::Ask(0, "routers"),
];

const OF_LIVES: &[u8] = b"at 0\nlane 0 0\nend 1\n\
    at 2\n\
    router 0 live peers=0 messages=1 bytes=20 orphans=0 unread=0 mirrored=0 passed=0 name=r1 descr=test\n\
    end 1\n\
    at 3\nrouter 0 closed cutshort 20\nend 1\n\
    at 3\nlane 0 3\nend 1\n\
    at 5\nrouter 0 closed readfault 0\nend 1\n";

// What ends a connection after an Initiation: the bytes that follow, whether a read failed then, and the state of the lane.
#[derive(Clone, Copy)]
struct Row {
    after: &'static str,
    failed: bool,
    reply: &'static str,
}

const ROWS: &[Row] = &[
    Row {
        after: TERMINATION,
        failed: true,
        reply: "at 4\nrouter 0 closed terminated\nend 1\n",
    },
    Row {
        after: VERSION_4,
        failed: true,
        reply: "at 3\nrouter 0 closed broken 20 version\nend 1\n",
    },
    Row {
        after: "",
        failed: false,
        reply: "at 3\nrouter 0 closed ended\nend 1\n",
    },
    Row {
        after: "0300",
        failed: false,
        reply: "at 3\nrouter 0 closed cutshort 20\nend 1\n",
    },
    Row {
        after: "0300",
        failed: true,
        reply: "at 3\nrouter 0 closed readfault 22\nend 1\n",
    },
];

fn put_stream(alloc: Global, events: &mut Vec<Event>, after: &str) -> Option<()> {
    let stream = bytes(alloc, &[INITIATION, after])?;
    events.push(take(alloc, 0, stream.as_slice())?).ok()
}

// Puts a connection of an Initiation and these bytes. Where it is over after them, there is nothing left to end.
fn put_row(alloc: Global, events: &mut Vec<Event>, row: &Row) -> Option<()> {
    let rest = [
        Plan::End(0, row.failed),
        Plan::Publish(0),
        Plan::Publish(0),
        Plan::Ask(0, "routers"),
    ];
    put(alloc, events, &[Plan::Begin(0)])?;
    put_stream(alloc, events, row.after)?;
    put(alloc, events, &rest)
}

fn is_answered(ran: &Ran, reply: &str) -> bool {
    ran.last.is_ok() && ran.out.taken() == reply.as_bytes()
}

// Whether the connection of the row is answered so.
fn ends_so(alloc: Global, row: &Row) -> Option<bool> {
    let mut events = Vec::new(alloc);
    put_row(alloc, &mut events, row)?;
    let ran = run(alloc, 1, 1, &events, 1024, &[])?;
    Some(is_answered(&ran, row.reply))
}

#[test]
fn connections_and_their_ends(rt: HostRuntime) -> Result<(), Fail> {
    assert!(rt; come_to(rt.alloc(), 1, &[LIVES], OF_LIVES, 5) == Some(true));
    for row in ROWS.iter() {
        assert!(rt; ends_so(rt.alloc(), row) == Some(true), "{}", row.reply);
    }
    Ok(())
}

// Whether the schedule failed, and so many bytes of the two cuts were written.
fn is_front(ran: &Ran, written: usize) -> bool {
    let taken = ran.out.taken();
    ran.last == Err(ScheduleFault::Failed) && taken.len() == written && TWO_CUTS.starts_with(taken)
}

// A reply that can't be written ends the schedule; those before it are written, and a front of it may be.
fn fails(alloc: Global, room: u32, calls: &[u64], written: usize) -> Option<bool> {
    let mut events = Vec::new(alloc);
    put(alloc, &mut events, WORKED)?;
    let ran = run(alloc, 2, 1, &events, room, calls)?;
    Some(is_front(&ran, written))
}

// Whether the two faults are these words.
fn are_in_words(alloc: Global, wanted: &str) -> Option<bool> {
    let failed = ScheduleFault::Failed;
    let no_memory = ScheduleFault::NoMemory;
    let words = format!(in alloc; "{failed}, {no_memory}").ok()?;
    Some(words.as_str() == wanted)
}

#[test]
fn writes_that_fail(rt: HostRuntime) -> Result<(), Fail> {
    let words = "a write failed, no memory to run the schedule";
    assert!(rt; are_in_words(rt.alloc(), words) == Some(true));
    for room in 0..58u32 {
        let right = fails(rt.alloc(), room, &[], room as usize);
        assert!(rt; right == Some(true), "room {room}");
    }
    for (call, written) in [(0, 0), (1, 29)] {
        let right = fails(rt.alloc(), 1024, &[call], written);
        assert!(rt; right == Some(true), "call {call}");
    }
    Ok(())
}
