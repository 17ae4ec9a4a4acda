//! Schedules of the machine of lanes and askers, which runs them on one thread.
ghost use Rattle.std.specs.Prelude.{◌<◌, ◌≤◌};

mod drills;
mod orders;
mod schedules;

use query_lang::parse_ask;
use station_core::{Event, ScheduleFault, run_schedule};
use std::alloc::Global;
use wire_io::{ByteList, MemSink};

// What a schedule left: the replies that were written, and how it ended.
#[derive(Drop)]
pub(crate) struct Ran {
    pub(crate) out: MemSink,
    pub(crate) last: Result<u64, ScheduleFault>,
}

impl Ran {
    // Whether the schedule was run to its end with these replies and this last revision.
    pub(crate) fn is(&self, replies: &[u8], last: u64) -> bool {
        self.last == Ok(last) && self.out.taken() == replies
    }
}

// Runs the events, where the sink has so much room and its writes with these numbers fail. None where there are more than
// 4,096 events.
pub(crate) fn run(
    alloc: Global,
    lanes: u32,
    askers: u32,
    events: &[Event],
    room: u32,
    fails: &[u64],
) -> Option<Ran>
    requires lanes { (0 < lanes) × (lanes ≤ 64) }
    requires askers { (0 < askers) × (askers ≤ 64) }
{
    if events.len() > 4096 {
        return None;
    }
    let mut out = MemSink::new(alloc, room, fails).ok()?;
    let last = run_schedule(alloc, lanes, askers, events, &mut out);
    Some(Ran { out, last })
}

// A piece of the lane's live connection.
pub(crate) fn take(alloc: Global, lane: u32, bytes: &[u8]) -> Option<Event> {
    let mut piece = ByteList::new(alloc);
    piece.extend(bytes).ok()?;
    Some(Event::Take { lane, piece })
}

// What the asker asks by this line.
pub(crate) fn ask(asker: u32, line: &[u8]) -> Option<Event> {
    match parse_ask(line) {
        Some(ask) => Some(Event::Ask { asker, ask }),
        None => None,
    }
}
