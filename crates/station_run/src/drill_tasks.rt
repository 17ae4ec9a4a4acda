//! The works of a drill.
ghost use Rattle.std.specs.Prelude.{◌≡◌, ◌<◌, ◌∷◌, [], IfOk, IsTrue, length, OnOk, Some};
ghost use Rattle.bmp_specs.specs.Life.{most_taken};
ghost use Rattle.feed_worker.specs.Connection.{IsNew};
ghost use Rattle.rib_model.specs.Entries.{entry_values};
ghost use Rattle.station_run.specs.Drill.{IsTakenWhole};

use crate::tasks::AskWork;
use crate::works::Work;
use bmp_message::Reading;
use core::mem::replace;
use cut_publisher::{FeedPass, Naming, Publisher};
use feed_worker::{LanePort, take_connection};
use router_tables::RouterTables;
use station_doors::{Port, SureLink, SurePort};
use std::alloc::Global;
use std::sync::Wait;
use std::thread::Threads;
use wire_io::{ByteList, NoMemory};

/// The most bytes that a read of a lane's stream gives.
const PIECE: u32 = 4096;

/// The work of a lane: its pass, its stream, and whether it took the stream whole.
#[derive(Drop)]
pub struct DrillLane {
    pub pass: FeedPass<RouterTables>,
    pub stream: ByteList,
    pub is_whole: bool,
}

/// The work of a lane or of an asker.
#[derive(Drop)]
pub enum DrillTask {
    Lane(DrillLane),
    Ask(AskWork<SureLink>),
}

impl<J: Naming + Send + Sync> Work<RouterTables, J> for DrillTask {
    ghost use Rattle.station_run.specs.Drill.{drill_station, MayDrill, HasDrilled};

    ghost station = { drill_station };

    ghost ready = { MayDrill };

    ghost done = { HasDrilled };

    fn work<R: Threads + Wait + Sync>(
        &mut self,
        rt: &R,
        alloc: Global,
        publisher: &Publisher<RouterTables, J>,
    ) {
        match self {
            DrillTask::Lane(lane) => lane.take(rt, alloc, publisher),
            DrillTask::Ask(work) => work.serve(),
        }
    }
}

// A port whose one connection, which is open, has these bytes.
fn open_port(alloc: Global, stream: ByteList) -> Result<LanePort<SurePort>, NoMemory>
    ensures new { IfOk result (λ port. IsNew port.shows) }
    ensures rest { IfOk result (λ port. port.shows.rest ≡ Some stream) }
    ensures plan { IfOk result (λ port. port.shows.plan ≡ Some (record { connections = stream ∷ []; fails = [] })) }
{
    let mut port = SurePort::new(alloc, &[stream], PIECE)?;
    match port.next_connection() {
        Ok(true) => Ok(LanePort::new(port)),
        // no port of a drill ends or fails before its first connection
        Ok(false) | Err(_) => unreachable!(),
    }
}

// Takes a stream whole, and publishes its opening and its messages.
fn take_stream<J: Naming, R: Wait>(
    rt: &R,
    alloc: Global,
    publisher: &Publisher<RouterTables, J>,
    pass: &mut FeedPass<RouterTables>,
    stream: ByteList,
) -> Result<(), NoMemory>
    requires station { pass.old.station ≡ J.site }
    requires none { pass.old.entries ≡ [] }
    requires short { length stream < most_taken }
    ensures station { pass.new.station ≡ pass.old.station }
    ensures lane { pass.new.lane ≡ pass.old.lane }
    ensures whole { OnOk result (IsTakenWhole stream (entry_values pass.new.entries)) }
{
    let mut port = open_port(alloc, stream)?;
    take_connection::<Reading, J, LanePort<SurePort>, R>(rt, alloc, publisher, pass, &mut port)?;
    Ok(())
}

impl DrillLane {
    ghost use Rattle.station_run.specs.Drill.{LaneHasDrilled, LaneMayDrill};

    // Takes the lane's stream, and leaves the connection as it is.
    fn take<J: Naming, R: Wait>(
        &mut self,
        rt: &R,
        alloc: Global,
        publisher: &Publisher<RouterTables, J>,
    )
        requires station { self.old.pass.station ≡ J.site }
        requires ready { LaneMayDrill self.old }
        ensures { LaneHasDrilled self.old self.new }
    {
        let stream = replace(&mut self.stream, ByteList::new(alloc));
        let taken = take_stream(rt, alloc, publisher, &mut self.pass, stream);
        self.is_whole = taken.is_ok();
    }
}
