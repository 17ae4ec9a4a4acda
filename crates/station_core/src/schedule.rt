//! Schedules of events, run one after another.
ghost use Rattle.std.specs.Prelude.{◌≡◌, ◌<◌, ◌≤◌, ℕ};
ghost use Rattle.bmp_specs.specs.MessageEffects.{strict};
ghost use Rattle.station_core.specs.Schedule.{Leaves, begun_on, most_lanes, start_of};

use crate::event::Event;
use crate::machine::Machine;
use bmp_message::{BodyReading, Reading};
use std::alloc::Global;
use thiserror::Error;
use wire_io::Sink;

/// Why a schedule was not run to its end.
#[derive(Clone, Copy, Debug, PartialEq, Eq, Error)]
pub enum ScheduleFault {
    /// A write failed.
    #[error("a write failed")]
    Failed,

    /// There is no memory to go on.
    #[error("no memory to run the schedule")]
    NoMemory,
}

// Runs the events on a machine whose lanes read bodies as `B`.
fn run<B: BodyReading + Drop, O: Sink>(
    alloc: Global,
    lanes: u32,
    askers: u32,
    events: &[Event],
    out: &mut O,
) -> Result<u64, ScheduleFault>
    requires lanes { (0 < lanes) × (lanes ≤ most_lanes) }
    requires begun { (lane : ℕ) → lane < lanes → begun_on lane events.now ≤ 4096 }
    ensures leaves { Leaves O.faults O.told B.meaning events.now (start_of lanes askers) out.old out.new result }
    ensures kept { O.aside out.new ≡ O.aside out.old }
{
    let mut machine = match Machine::<B>::new(alloc, lanes, askers) {
        Ok(machine) => machine,
        Err(_) => return Err(ScheduleFault::NoMemory),
    };
    for event in events {
        if let Err(fault) = machine.step(alloc, event, out) {
            return Err(fault);
        }
    }
    Ok(machine.revision())
}

/// Runs the machine of so many lanes and askers over these events, one after another, on this thread. It writes the
/// reply of each `Ask`, which is of the whole history, and answers the last revision: how many entries the history has
/// at the end. Both numbers are from 1 to 64, and at most 4,096 of the events begin a connection of one
/// lane. Bodies are read by the RFCs alone.
///
/// An event changes nothing and gives no reply where it names no lane or asker, begins a connection on a lane that has
/// a live one, takes or ends one on a lane that has none, asks for the end of a session, or comes after `Finish`. A
/// connection is live until a cause of its end is there: a Termination Message (RFC 7854, section 4.5), what is no
/// message, 2^46 bytes, or `End`.
///
/// `Failed` only where a write failed, which ended the call. After a fault a front of the replies was written. It keeps
/// all entries of the schedule, and a publication costs what `RouterTables::with` costs.
pub fn run_schedule<O: Sink>(
    alloc: Global,
    lanes: u32,
    askers: u32,
    events: &[Event],
    out: &mut O,
) -> Result<u64, ScheduleFault>
    requires lanes { (0 < lanes) × (lanes ≤ most_lanes) }
    requires askers { (0 < askers) × (askers ≤ most_lanes) }
    requires begun { (lane : ℕ) → lane < lanes → begun_on lane events.now ≤ 4096 }
    ensures leaves { Leaves O.faults O.told strict events.now (start_of lanes askers) out.old out.new result }
    ensures kept { O.aside out.new ≡ O.aside out.old }
{
    run::<Reading, O>(alloc, lanes, askers, events, out)
}
