//! The machine: lanes, the published tables of each, and askers.
ghost use Rattle.std.specs.Prelude.{◌≡◌, ◌↔◌, ◌<◌, ◌≤◌, ◌^◌, [], IfOk, IsTrue, OnOk, length, replicate, take, slice_index_or, All};
ghost use Rattle.std.specs.List.{position_or_len};
ghost use Rattle.ask_specs.specs.Asking.{plain};
ghost use Rattle.bmp_specs.specs.Query.{quit};
ghost use Rattle.cut_publisher.specs.Cuts.{total};
ghost use Rattle.cut_publisher.specs.History.{revision};
ghost use Rattle.query_lang.specs.Asks.{ask_value};
ghost use Rattle.rib_model.specs.Entries.{entry_value, entry_values};
ghost use Rattle.station_core.specs.Machine.{Begins, ComesTo, MachineValue, with_end, with_piece, is_closing as closes, next_of};
ghost use Rattle.router_tables.specs.Tables.{StandsFor, TablesValue};
ghost use Rattle.station_core.specs.Schedule.{most_lanes, start_of};
ghost use Rattle.station_core.specs.Standing.{AreFew, AsksOn, HasRoom, HasStepped, MovesLane, ShowsLane, ShowsNext, Stands, TellsOn, as_fault};
ghost use Rattle.station_core.specs.Taking.{IsSound};

use crate::event::Event;
use crate::lane::Lane;
use crate::schedule::ScheduleFault;
use bmp_message::BodyReading;
use cut_publisher::{Cut, CutLane};
use query_eval::answer;
use query_lang::{Ask, Query};
use rib_model::Entry;
use router_tables::RouterTables;
use std::alloc::Global;
use std::sync::Arc;
use wire_io::{NoMemory, Sink};

// Begins a connection on the lane of this number.
fn begin_on<B: BodyReading + Drop>(
    alloc: Global,
    lanes: &mut [Lane<B>],
    number: u32,
) -> Result<(), NoMemory>
    ensures { OnOk result (MovesLane B.meaning B.state (Begins B.meaning) number lanes.old lanes.new) }
{
    let at = number as usize;
    if at >= lanes.len() {
        return Ok(());
    }
    let lane = &mut lanes[at];
    lane.begin(alloc)
}

// Takes a piece of the live connection of the lane of this number.
fn take_on<B: BodyReading + Drop>(
    lanes: &mut [Lane<B>],
    number: u32,
    piece: &[u8],
) -> Result<(), NoMemory>
    requires { (d : _) → number < length lanes.old → IsSound B.meaning B.state (slice_index_or lanes.old number d).due (slice_index_or lanes.old number d).present }
    ensures { OnOk result (MovesLane B.meaning B.state (ComesTo B.meaning (with_piece piece.now)) number lanes.old lanes.new) }
{
    let at = number as usize;
    if at >= lanes.len() {
        return Ok(());
    }
    let lane = &mut lanes[at];
    lane.take(piece)
}

// Ends the live connection of the lane of this number.
fn end_on<B: BodyReading + Drop>(
    lanes: &mut [Lane<B>],
    number: u32,
    failed: bool,
) -> Result<(), NoMemory>
    ensures { OnOk result (MovesLane B.meaning B.state (ComesTo B.meaning (with_end failed)) number lanes.old lanes.new) }
{
    let at = number as usize;
    if at >= lanes.len() {
        return Ok(());
    }
    let lane = &mut lanes[at];
    lane.end(failed)
}

// Whether the entry is a closing.
fn is_closing(entry: &Entry) -> bool
    ensures { result ≡ closes (entry_value entry.now) }
{
    match entry {
        Entry::Closed(_) => true,
        _ => false,
    }
}

// How many of the entries stand before the next closing.
fn count_before_closing(entries: &[Entry]) -> usize
    ensures within { result ≤ length entries.now }
    ensures place { position_or_len (λ e. closes (entry_value e)) entries.now ≡ result }
{
    for (at, entry) in entries.iter().enumerate() {
        if is_closing(entry) {
            return at;
        }
    }
    entries.len()
}

// How many of the pending entries are published next.
fn count_next(pending: &[Entry]) -> usize
    ensures within { result ≤ length pending.now }
    ensures next { entry_values (take result pending.now) ≡ next_of (entry_values pending.now) }
{
    let before = count_before_closing(pending);
    before.max(1).min(pending.len())
}

// Publishes the next of the entries that are due: what is then shown of the lane.
fn shown_next(
    alloc: Global,
    due: &[Entry],
    shown: &CutLane<RouterTables>,
) -> Result<CutLane<RouterTables>, NoMemory>
    requires { shown.now.1 ≤ length due.now }
    ensures { IfOk result (ShowsNext due.now shown.now) }
{
    let pending = &due[shown.count as usize..];
    let entries = &pending[..count_next(pending)];
    Ok(CutLane {
        value: Arc::new(alloc, shown.value.with(entries)?)?,
        count: shown.count + entries.len() as u64,
    })
}

// Publishes the next entries of the lane of this number.
fn publish_on<B: BodyReading + Drop>(
    alloc: Global,
    lanes: &[Lane<B>],
    shown: &mut [CutLane<RouterTables>],
    number: u32,
) -> Result<(), NoMemory>
    requires count { length shown.old ≡ length lanes.now }
    requires due { (d : _) (e : _) → number < length lanes.now → (slice_index_or shown.old number e).1 ≤ length (slice_index_or lanes.now number d).due }
    ensures { OnOk result (ShowsLane lanes.now number shown.old shown.new) }
{
    let at = number as usize;
    if at >= lanes.len() {
        return Ok(());
    }
    let next = shown_next(alloc, lanes[at].due.as_slice(), &shown[at])?;
    shown[at] = next;
    Ok(())
}

// How many entries are published of all lanes.
fn revision_of(shown: &[CutLane<RouterTables>]) -> u64
    requires lanes { length shown.now ≤ most_lanes }
    requires counts { All (λ x. x.1 ≤ 2 ^ 57) shown.now }
    ensures { result ≡ total shown.now }
{
    let mut sum = 0;
    for lane in shown {
        sum += lane.count;
    }
    sum
}

// Tells an asker of a revision.
fn tell_on(shown: &[CutLane<RouterTables>], seen: &mut [u64], asker: u32, rev: u64)
    requires lanes { length shown.now ≤ most_lanes }
    requires counts { All (λ x. x.1 ≤ 2 ^ 57) shown.now }
    ensures { TellsOn shown.now asker rev seen.old seen.new }
{
    let at = asker as usize;
    if at < seen.len() {
        seen[at] = seen[at].max(rev).min(revision_of(shown));
    }
}

fn is_quit(ask: &Ask) -> bool
    ensures { IsTrue result ↔ (ask_value ask.now ≡ plain quit) }
{
    match ask {
        Ask::Query(Query::Quit) => true,
        _ => false,
    }
}

// Answers what an asker asks.
fn ask_on<O: Sink>(
    alloc: Global,
    shown: &[CutLane<RouterTables>],
    seen: &mut [u64],
    asker: u32,
    ask: &Ask,
    out: &mut O,
) -> Result<(), ScheduleFault>
    requires some { 0 < length shown.now }
    requires lanes { length shown.now ≤ most_lanes }
    requires counts { All (λ x. x.1 ≤ 2 ^ 57) shown.now }
    ensures { AsksOn O.faults O.told O.aside shown.now asker (ask_value ask.now) seen.old seen.new out.old out.new result }
{
    let at = asker as usize;
    if at >= seen.len() {
        return Ok(());
    }
    if is_quit(ask) {
        return Ok(());
    }
    let cut = match Cut::of(alloc, shown) {
        Ok(cut) => cut,
        Err(_) => return Err(ScheduleFault::NoMemory),
    };
    match answer(&cut, ask, out) {
        Ok(()) => {
            seen[at] = cut.rev();
            Ok(())
        }
        Err(_) => Err(ScheduleFault::Failed),
    }
}

/// The machine: its lanes, the tables that are published of each, how much of the history each asker has seen, and
/// whether the history has ended.
#[derive(Drop)]
pub(crate) struct Machine<B> {
    lanes: Vec<Lane<B>>,
    shown: Vec<CutLane<RouterTables>>,
    seen: Vec<u64>,
    finished: bool,
}

// Out of memory, as a schedule tells it.
fn as_schedule_fault(done: Result<(), NoMemory>) -> Result<(), ScheduleFault>
    ensures { result ≡ as_fault done }
{
    match done {
        Ok(()) => Ok(()),
        Err(_) => Err(ScheduleFault::NoMemory),
    }
}

// Lanes without connections, so many.
fn new_lanes<B: BodyReading + Drop>(alloc: Global, count: u32) -> Result<Vec<Lane<B>>, NoMemory>
    ensures { IfOk result (λ lanes. lanes.items ≡ replicate count (record { due = []; present = None })) }
{
    let mut lanes = Vec::new(alloc);
    for _lane in 0..count {
        lanes.push(Lane::new(alloc))?;
    }
    Ok(lanes)
}

// Of so many lanes nothing is published.
fn new_shown(alloc: Global, count: u32) -> Result<Vec<CutLane<RouterTables>>, NoMemory>
    ensures { IfOk result (λ shown. (tables : TablesValue) × StandsFor tables [] × (shown.items ≡ replicate count (tables, 0))) }
{
    let tables = Arc::new(alloc, RouterTables::new(alloc)?)?;
    let mut shown = Vec::new(alloc);
    for _lane in 0..count {
        shown.push(CutLane {
            value: Arc::try_clone(&tables)?,
            count: 0,
        })?;
    }
    Ok(shown)
}

impl<B: BodyReading + Drop> Machine<B> {
    /// So many lanes without connections, so many askers that have seen nothing, and the empty history.
    pub(crate) fn new(alloc: Global, lanes: u32, askers: u32) -> Result<Machine<B>, NoMemory>
        requires { (0 < lanes) × (lanes ≤ most_lanes) }
        ensures { IfOk result (λ m. Stands B.meaning B.state m.lanes.items m.shown.items m.seen.items m.finished (start_of lanes askers)) }
    {
        Ok(Machine {
            lanes: new_lanes(alloc, lanes)?,
            shown: new_shown(alloc, lanes)?,
            seen: vec![in alloc; 0u64; askers as usize]?,
            finished: false,
        })
    }

    /// Does what the event does, and writes its reply.
    pub(crate) fn step<O: Sink>(
        &mut self,
        alloc: Global,
        event: &Event,
        out: &mut O,
    ) -> Result<(), ScheduleFault>
        requires { HasRoom B.meaning B.state self.old.lanes.items self.old.shown.items self.old.seen.items self.old.finished }
        ensures { (v : MachineValue) → Stands B.meaning B.state self.old.lanes.items self.old.shown.items self.old.seen.items self.old.finished v → AreFew v
            → HasStepped O.faults O.told O.aside B.meaning B.state event.now v out.old out.new self.new.lanes.items self.new.shown.items self.new.seen.items self.new.finished result }
    {
        if self.finished {
            return Ok(());
        }
        match event {
            Event::Begin { lane } => { as_schedule_fault(begin_on(alloc, &mut self.lanes, *lane)) }
            Event::Take { lane, piece } => {
                as_schedule_fault(take_on(&mut self.lanes, *lane, piece.as_slice()))
            }
            Event::End { lane, failed } => {
                as_schedule_fault(end_on(&mut self.lanes, *lane, *failed))
            }
            Event::Publish { lane } => {
                as_schedule_fault(publish_on(alloc, &self.lanes, &mut self.shown, *lane))
            }
            Event::Tell { asker, rev } => {
                tell_on(&self.shown, &mut self.seen, *asker, *rev);
                Ok(())
            }
            Event::Ask { asker, ask } => {
                ask_on(alloc, &self.shown, &mut self.seen, *asker, ask, out)
            }
            Event::Finish => {
                self.finished = true;
                Ok(())
            }
        }
    }

    /// How many entries the history has.
    pub(crate) fn revision(&self) -> u64
        requires { HasRoom B.meaning B.state self.now.lanes.items self.now.shown.items self.now.seen.items self.now.finished }
        ensures { (v : MachineValue) → Stands B.meaning B.state self.now.lanes.items self.now.shown.items self.now.seen.items self.now.finished v → AreFew v → result ≡ revision v.history }
    {
        revision_of(&self.shown)
    }
}
