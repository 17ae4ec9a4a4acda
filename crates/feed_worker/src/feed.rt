//! The connections of a lane, one after another.
ghost use Rattle.std.specs.Prelude.{◌≡◌, ◌+◌, ◌≤◌, ◌^◌, false, IsTrue, length, MatchResult};
ghost use Rattle.rib_model.specs.Entries.{entry_values};
ghost use Rattle.station_doors.specs.Doors.{Opens, opened_one};
ghost use Rattle.feed_worker.specs.Closings.{AreTold};
ghost use Rattle.feed_worker.specs.Connection.{IsNew};
ghost use Rattle.feed_worker.specs.Feed.{Concludes, EndsFeed, IsBegunOf, IsLifeOf, Refuses};
ghost use Rattle.feed_worker.specs.FeedPort.{IsAtRest};

use crate::connection::{close_connection, lent, take_connection};
use crate::feed_port::FeedPort;
use bmp_message::BodyReading;
use cut_publisher::{FeedPass, Naming, Publisher};
use router_tables::RouterTables;
use std::alloc::Global;
use std::sync::Wait;
use thiserror::Error;
use wire_io::NoMemory;

/// The most entries of a pass with which a round begins, 2^56. A connection adds fewer than 2^44.
const MOST_ENTRIES: u64 = 0x0100_0000_0000_0000;

/// How the work of a lane ended.
#[derive(Clone, Copy, Debug, PartialEq, Eq, Error)]
pub enum LaneEnd {
    /// As many connections were served as it was to serve, or no further one was opened.
    #[error("no further connection is served")]
    Over,

    /// Out of memory.
    #[error("out of memory")]
    NoMemory,
}

/// Whether the next connection was opened. There may be none, or opening it may fail.
fn opens<B: BodyReading, J: Naming, P: FeedPort<B, J>>(
    pass: &FeedPass<RouterTables>,
    port: &mut P,
) -> bool
    requires station { pass.now.station ≡ J.site }
    requires at_rest { IsAtRest (entry_values pass.now.entries) }
    ensures opens { IsTrue result → Opens (P.aside port.old) (P.aside port.new) opened_one }
    ensures refuses { result ≡ false → Refuses (P.aside port.old) (P.aside port.new) }
    ensures causes { P.causes port.new ≡ P.causes port.old }
{
    match port.next_connection(pass) {
        Ok(more) => more,
        Err(_) => false,
    }
}

/// Takes the present connection, of which nothing was read yet, and closes it.
fn serve_connection<B: BodyReading + Drop, J: Naming, P: FeedPort<B, J>, R: Wait>(
    rt: &R,
    alloc: Global,
    publisher: &Publisher<RouterTables, J>,
    pass: &mut FeedPass<RouterTables>,
    port: &mut P,
) -> Result<(), NoMemory>
    requires station { pass.old.station ≡ J.site }
    requires room { length pass.old.entries + 2 ^ 44 ≤ 2 ^ 57 }
    requires new { IsNew (P.aside port.old) }
    ensures concludes { MatchResult result
        (λ _. Concludes B.meaning (IsLifeOf B.meaning) (P.aside port.old) (P.aside port.new) pass.old pass.new)
        (λ _. Concludes B.meaning (IsBegunOf B.meaning (P.last_began port.new)) (P.aside port.old) (P.aside port.new) pass.old pass.new) }
    ensures told { AreTold (P.causes port.old) (entry_values pass.old.entries) → AreTold (P.causes port.new) (entry_values pass.new.entries) }
{
    match take_connection::<B, J, P, R>(rt, alloc, publisher, pass, port) {
        Ok(cause) => close_connection::<B, J, P, R>(rt, alloc, publisher, pass, port, cause),
        Err(fault) => {
            port.close();
            let tables = pass.last();
            port.ended(lent(&tables), None);
            Err(fault)
        }
    }
}

/// Serves up to so many connections of the port, one after another: takes each as `B` reads it, publishes its opening,
/// its messages and its closing, and closes it. All of that is published before the next one is asked for. `Over`
/// exactly where as many were served, or no further one was opened: there was none, or it failed, or the pass has more
/// than 2^56 entries, which up to 4,096 rounds of a pass that had none don't come to. Out of memory, the pass published
/// the opening of the last connection and the messages of all its reads but the last, or of all; or nothing of it, and
/// then nothing was read. It is closed too, and no further one is opened. The port is told how each ended: where it keeps
/// the causes, and they were those of the closings that the pass had published, they are so again.
pub fn serve_feed<B: BodyReading + Drop, J: Naming, P: FeedPort<B, J>, R: Wait>(
    rt: &R,
    alloc: Global,
    publisher: &Publisher<RouterTables, J>,
    pass: &mut FeedPass<RouterTables>,
    port: &mut P,
    rounds: u32,
) -> LaneEnd
    requires station { pass.old.station ≡ J.site }
    requires at_rest { IsAtRest (entry_values pass.old.entries) }
    ensures ends { EndsFeed B.meaning (P.last_began port.new) rounds (P.aside port.old) (P.aside port.new) pass.old pass.new result }
    ensures told { AreTold (P.causes port.old) (entry_values pass.old.entries) → AreTold (P.causes port.new) (entry_values pass.new.entries) }
{
    let mut served = 0;
    while served < rounds {
        if pass.count() > MOST_ENTRIES {
            return LaneEnd::Over;
        }
        if !opens::<B, J, P>(pass, port) {
            return LaneEnd::Over;
        }
        match serve_connection::<B, J, P, R>(rt, alloc, publisher, pass, port) {
            Ok(()) => {}
            Err(_) => return LaneEnd::NoMemory,
        }
        served += 1;
    }
    LaneEnd::Over
}
