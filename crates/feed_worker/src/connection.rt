//! One connection of a router, taken read by read.
ghost use Rattle.std.specs.Prelude.{◌≡◌, ◌+◌, ◌<◌, ◌≤◌, ◌^◌, ◌∷◌, [], Some, None, IsTrue, length, MatchResult};
ghost use Rattle.bmp_specs.specs.Life.{cause_at_end};
ghost use Rattle.bmp_specs.specs.Values.{closed};
ghost use Rattle.bmp_message.specs.StreamWalk.{HasReached, fed_of, rest_of};
ghost use Rattle.station_doors.specs.Doors.{Closes, told_after};
ghost use Rattle.station_doors.specs.Told.{KeepsOpening};
ghost use Rattle.feed_worker.specs.Connection.{IsNew, TakesConnection, BreaksConnection};
ghost use Rattle.feed_worker.specs.Opening.{opening_of};
ghost use Rattle.feed_worker.specs.Publishing.{Grows};

use crate::feed_port::FeedPort;
use crate::front::Front;
use crate::publishing::{publish_entries, publish_piece};
use bmp_message::{BodyReading, StreamWalk};
use bmp_specs::{Cause, MOST_READ, MOST_TAKEN};
use cut_publisher::{FeedPass, Naming, Publisher};
use rib_model::{Closing, Entry, Opening};
use router_tables::RouterTables;
use std::alloc::Global;
use std::sync::{Arc, Wait};
use wire_io::NoMemory;

/// Takes the present connection of the port, of which no byte was given, to its end, and tells why it ended. The pass
/// publishes its opening, with what the port tells of where it came from and when, and then its messages as `B` reads them,
/// those of one read in one step. The closing is left to `close_connection`. The port gives no bytes while a message of the
/// earlier ones is unpublished.
///
/// | Cause | Exactly where |
/// |---|---|
/// | `Terminated` | a Termination Message was taken (RFC 7854, section 4.5) |
/// | `Broken` | what stands at the offset is no message, for that reason |
/// | `Full` | 2^46 bytes were taken |
/// | `Ended` | the input ended after a message |
/// | `CutShort` | the input ended inside the message at the offset |
/// | `ReadFault` | a read failed; the offset is the number of bytes taken |
///
/// Where several fit, it is the first. A connection that ends for one of the first two reasons is read no further than
/// the read that brought it. Out of memory, the connection is still open, and the pass published the opening and
/// the messages of all reads but the last, or of all; or nothing, and then nothing was read.
pub fn take_connection<B: BodyReading + Drop, J: Naming, P: FeedPort<B, J>, R: Wait>(
    rt: &R,
    alloc: Global,
    publisher: &Publisher<RouterTables, J>,
    pass: &mut FeedPass<RouterTables>,
    port: &mut P,
) -> Result<Cause, NoMemory>
    requires station { pass.old.station ≡ J.site }
    requires room { length pass.old.entries + 2 ^ 44 ≤ 2 ^ 57 }
    requires new { IsNew (P.aside port.old) }
    ensures taken { MatchResult result (TakesConnection B.meaning (opening_of (P.tells port.old)) (P.aside port.old) (P.aside port.new) pass.old pass.new)
        (λ _. BreaksConnection B.meaning (opening_of (P.tells port.old)) (P.last_began port.new) (P.aside port.old) (P.aside port.new) pass.old pass.new) }
    ensures causes { P.causes port.new ≡ P.causes port.old }
    ensures tells { P.tells port.new ≡ P.tells port.old }
{
    let mut walk = StreamWalk::<B>::new(alloc);
    take_by::<B, J, P, R>(rt, alloc, publisher, pass, port, &mut walk)
}

// Takes it by a walk to which nothing was fed yet.
fn take_by<B: BodyReading + Drop, J: Naming, P: FeedPort<B, J>, R: Wait>(
    rt: &R,
    alloc: Global,
    publisher: &Publisher<RouterTables, J>,
    pass: &mut FeedPass<RouterTables>,
    port: &mut P,
    walk: &mut StreamWalk<B>,
) -> Result<Cause, NoMemory>
    requires station { pass.old.station ≡ J.site }
    requires room { length pass.old.entries + 2 ^ 44 ≤ 2 ^ 57 }
    requires new { IsNew (P.aside port.old) }
    requires unfed { HasReached B.meaning B.state [] [] walk.old }
    requires start { (walk.old.offset ≡ 0) × (fed_of walk.old ≡ 0) }
    ensures taken { MatchResult result (TakesConnection B.meaning (opening_of (P.tells port.old)) (P.aside port.old) (P.aside port.new) pass.old pass.new)
        (λ _. BreaksConnection B.meaning (opening_of (P.tells port.old)) (P.last_began port.new) (P.aside port.old) (P.aside port.new) pass.old pass.new) }
    ensures causes { P.causes port.new ≡ P.causes port.old }
    ensures tells { P.tells port.new ≡ P.tells port.old }
{
    let came = port.told();
    let opening = Opening {
        from: came.from,
        since: came.since,
    };
    publish_entries(rt, alloc, publisher, pass, &[Entry::Opened(opening)])?;
    let mut buf = [0u8; MOST_READ as usize];
    let mut front = Front::new();
    let mut taken = 0;
    while taken < MOST_TAKEN {
        let size = MOST_READ.min(MOST_TAKEN - taken) as usize;
        match port.read(pass, &mut buf[..size]) {
            Ok(0) => return Ok(cause_of_end(walk)),
            Ok(count) => {
                taken += count as u64;
                let piece = &buf[..count];
                let end = publish_piece::<B, J, P, R>(
                    rt, alloc, publisher, pass, port, walk, &mut front, piece,
                )?;
                if let Some(cause) = end {
                    return Ok(cause);
                }
            }
            Err(_) => return Ok(Cause::ReadFault { offset: taken }),
        }
    }
    Ok(Cause::Full)
}

/// Why a connection ended of which nothing more came.
pub fn cause_of_end<B: BodyReading>(walk: &StreamWalk<B>) -> Cause
    ensures { result ≡ cause_at_end (rest_of walk.now) walk.now.offset }
{
    if walk.rest() == 0 {
        Cause::Ended
    } else {
        Cause::CutShort {
            offset: walk.offset(),
        }
    }
}

/// Lends these tables.
pub(crate) fn lent(tables: &Option<Arc<RouterTables>>) -> Option<&RouterTables> {
    match tables {
        Some(tables) => {
            let tables: &RouterTables = tables;
            Some(tables)
        }
        None => None,
    }
}

/// Closes the present connection, publishes that it closed, why, and when as the port tells, and tells the port why. Out of
/// memory, it is closed, the pass is as before, and the port is told no cause. What the port tells of where the connection
/// came from and when stays, so the closing that is published is of the connection whose opening was.
pub fn close_connection<B: BodyReading, J: Naming, P: FeedPort<B, J>, R: Wait>(
    rt: &R,
    alloc: Global,
    publisher: &Publisher<RouterTables, J>,
    pass: &mut FeedPass<RouterTables>,
    port: &mut P,
    cause: Cause,
) -> Result<(), NoMemory>
    requires station { pass.old.station ≡ J.site }
    requires room { length pass.old.entries < 2 ^ 57 }
    requires is_open { IsTrue (P.aside port.old).is_open }
    ensures pass { MatchResult result (λ _. Grows pass.old pass.new (closed (record { cause = cause; until = (P.tells port.new).until }) ∷ [])) (λ _. pass.new ≡ pass.old) }
    ensures closes { Closes (P.aside port.old) (P.aside port.new) }
    ensures calls { P.calls port.new ≡ P.calls port.old }
    ensures began { P.last_began port.new ≡ P.last_began port.old }
    ensures keeps { KeepsOpening (P.tells port.old) (P.tells port.new) }
    ensures told { MatchResult result (λ _. P.causes port.new ≡ told_after (P.causes port.old) (Some cause)) (λ _. P.causes port.new ≡ told_after (P.causes port.old) None) }
{
    port.close();
    let closing = Closing {
        cause,
        until: port.told().until,
    };
    let tables = pass.last();
    match publish_entries(rt, alloc, publisher, pass, &[Entry::Closed(closing)]) {
        Ok(()) => {
            port.ended(lent(&tables), Some(cause));
            Ok(())
        }
        Err(fault) => {
            port.ended(lent(&tables), None);
            Err(fault)
        }
    }
}
