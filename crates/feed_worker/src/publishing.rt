//! What one read brings, published in one step.
ghost use Rattle.std.specs.Prelude.{◌≡◌, ◌++◌, ◌≤◌, ◌^◌, ℕ, List, length, IfOk, MatchResult};
ghost use Rattle.bmp_specs.specs.Values.{EntryValue, OpeningValue};
ghost use Rattle.bmp_message.specs.StreamWalk.{HasReached, fed_of, Gives};
ghost use Rattle.cut_publisher.specs.History.{Fed};
ghost use Rattle.rib_model.specs.Entries.{entry_values};
ghost use Rattle.feed_worker.specs.Front.{BreaksIfBroken, IsFront, IsFrontAt, place_of};
ghost use Rattle.feed_worker.specs.Publishing.{Grows};
ghost use Rattle.feed_worker.specs.Walking.{HasPublished, HasRoom, Publishes};

use crate::feed_port::FeedPort;
use crate::front::Front;
use bmp_message::{BodyReading, Entries, Progress, StreamWalk};
use bmp_specs::Cause;
use cut_publisher::{FeedPass, Naming, Publisher, publish_unnoted};
use rib_model::Entry;
use router_tables::RouterTables;
use std::alloc::Global;
use std::sync::{Arc, Wait};
use wire_io::{List, NoMemory, Unplaced};

/// Publishes these entries in one step, with the tables that they leave: new ones, made of the pass's and the entries.
/// Where there are none, nothing is published.
pub(crate) fn publish_entries<J: Naming, R: Wait>(
    rt: &R,
    alloc: Global,
    publisher: &Publisher<RouterTables, J>,
    pass: &mut FeedPass<RouterTables>,
    entries: &[Entry],
) -> Result<(), NoMemory>
    requires station { pass.old.station ≡ J.site }
    requires room { length (pass.old.entries ++ entries.now) ≤ 2 ^ 57 }
    ensures { MatchResult result (λ _. Grows pass.old pass.new (entry_values entries.now)) (λ _. pass.new ≡ pass.old) }
{
    if entries.is_empty() {
        return Ok(());
    }
    let tables = Arc::new(alloc, pass.value().with(entries)?)?;
    // The tables before are let go here, once no cut holds them: not under the lock, and by no other lane.
    let last = pass.last();
    match publish_unnoted(rt, alloc, publisher, pass, entries, tables) {
        Ok(()) => {
            drop(last);
            Ok(())
        }
        Err(_) => Err(NoMemory),
    }
}

/// The messages that a walk gave, and why it ended, if it did.
#[derive(Drop)]
struct Gathered {
    entries: List<Entry>,
    end: Option<Cause>,
}

/// Gathers all whole messages that the walk has.
fn gather<B: BodyReading + Drop>(
    alloc: Global,
    walk: &mut StreamWalk<B>,
) -> Result<Gathered, NoMemory>
    ensures gives { IfOk result (λ gathered. (fed : List ℕ) (given : List EntryValue)
        → HasReached B.meaning B.state fed given walk.old
        → Gives B.meaning B.state fed (given ++ entry_values gathered.entries) walk.new gathered.end) }
    ensures fed { fed_of walk.new ≡ fed_of walk.old }
{
    let mut entries = List::new(alloc);
    loop {
        match walk.next::<Entries>()? {
            Progress::Message(entry) => match entries.push(entry) {
                Ok(()) => {}
                Err(Unplaced::NoMemory { .. }) => return Err(NoMemory),
            },
            Progress::More => {
                return Ok(Gathered { entries, end: None });
            }
            Progress::Terminated => {
                return Ok(Gathered {
                    entries,
                    end: Some(Cause::Terminated),
                });
            }
            Progress::Broken(why) => {
                return Ok(Gathered {
                    entries,
                    end: Some(Cause::Broken {
                        offset: walk.offset(),
                        why,
                    }),
                });
            }
        }
    }
}

// Where the walk stands, or broke.
fn stands_at<B: BodyReading>(walk: &StreamWalk<B>, end: Option<Cause>) -> u64
    ensures { result ≡ place_of walk.now.offset end }
{
    match end {
        Some(Cause::Broken { offset, .. }) => offset,
        _ => walk.offset(),
    }
}

// Tells the port of a connection that broke, and with which octets.
fn tell_break<B: BodyReading, J: Naming, P: FeedPort<B, J>>(
    port: &mut P,
    end: Option<Cause>,
    front: &Front,
)
    requires { BreaksIfBroken B.meaning (P.aside port.old).given end front.now.octets }
    ensures aside { P.aside port.new ≡ P.aside port.old }
    ensures began { P.last_began port.new ≡ P.last_began port.old }
    ensures causes { P.causes port.new ≡ P.causes port.old }
    ensures tells { P.tells port.new ≡ P.tells port.old }
{
    if let Some(Cause::Broken { offset, .. }) = end {
        port.broke(offset, front.as_slice());
    }
}

/// Feeds a piece of a connection to its walk, publishes all messages that are whole with it in one step, and tells them to the
/// port. Tells why the walk ended, if it did; where the connection broke the port is told the octets. The front then has the
/// first octets beyond the messages. Out of memory, nothing is published, and the port is told nothing.
pub(crate) fn publish_piece<B: BodyReading + Drop, J: Naming, P: FeedPort<B, J>, R: Wait>(
    rt: &R,
    alloc: Global,
    publisher: &Publisher<RouterTables, J>,
    pass: &mut FeedPass<RouterTables>,
    port: &mut P,
    walk: &mut StreamWalk<B>,
    front: &mut Front,
    piece: &[u8],
) -> Result<Option<Cause>, NoMemory>
    requires station { pass.old.station ≡ J.site }
    requires room { HasRoom B.meaning B.state pass.old walk.old (P.aside port.old).given front.old.octets piece.now }
    ensures published { MatchResult result
        (λ end. (came : OpeningValue) (first : Fed Entry) (fed : List ℕ) → HasPublished B.meaning B.state came first pass.old fed walk.old
        → Publishes B.meaning B.state came first pass.new (fed ++ piece.now) walk.new end)
        (λ _. pass.new ≡ pass.old) }
    ensures fronts { IfOk result (λ end. (came : OpeningValue) (first : Fed Entry) (fed : List ℕ) → HasPublished B.meaning B.state came first pass.old fed walk.old → IsFront fed walk.old.offset front.old.octets
        → IsFrontAt (fed ++ piece.now) walk.new.offset end front.new.octets) }
    ensures aside { P.aside port.new ≡ P.aside port.old }
    ensures began { P.last_began port.new ≡ P.last_began port.old }
    ensures causes { P.causes port.new ≡ P.causes port.old }
    ensures tells { P.tells port.new ≡ P.tells port.old }
{
    let from = walk.offset();
    let given = from + walk.rest();
    walk.feed(piece)?;
    let gathered = gather(alloc, walk)?;
    publish_entries(rt, alloc, publisher, pass, gathered.entries.as_slice())?;
    port.published(pass, gathered.entries.as_slice());
    let to = stands_at(walk, gathered.end);
    front.follow(given, from, to, piece);
    tell_break::<B, J, P>(port, gathered.end, front);
    Ok(gathered.end)
}
