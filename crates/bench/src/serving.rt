//! Lanes of a station that take a stream, each over a port in memory and with a client beside it.
ghost use Rattle.std.specs.Prelude.{◌≡◌, ℕ, ◌<◌, ◌≤◌, [], IfSome};
ghost use Rattle.std.specs.Arc.{arc_value};
ghost use Rattle.cut_publisher.specs.Opening.{IsOpened};
ghost use Rattle.rib_model.specs.Entries.{entry_values};
ghost use Rattle.router_tables.specs.Tables.{StandsFor};

mod lanes;
mod watch;

use cut_publisher::{Naming, Station, name, open_station};
use lanes::{Outcome, lanes_of, serve_all};
use router_tables::RouterTables;
use station_doors::MOST_PLACES;
use std::alloc::Global;
use std::io;
use std::io::Read;
use std::marker::Brand;
use std::rt::Clock;
use std::sync::{Arc, Wait};
use std::thread::Threads;
use std::time::{Duration, Instant};
pub use watch::Client;
use wire_io::ByteList;

/// The most bytes of one read of a port.
const READ: usize = 65_536;

/// All bytes of the input.
pub fn read_all<R: Read + Drop>(alloc: Global, mut input: R) -> io::Result<ByteList> {
    let mut bytes = ByteList::new(alloc);
    let mut buffer = vec![in alloc; 0u8; READ]?;
    for _ in 0..u64::MAX {
        let count = input.read(&mut buffer)?;
        if count == 0 {
            break;
        }
        if bytes.extend(&buffer[..count]).is_err() {
            return Err(no_memory());
        }
    }
    Ok(bytes)
}

fn no_memory() -> io::Error {
    io::Error::from(io::ErrorKind::OutOfMemory)
}

/// Takes the input as the one connection of a lane, in reads of at most so many bytes (65,536), publishes it
/// read by read with a client beside it, and prints how many entries were published, how many turns the client had,
/// the revision that it saw last, and how many versions it kept.
///
/// Where the number of lanes is given, from 1 to 1,024, each of them takes the input so at once with the others, beside a
/// client of its own. Then the numbers are those of all, and the greatest revision; and it prints three times, in
/// microseconds, and by the second of them how many messages the lanes published in a second.
///
/// | Time | From | Until |
/// |---|---|---|
/// | `microseconds` | the start of the lanes | all are done: each has published that its connection closed, and let go of its tables |
/// | `taken` | the start of the lanes | the last of them has published all messages of its connection |
/// | `longest` | the bytes of a read | all that they brought is published: of all reads the longest such time |
pub fn run<I: Read + Drop, R: Threads + Wait + Clock + Print + Sync>(
    rt: &R,
    alloc: Global,
    input: I,
    client: Client,
    piece: Option<u32>,
    lanes: Option<u32>,
) -> io::Result<()> {
    let connection = [read_all(alloc, input)?];
    let piece = piece.unwrap_or(READ as u32).max(1);
    let count = lanes.unwrap_or(1).clamp(1, MOST_PLACES);
    let (outcome, times) = outcome_of(rt, alloc, connection, client, piece, count)?;
    print_outcome(rt, &outcome)?;
    if lanes.is_some() {
        print_times(rt, outcome.messages, outcome.longest, times)?;
    }
    Ok(())
}

fn print_outcome<R: Print>(rt: &R, outcome: &Outcome) -> io::Result<()> {
    println!(rt; "entries {}", outcome.entries)?;
    println!(rt; "turns {}", outcome.turns)?;
    println!(rt; "revision {}", outcome.revision)?;
    println!(rt; "kept {}", outcome.kept)
}

// How long lanes took: until all were done, and until all that their connections gave was published.
#[derive(Clone, Copy)]
struct Times {
    done: Duration,
    taken: Duration,
}

// How long the lanes took, for their reads too, and how many messages they published in a second.
fn print_times<R: Print>(rt: &R, messages: u64, longest: Duration, times: Times) -> io::Result<()> {
    let taken = micros(times.taken);
    let pace = messages.saturating_mul(1_000_000) / taken.max(1);
    print_numbers(rt, micros(times.done), taken, micros(longest), pace)
}

fn print_numbers<R: Print>(
    rt: &R,
    done: u64,
    taken: u64,
    longest: u64,
    pace: u64,
) -> io::Result<()> {
    println!(rt; "microseconds {done}")?;
    println!(rt; "taken {taken}")?;
    println!(rt; "longest {longest}")?;
    println!(rt; "messages_per_second {pace}")
}

fn micros(time: Duration) -> u64 {
    time.as_micros().min(u128::from(u64::MAX)) as u64
}

// What the lanes have until they publish.
fn no_tables(alloc: Global) -> Option<Arc<RouterTables>>
    ensures { IfSome result (λ t. StandsFor (arc_value t) (entry_values [])) }
{
    let tables = RouterTables::new(alloc).ok()?;
    Arc::new(alloc, tables).ok()
}

// What so many lanes come to, and how long they took.
fn outcome_of<R: Threads + Wait + Clock + Sync>(
    rt: &R,
    alloc: Global,
    connection: [ByteList; 1],
    client: Client,
    piece: u32,
    lanes: u32,
) -> io::Result<(Outcome, Times)>
    requires piece { 0 < piece }
    requires lanes { (0 < lanes) × (lanes ≤ MOST_PLACES) }
{
    let first = no_tables(alloc).ok_or(no_memory())?;
    let Ok(station) = open_station(alloc, first, lanes, lanes) else {
        return Err(no_memory());
    };
    outcome_in::<Brand, R>(rt, alloc, station, connection, client, piece)
}

fn outcome_in<J: Naming + Send + Sync, R: Threads + Wait + Clock + Sync>(
    rt: &R,
    alloc: Global,
    station: Station<RouterTables>,
    connection: [ByteList; 1],
    client: Client,
    piece: u32,
) -> io::Result<(Outcome, Times)>
    requires named { station.publisher.station ≡ J.site }
    requires opened { (lanes : ℕ) × IsOpened lanes lanes station.publisher station.feeds station.asks }
    requires piece { 0 < piece }
{
    let Station {
        publisher,
        mut feeds,
        mut asks,
    } = station;
    let publisher = name::<RouterTables, J, R>(rt, publisher, &mut asks);
    let lanes = lanes_of::<J, R>(rt, alloc, &mut feeds, &mut asks, &connection, client, piece);
    drop(connection);
    let start = Instant::now(rt);
    let outcome = match lanes {
        Some(lanes) => serve_all(rt, alloc, &publisher, lanes),
        None => None,
    };
    publisher.close(rt);
    let start = start?;
    let done = start.elapsed(rt)?;
    let outcome = outcome.ok_or(no_memory())?;
    let published = outcome
        .published
        .ok_or(io::Error::from(io::ErrorKind::Other))?;
    let taken = published.saturating_duration_since(start);
    Ok((outcome, Times { done, taken }))
}
