ghost use Rattle.std.specs.Prelude.{◌≡◌, ◌<◌, length};

use bmp_frames::{PeerKey, View};
use bmp_message::{Entries, Progress, Reading, StreamWalk};
use ip_prefix::{Addr, Family, Nlri};
use prefix_trie::Steps;
use rand_core::utils::NextWord;
use rand_pcg::Lcg64Xsh32;
use rib_model::{Entry, Opening};
use route_runs::{Place, RouteTable};
use router_tables::RouterTables;
use std::alloc::Global;
use std::io::Read;
use std::marker::Brand;
use std::sync::ledger::{Blank, Ledger};
use std::{io, mem};

/// The most bytes of one read, after which the tables are brought up to date.
const READ: usize = 65_536;

/// The most bytes of a stream.
const LIMIT: u64 = 1 << 46;

/// One of so many versions is kept.
const TENTH: u64 = 10;

/// The look-ups of each kind, and the walks, where no other number is given.
const LOOK_UPS: usize = 1_000_000;

const WALKS: usize = 10;

const VIEWS: [View; 5] = [
    View::InPre,
    View::InPost,
    View::OutPre,
    View::OutPost,
    View::Loc,
];

/// Which versions of the tables stay beside the last one.
#[derive(Clone, Copy)]
pub enum Versions {
    Last,
    EveryTenth,
}

/// A lane while a stream is taken, with the versions of its tables that are kept.
#[derive(Drop)]
struct Lane {
    alloc: Global,
    walk: StreamWalk<Reading>,
    tables: RouterTables,
    entries: u64,
    reads: u64,
    kept: Vec<RouterTables>,
}

impl Lane {
    // A lane that was opened. None where no memory is left.
    fn open(alloc: Global) -> Option<Lane> {
        let tables = opened(alloc)?;
        Some(Lane {
            alloc,
            walk: StreamWalk::new(alloc),
            tables,
            entries: 1,
            reads: 0,
            kept: Vec::new(alloc),
        })
    }

    // Takes the bytes of one read, and all whole messages. None where no memory is left, or past the most bytes
    // of a stream.
    fn take(&mut self, bytes: &[u8]) -> Option<()> {
        if LIMIT - (self.walk.offset() + self.walk.rest()) < bytes.len() as u64 {
            return None;
        }
        self.walk.feed(bytes).ok()?;
        let entries = whole(self.alloc, &mut self.walk)?;
        self.tables.extend(&entries).ok()?;
        self.entries = self.entries.saturating_add(entries.len() as u64);
        self.reads = self.reads.saturating_add(1);
        Some(())
    }

    // Keeps the present version for ever, where it is one of ten. None where no memory is left.
    fn keep(&mut self) -> Option<()> {
        if self.reads % TENTH == 0 {
            let version = self.tables.share().ok()?;
            self.kept.push(version).ok()?;
        }
        Some(())
    }
}

// The tables of a lane that was opened. None where no memory is left.
fn opened(alloc: Global) -> Option<RouterTables> {
    let mut tables = RouterTables::new(alloc).ok()?;
    tables.apply(&Entry::Opened(Opening::untold())).ok()?;
    Some(tables)
}

// The entries of the whole messages that were fed. None where no memory is left.
fn whole(alloc: Global, walk: &mut StreamWalk<Reading>) -> Option<Vec<Entry>> {
    let mut entries = Vec::new(alloc);
    while let Progress::Message(entry) = walk.next::<Entries>().ok()? {
        entries.push(entry).ok()?;
    }
    Some(entries)
}

// Takes the bytes of one read, and keeps the versions that are to stay.
fn take_kept(lane: &mut Lane, bytes: &[u8], versions: Versions) -> Option<()> {
    lane.take(bytes)?;
    match versions {
        Versions::Last => Some(()),
        Versions::EveryTenth => lane.keep(),
    }
}

// The value, or the error of running out of memory.
fn wanted<T: Drop>(value: Option<T>) -> io::Result<T> {
    match value {
        Some(value) => Ok(value),
        None => Err(io::Error::from(io::ErrorKind::OutOfMemory)),
    }
}

// A lane that took a stream.
fn taken<I: Read + Drop>(alloc: Global, input: I, versions: Versions) -> io::Result<Lane> {
    let mut lane = wanted(Lane::open(alloc))?;
    take_all(alloc, &mut lane, input, versions)?;
    Ok(lane)
}

// Takes a stream, read by read.
fn take_all<I: Read + Drop>(
    alloc: Global,
    lane: &mut Lane,
    mut input: I,
    versions: Versions,
) -> io::Result<()> {
    let mut buffer = vec![in alloc; 0u8; READ]?;
    for _ in 0..u64::MAX {
        let count = input.read(&mut buffer)?;
        if count == 0 {
            break;
        }
        wanted(take_kept(lane, &buffer[..count], versions))?;
    }
    Ok(())
}

// The peers and views of which there is a table. None where no memory is left.
fn places(alloc: Global, tables: &RouterTables) -> Option<Vec<(PeerKey, View)>> {
    let mut places = Vec::new(alloc);
    let mut last = None;
    for _ in 0..u64::MAX {
        let Some(key) = peer_after(tables, &last) else {
            break;
        };
        for view in VIEWS.iter() {
            if tables.table(&key, *view).is_some() {
                places.push((key, *view)).ok()?;
            }
        }
        last = Some(key);
    }
    Some(places)
}

// The first peer of the session after one, or the first of all.
fn peer_after(tables: &RouterTables, last: &Option<PeerKey>) -> Option<PeerKey> {
    match tables.peers().after(last.as_ref()) {
        Some(line) => Some(line.key),
        None => None,
    }
}

// How many routes the tables have. None where no memory is left.
fn rows(alloc: Global, tables: &RouterTables) -> Option<u64> {
    let places = places(alloc, tables)?;
    let mut rows = 0u64;
    for (key, view) in places.iter() {
        if let Some(table) = tables.table(key, *view) {
            rows = rows.saturating_add(table.count());
        }
    }
    Some(rows)
}

/// Takes a stream, brings the tables up to date after each read, and prints how many routes they have, how many entries
/// were taken, with the opening, and how many versions were kept. The tables are left to the system, which takes all
/// memory back as the program ends.
pub fn run<R: Print + AllocGlobal, I: Read + Drop>(
    rt: &R,
    input: I,
    versions: Versions,
) -> io::Result<()> {
    let lane = taken(rt.alloc(), input, versions)?;
    let said = print_lane(rt, &lane);
    mem::forget(lane);
    said
}

fn print_lane<R: Print + AllocGlobal>(rt: &R, lane: &Lane) -> io::Result<()> {
    let rows = wanted(rows(rt.alloc(), &lane.tables))?;
    println!(rt; "count {rows}")?;
    println!(rt; "entries {}", lane.entries)?;
    println!(rt; "kept {}", lane.kept.len())
}

// The NLRI of a table, in order. None where no memory is left.
fn listed(alloc: Global, table: &RouteTable) -> Option<Vec<Nlri>> {
    let mut list = Vec::new(alloc);
    let mut walk = table.walk(Place::First);
    while let Some((nlri, _)) = walk.next() {
        list.push(nlri).ok()?;
    }
    Some(list)
}

// One of these NLRI, and it is there.
fn drawn(list: &[Nlri], rng: &mut Lcg64Xsh32) -> Nlri
    requires { 0 < length list.now }
{
    list[rng.next_word() as usize % list.len()]
}

// An address with the first 16 bits of an IPv4 NLRI, or the first 32 of an IPv6 one.
fn drawn_beside(nlri: &Nlri, rng: &mut Lcg64Xsh32) -> Addr {
    let addr = nlri.prefix.addr();
    let [a, b, c, d, ..] = addr.octets();
    let [e, f, g, h] = rng.next_word().to_be_bytes();
    match addr.family() {
        Family::V4 => Addr::v4([a, b, e, f]),
        Family::V6 => Addr::v6([a, b, c, d, e, f, g, h, 0, 0, 0, 0, 0, 0, 0, 1]),
    }
}

// Looks so many NLRI up that stand in a table, and gives how many were found.
fn found(table: &RouteTable, list: &[Nlri], times: usize, rng: &mut Lcg64Xsh32) -> u64
    requires { 0 < length list.now }
{
    let mut found = 0u64;
    for _ in 0..times {
        if table.get(&drawn(list, rng)).is_some() {
            found = found.saturating_add(1);
        }
    }
    found
}

// Asks for the longest match of so many addresses, and gives how many had one.
fn matched<L: Ledger>(
    table: &RouteTable,
    list: &[Nlri],
    times: usize,
    rng: &mut Lcg64Xsh32,
    blank: Blank,
) -> u64
    requires some { 0 < length list.now }
    requires name { blank.name ≡ L.name }
    requires parts { blank.parts ≡ L.parts }
    requires many { 0 < blank.parts }
{
    let mut steps = Steps::<L>::new(blank);
    let mut matched = 0u64;
    for _ in 0..times {
        let addr = drawn_beside(&drawn(list, rng), rng);
        if table.longest(&addr, &mut steps).is_some() {
            matched = matched.saturating_add(1);
        }
    }
    matched
}

/// Takes a stream, looks so many NLRI up that stand in each table, asks each so many times for the longest match of an
/// address, and prints how many were found.
pub fn seek<R: Print + AllocGlobal, I: Read + Drop>(
    rt: &R,
    input: I,
    gets: Option<usize>,
    longest: Option<usize>,
) -> io::Result<()> {
    let gets = gets.unwrap_or(LOOK_UPS);
    let longest = longest.unwrap_or(gets);
    let lane = taken(rt.alloc(), input, Versions::Last)?;
    let sought = wanted(seek_all(rt.alloc(), &lane.tables, gets, longest));
    drop(lane);
    let sought = sought?;
    println!(rt; "found {}", sought.found)?;
    println!(rt; "matched {}", sought.matched)
}

// What is found in all tables. None where no memory is left.
fn seek_all(alloc: Global, tables: &RouterTables, gets: usize, longest: usize) -> Option<Sought> {
    let places = places(alloc, tables)?;
    let mut sought = Sought {
        found: 0,
        matched: 0,
    };
    for (key, view) in places.iter() {
        if let Some(table) = tables.table(key, *view) {
            sought.seek(alloc, table, gets, longest)?;
        }
    }
    Some(sought)
}

/// What look-ups found.
#[derive(Clone, Copy)]
struct Sought {
    found: u64,
    matched: u64,
}

impl Sought {
    // Adds what is found in a table. None where no memory is left.
    fn seek(
        &mut self,
        alloc: Global,
        table: &RouteTable,
        gets: usize,
        longest: usize,
    ) -> Option<()> {
        let list = listed(alloc, table)?;
        self.add(table, &list, gets, longest);
        Some(())
    }

    // Adds what is found in a table with these NLRI.
    fn add(&mut self, table: &RouteTable, list: &[Nlri], gets: usize, longest: usize) {
        if list.is_empty() {
            return;
        }
        let mut rng = Lcg64Xsh32::new(42, 54);
        let found = found(table, list, gets, &mut rng);
        let matched = matched::<Brand>(table, list, longest, &mut rng, Blank::new(1));
        self.found = self.found.saturating_add(found);
        self.matched = self.matched.saturating_add(matched);
    }
}

/// What walks gave: how many routes, and the bits of their prefixes.
#[derive(Clone, Copy)]
struct Walked {
    rows: u64,
    bits: u64,
}

impl Walked {
    // Adds what a walk over a table gives.
    fn add(&mut self, table: &RouteTable) {
        let mut walk = table.walk(Place::First);
        while let Some((nlri, _)) = walk.next() {
            self.rows = self.rows.saturating_add(1);
            self.bits = self.bits.saturating_add(nlri.prefix.bits() as u64);
        }
    }
}

/// Takes a stream, walks so many times over all its tables, and prints how many routes the walks gave, and the bits of
/// their prefixes.
pub fn walk<R: Print + AllocGlobal, I: Read + Drop>(
    rt: &R,
    input: I,
    times: Option<usize>,
) -> io::Result<()> {
    let lane = taken(rt.alloc(), input, Versions::Last)?;
    let walked = wanted(walk_all(rt.alloc(), &lane.tables, times.unwrap_or(WALKS)));
    drop(lane);
    let walked = walked?;
    println!(rt; "rows {}", walked.rows)?;
    println!(rt; "bits {}", walked.bits)
}

// What so many walks over all tables give. None where no memory is left.
fn walk_all(alloc: Global, tables: &RouterTables, times: usize) -> Option<Walked> {
    let places = places(alloc, tables)?;
    let mut walked = Walked { rows: 0, bits: 0 };
    for _ in 0..times {
        for (key, view) in places.iter() {
            if let Some(table) = tables.table(key, *view) {
                walked.add(table);
            }
        }
    }
    Some(walked)
}
