ghost use Rattle.std.specs.Prelude.{◌≡◌, ℕ, ◌≤◌, ◌<◌, ◌+◌, ◌-◌, [], ◌∷◌, min, map, drop, take, length, unwrap_or, IfOk, IsTrue, Ok, Err, List};
ghost use Rattle.wire_io.specs.Aside.{Plan};
ghost use Rattle.wire_io.specs.declared.sink.Failed.{Failed};
ghost use Rattle.station_doors.specs.Doors.{Opens, Reads, Closes, read_of, noted_writes, untouched_link};
ghost use Rattle.station_doors.specs.LastRead.{last_of};
ghost use Rattle.station_doors.specs.declared.connections.Last.TheVariants.{Gave};

use std::alloc::Global;
use std::marker::Model;
use wire_io::{ByteList, NoMemory};

// How the last read of a connection went: it gave bytes, or none was made; it gave none; it failed.
#[derive(Clone, Copy, Debug, PartialEq, Eq)]
enum Last {
    Gave,
    End,
    Fault,
}

// A connection, how many bytes of it were given, how its last read went, and the count of faults in writes as it was
// opened.
#[derive(Drop)]
struct Session {
    bytes: ByteList,
    count: usize,
    last: Last,
    writes: u64,
}

// Connections in memory, given one after another. Contracts see them as a link shows them of whose calls none fails.
#[derive(Drop)]
pub(crate) struct Connections {
    sessions: Vec<Session>,
    opened: usize,
    closed: u64,
    is_open: bool,
    taken: u64,
    refused: bool,
    faults: u64,
}

impl Model for Connections {
    ghost use Rattle.std.specs.Prelude.{◌≤◌, ◌<◌, vec_len, IsTrue};
    ghost use Rattle.wire_io.specs.Aside.{Aside};
    ghost use Rattle.station_doors.specs.Connections.{shows_of};

    ghost Value = { Aside };

    ghost view = { λ c. shows_of c.sessions.items c.opened c.closed c.is_open c.taken c.refused c.faults };

    ghost invariant = { λ c. (c.opened ≤ vec_len c.sessions) × (IsTrue c.is_open → 0 < c.opened) };
}

// A connection that wasn't opened.
fn unopened(bytes: ByteList) -> Session
    ensures { result ≡ record { bytes = bytes; count = 0; last = Gave; writes = 0 } }
{
    Session {
        bytes,
        count: 0,
        last: Last::Gave,
        writes: 0,
    }
}

// The connections, of which none was opened.
fn sessions_of(alloc: Global, connections: &[ByteList]) -> Result<Vec<Session>, NoMemory>
    ensures { IfOk result (λ v. map (λ s. s.bytes) v.items ≡ connections.now) }
{
    let mut sessions = Vec::new(alloc);
    for connection in connections {
        sessions.push(unopened(connection.copy()?))?;
    }
    Ok(sessions)
}

impl Session {
    ghost use Rattle.station_doors.specs.Connections.{IsGiven};

    // Nothing of it was given, and there were so many faults in writes.
    fn begin(&mut self, writes: u64)
        ensures { self.new ≡ record self.old { count = 0; last = Gave; writes = writes } }
    {
        self.count = 0;
        self.last = Last::Gave;
        self.writes = writes;
    }

    // Copies what is left of it to the front of the buffer, as far as it fits and at most so many bytes, and answers
    // how many.
    fn give(&mut self, most: usize, buf: &mut [u8]) -> usize
        requires most { 0 < most }
        requires room { 0 < length buf.old }
        ensures count { result ≡ min (min most (length buf.old)) (length self.old.bytes - self.old.count) }
        ensures given { IsGiven self.old self.new result buf.new }
    {
        let count = fill(self.bytes.as_slice(), self.count, most, buf);
        self.count = self.count.saturating_add(count);
        self.last = last_after(count);
        count
    }
}

// How a read went that gave so many bytes.
fn last_after(count: usize) -> Last
    ensures { last_of result ≡ read_of count }
{
    if count == 0 { Last::End } else { Last::Gave }
}

// Copies what stands at a place to the front of the buffer, as far as it fits, and answers how much.
fn fill(bytes: &[u8], at: usize, most: usize, buf: &mut [u8]) -> usize
    ensures count { result ≡ min (min most (length buf.old)) (length bytes.now - at) }
    ensures bytes { take result buf.new ≡ take result (drop at bytes.now) }
{
    let at = at.min(bytes.len());
    let count = most.min(buf.len()).min(bytes.len() - at);
    buf[..count].copy_from_slice(&bytes[at..at + count]);
    count
}

// Connections, of which none was opened.
fn untouched(sessions: Vec<Session>) -> Connections
    ensures { result ≡ untouched_link (record { connections = map (λ s. s.bytes) sessions.items; fails = [] }) }
{
    Connections {
        sessions,
        opened: 0,
        closed: 0,
        is_open: false,
        taken: 0,
        refused: false,
        faults: 0,
    }
}

impl Connections {
    // Copies of these connections, of which none was opened.
    pub(crate) fn new(alloc: Global, connections: &[ByteList]) -> Result<Connections, NoMemory>
        ensures { IfOk result (λ c. c ≡ untouched_link (record { connections = connections.now; fails = [] })) }
    {
        Ok(untouched(sessions_of(alloc, connections)?))
    }

    // This one connection itself, which wasn't opened.
    pub(crate) fn over(alloc: Global, connection: ByteList) -> Result<Connections, NoMemory>
        ensures { IfOk result (λ c. c ≡ untouched_link (record { connections = connection ∷ []; fails = [] })) }
    {
        let mut sessions = Vec::new(alloc);
        sessions.push(unopened(connection))?;
        Ok(untouched(sessions))
    }

    // Opens the next connection, where there were so many faults in writes. False where there is none.
    pub(crate) fn open(&mut self, writes: u64) -> bool
        ensures opens { Opens self.old self.new (Ok result) }
        ensures writes { self.new.write_faults ≡ noted_writes writes self.old.write_faults (Ok result) }
    {
        if self.opened == self.sessions.len() {
            self.refused = true;
            return false;
        }
        self.sessions[self.opened].begin(writes);
        self.opened += 1;
        self.is_open = true;
        self.taken = 0;
        self.refused = false;
        true
    }

    // How many were opened.
    pub(crate) fn opened(&self) -> usize
        ensures { result ≡ self.now.opened }
    {
        self.opened
    }

    // Gives the next bytes of the present connection, at most so many, and answers how many.
    pub(crate) fn give(&mut self, most: usize, buf: &mut [u8]) -> usize
        requires most { 0 < most }
        requires room { 0 < length buf.old }
        requires is_open { IsTrue self.old.is_open }
        ensures bound { result ≤ length buf.new }
        ensures reads { Reads self.old self.new (Ok result) buf.new }
        ensures count { result ≡ min (min most (length buf.old)) (length (unwrap_or self.old.rest [])) }
    {
        let session = &mut self.sessions[self.opened - 1];
        let count = session.give(most, buf);
        self.taken = self.taken.saturating_add(count as u64);
        count
    }

    // A read of the present connection failed.
    pub(crate) fn fail(&mut self)
        requires { IsTrue self.old.is_open }
        ensures { (f : Failed) → (buf : List ℕ) → Reads self.old self.new (Err f) buf }
    {
        self.faults = self.faults.saturating_add(1);
        self.sessions[self.opened - 1].last = Last::Fault;
    }

    // Closes the present connection.
    pub(crate) fn close(&mut self)
        requires { IsTrue self.old.is_open }
        ensures { Closes self.old self.new }
    {
        self.closed = self.closed.saturating_add(1);
        self.is_open = false;
    }
}
