//! A port beside which a client looks at what was published.
ghost use Rattle.std.specs.Prelude.{◌≡◌, ◌<◌, [], length, IfSome, OnErr, IsTrue};
ghost use Rattle.std.specs.Io.{ReadsAtMost};
ghost use Rattle.station_doors.specs.Doors.{Opens, Reads, Closes, AsPlanned, read_size};

use cut_publisher::{AskPass, snapshot};
use router_tables::RouterTables;
use station_doors::{Ended, Port, SurePort, Told};
use std::alloc::Global;
use std::rt::Clock;
use std::time::{Duration, Instant};
use wire_io::Failed;

/// One of so many versions is kept.
const TENTH: u64 = 10;

/// What the client does after each publication.
#[derive(Clone, Copy)]
pub enum Client {
    Quiet,

    /// It takes a snapshot.
    Asks,

    /// It takes a snapshot, and keeps every tenth for ever.
    Keeps,
}

/// A port of a lane that is watched: before each read, thus after each publication, its client has its turn. It looks at
/// the clock after a read and before the next, and where the connection is closed.
#[derive(Drop)]
pub struct Watch<'a, R> {
    rt: &'a R,
    port: SurePort,
    client: Client,
    asker: AskPass<RouterTables>,
    turns: u64,
    kept: Vec<RouterTables>,
    given: Option<Instant>,
    longest: Duration,
    closed: Option<Instant>,
}

impl<'a, R: Clock> Watch<'a, R> {
    /// Watches the port.
    pub fn new(
        rt: &'a R,
        alloc: Global,
        port: SurePort,
        client: Client,
        asker: AskPass<RouterTables>,
    ) -> Watch<'a, R> {
        Watch {
            rt,
            port,
            client,
            asker,
            turns: 0,
            kept: Vec::new(alloc),
            given: None,
            longest: Duration::ZERO,
            closed: None,
        }
    }

    /// How many turns the client had, what revision it saw last, and how many versions it kept.
    pub fn seen(&self) -> (u64, u64, usize) {
        (self.turns, self.asker.cut().rev(), self.kept.len())
    }

    /// When the last connection was closed. A lane closes it once all of it is published, before it publishes that it
    /// closed. None before, or where the clock failed.
    pub fn closed(&self) -> Option<Instant> {
        self.closed
    }

    /// The longest time that the lane took for a read: from its bytes until all that they brought was published, with the
    /// merges of its tables.
    pub fn longest(&self) -> Duration {
        self.longest
    }

    // What the last read gave is published.
    fn end_pause(&mut self)
        ensures { self.new.port ≡ self.old.port }
    {
        if let Some(given) = self.given.take()
            && let Ok(time) = given.elapsed(self.rt)
        {
            self.longest = self.longest.max(time);
        }
    }

    // The client's turn. Where no memory is left it keeps nothing.
    fn turn(&mut self)
        ensures { self.new.port ≡ self.old.port }
    {
        self.turns = self.turns.saturating_add(1);
        match self.client {
            Client::Quiet => {}
            Client::Asks => snapshot(&mut self.asker),
            Client::Keeps => {
                snapshot(&mut self.asker);
                if self.turns % TENTH == 0 {
                    keep(&self.asker, &mut self.kept);
                }
            }
        }
    }
}

// Keeps the version of the first lane that the asker saw last.
fn keep(asker: &AskPass<RouterTables>, kept: &mut Vec<RouterTables>) {
    let cut = asker.cut();
    if cut.lanes() > 0
        && let Ok(version) = cut.value(0).share()
    {
        let _ = kept.push(version);
    }
}

impl<'a, R: Clock> Port for Watch<'a, R> {
    ghost aside = { λ w. w.port.shows };

    ghost calls = { λ w. w.port.reads };

    fn next_connection(&mut self) -> Result<bool, Failed> {
        self.port.next_connection()
    }

    fn read(&mut self, buf: &mut [u8]) -> Result<usize, Failed>
        requires some { 0 < length buf.old }
        requires size { length buf.old ≡ read_size self.old.port.shows.taken }
        requires is_open { IsTrue self.old.port.shows.is_open }
        ensures bound { ReadsAtMost result buf.new }
        ensures reads { Reads self.old.port.shows self.new.port.shows result buf.new }
        ensures planned { AsPlanned self.old.port.shows.plan self.old.port.reads self.new.port.reads result }
    {
        self.end_pause();
        self.turn();
        let result = self.port.read(buf);
        self.given = Instant::now(self.rt).ok();
        result
    }

    fn close(&mut self) {
        self.end_pause();
        self.closed = Instant::now(self.rt).ok();
        self.port.close();
    }

    fn told(&self) -> Told {
        Told::nothing()
    }

    fn ended(&mut self, _end: &Ended<'_>) {}
}
