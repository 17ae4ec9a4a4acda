//! The tables that the input leaves, brought up to date with many messages at once.

ghost use Rattle.std.specs.Prelude.{◌++◌, ◌∷◌, [], List, IfOk, OnOk};
ghost use Rattle.bmp_specs.specs.Openings.{nothing_told};
ghost use Rattle.bmp_specs.specs.Values.{EntryValue, opened};
ghost use Rattle.rib_model.specs.Entries.{entry_value};

use crate::account::{Account, Replies};
use bmp_message::Entries;
use cut_publisher::{Cut, CutLane};
use query_eval::answer;
use query_lang::Ask;
use rib_model::{Entry, Opening};
use router_tables::{Indexing, RouterTables, TablesBuilder};
use std::alloc::Global;
use std::mem;
use std::sync::Arc;
use wire_io::{Failed, List, NoMemory, Sink, Unplaced};

/// So many bytes of messages are gathered before the tables in the making take them, as many as one read of a router's
/// connection has at most: they are taken while they are still in the processor's caches.
const BATCH: u64 = 65_536;

/// The tables of the one router in the making, and the entries that were gathered since they took some. As an account
/// they have no index by origin AS: `ReplayByOrigin` is for what is asked by it.
#[derive(Drop)]
pub struct Replay {
    alloc: Global,
    builder: TablesBuilder,
    gathered: List<Entry>,
    // the bytes of their messages
    bytes: u64,
}

// The bytes of an entry's message.
fn bytes_of(entry: &Entry) -> u64 {
    match entry {
        Entry::Message { head, .. } => head.length as u64,
        _ => 0,
    }
}

impl Replay {
    ghost use Rattle.station_top.specs.Replay.{Gathers, Settled};

    // The tables of an opening of which nothing is told.
    fn new(alloc: Global, indexing: Indexing) -> Result<Replay, NoMemory>
        ensures { IfOk result (λ replay. Gathers replay (opened nothing_told ∷ [])) }
    {
        let mut replay = Replay {
            alloc,
            builder: TablesBuilder::new(alloc, indexing)?,
            gathered: List::new(alloc),
            bytes: 0,
        };
        replay.gather(Entry::Opened(Opening::untold()))?;
        Ok(replay)
    }

    // Lets the tables take what was gathered. There is memory then for as many entries again, and a quarter more: so the
    // list isn't copied as it grows.
    fn settle(&mut self) -> Result<(), NoMemory>
        ensures { OnOk result ((entries : List EntryValue) → Gathers self.old entries → Settled self.new entries) }
    {
        let count = self.gathered.as_slice().len();
        let next = List::with_capacity(self.alloc, count.saturating_add(count / 4))?;
        let gathered = mem::replace(&mut self.gathered, next);
        self.builder.take(gathered)?;
        self.bytes = 0;
        Ok(())
    }

    // Gathers an entry.
    fn gather(&mut self, entry: Entry) -> Result<(), NoMemory>
        ensures { OnOk result ((entries : List EntryValue) → Gathers self.old entries → Gathers self.new (entries ++ entry_value entry ∷ [])) }
    {
        self.bytes = self.bytes.saturating_add(bytes_of(&entry));
        match self.gathered.push(entry) {
            Ok(()) => Ok(()),
            Err(Unplaced::NoMemory { .. }) => Err(NoMemory),
        }
    }
}

impl Replay {
    ghost use Rattle.router_tables.specs.Tables.{StandsFor};
    ghost use Rattle.station_top.specs.Replay.{Gathers};

    /// The tables with all entries taken.
    pub(crate) fn into_tables(self) -> Result<RouterTables, NoMemory>
        ensures { IfOk result (λ tables. (entries : List EntryValue) → Gathers self entries → StandsFor tables entries) }
    {
        let mut replay = self;
        replay.settle()?;
        let Replay { builder, .. } = replay;
        builder.into_tables()
    }
}

impl Account for Replay {
    ghost use Rattle.station_top.specs.Replay.{Gathers};

    type Wants = Entries;

    type Told = Cut<RouterTables>;

    ghost stands = { Gathers };

    fn begin(alloc: Global) -> Result<Replay, NoMemory> {
        Replay::new(alloc, Indexing::Unindexed)
    }

    fn note(&mut self, entry: Entry) -> Result<(), NoMemory> {
        self.gather(entry)?;
        if self.bytes < BATCH {
            return Ok(());
        }
        self.settle()
    }

    fn ready(self, alloc: Global, revision: u64) -> Result<Cut<RouterTables>, NoMemory> {
        let tables = self.into_tables()?;
        let lane = CutLane {
            value: Arc::new(alloc, tables)?,
            count: revision,
        };
        match Cut::of(alloc, &[lane]) {
            Ok(cut) => Ok(cut),
            Err(_) => Err(NoMemory),
        }
    }
}

/// The same for what is asked by origin AS: its tables have an index by it.
#[derive(Drop)]
pub struct ReplayByOrigin {
    replay: Replay,
}

impl Account for ReplayByOrigin {
    ghost use Rattle.station_top.specs.Replay.{GathersByOrigin};

    type Wants = Entries;

    type Told = Cut<RouterTables>;

    ghost stands = { GathersByOrigin };

    fn begin(alloc: Global) -> Result<ReplayByOrigin, NoMemory> {
        let replay = Replay::new(alloc, Indexing::ByOrigin)?;
        Ok(ReplayByOrigin { replay })
    }

    fn note(&mut self, entry: Entry) -> Result<(), NoMemory> {
        self.replay.note(entry)
    }

    fn ready(self, alloc: Global, revision: u64) -> Result<Cut<RouterTables>, NoMemory> {
        self.replay.ready(alloc, revision)
    }
}

impl Replies for Cut<RouterTables> {
    ghost use Rattle.station_top.specs.Replay.{IsAsked, IsCutOfEntries, IsReplyOf};

    type Ask = Ask;

    ghost tells = { IsCutOfEntries };

    ghost replies = { IsReplyOf };

    ghost may_ask = { IsAsked };

    fn put_reply<O: Sink>(&self, out: &mut O, ask: &Ask) -> Result<(), Failed> {
        answer(self, ask, out)
    }
}
