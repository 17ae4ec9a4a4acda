ghost use Rattle.std.specs.Prelude.{◌≡◌, ◌<◌, ◌+◌, ◌-◌, ◌^◌, [], ◌∷◌, Ok, length, min, unwrap_or, IfOk, IfSome, IsOk, OnErr, IsTrue};
ghost use Rattle.std.specs.Io.{ReadsAtMost};
ghost use Rattle.wire_io.specs.Aside.{Plan};
ghost use Rattle.station_doors.specs.Doors.{Reads, AsPlanned, Opens, Closes, noted_writes, heard_size, untouched_link};

use crate::Link;
use crate::connections::Connections;
use std::alloc::Global;
use std::marker::Model;
use wire_io::{ByteList, Failed, NoMemory, Sink};

/// A link over one connection in memory that never fails. Each read gives all that fits. It tells what it gives; of
/// what is written it keeps only how many bytes came, at most 2^64 - 1.
#[derive(Drop)]
pub struct SureLink {
    connections: Connections,
    reads: u64,
    count: u64,
}

impl Model for SureLink {
    ghost use Rattle.std.specs.Prelude.{[]};
    ghost use Rattle.station_doors.specs.SureLink.{SureLinkValue};
    ghost use Rattle.station_doors.specs.Connections.{link_shows};

    ghost Value = { SureLinkValue };

    ghost view = { λ k. record { shows = link_shows [] k.connections; reads = k.reads; count = k.count } };
}

impl SureLink {
    /// A link with this one connection, which was not opened.
    pub fn new(alloc: Global, input: &ByteList) -> Result<SureLink, NoMemory>
        ensures { IfOk result (λ link. link ≡ record { shows = untouched_link (record { connections = input.now ∷ []; fails = [] }); reads = 0; count = 0 }) }
    {
        let input = [input.copy()?];
        Ok(SureLink {
            connections: Connections::new(alloc, &input)?,
            reads: 0,
            count: 0,
        })
    }
}

impl Sink for SureLink {
    ghost faults = { λ _. 0 };

    ghost aside = { λ k. k.shows };

    fn write(&mut self, piece: &[u8]) -> Result<usize, Failed>
        requires { 0 < length piece.now }
        ensures all { result ≡ Ok (length piece.now) }
        ensures count { self.new ≡ record self.old { count = min (self.old.count + length piece.now) (2 ^ 64 - 1) } }
    {
        self.count = self.count.saturating_add(piece.len() as u64);
        Ok(piece.len())
    }
}

impl Link for SureLink {
    ghost calls = { λ k. k.reads };

    fn next_connection(&mut self) -> Result<bool, Failed>
        ensures opens { Opens self.old.shows self.new.shows result }
        ensures writes { self.new.shows.write_faults ≡ noted_writes 0 self.old.shows.write_faults result }
        ensures planned { IfSome self.old.shows.plan (λ plan. OnErr result (plan.fails ≡ [] → ⊥)) }
        ensures same { self.new ≡ record self.old { shows = self.new.shows } }
    {
        Ok(self.connections.open(0))
    }

    fn read(&mut self, buf: &mut [u8]) -> Result<usize, Failed>
        requires some { 0 < length buf.old }
        requires size { length buf.old ≡ heard_size self.old.shows.taken }
        requires is_open { IsTrue self.old.shows.is_open }
        ensures sure { IsOk result }
        ensures bound { ReadsAtMost result buf.new }
        ensures reads { Reads self.old.shows self.new.shows result buf.new }
        ensures planned { AsPlanned self.old.shows.plan self.old.reads self.new.reads result }
        ensures count { IfOk result (λ n. n ≡ min (length buf.old) (length (unwrap_or self.old.shows.rest []))) }
        ensures written { self.new.count ≡ self.old.count }
    {
        self.reads = self.reads.saturating_add(1);
        Ok(self.connections.give(buf.len(), buf))
    }

    fn close(&mut self)
        requires { IsTrue self.old.shows.is_open }
        ensures closes { Closes self.old.shows self.new.shows }
        ensures same { self.new ≡ record self.old { shows = self.new.shows } }
    {
        self.connections.close();
    }
}
