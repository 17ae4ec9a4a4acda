ghost use Rattle.std.specs.Prelude.{◌≡◌, ◌<◌, [], ◌∷◌, length, min, unwrap_or, IfOk, IfSome, IsOk, OnErr, IsTrue};
ghost use Rattle.std.specs.Io.{ReadsAtMost};
ghost use Rattle.wire_io.specs.Aside.{Plan};
ghost use Rattle.station_doors.specs.Doors.{Reads, AsPlanned, Opens, Closes, read_size, untouched};

use crate::connections::Connections;
use crate::{Ended, Port, Told};
use std::alloc::Global;
use std::marker::Model;
use wire_io::{ByteList, Failed, NoMemory};

/// A port over connections in memory that never fails. Each read gives at most so many bytes. It tells all that it
/// does.
#[derive(Drop)]
pub struct SurePort {
    connections: Connections,
    reads: u64,
    piece: u32,
}

impl Model for SurePort {
    ghost use Rattle.std.specs.Prelude.{◌<◌, []};
    ghost use Rattle.station_doors.specs.SurePort.{SurePortValue};
    ghost use Rattle.station_doors.specs.Connections.{port_shows};

    ghost Value = { SurePortValue };

    ghost view = { λ p. record { shows = port_shows [] p.connections; piece = p.piece; reads = p.reads } };

    ghost invariant = { λ p. 0 < p.piece };
}

impl SurePort {
    /// A port with copies of these connections, of which none was opened, and of which each read gives at most `piece`
    /// bytes.
    pub fn new(alloc: Global, connections: &[ByteList], piece: u32) -> Result<SurePort, NoMemory>
        requires { 0 < piece }
        ensures { IfOk result (λ port. port ≡ record { shows = untouched (record { connections = connections.now; fails = [] }); piece = piece; reads = 0 }) }
    {
        Ok(SurePort {
            connections: Connections::new(alloc, connections)?,
            reads: 0,
            piece,
        })
    }

    /// A port with this one connection, which wasn't opened, and of which each read gives at most `piece` bytes. Its bytes
    /// aren't copied.
    pub fn over(alloc: Global, connection: ByteList, piece: u32) -> Result<SurePort, NoMemory>
        requires { 0 < piece }
        ensures { IfOk result (λ port. port ≡ record { shows = untouched (record { connections = connection ∷ []; fails = [] }); piece = piece; reads = 0 }) }
    {
        Ok(SurePort {
            connections: Connections::over(alloc, connection)?,
            reads: 0,
            piece,
        })
    }
}

impl Port for SurePort {
    ghost aside = { λ p. p.shows };

    ghost calls = { λ p. p.reads };

    fn next_connection(&mut self) -> Result<bool, Failed>
        ensures sure { IsOk result }
        ensures opens { Opens self.old.shows self.new.shows result }
        ensures planned { IfSome self.old.shows.plan (λ plan. OnErr result (plan.fails ≡ [] → ⊥)) }
        ensures same { self.new ≡ record self.old { shows = self.new.shows } }
    {
        Ok(self.connections.open(0))
    }

    fn read(&mut self, buf: &mut [u8]) -> Result<usize, Failed>
        requires some { 0 < length buf.old }
        requires size { length buf.old ≡ read_size self.old.shows.taken }
        requires is_open { IsTrue self.old.shows.is_open }
        ensures sure { IsOk result }
        ensures bound { ReadsAtMost result buf.new }
        ensures reads { Reads self.old.shows self.new.shows result buf.new }
        ensures planned { AsPlanned self.old.shows.plan self.old.reads self.new.reads result }
        ensures piece { self.new.piece ≡ self.old.piece }
        ensures count { IfOk result (λ n. n ≡ min (min self.old.piece (length buf.old)) (length (unwrap_or self.old.shows.rest []))) }
    {
        self.reads = self.reads.saturating_add(1);
        Ok(self.connections.give(self.piece as usize, buf))
    }

    fn close(&mut self)
        requires { IsTrue self.old.shows.is_open }
        ensures closes { Closes self.old.shows self.new.shows }
        ensures same { self.new ≡ record self.old { shows = self.new.shows } }
    {
        self.connections.close();
    }

    fn told(&self) -> Told {
        Told::nothing()
    }

    fn ended(&mut self, _end: &Ended<'_>)
        ensures same { self.new ≡ self.old }
    {}
}
