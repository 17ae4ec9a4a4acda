ghost use Rattle.std.specs.Prelude.{◌≡◌, ◌<◌, ◌++◌, [], ◌∷◌, Some, length, slice_get, unwrap_or, All, IfOk, IfSome, OnErr, IsTrue};
ghost use Rattle.std.specs.Io.{ReadsAtMost};
ghost use Rattle.wire_io.specs.Aside.{Plan};
ghost use Rattle.station_doors.specs.Doors.{Reads, AsPlanned, Opens, Closes, read_size, told_after, untouched};
ghost use Rattle.station_doors.specs.MemPort.{causes_in, tells_now};
ghost use Rattle.station_doors.specs.Told.{told_at};

use crate::connections::Connections;
use crate::{Ended, Port, Told};
use bmp_specs::{Cause, Why};
use disk_doors::Notes;
use std::alloc::Global;
use std::marker::Model;
use wire_io::{ByteList, Failed, NoMemory};

/// A port over connections in memory. It tells all that it does.
///
/// Its k-th read, counted from 0 over the port's life, gives at most `pieces[k]` bytes and at least one;
/// reads past that list give all that fits. Reads whose numbers are among `fails` fail and give nothing. It tells nothing of
/// from where its connections came and when, but what `telling` gave it.
#[derive(Drop)]
pub struct MemPort {
    connections: Connections,
    pieces: Vec<u32>,
    fails: Vec<u64>,
    reads: u64,
    // The causes that it was told.
    notes: Notes,
    // What it tells of each connection.
    tellings: Vec<Told>,
}

impl Model for MemPort {
    ghost use Rattle.std.specs.Prelude.{◌<◌, All};
    ghost use Rattle.station_doors.specs.MemPort.{MemPortValue, causes_in};
    ghost use Rattle.station_doors.specs.Connections.{port_shows};

    ghost Value = { MemPortValue };

    ghost view = { λ p. record { shows = port_shows p.fails.items p.connections; pieces = p.pieces.items; reads = p.reads; causes = causes_in p.notes.events; tellings = p.tellings.items } };

    ghost invariant = { λ p. All (λ n. 0 < n) p.pieces.items };
}

impl MemPort {
    /// A port with these connections, of which none was opened. No number in `pieces` is 0.
    pub fn new(
        alloc: Global,
        connections: &[ByteList],
        pieces: &[u32],
        fails: &[u64],
    ) -> Result<MemPort, NoMemory>
        requires { All (λ n. 0 < n) pieces.now }
        ensures { IfOk result (λ port. port ≡ record { shows = untouched (record { connections = connections.now; fails = fails.now }); pieces = pieces.now; reads = 0; causes = []; tellings = [] }) }
    {
        let connections = Connections::new(alloc, connections)?;
        let pieces = Vec::from_slice(alloc, pieces)?;
        let fails = Vec::from_slice(alloc, fails)?;
        Ok(MemPort {
            connections,
            pieces,
            fails,
            reads: 0,
            notes: Notes::new(),
            tellings: Vec::new(alloc),
        })
    }

    /// The same port, which tells the first of these values of its first connection, and so on, and nothing of one past
    /// the last of them. Out of memory, it is dropped.
    pub fn telling(mut self, alloc: Global, tellings: &[Told]) -> Result<MemPort, NoMemory>
        ensures { IfOk result (λ port. port ≡ record self { tellings = tellings.now }) }
    {
        self.tellings = Vec::from_slice(alloc, tellings)?;
        Ok(self)
    }
}

// How many bytes the read with this number gives at most, at least one.
pub(crate) fn piece_at(pieces: &[u32], call: u64, size: usize) -> usize
    requires positive { All (λ n. 0 < n) pieces.now }
    requires size { 0 < size }
    ensures some { 0 < result }
    ensures most { result ≡ unwrap_or (slice_get pieces.now call) size }
{
    match pieces.get(call as usize) {
        Some(piece) => *piece as usize,
        None => size,
    }
}

// What is told by a port that has opened so many connections.
fn telling_at(tellings: &[Told], opened: usize) -> Told
    ensures { result ≡ told_at tellings.now opened }
{
    if opened == 0 {
        return Told::nothing();
    }
    match tellings.get(opened - 1) {
        Some(told) => *told,
        None => Told::nothing(),
    }
}

// Notes why a connection ended, by numbers that `specs/MemPort.antt` reads.
fn note_cause(notes: &mut Notes, cause: Cause)
    ensures { causes_in notes.new.events ≡ causes_in notes.old.events ++ cause ∷ [] }
{
    match cause {
        Cause::Ended => notes.note(&[0, 0], &[]),
        Cause::Terminated => notes.note(&[1, 0], &[]),
        Cause::CutShort { offset } => notes.note(&[2, offset], &[]),
        Cause::ReadFault { offset } => notes.note(&[3, offset], &[]),
        Cause::Full => notes.note(&[4, 0], &[]),
        Cause::Broken { offset, why } => match why {
            Why::Version => notes.note(&[5, offset], &[]),
            Why::Length => notes.note(&[6, offset], &[]),
            Why::Body => notes.note(&[7, offset], &[]),
        },
    }
}

impl Port for MemPort {
    ghost use Rattle.station_doors.specs.MemPort.{GivesPiece};

    ghost aside = { λ p. p.shows };

    ghost calls = { λ p. p.reads };

    ghost causes = { λ p. Some p.causes };

    ghost tells = { λ p. tells_now p };

    fn next_connection(&mut self) -> Result<bool, Failed>
        ensures opens { Opens self.old.shows self.new.shows result }
        ensures planned { IfSome self.old.shows.plan (λ plan. OnErr result (plan.fails ≡ [] → ⊥)) }
        ensures same { self.new ≡ record self.old { shows = self.new.shows } }
    {
        Ok(self.connections.open(0))
    }

    fn read(&mut self, buf: &mut [u8]) -> Result<usize, Failed>
        requires some { 0 < length buf.old }
        requires size { length buf.old ≡ read_size self.old.shows.taken }
        requires is_open { IsTrue self.old.shows.is_open }
        ensures bound { ReadsAtMost result buf.new }
        ensures reads { Reads self.old.shows self.new.shows result buf.new }
        ensures planned { AsPlanned self.old.shows.plan self.old.reads self.new.reads result }
        ensures pieces { self.new.pieces ≡ self.old.pieces }
        ensures causes { self.new.causes ≡ self.old.causes }
        ensures tellings { self.new.tellings ≡ self.old.tellings }
        ensures count { GivesPiece self.old result (length buf.old) }
    {
        let call = self.reads;
        self.reads = call.saturating_add(1);
        if self.fails.contains(&call) {
            self.connections.fail();
            return Err(Failed);
        }
        let most = piece_at(self.pieces.as_slice(), call, buf.len());
        Ok(self.connections.give(most, buf))
    }

    fn close(&mut self)
        requires { IsTrue self.old.shows.is_open }
        ensures closes { Closes self.old.shows self.new.shows }
        ensures same { self.new ≡ record self.old { shows = self.new.shows } }
    {
        self.connections.close();
    }

    fn told(&self) -> Told
        ensures { result ≡ tells_now self.now }
    {
        telling_at(self.tellings.as_slice(), self.connections.opened())
    }

    fn ended(&mut self, end: &Ended<'_>)
        ensures causes { Some self.new.causes ≡ told_after (Some self.old.causes) end.now.cause }
        ensures same { self.new ≡ record self.old { causes = self.new.causes } }
    {
        if let Some(cause) = end.cause {
            note_cause(&mut self.notes, cause);
        }
    }
}
