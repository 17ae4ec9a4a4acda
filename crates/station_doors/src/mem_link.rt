ghost use Rattle.std.specs.Prelude.{◌≡◌, ◌≤◌, ◌<◌, [], Some, length, vec_len, All, IfOk, IfSome, OnErr, IsTrue};
ghost use Rattle.std.specs.Io.{ReadsAtMost};
ghost use Rattle.std.specs.Io.KnownBytes.{WriteAppends};
ghost use Rattle.wire_io.specs.Aside.{Plan};
ghost use Rattle.wire_io.specs.Faults.{HasCause};
ghost use Rattle.station_doors.specs.Doors.{Reads, AsPlanned, Opens, Closes, noted_writes, heard_size, untouched_link};

use crate::Link;
use crate::connections::Connections;
use crate::mem_port::piece_at;
use std::alloc::Global;
use std::marker::Model;
use wire_io::{ByteList, Failed, NoMemory, Sink};

/// A link over connections in memory that keeps what is written. It tells all that it does.
///
/// Its k-th read, counted from 0 over the link's life, gives at most `pieces[k]` bytes and at least one;
/// reads past that list give all that fits. A write takes as many bytes as there is room for. Reads and writes
/// are counted together, from 0: those whose numbers are among `fails` fail, and give or take nothing. A write
/// fails too where no room is left.
#[derive(Drop)]
pub struct MemLink {
    connections: Connections,
    pieces: Vec<u32>,
    written: Vec<u8>,
    room: usize,
    fails: Vec<u64>,
    reads: u64,
    calls: u64,
    faults: u64,
}

impl Model for MemLink {
    ghost use Rattle.std.specs.Prelude.{◌≤◌, ◌<◌, vec_len, All};
    ghost use Rattle.std.specs.Vec.{vec_capacity};
    ghost use Rattle.station_doors.specs.MemLink.{MemLinkValue};
    ghost use Rattle.station_doors.specs.Connections.{link_shows};

    ghost Value = { MemLinkValue };

    ghost view = { λ k. record {
      shows = link_shows k.fails.items k.connections;
      pieces = k.pieces.items;
      fails = k.fails.items;
      written = k.written.items;
      room = k.room;
      reads = k.reads;
      calls = k.calls;
      faults = k.faults;
    } };

    ghost invariant = { λ k. All (λ n. 0 < n) k.pieces.items × (vec_len k.written ≤ k.room) × (k.room ≤ vec_capacity k.written) };
}

impl MemLink {
    /// A link with these connections, of which none was opened, and with room for so many written bytes, for
    /// which it takes the memory at once. No number in `pieces` is 0.
    pub fn new(
        alloc: Global,
        connections: &[ByteList],
        pieces: &[u32],
        room: u32,
        fails: &[u64],
    ) -> Result<MemLink, NoMemory>
        requires { All (λ n. 0 < n) pieces.now }
        ensures { IfOk result (λ link. link ≡ record {
          shows = untouched_link (record { connections = connections.now; fails = fails.now });
          pieces = pieces.now;
          fails = fails.now;
          written = [];
          room = room;
          reads = 0;
          calls = 0;
          faults = 0;
        }) }
    {
        let connections = Connections::new(alloc, connections)?;
        let pieces = Vec::from_slice(alloc, pieces)?;
        let room = room as usize;
        let written = Vec::with_capacity(alloc, room)?;
        let fails = Vec::from_slice(alloc, fails)?;
        Ok(MemLink {
            connections,
            pieces,
            written,
            room,
            fails,
            reads: 0,
            calls: 0,
            faults: 0,
        })
    }

    /// Lends the bytes written.
    pub fn taken(&self) -> &[u8]
        ensures { result.now ≡ self.now.written }
    {
        self.written.as_slice()
    }
}

impl Sink for MemLink {
    ghost use Rattle.station_doors.specs.MemLink.{TakesPiece};

    ghost told = { λ k. Some k.written };

    ghost faults = { λ k. k.faults };

    ghost aside = { λ k. k.shows };

    fn write(&mut self, piece: &[u8]) -> Result<usize, Failed>
        requires { 0 < length piece.now }
        ensures does { TakesPiece self.old self.new result piece.now }
        ensures some { IfOk result (λ n. 0 < n) }
        ensures bound { IfOk result (λ n. n ≤ length piece.now) }
        ensures told { WriteAppends (Some self.old.written) (Some self.new.written) result piece.now }
        ensures aside { self.new.shows ≡ self.old.shows }
        ensures cause { HasCause self.old.faults self.new.faults result }
    {
        let call = self.calls;
        self.calls = call.saturating_add(1);
        let left = self.room - self.written.len();
        if left == 0 || self.fails.contains(&call) {
            self.faults = self.faults.saturating_add(1);
            return Err(Failed);
        }
        let count = left.min(piece.len());
        if self.written.extend_from_slice(&piece[..count]).is_err() {
            // `new` took the memory for the room
            unreachable!();
        }
        Ok(count)
    }
}

impl Link for MemLink {
    ghost use Rattle.station_doors.specs.MemLink.{ReadsPiece};

    ghost calls = { λ k. k.calls };

    fn next_connection(&mut self) -> Result<bool, Failed>
        ensures opens { Opens self.old.shows self.new.shows result }
        ensures writes { self.new.shows.write_faults ≡ noted_writes self.old.faults self.old.shows.write_faults result }
        ensures planned { IfSome self.old.shows.plan (λ plan. OnErr result (plan.fails ≡ [] → ⊥)) }
        ensures same { self.new ≡ record self.old { shows = self.new.shows } }
    {
        Ok(self.connections.open(self.faults))
    }

    fn read(&mut self, buf: &mut [u8]) -> Result<usize, Failed>
        requires some { 0 < length buf.old }
        requires size { length buf.old ≡ heard_size self.old.shows.taken }
        requires is_open { IsTrue self.old.shows.is_open }
        ensures bound { ReadsAtMost result buf.new }
        ensures reads { Reads self.old.shows self.new.shows result buf.new }
        ensures planned { AsPlanned self.old.shows.plan self.old.calls self.new.calls result }
        ensures piece { ReadsPiece self.old self.new result (length buf.old) }
    {
        let call = self.calls;
        self.calls = call.saturating_add(1);
        let number = self.reads;
        self.reads = number.saturating_add(1);
        if self.fails.contains(&call) {
            self.connections.fail();
            return Err(Failed);
        }
        let most = piece_at(self.pieces.as_slice(), number, buf.len());
        Ok(self.connections.give(most, buf))
    }

    fn close(&mut self)
        requires { IsTrue self.old.shows.is_open }
        ensures closes { Closes self.old.shows self.new.shows }
        ensures same { self.new ≡ record self.old { shows = self.new.shows } }
    {
        self.connections.close();
    }
}
