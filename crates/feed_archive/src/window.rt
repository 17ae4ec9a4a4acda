ghost use Rattle.std.specs.Prelude.{◌≡◌, ◌-◌, ◌<◌, ◌≤◌, true, false, take, drop, length, IfOk, Ok, OnErr, IsTrue};
ghost use Rattle.wire_io.specs.Faults.{HasCause};
ghost use Rattle.disk_doors.specs.Disk.{Rests, IsSound};
ghost use Rattle.feed_archive.specs.Scanning.{Covers, IsPart};

use disk_doors::Disk;
use std::alloc::Global;
use std::marker::Model;
use wire_io::{Failed, NoMemory};

// How many bytes of a file are read at once. A record and its header fit in, and so do four of the longest that the
// station writes.
const ROOM: usize = 262_144;

/// Bytes of a disk's file, so that a read gives many records. Contracts see where they stand, and the bytes.
#[derive(Drop)]
pub(crate) struct Window {
    place: u64,
    // How many of the bytes are the file's.
    count: usize,
    room: Vec<u8>,
}

impl Model for Window {
    ghost use Rattle.std.specs.Prelude.{◌≡◌, ◌≤◌, take};
    ghost use Rattle.std.specs.Vec.{vec_len};
    ghost use Rattle.feed_archive.specs.Scanning.{WindowValue};

    ghost Value = { WindowValue };

    ghost view = { λ w. record { place = w.place; bytes = take w.count w.room.items } };

    ghost invariant = { λ w. (vec_len w.room ≡ 262144) × (w.count ≤ 262144) };
}

impl Window {
    /// No bytes.
    pub(crate) fn new(alloc: Global) -> Result<Window, NoMemory>
        ensures { IfOk result (λ w. length w.bytes ≡ 0) }
    {
        Ok(Window {
            place: 0,
            count: 0,
            room: Vec::from_elem(alloc, 0u8, ROOM)?,
        })
    }

    // Whether so many bytes from this place on are here.
    fn covers(&self, place: u64, count: usize) -> bool
        ensures { IsTrue result → Covers self.now place count }
    {
        self.place <= place
            && place - self.place <= self.count as u64
            && count <= self.count - (place - self.place) as usize
    }

    /// Reads on from this place where so many bytes of it aren't here. False where the file has fewer there.
    pub(crate) fn reach<D: Disk>(
        &mut self,
        disk: &mut D,
        place: u64,
        count: usize,
    ) -> Result<bool, Failed>
        requires room { count ≤ 262144 }
        requires part { D.tells → IsPart (D.shows disk.old).now.file self.old }
        ensures covers { result ≡ Ok true → Covers self.new place count }
        ensures short { D.tells → result ≡ Ok false → length (D.shows disk.old).now.file - place < count }
        ensures part { D.tells → IsPart (D.shows disk.new).now.file self.new }
        ensures planned { D.tells → OnErr result (IsSound (D.shows disk.old) 0 → ⊥) }
        ensures rests { D.tells → Rests (D.shows disk.old) (D.shows disk.new) }
        ensures cause { HasCause (D.faults disk.old) (D.faults disk.new) result }
    {
        if self.covers(place, count) {
            return Ok(true);
        }
        // Where the read fails, nothing is here.
        self.count = 0;
        self.place = place;
        self.count = disk.read_at(place, self.room.as_mut_slice())?;
        Ok(count <= self.count)
    }

    /// Lends so many bytes from this place on.
    pub(crate) fn lend(&self, place: u64, count: usize) -> &[u8]
        requires { Covers self.now place count }
        ensures { result.now ≡ take count (drop (place - self.now.place) self.now.bytes) }
    {
        let from = (place - self.place) as usize;
        &self.room[from..from + count]
    }
}
