ghost use Rattle.std.specs.Prelude.{◌≡◌, ◌≤◌, ◌+◌, ◌-◌, min, length, take, drop, IfOk};
ghost use Rattle.std.specs.Vec.{vec_capacity};
ghost use Rattle.disk_doors.specs.Images.{padded, overwritten};
ghost use Rattle.disk_doors.specs.MemDisk.{fresh};

use crate::Disk;
use crate::notes::Notes;
use std::alloc::Global;
use std::marker::Model;
use wire_io::{Failed, NoMemory};

// What was called, in the first number of a note; `specs/Note.antt` says what moment it makes.
const BEGAN: u64 = 0;

const WROTE: u64 = 1;

const WRITE_FAILED: u64 = 2;

const SYNCED: u64 = 3;

const SYNC_FAILED: u64 = 4;

/// A disk in memory. It tells all that it does.
///
/// A call fails exactly where its number, counted from 0 over the disk's life, is among those that fail, or where a
/// write would make the file longer than there is room for. A write that fails leaves the file as it reads, and so does
/// a sync that fails.
#[derive(Drop)]
pub struct MemDisk {
    bytes: Vec<u8>,
    room: usize,
    fails: Vec<u64>,
    calls: u64,
    faults: u64,
    notes: Notes,
}

impl Model for MemDisk {
    ghost use Rattle.std.specs.Vec.{vec_capacity};
    ghost use Rattle.disk_doors.specs.MemDisk.{MemDiskValue, HoldsFile, shows_of};

    ghost Value = { MemDiskValue };

    ghost view = { λ d. record { shows = shows_of d.notes.events d.fails.items d.room d.calls; faults = d.faults } };

    ghost invariant = { λ d. HoldsFile d.notes.events d.bytes.items d.room (vec_capacity d.bytes) };
}

// The bytes, and zeros after them up to this length.
fn lengthen(bytes: &mut Vec<u8>, end: usize)
    requires { end ≤ vec_capacity bytes.old }
    ensures items { bytes.new.items ≡ padded bytes.old.items end }
    ensures capacity { vec_capacity bytes.old ≤ vec_capacity bytes.new }
{
    let size = bytes.len().max(end);
    if bytes.resize(size, 0).is_err() {
        // the premise leaves room for it
        unreachable!();
    }
}

// Puts the piece at this place, after zeros where the bytes end before it.
fn overwrite(bytes: &mut Vec<u8>, place: usize, piece: &[u8])
    requires { place + length piece.now ≤ vec_capacity bytes.old }
    ensures items { bytes.new.items ≡ overwritten bytes.old.items place piece.now }
    ensures capacity { vec_capacity bytes.old ≤ vec_capacity bytes.new }
{
    let end = place + piece.len();
    lengthen(bytes, end);
    bytes[place..end].copy_from_slice(piece);
}

impl MemDisk {
    /// A disk with this file, all of it kept, and room for so many bytes, for which it takes the memory at once. The
    /// calls with these numbers will fail.
    pub fn new(alloc: Global, bytes: &[u8], room: u32, fails: &[u64]) -> Result<MemDisk, NoMemory>
        requires { length bytes.now ≤ room }
        ensures { IfOk result (λ d. d ≡ record { shows = fresh bytes.now room fails.now; faults = 0 }) }
    {
        let room = room as usize;
        let mut file = Vec::with_capacity(alloc, room)?;
        file.extend_from_slice(bytes)?;
        let fails = Vec::from_slice(alloc, fails)?;
        let mut notes = Notes::new();
        notes.note(&[BEGAN, 0], bytes);
        Ok(MemDisk {
            bytes: file,
            room,
            fails,
            calls: 0,
            faults: 0,
            notes,
        })
    }

    /// Lends the file as it reads.
    pub fn bytes(&self) -> &[u8]
        ensures { result.now ≡ self.now.shows.now.file }
    {
        self.bytes.as_slice()
    }
}

impl Disk for MemDisk {
    ghost use Rattle.std.specs.Prelude.{⊤};

    ghost tells = { ⊤ };

    ghost shows = { λ d. d.shows };

    ghost faults = { λ d. d.faults };

    fn size(&mut self) -> Result<u64, Failed> {
        let call = self.calls;
        self.calls = call.saturating_add(1);
        if self.fails.contains(&call) {
            self.faults = self.faults.saturating_add(1);
            return Err(Failed);
        }
        Ok(self.bytes.len() as u64)
    }

    fn read_at(&mut self, place: u64, buf: &mut [u8]) -> Result<usize, Failed> {
        let call = self.calls;
        self.calls = call.saturating_add(1);
        if self.fails.contains(&call) {
            self.faults = self.faults.saturating_add(1);
            return Err(Failed);
        }
        Ok(give(self.bytes.as_slice(), place, buf))
    }

    fn write_at(&mut self, place: u64, piece: &[u8]) -> Result<(), Failed> {
        let call = self.calls;
        self.calls = call.saturating_add(1);
        let room = self.room as u64;
        let fits = place <= room && piece.len() as u64 <= room - place;
        if !fits || self.fails.contains(&call) {
            self.faults = self.faults.saturating_add(1);
            self.notes.note(&[WRITE_FAILED, place], piece);
            return Err(Failed);
        }
        overwrite(&mut self.bytes, place as usize, piece);
        self.notes.note(&[WROTE, place], piece);
        Ok(())
    }

    fn sync(&mut self) -> Result<(), Failed> {
        let call = self.calls;
        self.calls = call.saturating_add(1);
        if self.fails.contains(&call) {
            self.faults = self.faults.saturating_add(1);
            self.notes.note(&[SYNC_FAILED, 0], &[]);
            return Err(Failed);
        }
        self.notes.note(&[SYNCED, 0], &[]);
        Ok(())
    }
}

// Copies the bytes from this place on, as many as there are and the buffer holds, and answers how many.
fn give(bytes: &[u8], place: u64, buf: &mut [u8]) -> usize
    ensures count { result ≡ min (length buf.new) (length bytes.now - place) }
    ensures bytes { take result buf.new ≡ take result (drop place bytes.now) }
{
    if place >= bytes.len() as u64 {
        return 0;
    }
    let rest = &bytes[place as usize..];
    let count = rest.len().min(buf.len());
    buf[..count].copy_from_slice(&rest[..count]);
    count
}
