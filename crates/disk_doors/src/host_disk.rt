ghost use Rattle.std.specs.Prelude.{◌≡◌, ◌≤◌, [], ◌∷◌, true, false, IfOk, OnOk, OnErr};
ghost use Rattle.std.specs.Io.{ReadsAtMost};
ghost use Rattle.wire_io.specs.Faults.{HasCause, Rose};
ghost use Rattle.disk_doors.specs.Disk.{Sizes, ReadsAt, WritesAt, Syncs};
ghost use Rattle.disk_doors.specs.FileDisk.{shown};
ghost use Rattle.disk_doors.specs.Opening.{made_where_none, as_it_is};

use crate::Disk;
use crate::notes::Notes;
use crate::opening::{SystemFiles, open_made, open_there};
use crate::raw_file::{RawFile, fill};
use std::fs::{File, Files, OpenOptions};
use std::io;
use std::marker::Model;
use wire_io::Failed;

// What was refused, in the first number of a note; `specs/FileDisk.antt` says what follows from it.
const ASKED: u64 = 0;

const WRITE: u64 = 1;

const SYNC: u64 = 2;

/// A disk over a file. It tells what its file tells, so it is such a disk as `Disk` says over any file that tells.
///
/// After a sync that failed each further call fails, and the file isn't asked: the system may then have dropped what was
/// written, and call the next sync done.
#[derive(Drop)]
pub struct FileDisk<F: RawFile> {
    file: F,
    // How it was opened.
    opened: OpenOptions,
    faults: u64,
    // A sync failed.
    broken: bool,
    // The calls that were refused since.
    refused: Notes,
    // What the system said at the first of its calls that failed.
    error: Option<io::Error>,
}

/// A file of the system. It tells nothing: that the file does what `RawFile` says is a premise.
///
/// It is locked while it is held, so that no other program writes it that asks for the lock too.
pub type HostDisk = FileDisk<File>;

impl<F: RawFile> Model for FileDisk<F> {
    ghost use Rattle.disk_doors.specs.FileDisk.{FileDiskValue, RefusesAfterSync, after_refusals};

    ghost Value = { FileDiskValue F };

    ghost view = { λ d. record { file = d.file; opened = d.opened; faults = d.faults; broken = d.broken; refused = d.refused.events } };

    ghost invariant = { λ d. RefusesAfterSync F.tells (after_refusals d.refused.events (F.shows d.file)) d.broken d.refused.events };
}

// Counts a fault, and keeps the first error.
fn fail(faults: &mut u64, first: &mut Option<io::Error>, error: io::Error) -> Failed
    ensures rose { Rose faults.old faults.new }
    ensures later { faults.old ≤ faults.new }
{
    *faults = faults.saturating_add(1);
    if first.is_none() {
        *first = Some(error);
    }
    Failed
}

// Counts a call that is refused as a fault, and notes what was called.
fn refuse(faults: &mut u64, refused: &mut Notes, call: u64, place: u64, piece: &[u8]) -> Failed
    ensures rose { Rose faults.old faults.new }
    ensures later { faults.old ≤ faults.new }
    ensures noted { refused.new.events ≡ (call, place, piece.now) ∷ refused.old.events }
{
    *faults = faults.saturating_add(1);
    refused.note(&[call, place], piece);
    Failed
}

impl<F: RawFile> FileDisk<F> {
    /// A disk over this file, which was opened so. No call was made of it.
    pub fn over(file: F, opened: OpenOptions) -> FileDisk<F>
        ensures { result ≡ record { file = file; opened = opened; faults = 0; broken = false; refused = [] } }
    {
        FileDisk {
            file,
            opened,
            faults: 0,
            broken: false,
            refused: Notes::new(),
            error: None,
        }
    }
}

impl<F: RawFile + Drop> FileDisk<F> {
    /// What the system said at the first of its calls that failed; None where none did.
    pub fn into_error(self) -> Option<io::Error> {
        let FileDisk {
            file: _,
            opened: _,
            faults: _,
            broken: _,
            refused: _,
            error,
        } = self;
        error
    }
}

impl FileDisk<File> {
    /// The file of this path, which is made where there is none. An empty file is kept in its folder before this
    /// answers. It fails too where the path is no file, as a folder or a device, or where another holds its lock.
    pub fn open<R: Files<File = File>>(files: &R, path: &str) -> io::Result<HostDisk>
        ensures opened { IfOk result (λ d. d.opened ≡ made_where_none) }
        ensures fine { IfOk result (λ d. d.faults ≡ 0) }
        ensures whole { IfOk result (λ d. d.broken ≡ false) }
    {
        open_made(&SystemFiles { files }, path)
    }

    /// The file of this path as it is. It fails where there is none, and makes nothing. It fails too where the path is no
    /// file, as a folder or a device, or where another holds its lock.
    pub fn open_kept<R: Files<File = File>>(files: &R, path: &str) -> io::Result<HostDisk>
        ensures opened { IfOk result (λ d. d.opened ≡ as_it_is) }
        ensures fine { IfOk result (λ d. d.faults ≡ 0) }
        ensures whole { IfOk result (λ d. d.broken ≡ false) }
    {
        open_there(&SystemFiles { files }, path)
    }
}

impl<F: RawFile> Disk for FileDisk<F> {
    ghost tells = { F.tells };

    ghost shows = { λ d. shown F.shows d };

    ghost faults = { λ d. d.faults };

    fn size(&mut self) -> Result<u64, Failed>
        ensures told { F.tells → Sizes (shown F.shows self.old) (shown F.shows self.new) result }
        ensures cause { HasCause self.old.faults self.new.faults result }
        ensures still { self.new.broken ≡ self.old.broken }
        ensures whole { OnOk result (self.old.broken ≡ false) }
    {
        if self.broken {
            return Err(refuse(&mut self.faults, &mut self.refused, ASKED, 0, &[]));
        }
        match self.file.size() {
            Ok(size) => Ok(size),
            Err(error) => Err(fail(&mut self.faults, &mut self.error, error)),
        }
    }

    fn read_at(&mut self, place: u64, buf: &mut [u8]) -> Result<usize, Failed>
        ensures bound { ReadsAtMost result buf.new }
        ensures told { F.tells → ReadsAt (shown F.shows self.old) (shown F.shows self.new) place result buf.new }
        ensures cause { HasCause self.old.faults self.new.faults result }
        ensures still { self.new.broken ≡ self.old.broken }
        ensures whole { OnOk result (self.old.broken ≡ false) }
    {
        if self.broken {
            return Err(refuse(&mut self.faults, &mut self.refused, ASKED, place, &[]));
        }
        match fill(&mut self.file, place, buf) {
            Ok(count) => Ok(count),
            Err(error) => Err(fail(&mut self.faults, &mut self.error, error)),
        }
    }

    fn write_at(&mut self, place: u64, piece: &[u8]) -> Result<(), Failed>
        ensures told { F.tells → WritesAt (shown F.shows self.old) (shown F.shows self.new) place piece.now result }
        ensures cause { HasCause self.old.faults self.new.faults result }
        ensures still { self.new.broken ≡ self.old.broken }
        ensures whole { OnOk result (self.old.broken ≡ false) }
    {
        if self.broken {
            return Err(refuse(&mut self.faults, &mut self.refused, WRITE, place, piece));
        }
        match self.file.write_whole(place, piece) {
            Ok(()) => Ok(()),
            Err(error) => Err(fail(&mut self.faults, &mut self.error, error)),
        }
    }

    // No sync is believed after one that failed.
    fn sync(&mut self) -> Result<(), Failed>
        ensures told { F.tells → Syncs (shown F.shows self.old) (shown F.shows self.new) result }
        ensures cause { HasCause self.old.faults self.new.faults result }
        ensures whole { OnOk result ((self.old.broken ≡ false) × (self.new.broken ≡ false)) }
        ensures breaks { OnErr result (self.new.broken ≡ true) }
    {
        if self.broken {
            return Err(refuse(&mut self.faults, &mut self.refused, SYNC, 0, &[]));
        }
        match self.file.sync() {
            Ok(()) => Ok(()),
            Err(error) => {
                self.broken = true;
                Err(fail(&mut self.faults, &mut self.error, error))
            }
        }
    }
}
