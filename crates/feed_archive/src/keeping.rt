ghost use Rattle.std.specs.Prelude.{◌≡◌, ◌<◌, ◌++◌, [], ◌∷◌, None, Some, List, ℕ, length, is_some, IsTrue};
ghost use Rattle.std.specs.Io.{ReadsAtMost};
ghost use Rattle.station_doors.specs.Doors.{Reads, AsPlanned, Went, read_size};
ghost use Rattle.disk_doors.specs.Disk.{Passes};
ghost use Rattle.feed_archive.specs.Recovering.{HasOnly};
ghost use Rattle.feed_archive.specs.Keeping.{HasKept, TellsBytes, InnerGave, KeepsPlan, KeepsPlace, KeepCause, KeepsExactly, KeepsDisk, KeepsGoing, HasBetween, stays_of, is_refused, gave, lost, went_of, keep_aside};

use crate::sealed_port::SealedPort;
use crate::{AppendFault, Archive};
use disk_doors::{Disk, Notes};
use station_doors::{Ended, Port, Told};
use std::marker::Model;
use std::snapshot::Snapshot;
use wire_io::Failed;

// What was noted, in the first number of a note; `specs/Keeping.antt` says what follows from it.
const GAVE: u64 = 0;

const REFUSED: u64 = 1;

const FAILED_LATER: u64 = 2;

const OPENED: u64 = 3;

const GAVE_NONE: u64 = 4;

const FAILED_BELOW: u64 = 5;

// Notes what came of a call, by one of these numbers, and its bytes.
fn note(notes: &mut Notes, what: u64, bytes: &[u8])
    ensures { notes.new.events ≡ (what, 0, bytes.now) ∷ notes.old.events }
{
    notes.note(&[what, 0], bytes);
}

/// A port over another, which keeps what it gives in an archive before it gives it.
///
/// A read asks the port below, appends what came as one record, and only then gives it. Once an append was refused, that
/// read and each later one fails, on later connections too, and the port below isn't asked for more. What it tells are the
/// bytes that it gave, where the port below tells its own, and no plan; the bytes of a refused append don't count among
/// them.
#[derive(Drop)]
pub struct KeepPort<P: Port, D: Disk> {
    inner: P,
    archive: Archive<D>,
    // The port and the archive as they were when this one was made, and the port before its last read.
    first: Snapshot<P>,
    made: Snapshot<Archive<D>>,
    before: Snapshot<P>,
    // What was given and refused, how the other reads went, and what was opened.
    notes: Notes,
    // The answer of the append that was refused.
    refused: Option<AppendFault>,
    // How many bytes it gave.
    given: u64,
}

impl<P: Port, D: Disk> Model for KeepPort<P, D> {
    ghost use Rattle.std.specs.Prelude.{◌≡◌, is_some, length};
    ghost use Rattle.feed_archive.specs.Keeping.{KeepPortValue, HasKept, TellsBytes, InnerGave, KeepsPlan, KeepsPlace, KeepCause, KeepsExactly, KeepsDisk, KeepsGoing, is_refused, gave, keep_aside};

    ghost Value = { KeepPortValue P D };

    ghost view = { λ k. record { inner = k.inner; archive = k.archive; first = k.first.value; made = k.made.value; before = k.before.value; events = k.notes.events; refused = k.refused } };

    ghost invariant = { λ k. (is_refused k.notes.events ≡ is_some k.refused) × HasKept D.tells (D.shows k.made.value.disk) (D.shows k.archive.disk) k.notes.events
        × TellsBytes (P.aside k.first.value) (keep_aside (P.aside k.inner) (P.aside k.before.value) k.notes.events) (gave k.notes.events)
        × KeepCause (D.faults k.made.value.disk) (D.faults k.archive.disk) k.refused
        × KeepsExactly D.tells (D.shows k.made.value.disk) (D.shows k.archive.disk) k.notes.events k.refused
        × InnerGave (P.aside k.first.value) (P.aside k.inner) k.notes.events
        × KeepsPlace k.made.value.place k.archive.place k.notes.events k.refused
        × (k.given ≡ length (gave k.notes.events))
        × KeepsDisk D.tells (D.shows k.made.value.disk) (D.shows k.archive.disk) k.made.value.place k.notes.events k.refused
        × KeepsGoing k.made.value.stopped k.archive.stopped k.refused
        × KeepsPlan (P.aside k.first.value) (P.aside k.inner) (P.calls k.first.value) (P.calls k.inner) k.notes.events };
}

impl<P: Port, D: Disk> KeepPort<P, D> {
    /// Keeps in this archive what the port gives from now on.
    pub fn new(port: SealedPort<P>, archive: Archive<D>) -> KeepPort<P, D>
        ensures { result ≡ record { inner = port; archive = archive; first = port; made = archive; before = port; events = []; refused = None } }
    {
        let inner = port.into_port();
        let first = Snapshot::of(&inner);
        let before = Snapshot::of(&inner);
        let made = Snapshot::of(&archive);
        KeepPort {
            inner,
            archive,
            first,
            made,
            before,
            notes: Notes::new(),
            refused: None,
            given: 0,
        }
    }

    /// The answer of the append that was refused. None where none was.
    pub fn refused(&self) -> Option<AppendFault>
        ensures { result ≡ self.now.refused }
    {
        self.refused
    }

    /// How many bytes it gave.
    pub fn given(&self) -> u64
        ensures { result ≡ length (gave self.now.events) }
    {
        self.given
    }

    /// Hands the port and the archive back as they are.
    ///
    /// Where each image of the disk had one content when this port was made, a crash at any moment since left that content,
    /// then every byte that was given by then, and no more than what the port below gave. Where the disk failed no append,
    /// it now leaves exactly what was given.
    pub fn into_parts(self) -> (SealedPort<P>, Archive<D>)
        ensures parts { (result.0 ≡ self.inner) × (result.1 ≡ self.archive) }
        ensures noted { is_refused self.events ≡ is_some self.refused }
        ensures kept { HasKept D.tells (D.shows self.made.disk) (D.shows self.archive.disk) self.events }
        ensures told { TellsBytes (P.aside self.first) (keep_aside (P.aside self.inner) (P.aside self.before) self.events) (gave self.events) }
        ensures inner { InnerGave (P.aside self.first) (P.aside self.inner) self.events }
        ensures plan { KeepsPlan (P.aside self.first) (P.aside self.inner) (P.calls self.first) (P.calls self.inner) self.events }
        ensures place { KeepsPlace self.made.place self.archive.place self.events self.refused }
        ensures disk { KeepsDisk D.tells (D.shows self.made.disk) (D.shows self.archive.disk) self.made.place self.events self.refused }
        ensures going { KeepsGoing self.made.stopped self.archive.stopped self.refused }
        ensures cause { KeepCause (D.faults self.made.disk) (D.faults self.archive.disk) self.refused }
        ensures exact { KeepsExactly D.tells (D.shows self.made.disk) (D.shows self.archive.disk) self.events self.refused }
    {
        let KeepPort {
            inner,
            archive,
            first: _,
            made: _,
            before: _,
            notes: _,
            refused: _,
            given: _,
        } = self;
        (SealedPort::new(inner), archive)
    }
}

impl<P: Port, D: Disk> Port for KeepPort<P, D> {
    ghost aside = { λ k. keep_aside (P.aside k.inner) (P.aside k.before) k.events };

    ghost stays = { λ k. stays_of P.aside P.calls D.shows D.faults k };

    ghost went = { λ k. Some (went_of k.events) };

    fn next_connection(&mut self) -> Result<bool, Failed> {
        match self.inner.next_connection() {
            Ok(true) => {
                note(&mut self.notes, OPENED, &[]);
                Ok(true)
            }
            Ok(false) => Ok(false),
            Err(failed) => Err(failed),
        }
    }

    // A crash at any moment of it leaves what was given before, and then a front of what it gives or is refused.
    fn read(&mut self, buf: &mut [u8]) -> Result<usize, Failed>
        requires some { 0 < length buf.old }
        requires size { length buf.old ≡ read_size (keep_aside (P.aside self.old.inner) (P.aside self.old.before) self.old.events).taken }
        requires is_open { IsTrue (keep_aside (P.aside self.old.inner) (P.aside self.old.before) self.old.events).is_open }
        ensures bound { ReadsAtMost result buf.new }
        ensures reads { Reads (keep_aside (P.aside self.old.inner) (P.aside self.old.before) self.old.events)
            (keep_aside (P.aside self.new.inner) (P.aside self.new.before) self.new.events) result buf.new }
        ensures planned { AsPlanned (keep_aside (P.aside self.old.inner) (P.aside self.old.before) self.old.events).plan 0 0 result }
        ensures stays { stays_of P.aside P.calls D.shows D.faults self.new ≡ stays_of P.aside P.calls D.shows D.faults self.old }
        ensures went { Went (Some (went_of self.old.events)) (Some (went_of self.new.events)) result }
        ensures any_moment { D.tells → (first : List ℕ) → HasOnly (D.shows self.old.made.disk).now first
            → Passes (HasBetween first (gave self.old.events) (gave self.new.events ++ lost self.new.events)) (D.shows self.old.archive.disk) (D.shows self.new.archive.disk) }
    {
        if self.refused.is_some() {
            note(&mut self.notes, FAILED_LATER, &[]);
            return Err(Failed);
        }
        self.before = Snapshot::of(&self.inner);
        let count = match self.inner.read(buf) {
            Ok(count) => count,
            Err(failed) => {
                note(&mut self.notes, FAILED_BELOW, &[]);
                return Err(failed);
            }
        };
        if count == 0 {
            note(&mut self.notes, GAVE_NONE, &[]);
            return Ok(0);
        }
        let piece = &buf[..count];
        match self.archive.append(piece) {
            Ok(()) => {
                // The archive has a place below 2^31 for each of them.
                self.given += count as u64;
                note(&mut self.notes, GAVE, piece);
                Ok(count)
            }
            Err(fault) => {
                self.refused = Some(fault);
                note(&mut self.notes, REFUSED, piece);
                Err(Failed)
            }
        }
    }

    fn close(&mut self) {
        self.inner.close();
    }

    // An archive keeps bytes alone.
    fn told(&self) -> Told {
        Told::nothing()
    }

    // What is kept doesn't depend on it, and the port below isn't told.
    fn ended(&mut self, _end: &Ended<'_>) {}
}
