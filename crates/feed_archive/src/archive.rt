ghost use Rattle.std.specs.Prelude.{◌≡◌, ◌<◌, ◌≤◌, ◌+◌, ◌++◌, List, [], ◌∷◌, ℕ, false, length, OnOk, IfOk, IfErr, MatchResult};
ghost use Rattle.disk_doors.specs.Disk.{Passes, Lasts};
ghost use Rattle.disk_doors.specs.Images.{settled};
ghost use Rattle.feed_archive.specs.Recovering.{HasOnly, FaultCause, FaultFits, FaultPlanned};
ghost use Rattle.feed_archive.specs.Scanning.{IsPlain};
ghost use Rattle.feed_archive.specs.Appending.{IsBeforeOrAfter, IsClosedAt, IsZeroAt, AppendAnswers, AppendCause, AppendPlanned, Began, Keeps, Refuses};

use crate::filling::{ROOM, fill};
use crate::scanning::{MOST, scan};
use crate::{AppendFault, RecoverFault};
use disk_doors::{Disk, put};
use std::alloc::Global;
use std::marker::Model;

/// An archive that pieces are appended to.
///
/// Contracts see its disk, the place of the byte that closes it, and whether an append has failed. Until then all of the
/// file is kept, and it is an archive that is closed at this place.
#[derive(Drop)]
pub struct Archive<D: Disk> {
    disk: D,
    // The place of the byte that closes the archive.
    place: u64,
    // The bytes of the record that is being written.
    room: Vec<u8>,
    // The disk failed in an append.
    stopped: bool,
}

impl<D: Disk> Model for Archive<D> {
    ghost use Rattle.std.specs.Prelude.{◌≡◌, ◌<◌, ◌≤◌, ◌^◌, false};
    ghost use Rattle.std.specs.Vec.{vec_capacity};
    ghost use Rattle.feed_archive.specs.Appending.{ArchiveValue, IsClosedAt};

    ghost Value = { ArchiveValue D };

    ghost view = { λ a. record { disk = a.disk; place = a.place; stopped = a.stopped } };

    ghost invariant = { λ a. (65541 ≤ vec_capacity a.room) × (a.place < 2 ^ 31) × (a.stopped ≡ false → D.tells → IsClosedAt (D.shows a.disk).now a.place) };
}

/// Why no archive was begun, and the disk.
#[derive(Drop)]
pub struct BeginRefused<D> {
    /// Why, as of `recover`.
    pub fault: RecoverFault,

    /// The disk, which still holds what it held.
    pub disk: D,
}

impl<D: Disk> Archive<D> {
    /// Takes the disk and the memory of all later calls, reads the archive, and syncs. It writes nothing.
    ///
    /// After Ok every crash leaves the content that was read, also where an append that was cut short had left the disk
    /// with two. Where it refuses, the disk is handed back: nothing was done to it, or its sync failed. An archive that was
    /// created on the disk, and nothing since, is never refused as damaged or too long.
    pub fn begin(alloc: Global, disk: D) -> Result<Archive<D>, BeginRefused<D>>
        ensures ok { D.tells → IfOk result (λ a. Began (D.shows disk) (D.shows a.disk)) }
        ensures closed { D.tells → IfOk result (λ a. IsClosedAt (D.shows a.disk).now a.place) }
        ensures stopped { IfOk result (λ a. a.stopped ≡ false) }
        ensures fresh { D.tells → (D.shows disk).now ≡ settled (0 ∷ []) → MatchResult result (λ a. a.place ≡ 0) (λ r. IsPlain r.fault) }
        ensures refused { D.tells → IfErr result (λ r. Keeps (D.shows disk) (D.shows r.disk) × Refuses (D.shows disk) (D.shows r.disk) r.fault × FaultFits (D.shows disk).now.file r.fault) }
        ensures planned { D.tells → IfErr result (λ r. FaultPlanned (D.shows disk) r.fault) }
        ensures cause { MatchResult result (λ a. D.faults a.disk ≡ D.faults disk) (λ r. FaultCause (D.faults disk) (D.faults r.disk) r.fault) }
    {
        let mut disk = disk;
        let Ok(room) = Vec::with_capacity(alloc, ROOM) else {
            return Err(BeginRefused {
                fault: RecoverFault::NoMemory,
                disk,
            });
        };
        let place = match scan(alloc, &mut disk) {
            Ok(scanned) => scanned.place,
            Err(fault) => return Err(BeginRefused { fault, disk }),
        };
        match disk.sync() {
            Ok(()) => {}
            Err(_) => {
                return Err(BeginRefused {
                    fault: RecoverFault::Failed,
                    disk,
                });
            }
        }
        Ok(Archive {
            disk,
            place,
            room,
            stopped: false,
        })
    }

    /// Hands the disk back as it is.
    pub fn into_disk(self) -> D
        ensures same { result ≡ self.disk }
        ensures closed { D.tells → self.stopped ≡ false → IsClosedAt (D.shows result).now self.place }
    {
        let Archive {
            disk,
            place: _,
            room: _,
            stopped: _,
        } = self;
        disk
    }

    /// Appends the piece, of 1 to 65,536 bytes, as one record. It takes no memory, and makes at most four calls of the
    /// disk.
    ///
    /// A crash at any moment of it leaves the archive with the piece or without it, and after Ok with it; the byte that
    /// closes it is then 0. `Full` comes exactly where the archive would have more than 2^31 bytes, and `Stopped` where the
    /// disk failed in an earlier append; both leave all as it was. After `Failed` the archive is to be begun again.
    pub fn append(&mut self, piece: &[u8]) -> Result<(), AppendFault>
        requires some { 0 < length piece.now }
        requires most { length piece.now ≤ 65536 }
        ensures any_moment { D.tells → (content : List ℕ) → HasOnly (D.shows self.old.disk).now content
            → Passes (IsBeforeOrAfter content piece.now) (D.shows self.old.disk) (D.shows self.new.disk) }
        ensures kept { OnOk result (D.tells → (content : List ℕ) → HasOnly (D.shows self.old.disk).now content → HasOnly (D.shows self.new.disk).now (content ++ piece.now)) }
        ensures closed { D.tells → self.old.stopped ≡ false → IsClosedAt (D.shows self.old.disk).now self.old.place }
        ensures zero { OnOk result (D.tells → IsZeroAt (D.shows self.new.disk).now self.new.place) }
        ensures answers { AppendAnswers self.old self.new (length piece.now) result }
        ensures lasts { D.tells → Lasts (D.shows self.old.disk) (D.shows self.new.disk) }
        ensures few { D.tells → (D.shows self.new.disk).calls ≤ (D.shows self.old.disk).calls + 4 }
        ensures planned { D.tells → AppendPlanned (D.shows self.old.disk) (self.old.place + 6 + length piece.now) result }
        ensures cause { AppendCause (D.faults self.old.disk) (D.faults self.new.disk) result }
    {
        if self.stopped {
            return Err(AppendFault::Stopped);
        }
        let end = self.place + 6 + piece.len() as u64;
        if end > MOST {
            return Err(AppendFault::Full);
        }
        fill(&mut self.room, piece);
        // Where the disk fails below, no later append goes on.
        self.stopped = true;
        put(&mut self.disk, self.place + 1, self.room.as_slice())?;
        put(&mut self.disk, self.place, &[1])?;
        self.place = end - 1;
        self.stopped = false;
        Ok(())
    }
}
