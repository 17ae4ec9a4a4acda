//! The input, kept in an archive before it is read.

ghost use Rattle.std.specs.Prelude.{◌≡◌, ◌++◌, false};
ghost use Rattle.bmp_specs.specs.LenientBody.{meaning_of};
ghost use Rattle.bmp_specs.specs.Lines.{stop_line};
ghost use Rattle.wire_io.specs.Faults.{HasCause};
ghost use Rattle.wire_io.specs.Writes.{Writes};
ghost use Rattle.station_top.specs.ArchiveRuns.{ArchiveConcludes, HandsBoth, HandsEmpty, IsKept, IsTakenIn, UsesBoth, archivefull_line, kept_line, status_kept, text_kept};
ghost use Rattle.station_top.specs.Station.{AnswersFault, ServesNobody};
ghost use Rattle.station_top.specs.Written.{IsWritten};

use crate::Status;
use crate::alone::{status_after, unless_failed};
use crate::counts::{Counts, put_number};
use crate::recall::refuse;
use crate::take::take_input;
use bmp_message::{BodyReading, LenientReading, Reading};
use bmp_specs::Cause;
use disk_doors::Disk;
use feed_archive::{
    AppendFault, Archive, BeginRefused, CreateFault, KeepPort, KeepYard, RecoverFault, SealedPort,
    create,
};
use reply_text::put_stop;
use station_doors::Port;
use std::alloc::Global;
use wire_io::{Failed, Sink, write_all};

/// What became of the input that was to be kept.
#[derive(Clone, Copy, Debug)]
pub enum Kept {
    /// No archive was created.
    Uncreated { fault: CreateFault },

    /// The archive that was created wasn't begun.
    Unbegun { fault: RecoverFault },

    /// There was no memory while the input was taken.
    Starved,

    /// The input was taken, so many bytes, and all of them are kept.
    Whole { bytes: u64, cause: Cause },

    /// So many bytes were kept, and the append of the next piece was refused.
    CutOff { bytes: u64, fault: AppendFault },
}

// Takes the one input connection of the port and keeps it in the archive, each piece before it is read. Hands back the
// port and the archive's disk.
fn keep<P: Port, D: Disk, R: BodyReading + Drop>(
    alloc: Global,
    port: SealedPort<P>,
    archive: Archive<D>,
) -> (SealedPort<P>, D, Kept)
    requires { archive.stopped ≡ false }
    ensures { IsTakenIn R.meaning (HandsEmpty D.tells (P.aside port) (P.calls port)
        (record { value = D.shows archive.disk; faults = D.faults archive.disk }) archive.place
        (P.aside result.0) (record { value = D.shows result.1; faults = D.faults result.1 })) result.2 }
{
    let mut keeping = KeepPort::new(port, archive);
    let taken = take_input::<KeepPort<P, D>, Counts, R>(alloc, &mut keeping);
    let refused = keeping.refused();
    let (port, archive) = keeping.into_parts();
    let disk = archive.into_disk();
    match taken {
        Err(_) => (port, disk, Kept::Starved),
        Ok((_, taken)) => match refused {
            None => (
                port,
                disk,
                Kept::Whole {
                    bytes: taken.bytes,
                    cause: taken.cause,
                },
            ),
            Some(fault) => (
                port,
                disk,
                Kept::CutOff {
                    bytes: taken.bytes,
                    fault,
                },
            ),
        },
    }
}

// Creates an archive on the disk and begins it, and then keeps the one input connection of the port in it. Hands back both.
fn archive_input<P: Port, D: Disk, R: BodyReading + Drop>(
    alloc: Global,
    port: SealedPort<P>,
    disk: D,
) -> (SealedPort<P>, D, Kept)
    ensures { IsKept R.meaning (HandsBoth D.tells (P.aside port) (P.calls port)
        (record { value = D.shows disk; faults = D.faults disk })
        (P.aside result.0) (record { value = D.shows result.1; faults = D.faults result.1 })) result.2 }
{
    let mut disk = disk;
    match create(&mut disk) {
        Ok(()) => {}
        Err(fault) => return (port, disk, Kept::Uncreated { fault }),
    }
    match Archive::begin(alloc, disk) {
        Ok(archive) => keep::<P, D, R>(alloc, port, archive),
        Err(refused) => {
            let BeginRefused { fault, disk } = refused;
            (port, disk, Kept::Unbegun { fault })
        }
    }
}

// Asks the yard for the disk of the path and for the port of the one input connection, keeps the input, and gives both
// back. It fails where the yard refused the disk or the port.
fn archive_from<R: BodyReading + Drop, Y: KeepYard>(
    alloc: Global,
    path: &str,
    yard: &mut Y,
) -> Result<Kept, Failed>
    ensures uses { UsesBoth R.meaning path.now (Y.seen yard.old).told (Y.seen yard.new).told (Y.seen yard.old).calls (Y.seen yard.new).calls result }
    ensures cause { HasCause (Y.faults yard.old) (Y.faults yard.new) result }
    ensures nobody { ServesNobody (Y.seen yard.old) (Y.seen yard.new) }
{
    let disk = yard.disk(path)?;
    let port = match yard.port(0) {
        Ok(port) => port,
        Err(failed) => {
            yard.take_disk(path, disk);
            return Err(failed);
        }
    };
    let (port, disk, kept) = archive_input::<Y::Port, Y::Disk, R>(alloc, port, disk);
    yard.take_port(0, port);
    yard.take_disk(path, disk);
    Ok(kept)
}

// Writes how many bytes were kept, and the stop line.
fn put_kept_bytes<O: Sink>(out: &mut O, bytes: u64, cause: Cause) -> Result<(), Failed>
    ensures { Writes O.faults O.told O.aside out.old (kept_line bytes ++ stop_line cause) result out.new }
{
    put_number(out, b"kept", bytes)?;
    put_stop(out, &cause)
}

// Writes how many bytes were kept, and that no further piece fits.
fn put_full<O: Sink>(out: &mut O, bytes: u64) -> Result<(), Failed>
    ensures { Writes O.faults O.told O.aside out.old (kept_line bytes ++ archivefull_line) result out.new }
{
    put_number(out, b"kept", bytes)?;
    write_all(out, b"archivefull\n")
}

// Says that no archive was created.
fn tell_uncreated<O: Sink>(out: &mut O, fault: CreateFault) -> Status
    ensures told { IsWritten (O.told out.old) (O.told out.new) (text_kept (Kept.Uncreated fault)) (status_kept (Kept.Uncreated fault)) result }
    ensures out { AnswersFault (O.faults out.old) (O.faults out.new) result Status.WriteFault }
    ensures yard { result ≡ Status.YardFault → ⊥ }
    ensures aside { O.aside out.new ≡ O.aside out.old }
{
    match fault {
        CreateFault::Failed => Status::DiskFault,
        CreateFault::NotEmpty => {
            unless_failed(write_all(out, b"notempty\n"), Status::BadArchive)
        }
    }
}

// Says how many bytes were kept before an append was refused.
fn tell_refused<O: Sink>(out: &mut O, bytes: u64, fault: AppendFault) -> Status
    ensures told { IsWritten (O.told out.old) (O.told out.new) (text_kept (Kept.CutOff bytes fault)) (status_kept (Kept.CutOff bytes fault)) result }
    ensures out { AnswersFault (O.faults out.old) (O.faults out.new) result Status.WriteFault }
    ensures yard { result ≡ Status.YardFault → ⊥ }
    ensures aside { O.aside out.new ≡ O.aside out.old }
{
    match fault {
        AppendFault::Full => unless_failed(put_full(out, bytes), Status::ArchiveFull),
        AppendFault::Failed | AppendFault::Stopped => {
            unless_failed(put_number(out, b"kept", bytes), Status::DiskFault)
        }
    }
}

// Says what became of the input.
fn tell<O: Sink>(out: &mut O, kept: Kept) -> Status
    ensures told { IsWritten (O.told out.old) (O.told out.new) (text_kept kept) (status_kept kept) result }
    ensures out { AnswersFault (O.faults out.old) (O.faults out.new) result Status.WriteFault }
    ensures yard { result ≡ Status.YardFault → ⊥ }
    ensures aside { O.aside out.new ≡ O.aside out.old }
{
    match kept {
        Kept::Uncreated { fault } => tell_uncreated(out, fault),
        Kept::Unbegun { fault } => refuse(out, fault),
        Kept::Starved => Status::NoMemory,
        Kept::Whole { bytes, cause } => {
            unless_failed(put_kept_bytes(out, bytes, cause), status_after(cause))
        }
        Kept::CutOff { bytes, fault } => tell_refused(out, bytes, fault),
    }
}

// Asks the yard for the disk of the path and then for the one input connection, keeps the input in an archive that it
// creates there, gives both back, and says what was kept.
fn run_archive<R: BodyReading + Drop, Y: KeepYard, O: Sink>(
    alloc: Global,
    path: &str,
    yard: &mut Y,
    out: &mut O,
) -> Status
    ensures concludes { ArchiveConcludes R.meaning path.now (Y.seen yard.old).told (Y.seen yard.new).told (Y.seen yard.old).calls (Y.seen yard.new).calls (O.told out.old) (O.told out.new) result }
    ensures out { AnswersFault (O.faults out.old) (O.faults out.new) result Status.WriteFault }
    ensures yard { AnswersFault (Y.faults yard.old) (Y.faults yard.new) result Status.YardFault }
    ensures aside { O.aside out.new ≡ O.aside out.old }
    ensures nobody { ServesNobody (Y.seen yard.old) (Y.seen yard.new) }
{
    match archive_from::<R, Y>(alloc, path, yard) {
        Ok(kept) => tell(out, kept),
        Err(_) => Status::YardFault,
    }
}

/// The same, where bodies are read leniently or by the RFCs alone.
pub(crate) fn run_archive_by<Y: KeepYard, O: Sink>(
    alloc: Global,
    lenient: bool,
    path: &str,
    yard: &mut Y,
    out: &mut O,
) -> Status
    ensures concludes { ArchiveConcludes (meaning_of lenient) path.now (Y.seen yard.old).told (Y.seen yard.new).told (Y.seen yard.old).calls (Y.seen yard.new).calls
        (O.told out.old) (O.told out.new) result }
    ensures out { AnswersFault (O.faults out.old) (O.faults out.new) result Status.WriteFault }
    ensures yard { AnswersFault (Y.faults yard.old) (Y.faults yard.new) result Status.YardFault }
    ensures aside { O.aside out.new ≡ O.aside out.old }
    ensures nobody { ServesNobody (Y.seen yard.old) (Y.seen yard.new) }
{
    if lenient {
        run_archive::<LenientReading, Y, O>(alloc, path, yard, out)
    } else {
        run_archive::<Reading, Y, O>(alloc, path, yard, out)
    }
}
