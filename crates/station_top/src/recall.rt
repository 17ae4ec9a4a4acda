//! The reply on what an archive keeps.

ghost use Rattle.std.specs.Prelude.{◌≡◌, IfOk};
ghost use Rattle.bmp_specs.specs.LenientBody.{meaning_of};
ghost use Rattle.wire_io.specs.Writes.{Writes};
ghost use Rattle.station_doors.specs.Doors.{one_more};
ghost use Rattle.station_top.specs.RecallRuns.{IsRecalled, RecallAnswers, RecallConcludes, badarchive_line, status_unread, text_unread};
ghost use Rattle.station_top.specs.Station.{AnswersFault, ServesNobody};
ghost use Rattle.station_top.specs.Written.{IsWritten};

use crate::Status;
use crate::account::{Account, Replies};
use crate::alone::{status_after, unless_failed, write_reply};
use crate::counts::put_number;
use crate::take::{Taken, take_input};
use bmp_message::{BodyReading, LenientReading, Reading};
use bmp_specs::MOST_READ;
use feed_archive::{RecoverFault, recover};
use station_doors::{SurePort, Yard};
use std::alloc::Global;
use std::mem;
use wire_io::{ByteList, Failed, NoMemory, Sink, write_all};

// Takes a content into an account, as one connection that ended.
fn take_content<A: Account + Drop, R: BodyReading + Drop>(
    alloc: Global,
    content: ByteList,
) -> Result<(A, Taken), NoMemory>
    ensures { IfOk result (λ r. IsRecalled R.meaning (A.stands r.0) content r.1) }
{
    let mut port = SurePort::over(alloc, content, MOST_READ as u32)?;
    take_input::<SurePort, A, R>(alloc, &mut port)
}

// Writes the reply on a content, and the stop line.
fn reply_content<A: Account + Drop, R: BodyReading + Drop, O: Sink>(
    alloc: Global,
    ask: &<A::Told as Replies>::Ask,
    content: ByteList,
    out: &mut O,
) -> Status
    requires { A.Told.may_ask ask.now }
    ensures answers { RecallAnswers R.meaning (A.Told.replies ask.now) content (O.told out.old) (O.told out.new) result }
    ensures out { AnswersFault (O.faults out.old) (O.faults out.new) result Status.WriteFault }
    ensures yard { result ≡ Status.YardFault → ⊥ }
    ensures aside { O.aside out.new ≡ O.aside out.old }
{
    match take_content::<A, R>(alloc, content) {
        Ok((account, taken)) => match account.ready(alloc, taken.revision) {
            Ok(told) => {
                let write = write_reply(out, &told, ask, taken.cause);
                // The command is over, and the system takes all memory back at once.
                mem::forget(told);
                unless_failed(write, status_after(taken.cause))
            }
            Err(_) => Status::NoMemory,
        },
        Err(_) => Status::NoMemory,
    }
}

// Writes the line of a file that is no archive from this offset on.
fn put_badarchive<O: Sink>(out: &mut O, offset: u64) -> Result<(), Failed>
    ensures { Writes O.faults O.told O.aside out.old (badarchive_line offset) result out.new }
{
    put_number(out, b"badarchive", offset)
}

/// Says why a file has no content.
pub(crate) fn refuse<O: Sink>(out: &mut O, fault: RecoverFault) -> Status
    ensures told { IsWritten (O.told out.old) (O.told out.new) (text_unread fault) (status_unread fault) result }
    ensures out { AnswersFault (O.faults out.old) (O.faults out.new) result Status.WriteFault }
    ensures yard { result ≡ Status.YardFault → ⊥ }
    ensures aside { O.aside out.new ≡ O.aside out.old }
{
    match fault {
        RecoverFault::Failed => Status::DiskFault,
        RecoverFault::Damaged { offset } => {
            unless_failed(put_badarchive(out, offset), Status::BadArchive)
        }
        RecoverFault::TooLong => {
            unless_failed(write_all(out, b"longarchive\n"), Status::BadArchive)
        }
        RecoverFault::NoMemory => Status::NoMemory,
    }
}

// Recovers the archive of the path's disk, where one is there, gives the disk back, and writes the reply on the content.
fn run_recall<A: Account + Drop, R: BodyReading + Drop, Y: Yard, O: Sink>(
    alloc: Global,
    path: &str,
    ask: &<A::Told as Replies>::Ask,
    yard: &mut Y,
    out: &mut O,
) -> Status
    requires { A.Told.may_ask ask.now }
    ensures concludes { RecallConcludes R.meaning (A.Told.replies ask.now) path.now (Y.seen yard.old).told (Y.seen yard.new).told (Y.seen yard.old).calls (O.told out.old) (O.told out.new) result }
    ensures calls { (Y.seen yard.new).calls ≡ one_more (Y.seen yard.old).calls }
    ensures nobody { ServesNobody (Y.seen yard.old) (Y.seen yard.new) }
    ensures out { AnswersFault (O.faults out.old) (O.faults out.new) result Status.WriteFault }
    ensures yard { AnswersFault (Y.faults yard.old) (Y.faults yard.new) result Status.YardFault }
    ensures aside { O.aside out.new ≡ O.aside out.old }
{
    let Ok(mut disk) = yard.kept_disk(path) else {
        return Status::YardFault;
    };
    let content = recover(alloc, &mut disk);
    yard.take_disk(path, disk);
    match content {
        Ok(content) => reply_content::<A, R, O>(alloc, ask, content, out),
        Err(fault) => refuse(out, fault),
    }
}

/// Asks the yard for the disk of this path, where one is there, gives it back, and writes the reply that is asked for on
/// what the archive keeps, and the stop line. Bodies are read leniently or by the RFCs alone.
pub(crate) fn run_recall_by<A: Account + Drop, Y: Yard, O: Sink>(
    alloc: Global,
    lenient: bool,
    path: &str,
    ask: &<A::Told as Replies>::Ask,
    yard: &mut Y,
    out: &mut O,
) -> Status
    requires { A.Told.may_ask ask.now }
    ensures concludes { RecallConcludes (meaning_of lenient) (A.Told.replies ask.now) path.now (Y.seen yard.old).told (Y.seen yard.new).told (Y.seen yard.old).calls
        (O.told out.old) (O.told out.new) result }
    ensures calls { (Y.seen yard.new).calls ≡ one_more (Y.seen yard.old).calls }
    ensures nobody { ServesNobody (Y.seen yard.old) (Y.seen yard.new) }
    ensures out { AnswersFault (O.faults out.old) (O.faults out.new) result Status.WriteFault }
    ensures yard { AnswersFault (Y.faults yard.old) (Y.faults yard.new) result Status.YardFault }
    ensures aside { O.aside out.new ≡ O.aside out.old }
{
    if lenient {
        run_recall::<A, LenientReading, Y, O>(alloc, path, ask, yard, out)
    } else {
        run_recall::<A, Reading, Y, O>(alloc, path, ask, yard, out)
    }
}
