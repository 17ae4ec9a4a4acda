//! The rows of the tables that the input leaves, each judged by the validated ROA payloads (VRPs) of a file (RFC 6811).

ghost use Rattle.std.specs.Prelude.{◌≡◌, IfOk, IfErr};
ghost use Rattle.rov_table.specs.VrpFile.{AreVrps, IsFaultOf, file_records};
ghost use Rattle.bmp_specs.specs.LenientBody.{meaning_of};
ghost use Rattle.wire_io.specs.Writes.{Writes};
ghost use Rattle.station_top.specs.Rov.{IsRefused};
ghost use Rattle.station_top.specs.Station.{AnswersFault, RovConcludes, ServesNobody, badfile_line};

use crate::Status;
use crate::account::{Account, Replies};
use crate::alone::{run_by, unless_failed};
use crate::counts::put_number;
use crate::replay::Replay;
use bmp_message::Entries;
use ip_prefix::Prefix;
use rib_model::Entry;
use router_tables::RouterTables;
use rov_reply::put_rov_reply;
use rov_table::{VrpFault, VrpTable};
use station_doors::{FileFault, Yard};
use std::alloc::Global;
use wire_io::{ByteList, Failed, NoMemory, Sink, write_all};

/// The VRPs that rows are judged by, and the prefix that the rows are within.
#[derive(Drop)]
pub struct Judging {
    pub vrps: VrpTable,
    pub prefix: Prefix,
}

/// The tables of the one router, and the number of their entries.
#[derive(Drop)]
pub struct Judged {
    tables: RouterTables,
    revision: u64,
}

/// The account of the input: the same as that of `replay`.
#[derive(Drop)]
pub struct Rov {
    replay: Replay,
}

impl Account for Rov {
    ghost use Rattle.station_top.specs.Rov.{StandsAs};

    type Wants = Entries;

    type Told = Judged;

    ghost stands = { StandsAs };

    fn begin(alloc: Global) -> Result<Rov, NoMemory> {
        let replay = Replay::begin(alloc)?;
        Ok(Rov { replay })
    }

    fn note(&mut self, entry: Entry) -> Result<(), NoMemory> {
        self.replay.note(entry)
    }

    fn ready(self, _alloc: Global, revision: u64) -> Result<Judged, NoMemory> {
        let tables = self.replay.into_tables()?;
        Ok(Judged { tables, revision })
    }
}

impl Replies for Judged {
    ghost use Rattle.std.specs.Prelude.{⊤};
    ghost use Rattle.station_top.specs.Rov.{IsJudged, TellsRows};

    type Ask = Judging;

    ghost tells = { TellsRows };

    ghost replies = { IsJudged };

    ghost may_ask = { λ _. ⊤ };

    fn put_reply<O: Sink>(&self, out: &mut O, ask: &Judging) -> Result<(), Failed> {
        put_rov_reply(out, self.revision, &self.tables, &ask.vrps, &ask.prefix)
    }
}

// Writes the line of a file whose record of this number is no VRP.
fn put_badfile<O: Sink>(out: &mut O, place: u64) -> Result<(), Failed>
    ensures { Writes O.faults O.told O.aside out.old (badfile_line place) result out.new }
{
    put_number(out, b"badfile", place)
}

// Says why the VRPs of a file weren't read.
fn refuse<O: Sink>(out: &mut O, fault: VrpFault) -> Status
    ensures told { IsRefused (O.told out.old) (O.told out.new) fault result }
    ensures out { AnswersFault (O.faults out.old) (O.faults out.new) result Status.WriteFault }
    ensures yard { result ≡ Status.YardFault → ⊥ }
    ensures aside { O.aside out.new ≡ O.aside out.old }
{
    match fault {
        VrpFault::Bad { line } => unless_failed(put_badfile(out, line), Status::BadFile),
        VrpFault::NoMemory => Status::NoMemory,
    }
}

// Reads the VRPs of a file, and drops the file's bytes: while the input is taken only the VRPs are held.
fn read_vrps(alloc: Global, file: ByteList) -> Result<VrpTable, VrpFault>
    ensures are { IfOk result (AreVrps (file_records file)) }
    ensures fault { IfErr result (IsFaultOf (file_records file)) }
{
    VrpTable::read(alloc, file.as_slice())
}

/// Asks the yard for the file of this path, and then takes the input and judges its rows within the prefix by the VRPs
/// of the file.
pub(crate) fn run_rov<Y: Yard, O: Sink>(
    alloc: Global,
    lenient: bool,
    path: &str,
    prefix: Prefix,
    yard: &mut Y,
    out: &mut O,
) -> Status
    ensures concludes { RovConcludes (meaning_of lenient) path.now prefix (Y.seen yard.old).told (Y.seen yard.new).told (Y.seen yard.old).calls (Y.seen yard.new).calls
        (O.told out.old) (O.told out.new) result }
    ensures out { AnswersFault (O.faults out.old) (O.faults out.new) result Status.WriteFault }
    ensures yard { AnswersFault (Y.faults yard.old) (Y.faults yard.new) result Status.YardFault }
    ensures aside { O.aside out.new ≡ O.aside out.old }
    ensures nobody { ServesNobody (Y.seen yard.old) (Y.seen yard.new) }
{
    let file = match yard.file(alloc, path) {
        Ok(file) => file,
        Err(FileFault::Failed) => return Status::YardFault,
        Err(FileFault::NoMemory) => return Status::NoMemory,
        Err(FileFault::TooLong) => {
            return unless_failed(write_all(out, b"longfile\n"), Status::BadFile);
        }
    };
    let vrps = match read_vrps(alloc, file) {
        Ok(vrps) => vrps,
        Err(fault) => return refuse(out, fault),
    };
    run_by::<Rov, Y, O>(alloc, lenient, &Judging { vrps, prefix }, yard, out)
}
