ghost use Rattle.std.specs.Prelude.{◌≡◌, map};
ghost use Rattle.std.specs.String.{string_bytes};
ghost use Rattle.bmp_specs.specs.LenientBody.{meaning_of};
ghost use Rattle.station_run.specs.Serve.{AnswersFault as EndsFault, Comes};
ghost use Rattle.station_words.specs.DrillWords.{MayDrill};
ghost use Rattle.station_words.specs.ServeWords.{MayServe};
ghost use Rattle.station_words.specs.Words.{IsCall};
ghost use Rattle.station_words.specs.declared.words.Call.{Call as AnyCall};
ghost use Rattle.station_top.specs.Status.{status_served};
ghost use Rattle.station_top.specs.Station.{Answers, AnswersFault, DrillConcludes, IsServing, ServesNobody};

use crate::alone::{answer_alone, unless_failed};
use crate::drill::write_drill;
use crate::{Status, Waiting};
use bmp_message::{LenientReading, Reading};
use station_doors::Yard;
use station_run::{FromEnding, Outcome, drill, serve};
use station_words::{DrillWords, ServeWords};
use std::alloc::Global;
use std::sync::Wait;
use std::thread::Threads;
use wire_io::Sink;

// The status of a station that served.
fn status_served_by(outcome: Outcome) -> Status
    ensures { result ≡ status_served outcome }
{
    match outcome {
        Outcome::Done => Status::Done,
        Outcome::NoMemory => Status::NoMemory,
        Outcome::YardFault => Status::YardFault,
        Outcome::WriteFault => Status::WriteFault,
    }
}

// Serves routers and clients, and reads bodies leniently or by the RFCs alone.
fn serve_by<Y: Yard, O: Sink, R: Threads + Wait + Sync>(
    rt: &R,
    alloc: Global,
    lenient: bool,
    words: &ServeWords,
    yard: &mut Y,
    out: &mut O,
) -> Outcome
where
    Y::Ending: FromEnding,
    requires { MayServe words.now }
    ensures serves { Comes Y.Ending.shows (meaning_of lenient) words.now.at words.now.rounds (Y.seen yard.old) (Y.seen yard.new) (O.told out.old) (O.told out.new) result }
    ensures out { EndsFault (O.faults out.old) (O.faults out.new) result Outcome.WriteFault }
    ensures yard { EndsFault (Y.faults yard.old) (Y.faults yard.new) result Outcome.YardFault }
    ensures aside { O.aside out.new ≡ O.aside out.old }
{
    if lenient {
        serve::<LenientReading, Y, O, R>(rt, alloc, &words.at, words.rounds, yard, out)
    } else {
        serve::<Reading, Y, O, R>(rt, alloc, &words.at, words.rounds, yard, out)
    }
}

// Runs a drill, and writes its replies.
fn run_drill<O: Sink, R: Threads + Wait + Sync>(
    rt: &R,
    alloc: Global,
    words: DrillWords,
    out: &mut O,
) -> Status
    requires { MayDrill words }
    ensures concludes { DrillConcludes words (O.told out.old) (O.told out.new) result }
    ensures out { AnswersFault (O.faults out.old) (O.faults out.new) result Status.WriteFault }
    ensures yard { result ≡ Status.YardFault → ⊥ }
    ensures aside { O.aside out.new ≡ O.aside out.old }
{
    match drill(rt, alloc, words.seed, words.lanes, words.messages) {
        Ok(cut) => unless_failed(write_drill(out, &cut), Status::Done),
        Err(_) => Status::NoMemory,
    }
}

/// Runs the command that the words are: takes what it needs from the yard, writes to `out` and tells how it
/// ended. The words don't hold the program's name.
///
/// `replay` with a line that asks for anything but `quit`, and `check`, take the one input connection of the yard's port
/// 0, up to 2^46 bytes, give the port back, and then write the reply on what the messages of the stream said and the stop
/// line. The words after `replay`, joined by single spaces, are the line: a query, `steps` before a query that tells rows,
/// or `changes` with a lane and the number of a step. Its reply is on lane 0, on the opening and the messages, and not on
/// the closing.
///
/// `serve` with its options asks the yard to listen, then for the port of each lane and the link of each asker, writes
/// `ready`, serves routers and clients side by side by the threads of `rt`, gives all back, and writes `done` and the
/// last revision (`station_run`).
///
/// `drill` with a seed, the number of lanes and the number of messages asks the yard for nothing. Its lanes take the
/// streams that follow from these numbers (`drill_streams`), side by side with askers; in the end it writes the replies of
/// `cut`, `routers` and `count`, on the openings and the messages, and not on any closing.
///
/// `relay` takes the input as `replay` does, gives the port back, and then writes a BMP stream of what its messages left:
/// the router's name and description, each peer that is up, its rows and its complete tables (`relay_out`). It writes no
/// stop line. Where that can't be written it answers `Unwritable`, and nothing is written.
///
/// `rov` with a file and a prefix asks the yard for the file, whose path is the very word that names it, and then takes the
/// input as `replay` does and gives the port back. It writes a line for each row within the prefix: the origin of its
/// route, and whether the file's VRPs make it valid or invalid or don't speak of it (RFC 6811, section 2); then the
/// stop line. Where the file has a record of another form, or is too long, it answers `BadFile`: a line that says so is
/// all that is written, and no port is asked for.
///
/// `archive` with a file asks the yard for the disk of the file, whose path is the very word that names it, and then for the
/// port. It makes an archive of the file, which has no byte yet, and takes the input as `replay` does, but keeps each piece in
/// the archive before it reads it, so that a crash at any moment leaves what was kept (`feed_archive`). It gives both back and
/// writes `kept` with the number of bytes that were kept, and the stop line. Where the file has a byte it answers `BadArchive`,
/// where the disk fails `DiskFault`, and where the archive has no room for a piece `ArchiveFull`.
///
/// `recall` with a file and such a line asks the yard for the disk of the file, whose path is the very word that
/// names it, recovers the archive on it (`feed_archive`), gives the disk back, and writes what `replay` writes for the
/// archive's content as a connection that ended. It asks for no port, and leaves the file as it was. Where the file is no
/// archive it answers `BadArchive`: a line that says so is all that is written. Where the disk fails it answers `DiskFault`,
/// and nothing is written.
///
/// `--help`, or `-h`, writes the help text, and `--version`, or `-V`, the line with the version. They ask the yard for
/// nothing and take no memory.
///
/// Other words are usage. The bodies of the messages are read by the RFCs alone, and with `--lenient`, which stands right
/// after `replay`, `check`, `relay`, `rov`, `archive` or `recall` or among the settings of `serve`, as routers send them
/// (`lenient` of `bmp_specs`).
pub fn station<Y: Yard, O: Sink, R: Threads + Wait + Sync>(
    rt: &R,
    alloc: Global,
    words: &[String],
    yard: &mut Y,
    out: &mut O,
) -> Status
where
    Y::Ending: FromEnding,
    // Which status, by the words and what the yard tells; what was written; how many calls of the yard were made.
    ensures answers { Answers (λ meaning serve outcome. Comes Y.Ending.shows meaning serve.at serve.rounds (Y.seen yard.old) (Y.seen yard.new) (O.told out.old) (O.told out.new) outcome)
        (map string_bytes words.now)
        (Y.seen yard.old).told (Y.seen yard.new).told (Y.seen yard.old).calls (Y.seen yard.new).calls (O.told out.old) (O.told out.new) result }

    // A write fault is answered exactly where a write failed, and a yard's fault exactly where the yard failed. The fault
    // ended the command: the count rose by one.
    ensures out { AnswersFault (O.faults out.old) (O.faults out.new) result Status.WriteFault }
    ensures yard { AnswersFault (Y.faults yard.old) (Y.faults yard.new) result Status.YardFault }

    ensures aside { O.aside out.new ≡ O.aside out.old }

    // Where the words are no call of `serve`, the yard isn't asked to listen, and is handed no ending.
    ensures others { ((call : AnyCall) → IsCall call (map string_bytes words.now) → IsServing call.command → ⊥) → ServesNobody (Y.seen yard.old) (Y.seen yard.new) }
{
    match answer_alone(alloc, words, yard, out) {
        Ok(status) => status,
        Err(
            Waiting::Serve {
                words: serve_words,
                lenient,
            },
        ) => status_served_by(serve_by(rt, alloc, lenient, &serve_words, yard, out)),
        Err(Waiting::Drill(drill_words)) => run_drill(rt, alloc, drill_words, out),
    }
}
