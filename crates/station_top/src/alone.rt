//! The commands that wait for nobody.
ghost use Rattle.std.specs.Prelude.{◌≡◌, ℕ, [], ◌∷◌, ◌++◌, List, IfOk, IfErr, OnOk, OnErr, Ok, Err, map, sum_by, ◌<◌, ◌^◌};
ghost use Rattle.std.specs.String.{string_bytes};
ghost use Rattle.std.specs.Io.KnownBytes.{append_known};
ghost use Rattle.bmp_specs.specs.Values.{EntryValue};
ghost use Rattle.bmp_specs.specs.LenientBody.{meaning_of};
ghost use Rattle.wire_io.specs.Aside.{laid_over};
ghost use Rattle.wire_io.specs.Faults.{Rose};
ghost use Rattle.station_doors.specs.Doors.{one_more};
ghost use Rattle.query_eval.specs.Replies.{PutsReply};
ghost use Rattle.station_words.specs.Words.{file_in};
ghost use Rattle.station_top.specs.Status.{status_of, status_relayed};
ghost use Rattle.station_top.specs.RecallRuns.{RecallConcludes};
ghost use Rattle.station_top.specs.Replay.{IsAsked, IsReplyOf};
ghost use Rattle.station_top.specs.Station.{Answers, CallConcludes, Concludes, RelayConcludes, FromYard, AnswersFault, IsStopped, MayAsk, ServesNobody};
ghost use Rattle.station_top.specs.Waiting.{IsOf, Waits};
ghost use Rattle.station_top.specs.Written.{IsWritten};

use crate::account::{Account, Replies};
use crate::archive::run_archive_by;
use crate::counts::Counts;
use crate::recall::run_recall_by;
use crate::replay::{Replay, ReplayByOrigin};
use crate::rov::run_rov;
use crate::take::{Taken, take_input};
use crate::{Status, Waiting};
use bmp_message::{BodyReading, LenientReading, Reading};
use bmp_specs::Cause;
use query_lang::{Ask, Query, RowQuery, RowsAsk};
use relay_out::{EmitFault, emit};
use reply_text::put_stop;
use station_doors::Yard;
use station_words::{Call, Command, WordsFault, file_word, help, read_words, version};
use std::alloc::Global;
use std::mem;
use wire_io::{BufferedSink, Failed, Puts, Sink, through_buffer, write_all};

// The line that is written where the words are no command.
const USAGE: &str =
    "usage: bmpstation replay QUERY, check, serve OPTIONS, or drill SEED LANES MESSAGES\n";

// Takes the one input connection of the yard's port 0 into an account, and gives the port back. YardFault where the
// yard refused the port, NoMemory out of memory.
fn take_from<Y: Yard, A: Account + Drop, R: BodyReading + Drop>(
    alloc: Global,
    yard: &mut Y,
) -> Result<(A, Taken), Status>
    ensures from { FromYard R.meaning A.stands (Y.seen yard.old).told (Y.seen yard.new).told (Y.seen yard.old).calls result }
    ensures rose { result ≡ Err Status.YardFault → Rose (Y.faults yard.old) (Y.faults yard.new) }
    ensures calm { (result ≡ Err Status.YardFault → ⊥) → Y.faults yard.new ≡ Y.faults yard.old }
    ensures calls { (Y.seen yard.new).calls ≡ one_more (Y.seen yard.old).calls }
    ensures nobody { ServesNobody (Y.seen yard.old) (Y.seen yard.new) }
{
    let Ok(mut port) = yard.port(0) else {
        return Err(Status::YardFault);
    };
    let taken = take_input::<Y::Port, A, R>(alloc, &mut port);
    yard.take_port(0, port);
    match taken {
        Ok(taken) => Ok(taken),
        Err(_) => Err(Status::NoMemory),
    }
}

// The reply that is asked for, and then the line of the cause that the input stopped for.
struct Stopped<'a, T: Replies> {
    told: &'a T,
    ask: &'a T::Ask,
    cause: Cause,
}

impl<O: Sink, T: Replies> Puts<O> for Stopped<'_, T> {
    ghost may_put = { λ s. T.may_ask s.ask.now };

    ghost leaves = { λ s old result new. (entries : List EntryValue) → T.tells s.told.now entries
        → PutsReply (λ p. O.faults p.below) (λ p. append_known (O.told p.below) p.held) (λ p. laid_over (O.told p.first) (O.aside p.below))
        (IsStopped (T.replies s.ask.now entries) s.cause) old result new };

    fn put(self, buffer: &mut BufferedSink<O>) -> Result<(), Failed> {
        let Stopped { told, ask, cause } = self;
        told.put_reply(buffer, ask)?;
        put_stop(buffer, &cause)
    }
}

// Writes the reply and then the stop line through a buffer.
pub(crate) fn write_reply<T: Replies, O: Sink>(
    out: &mut O,
    told: &T,
    ask: &T::Ask,
    cause: Cause,
) -> Result<(), Failed>
    requires { T.may_ask ask.now }
    ensures { (entries : List EntryValue) → T.tells told.now entries → PutsReply O.faults O.told O.aside (IsStopped (T.replies ask.now entries) cause) out.old result out.new }
{
    through_buffer(out, Stopped { told, ask, cause })
}

// The status of a stream that stopped for this cause.
pub(crate) fn status_after(cause: Cause) -> Status
    ensures { result ≡ status_of cause }
{
    match cause {
        Cause::Ended | Cause::Terminated => Status::Done,
        Cause::CutShort { .. } | Cause::Broken { .. } | Cause::Full => Status::Stopped,
        Cause::ReadFault { .. } => Status::ReadFault,
    }
}

// The status, unless the write failed.
pub(crate) fn unless_failed(write: Result<(), Failed>, status: Status) -> Status
    ensures fine { OnOk write (result ≡ status) }
    ensures failed { OnErr write (result ≡ Status.WriteFault) }
{
    match write {
        Ok(()) => status,
        Err(_) => Status::WriteFault,
    }
}

// Takes the input into an account, and writes the reply that is asked for and the stop line.
fn run<A: Account + Drop, R: BodyReading + Drop, Y: Yard, O: Sink>(
    alloc: Global,
    ask: &<A::Told as Replies>::Ask,
    yard: &mut Y,
    out: &mut O,
) -> Status
    requires { A.Told.may_ask ask.now }
    ensures concludes { Concludes R.meaning (A.Told.replies ask.now) (Y.seen yard.old).told (Y.seen yard.new).told (Y.seen yard.old).calls (O.told out.old) (O.told out.new) result }
    ensures calls { (Y.seen yard.new).calls ≡ one_more (Y.seen yard.old).calls }
    ensures nobody { ServesNobody (Y.seen yard.old) (Y.seen yard.new) }
    ensures out { AnswersFault (O.faults out.old) (O.faults out.new) result Status.WriteFault }
    ensures yard { AnswersFault (Y.faults yard.old) (Y.faults yard.new) result Status.YardFault }
    ensures aside { O.aside out.new ≡ O.aside out.old }
{
    match take_from::<Y, A, R>(alloc, yard) {
        Ok((account, taken)) => match account.ready(alloc, taken.revision) {
            Ok(told) => {
                let write = write_reply(out, &told, ask, taken.cause);
                // The command is over, and the system takes all memory back at once.
                mem::forget(told);
                unless_failed(write, status_after(taken.cause))
            }
            Err(_) => Status::NoMemory,
        },
        Err(status) => status,
    }
}

// The same, where bodies are read leniently or by the RFCs alone.
pub(crate) fn run_by<A: Account + Drop, Y: Yard, O: Sink>(
    alloc: Global,
    lenient: bool,
    ask: &<A::Told as Replies>::Ask,
    yard: &mut Y,
    out: &mut O,
) -> Status
    requires { A.Told.may_ask ask.now }
    ensures concludes { Concludes (meaning_of lenient) (A.Told.replies ask.now) (Y.seen yard.old).told (Y.seen yard.new).told (Y.seen yard.old).calls (O.told out.old) (O.told out.new) result }
    ensures calls { (Y.seen yard.new).calls ≡ one_more (Y.seen yard.old).calls }
    ensures nobody { ServesNobody (Y.seen yard.old) (Y.seen yard.new) }
    ensures out { AnswersFault (O.faults out.old) (O.faults out.new) result Status.WriteFault }
    ensures yard { AnswersFault (Y.faults yard.old) (Y.faults yard.new) result Status.YardFault }
    ensures aside { O.aside out.new ≡ O.aside out.old }
{
    if lenient {
        run::<A, LenientReading, Y, O>(alloc, ask, yard, out)
    } else {
        run::<A, Reading, Y, O>(alloc, ask, yard, out)
    }
}

// The status of a relay of what a stream left that stopped for this cause.
fn status_relayed_by(relay: Result<(), EmitFault>, cause: Cause) -> Status
    ensures { result ≡ status_relayed relay cause }
{
    match relay {
        Ok(()) => status_after(cause),
        Err(EmitFault::Failed) => Status::WriteFault,
        Err(EmitFault::Unwritable) => Status::Unwritable,
        Err(EmitFault::NoMemory) => Status::NoMemory,
    }
}

// Whether the index by origin AS is read for what is asked.
fn reads_origins(ask: &Ask) -> bool {
    match ask {
        Ask::Query(Query::Origin(_, _)) => true,
        Ask::Rows(
            RowsAsk {
                query: RowQuery::Origin(_, _),
                ..
            },
        ) => true,
        _ => false,
    }
}

// Takes the input into tables, with an index by origin where that is read, and writes the reply and the stop line.
fn run_replay<Y: Yard, O: Sink>(
    alloc: Global,
    lenient: bool,
    ask: &Ask,
    yard: &mut Y,
    out: &mut O,
) -> Status
    requires { IsAsked ask.now }
    ensures concludes { Concludes (meaning_of lenient) (IsReplyOf ask.now) (Y.seen yard.old).told (Y.seen yard.new).told (Y.seen yard.old).calls (O.told out.old) (O.told out.new) result }
    ensures calls { (Y.seen yard.new).calls ≡ one_more (Y.seen yard.old).calls }
    ensures nobody { ServesNobody (Y.seen yard.old) (Y.seen yard.new) }
    ensures out { AnswersFault (O.faults out.old) (O.faults out.new) result Status.WriteFault }
    ensures yard { AnswersFault (Y.faults yard.old) (Y.faults yard.new) result Status.YardFault }
    ensures aside { O.aside out.new ≡ O.aside out.old }
{
    if reads_origins(ask) {
        run_by::<ReplayByOrigin, Y, O>(alloc, lenient, ask, yard, out)
    } else {
        run_by::<Replay, Y, O>(alloc, lenient, ask, yard, out)
    }
}

// The same of what the archive of this path keeps.
fn run_recall_of<Y: Yard, O: Sink>(
    alloc: Global,
    lenient: bool,
    path: &str,
    ask: &Ask,
    yard: &mut Y,
    out: &mut O,
) -> Status
    requires { IsAsked ask.now }
    ensures concludes { RecallConcludes (meaning_of lenient) (IsReplyOf ask.now) path.now
        (Y.seen yard.old).told (Y.seen yard.new).told (Y.seen yard.old).calls (O.told out.old) (O.told out.new) result }
    ensures calls { (Y.seen yard.new).calls ≡ one_more (Y.seen yard.old).calls }
    ensures nobody { ServesNobody (Y.seen yard.old) (Y.seen yard.new) }
    ensures out { AnswersFault (O.faults out.old) (O.faults out.new) result Status.WriteFault }
    ensures yard { AnswersFault (Y.faults yard.old) (Y.faults yard.new) result Status.YardFault }
    ensures aside { O.aside out.new ≡ O.aside out.old }
{
    if reads_origins(ask) {
        run_recall_by::<ReplayByOrigin, Y, O>(alloc, lenient, path, ask, yard, out)
    } else {
        run_recall_by::<Replay, Y, O>(alloc, lenient, path, ask, yard, out)
    }
}

// Takes the input, and relays what it left.
fn run_relay<R: BodyReading + Drop, Y: Yard, O: Sink>(
    alloc: Global,
    yard: &mut Y,
    out: &mut O,
) -> Status
    ensures concludes { RelayConcludes R.meaning (Y.seen yard.old).told (Y.seen yard.new).told (Y.seen yard.old).calls (O.told out.old) (O.told out.new) result }
    ensures calls { (Y.seen yard.new).calls ≡ one_more (Y.seen yard.old).calls }
    ensures nobody { ServesNobody (Y.seen yard.old) (Y.seen yard.new) }
    ensures out { AnswersFault (O.faults out.old) (O.faults out.new) result Status.WriteFault }
    ensures yard { AnswersFault (Y.faults yard.old) (Y.faults yard.new) result Status.YardFault }
    ensures aside { O.aside out.new ≡ O.aside out.old }
{
    match take_from::<Y, Replay, R>(alloc, yard) {
        Ok((replay, taken)) => match replay.into_tables() {
            Ok(tables) => {
                let relay = emit(alloc, &tables, out);
                // The command is over, and the system takes all memory back at once.
                mem::forget(tables);
                status_relayed_by(relay, taken.cause)
            }
            Err(_) => Status::NoMemory,
        },
        Err(status) => status,
    }
}

// The same, where bodies are read leniently or by the RFCs alone.
fn run_relay_by<Y: Yard, O: Sink>(alloc: Global, lenient: bool, yard: &mut Y, out: &mut O) -> Status
    ensures concludes { RelayConcludes (meaning_of lenient) (Y.seen yard.old).told (Y.seen yard.new).told (Y.seen yard.old).calls (O.told out.old) (O.told out.new) result }
    ensures calls { (Y.seen yard.new).calls ≡ one_more (Y.seen yard.old).calls }
    ensures nobody { ServesNobody (Y.seen yard.old) (Y.seen yard.new) }
    ensures out { AnswersFault (O.faults out.old) (O.faults out.new) result Status.WriteFault }
    ensures yard { AnswersFault (Y.faults yard.old) (Y.faults yard.new) result Status.YardFault }
    ensures aside { O.aside out.new ≡ O.aside out.old }
{
    if lenient {
        run_relay::<LenientReading, Y, O>(alloc, yard, out)
    } else {
        run_relay::<Reading, Y, O>(alloc, yard, out)
    }
}

// Writes a text.
fn write_text<O: Sink>(out: &mut O, text: &str) -> Status
    ensures written { IsWritten (O.told out.old) (O.told out.new) text.now Status.Done result }
    ensures out { AnswersFault (O.faults out.old) (O.faults out.new) result Status.WriteFault }
    ensures yard { result ≡ Status.YardFault → ⊥ }
    ensures aside { O.aside out.new ≡ O.aside out.old }
{
    unless_failed(write_all(out, text.as_bytes()), Status::Done)
}

// Runs the command of a call, unless it waits for others. Of the words it takes the one that names a file, where the command
// has one.
fn run_call<Y: Yard, O: Sink>(
    alloc: Global,
    call: Call,
    words: &[String],
    yard: &mut Y,
    out: &mut O,
) -> Result<Status, Waiting>
    requires { MayAsk call.command }
    ensures concludes { IfOk result (λ status. CallConcludes (λ serve outcome. ⊥) call.command (file_in call.lenient (map string_bytes words.now)) (meaning_of call.lenient)
        (Y.seen yard.old).told (Y.seen yard.new).told (Y.seen yard.old).calls (Y.seen yard.new).calls (O.told out.old) (O.told out.new) status) }
    ensures out { IfOk result (λ status. AnswersFault (O.faults out.old) (O.faults out.new) status Status.WriteFault) }
    ensures yard { IfOk result (λ status. AnswersFault (Y.faults yard.old) (Y.faults yard.new) status Status.YardFault) }
    ensures aside { O.aside out.new ≡ O.aside out.old }
    ensures others { ServesNobody (Y.seen yard.old) (Y.seen yard.new) }
    ensures waits { IfErr result (λ waiting. IsOf waiting call) }
    ensures untouched { OnErr result ((yard.new ≡ yard.old) × (out.new ≡ out.old)) }
{
    let Call { command, lenient } = call;
    // The file, where the command has one.
    let path = file_word(words, lenient);
    match command {
        Command::Replay(ask) => Ok(run_replay(alloc, lenient, &ask, yard, out)),
        Command::Check => Ok(run_by::<Counts, Y, O>(alloc, lenient, &(), yard, out)),
        Command::Serve(serve_words) => Err(Waiting::Serve {
            words: serve_words,
            lenient,
        }),
        Command::Drill(drill_words) => Err(Waiting::Drill(drill_words)),
        Command::Relay => Ok(run_relay_by(alloc, lenient, yard, out)),
        Command::Rov(prefix) => Ok(run_rov(alloc, lenient, path, prefix, yard, out)),
        Command::Archive => Ok(run_archive_by(alloc, lenient, path, yard, out)),
        Command::Recall(ask) => Ok(run_recall_of(alloc, lenient, path, &ask, yard, out)),
        Command::Help => Ok(write_text(out, help())),
        Command::Version => Ok(write_text(out, version())),
    }
}

/// Runs the command that the words are, as `station` does, unless it waits for others: for routers and clients, or for threads.
/// Then it hands the command back, with nothing asked of the yard and nothing written. It waits for nobody itself, so it
/// returns.
pub fn answer_alone<Y: Yard, O: Sink>(
    alloc: Global,
    words: &[String],
    yard: &mut Y,
    out: &mut O,
) -> Result<Status, Waiting>
    // Which status, by the words and what the yard tells; what was written; how many calls of the yard were made. No
    // station served.
    ensures answers { IfOk result (λ status. Answers (λ meaning serve outcome. ⊥) (map string_bytes words.now)
        (Y.seen yard.old).told (Y.seen yard.new).told (Y.seen yard.old).calls (Y.seen yard.new).calls (O.told out.old) (O.told out.new) status) }

    // The two faults, as `station` answers them.
    ensures out { IfOk result (λ status. AnswersFault (O.faults out.old) (O.faults out.new) status Status.WriteFault) }
    ensures yard { IfOk result (λ status. AnswersFault (Y.faults yard.old) (Y.faults yard.new) status Status.YardFault) }

    ensures aside { O.aside out.new ≡ O.aside out.old }

    // The yard isn't asked to listen, and is handed no ending.
    ensures others { ServesNobody (Y.seen yard.old) (Y.seen yard.new) }

    // The words are a call of the command that waits.
    ensures waits { IfErr result (λ waiting. Waits waiting (map string_bytes words.now)) }

    ensures untouched { OnErr result ((yard.new ≡ yard.old) × (out.new ≡ out.old)) }
{
    match read_words(alloc, words) {
        Ok(call) => run_call(alloc, call, words, yard, out),
        Err(WordsFault::Usage) => Ok(unless_failed(
            write_all(out, USAGE.as_bytes()),
            Status::Usage,
        )),
        Err(WordsFault::NoMemory) => Ok(Status::NoMemory),
    }
}
