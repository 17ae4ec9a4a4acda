ghost use Rattle.std.specs.Prelude.{◌≡◌, ◌≤◌, ◌+◌, ◌^◌, List, ℕ, [], ◌++◌, length, IfOk, OnOk, OnErr};
ghost use Rattle.bmp_specs.specs.Values.{EntryValue};
ghost use Rattle.bmp_frames.specs.Cutter.{with_more};
ghost use Rattle.bmp_message.specs.StreamWalk.{HasReached, RunsOn, Advances, Repeats, IsAsBefore, fed_of, rest_of, next_stage};

mod reads;

use crate::BodyReading;
use bmp_frames::{Cutter, Next, TERMINATION};
use bmp_specs::Why;
pub use reads::{Entries, Judged, Judgements, Reads};
use std::alloc::Global;
use std::marker::Model;
use wire_io::{BodyFault, NoMemory};

/// What a walk gives next.
#[derive(Drop)]
pub enum Progress<T> {
    /// What was made of the next message.
    Message(T),
    /// No further message is whole yet.
    More,
    /// The last entry was that of a Termination Message (RFC 7854, section 4.5): nothing is read after it.
    Terminated,
    /// What stands at the offset is no message: its version or its length is wrong, or its body isn't in
    /// the grammar of its type.
    Broken(Why),
}

/// Where a walk stands between two calls.
#[derive(Clone, Copy, Debug, PartialEq, Eq)]
pub enum Stage {
    /// After a message whose entry was given, or at the start.
    Between,
    /// A message of this type was cut, and for its entry there was no memory.
    Within(u8),
    /// After a Termination Message.
    Terminated,
    /// Before what is no message.
    Broken(Why),
}

/// The walk of a stream: the entries of its messages, one after another, in whatever pieces it comes.
///
/// With each call's clause `run` the contracts say what any run of calls gives. Where bytes were fed and
/// entries given (`HasReached`), these are the entries of the first messages of the bytes; at `More` the
/// walk of all bytes fed, if nothing more comes, gives just them, up to `offset`; and at `Terminated` and
/// `Broken` the walk of the bytes fed, whatever comes after them, gives just them and ends at `offset`. A
/// stream has one walk by each meaning of bodies, so the pieces don't matter. The meaning is that of the reading `R`.
///
/// A message costs its bytes and its effects.
#[derive(Drop)]
pub struct StreamWalk<R> {
    cutter: Cutter,
    reading: R,
    offset: u64,
    stage: Stage,
}

impl<R> Model for StreamWalk<R> {
    ghost use Rattle.bmp_message.specs.StreamWalk.{WalkValue, FitsWalk};

    ghost Value = { WalkValue R };

    ghost view = { λ w. record { reading = w.reading; cutter = w.cutter; offset = w.offset; stage = w.stage } };

    ghost invariant = { λ w. FitsWalk w.offset w.cutter w.stage };
}

impl<R: BodyReading> StreamWalk<R> {
    /// Makes a walk that has been fed nothing.
    pub fn new(alloc: Global) -> StreamWalk<R>
        ensures run { HasReached R.meaning R.state [] [] result }
        ensures start { (result.offset ≡ 0) × (fed_of result ≡ 0) }
    {
        StreamWalk {
            cutter: Cutter::new(alloc),
            reading: R::new(alloc),
            offset: 0,
            stage: Stage::Between,
        }
    }

    /// Takes the next piece of the stream. The bytes fed so far and the piece are at most 2^46 together.
    /// After `NoMemory` the walk is as before.
    pub fn feed(&mut self, piece: &[u8]) -> Result<(), NoMemory>
        requires { fed_of self.old + length piece.now ≤ 2 ^ 46 }
        ensures ok { OnOk result (self.new ≡ record self.old { cutter = with_more self.old.cutter piece.now }) }
        ensures err { OnErr result (self.new ≡ self.old) }
        ensures run { OnOk result ((fed : List ℕ) (given : List EntryValue) → HasReached R.meaning R.state fed given self.old → HasReached R.meaning R.state (fed ++ piece.now) given self.new) }
    {
        self.cutter.feed(piece)
    }

    /// Makes of the next message of the bytes fed what is wanted of it, or says that there is none yet, or how
    /// the walk ended. A Termination Message is given, and then `Terminated`. After an end each later call
    /// gives the same, whatever is fed between. After `NoMemory` nothing was given, and the next call tries
    /// again. Calls for entries and for judgements may be mixed: each goes on where the last one ended.
    pub fn next<W: Reads>(&mut self) -> Result<Progress<W::Item>, NoMemory>
        ensures run { IfOk result (RunsOn R.meaning R.state W.is_of self.old self.new) }
        ensures advances { IfOk result (Advances self.old self.new) }
        ensures repeats { Repeats self.old.stage self.old self.new result }
        ensures err { OnErr result (IsAsBefore R.meaning R.state self.old self.new) }
        ensures wants { OnErr result ((kind : ℕ) × (self.new.stage ≡ Stage.Within kind) × W.wants R.judge_wants kind) }
    {
        match self.stage {
            Stage::Between => self.cut::<W>(),
            Stage::Within(kind) => self.read::<W>(kind),
            Stage::Terminated => Ok(Progress::Terminated),
            Stage::Broken(why) => Ok(Progress::Broken(why)),
        }
    }

    // Cuts the next message, and reads it.
    fn cut<W: Reads>(&mut self) -> Result<Progress<W::Item>, NoMemory>
        requires { self.old.stage ≡ Stage.Between }
        ensures run { IfOk result (RunsOn R.meaning R.state W.is_of self.old self.new) }
        ensures advances { IfOk result (Advances self.old self.new) }
        ensures err { OnErr result (IsAsBefore R.meaning R.state self.old self.new) }
        ensures wants { OnErr result ((kind : ℕ) × (self.new.stage ≡ Stage.Within kind) × W.wants R.judge_wants kind) }
    {
        match self.cutter.next() {
            Next::Frame { kind, .. } => {
                self.stage = Stage::Within(kind);
                self.read::<W>(kind)
            }
            Next::More => Ok(Progress::More),
            Next::Bad(why) => {
                self.stage = Stage::Broken(why);
                Ok(Progress::Broken(why))
            }
        }
    }

    // Reads the message that was cut.
    fn read<W: Reads>(&mut self, kind: u8) -> Result<Progress<W::Item>, NoMemory>
        requires { self.old.stage ≡ Stage.Within kind }
        ensures run { IfOk result (RunsOn R.meaning R.state W.is_of self.old self.new) }
        ensures advances { IfOk result (Advances self.old self.new) }
        ensures err { OnErr result (self.new ≡ self.old) }
        ensures wants { OnErr result (W.wants R.judge_wants kind) }
    {
        match W::read(&mut self.reading, kind, self.cutter.body()) {
            Ok(item) => {
                self.offset = self.cutter.offset();
                self.stage = stage_after(kind);
                Ok(Progress::Message(item))
            }
            Err(BodyFault::Broken) => {
                self.stage = Stage::Broken(Why::Body);
                Ok(Progress::Broken(Why::Body))
            }
            Err(BodyFault::NoMemory) => Err(NoMemory),
        }
    }

    /// The sum of the lengths of the messages whose entries were given, in bytes.
    pub fn offset(&self) -> u64
        ensures { result ≡ self.now.offset }
    {
        self.offset
    }

    /// How many bytes were fed beyond these messages. With `offset` they are all bytes fed, 2^46 at most.
    pub fn rest(&self) -> u64
        ensures rest { result ≡ rest_of self.now }
        ensures all { self.now.offset + result ≡ fed_of self.now }
        ensures bound { fed_of self.now ≤ 2 ^ 46 }
    {
        self.cutter.offset() + self.cutter.rest() - self.offset
    }
}

// Where a walk stands after a message of this type.
fn stage_after(kind: u8) -> Stage
    ensures { result ≡ next_stage kind }
{
    if kind == TERMINATION {
        Stage::Terminated
    } else {
        Stage::Between
    }
}
