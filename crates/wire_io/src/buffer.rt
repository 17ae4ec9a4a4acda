ghost use Rattle.std.specs.Prelude.{◌≡◌, ◌<◌, ◌≤◌, ◌+◌, ◌++◌, [], ⊤, Result, length, take, OnOk};
ghost use Rattle.std.specs.Io.KnownBytes.{Keeps, append_known};
ghost use Rattle.wire_io.specs.Aside.{laid_over};
ghost use Rattle.wire_io.specs.declared.sink.Failed.{Failed};
ghost use Rattle.wire_io.specs.Faults.{HasCause};
ghost use Rattle.wire_io.specs.Buffer.{BufferValue, Extends, GoesThrough, Pours};

use crate::{Failed, Sink};
use core::mem::replace_with;
use std::marker::Model;
use std::snapshot::Snapshot;

/// How many bytes a buffered sink holds back at most.
pub const BUFFER_ROOM: usize = 4096;

/// A sink that holds bytes back for the sink below it, in an array of its own. It takes no memory.
///
/// What it tells is what the sink below tells, and then the bytes that are held; its faults are those of
/// the sink below. So a call that writes through it and then flushes it leaves what the call without it
/// leaves. `into_inner` gives the sink below back; bytes that are still held are then lost.
pub struct BufferedSink<O: Sink> {
    out: O,
    first: Snapshot<O>,
    bytes: [u8; BUFFER_ROOM],
    start: usize,
    len: usize,
}

impl<O: Sink> Model for BufferedSink<O> {
    ghost use Rattle.std.specs.Prelude.{◌≤◌, take, drop};
    ghost use Rattle.wire_io.specs.Buffer.{BufferValue, Extends};
    ghost use Rattle.wire_io.specs.declared.buffer.TheConstants.{BUFFER_ROOM};

    ghost Value = { BufferValue O };

    ghost view = { λ p. record { first = p.first.value; below = p.out; held = drop p.start (take p.len p.bytes); used = p.len } };

    ghost invariant = { λ p. (p.start ≤ p.len) × (p.len ≤ BUFFER_ROOM) × Extends (O.told p.first.value) (O.told p.out) };
}

impl<O: Sink> BufferedSink<O> {
    /// A buffer over this sink, which holds no bytes.
    pub fn new(out: O) -> BufferedSink<O>
        ensures { result ≡ record { first = out; below = out; held = []; used = 0 } }
    {
        let first = Snapshot::of(&out);
        BufferedSink {
            out,
            first,
            bytes: [0; BUFFER_ROOM],
            start: 0,
            len: 0,
        }
    }

    /// Hands what is held to the sink below. A write that fails ends the call; the rest is then still held.
    pub fn flush(&mut self) -> Result<(), Failed>
        ensures empty { OnOk result ((self.new.held ≡ []) × (self.new.used ≡ 0)) }
        ensures first { self.new.first ≡ self.old.first }
        ensures same { Keeps (append_known (O.told self.old.below) self.old.held) (append_known (O.told self.new.below) self.new.held) }
        ensures kept { O.aside self.new.below ≡ O.aside self.old.below }
        ensures cause { HasCause (O.faults self.old.below) (O.faults self.new.below) result }
    {
        let (start, result) = pour(&mut self.out, &self.bytes[..self.len], self.start);
        self.start = start;
        result?;
        self.start = 0;
        self.len = 0;
        Ok(())
    }

    /// The sink below.
    pub fn into_inner(self) -> O
        ensures below { result ≡ self.below }
        ensures extends { Extends (O.told self.first) (O.told result) }
    {
        let BufferedSink {
            out,
            first: _,
            bytes: _,
            start: _,
            len: _,
        } = self;
        out
    }

    // Holds as much of the piece as there is room for, and answers how much.
    fn keep(&mut self, piece: &[u8]) -> usize
        requires room { self.old.used < BUFFER_ROOM }
        requires piece { 0 < length piece.now }
        ensures some { (0 < result) × (result ≤ length piece.now) }
        ensures first { self.new.first ≡ self.old.first }
        ensures below { self.new.below ≡ self.old.below }
        ensures held { self.new.held ≡ self.old.held ++ take result piece.now }
    {
        let count = piece.len().min(BUFFER_ROOM - self.len);
        put(&mut self.bytes, self.len, &piece[..count]);
        self.len += count;
        count
    }
}

impl<O: Sink> Sink for BufferedSink<O> {
    ghost told = { λ p. append_known (O.told p.below) p.held };

    ghost faults = { λ p. O.faults p.below };

    ghost aside = { λ p. laid_over (O.told p.first) (O.aside p.below) };

    fn write(&mut self, piece: &[u8]) -> Result<usize, Failed> {
        if self.len < BUFFER_ROOM {
            return Ok(self.keep(piece));
        }
        self.flush()?;
        Ok(self.keep(piece))
    }
}

// Writes the bytes from `start` on, and answers from where on they are not written.
fn pour<O: Sink>(out: &mut O, bytes: &[u8], start: usize) -> (usize, Result<(), Failed>)
    requires { start ≤ length bytes.now }
    ensures place { (start ≤ result.0) × (result.0 ≤ length bytes.now) }
    ensures all { OnOk result.1 (result.0 ≡ length bytes.now) }
    ensures told { Pours (O.told out.old) (O.told out.new) bytes.now start result.0 }
    ensures kept { O.aside out.new ≡ O.aside out.old }
    ensures cause { HasCause (O.faults out.old) (O.faults out.new) result.1 }
{
    let mut at = start;
    while at < bytes.len() {
        match out.write(&bytes[at..]) {
            Ok(n) => at += n,
            Err(failed) => return (at, Err(failed)),
        }
    }
    (at, Ok(()))
}

// Puts a piece at a place.
fn put(bytes: &mut [u8], at: usize, piece: &[u8])
    requires { at + length piece.now ≤ length bytes.old }
    ensures put { take (at + length piece.now) bytes.new ≡ take at bytes.old ++ piece.now }
    ensures len { length bytes.new ≡ length bytes.old }
{
    bytes[at..at + piece.len()].copy_from_slice(piece);
}

/// Something that is written through a buffer.
pub trait Puts<O: Sink> {
    /// It may be written.
    ghost may_put: { Self → Type 0 } = { λ _. ⊤ };

    /// What writing it may make of a buffer.
    ghost leaves: { Self → BufferValue O → Result (Unit {0}) Failed → BufferValue O → Type 0 };

    /// Writes it to the buffer.
    fn put(self, buffer: &mut BufferedSink<O>) -> Result<(), Failed>
        requires { may_put self }
        ensures { leaves self buffer.old result buffer.new };
}

/// Writes this to a buffer over the sink, which is handed on at the end. A write that fails ends the call; what
/// the buffer still holds is then lost. It takes no memory but what `put` takes.
pub fn through_buffer<O: Sink, P: Puts<O>>(out: &mut O, what: P) -> Result<(), Failed>
    requires { P.may_put what }
    ensures { GoesThrough O.faults O.told O.aside (P.leaves what) out.old result out.new }
{
    replace_with(
        out,
        what,
        |out, what|
            requires { P.may_put what }
        { put_over(out, what) },
    )
}

fn put_over<O: Sink, P: Puts<O>>(out: O, what: P) -> (O, Result<(), Failed>)
    requires { P.may_put what }
    ensures { GoesThrough O.faults O.told O.aside (P.leaves what) out result.1 result.0 }
{
    let mut buffer = BufferedSink::new(out);
    let result = match what.put(&mut buffer) {
        Ok(()) => buffer.flush(),
        Err(failed) => Err(failed),
    };
    (buffer.into_inner(), result)
}
