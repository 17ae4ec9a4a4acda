//! Walks through streams that come in two pieces, cut at every place.
ghost use Rattle.std.specs.Prelude.{◌≡◌, ◌+◌, ◌≤◌, length, IfOk};
ghost use Rattle.bmp_message.specs.StreamWalk.{Advances, fed_of};

use super::words::bytes_at;
use crate::line::Line;
use bmp_message::{Entries, Judged, Judgements, Progress, Reading, StreamWalk};
use bmp_specs::Why;
use rib_model::Entry;
use std::alloc::Global;
use wire_io::NoMemory;

// The type and the length of a message. An entry that is no message would be one of type 0 and length 0 here.
fn judged_of(entry: &Entry) -> Judged {
    match entry {
        Entry::Message { head, .. } => Judged {
            kind: head.kind,
            length: head.length,
        },
        _ => Judged { kind: 0, length: 0 },
    }
}

// The next message, as the one or the other reading gives it.
fn step(walk: &mut StreamWalk<Reading>, judges: bool) -> Result<Progress<Judged>, NoMemory>
    ensures { IfOk result (Advances walk.old walk.new) }
{
    if judges {
        return walk.next::<Judgements>();
    }
    match walk.next::<Entries>()? {
        Progress::Message(entry) => Ok(Progress::Message(judged_of(&entry))),
        Progress::More => Ok(Progress::More),
        Progress::Terminated => Ok(Progress::Terminated),
        Progress::Broken(why) => Ok(Progress::Broken(why)),
    }
}

fn name_of(why: Why) -> &'static str {
    match why {
        Why::Version => "version",
        Why::Length => "length",
        Why::Body => "body",
    }
}

// Writes the types and lengths of the messages that are there, and tells what follows them. Every other message is
// asked for by the other call of the two.
fn drain(
    walk: &mut StreamWalk<Reading>,
    calls: [bool; 2],
    messages: &mut Vec<(u8, u32)>,
) -> Result<&'static str, NoMemory>
    ensures { IfOk result (λ end. fed_of walk.new ≡ fed_of walk.old) }
{
    loop {
        match step(walk, calls[messages.len() % 2])? {
            Progress::Message(Judged { kind, length }) => messages.push((kind, length))?,
            Progress::More => return Ok("more"),
            Progress::Terminated => return Ok("terminated"),
            Progress::Broken(why) => return Ok(name_of(why)),
        }
    }
}

// Feeds both pieces, and tells what follows the messages of the second.
fn take(
    walk: &mut StreamWalk<Reading>,
    calls: [bool; 2],
    first: &[u8],
    second: &[u8],
    messages: &mut Vec<(u8, u32)>,
) -> Result<&'static str, NoMemory>
    requires { fed_of walk.old + length first.now + length second.now ≤ 1000 }
{
    walk.feed(first)?;
    drain(walk, calls, messages)?;
    walk.feed(second)?;
    drain(walk, calls, messages)
}

// What a walk gave: its messages, the offset, the rest and the end.
fn put_walked(
    out: &mut Line,
    walk: &StreamWalk<Reading>,
    messages: &[(u8, u32)],
    end: Result<&'static str, NoMemory>,
) {
    for message in messages {
        let (kind, length) = *message;
        out.show("", &kind);
        out.show(" ", &length);
        out.put(";");
    }
    out.show(" ", &walk.offset());
    out.show(" ", &walk.rest());
    out.show(" ", &end);
}

// The walk of a stream in two pieces.
fn put_two(out: &mut Line, calls: [bool; 2], first: &[u8], second: &[u8])
    requires { length first.now + length second.now ≤ 1000 }
{
    let mut messages = Vec::new(out.alloc);
    let mut walk: StreamWalk<Reading> = StreamWalk::new(out.alloc);
    let end = take(&mut walk, calls, first, second, &mut messages);
    put_walked(out, &walk, messages.as_slice(), end);
}

// Whether the walk of a stream in these two pieces gives something else.
fn is_other(
    alloc: Global,
    calls: [bool; 2],
    first: &[u8],
    second: &[u8],
    whole: Option<&str>,
) -> bool
    requires { length first.now + length second.now ≤ 1000 }
{
    let mut seen = Line::new(alloc);
    put_two(&mut seen, calls, first, second);
    seen.text() != whole
}

// How many of the ways to walk the stream in these two pieces give something else.
fn others_at(alloc: Global, first: &[u8], second: &[u8], whole: Option<&str>) -> u64
    requires { length first.now + length second.now ≤ 1000 }
{
    let mut others = 0u64;
    for calls in [[false, false], [true, true], [false, true]] {
        others = others.saturating_add(is_other(alloc, calls, first, second, whole) as u64);
    }
    others
}

// How many ways to walk the stream in two pieces give something else.
fn others(alloc: Global, stream: &[u8], whole: Option<&str>) -> u64
    requires { length stream.now ≤ 1000 }
{
    let mut others = 0u64;
    for place in 0..stream.len() + 1 {
        let (first, second) = stream.split_at(place);
        others = others.saturating_add(others_at(alloc, first, second, whole));
    }
    others
}

// What a walk gives of a stream, and how many of the others of it give something else.
fn put_walks(out: &mut Line, stream: &[u8])
    requires { length stream.now ≤ 1000 }
{
    put_two(out, [false, false], stream, &[]);
    let others = others(out.alloc, stream, out.text());
    out.show(" ", &others);
}

pub(crate) fn walk(out: &mut Line, words: &[&str]) {
    let stream = bytes_at(out.alloc, words, 1);
    put_walks(out, stream.as_slice());
}
