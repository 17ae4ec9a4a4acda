//! What `drill` writes, byte for byte, against what the machine of lanes and askers writes on the same streams.
//!
//! `drill` takes its streams on threads, side by side with askers, and publishes as it goes. The machine takes one stream
//! after another, each on a lane of its own and in pieces of so many bytes, and publishes each in one step. The replies of
//! `cut`, `routers` and `count` are the same.

use super::{ask, run, take};
use crate::station::{Keeping, Left, call};
use crate::yards::{Around, yard};
use drill_streams::drill_stream;
use station_core::Event;
use std::alloc::Global;
use std::sync::Wait;
use std::test::Fail;
use std::thread::Threads;
use wire_io::{ByteList, MemSink};

// Begins a connection on the lane, takes the stream in pieces of so many bytes, and publishes what is due.
fn feed(
    alloc: Global,
    events: &mut Vec<Event>,
    lane: u32,
    stream: &[u8],
    piece: usize,
) -> Option<()> {
    events.push(Event::Begin { lane }).ok()?;
    for bytes in stream.chunks(piece.max(1)) {
        events.push(take(alloc, lane, bytes)?).ok()?;
    }
    events.push(Event::Publish { lane }).ok()
}

// The events of these streams, each taken in pieces of so many bytes on a lane of its own and published in one step.
fn put_streams(
    alloc: Global,
    events: &mut Vec<Event>,
    streams: &[ByteList],
    piece: usize,
) -> Option<()> {
    let mut lane = 0u32;
    for stream in streams {
        feed(alloc, events, lane, stream.as_slice(), piece)?;
        lane = lane.saturating_add(1);
    }
    Some(())
}

// Three queries.
fn put_queries(events: &mut Vec<Event>) -> Option<()> {
    for query in [b"cut".as_slice(), b"routers", b"count"] {
        events.push(ask(0, query)?).ok()?;
    }
    Some(())
}

// The events of the streams, and of the queries after them.
fn events(alloc: Global, streams: &[ByteList], piece: usize) -> Option<Vec<Event>> {
    let mut events = Vec::new(alloc);
    put_streams(alloc, &mut events, streams, piece)?;
    put_queries(&mut events)?;
    Some(events)
}

// What the machine writes on them. None where there is no stream or there are more than 64, where the schedule has more
// than 4,096 events, and where the replies have more than 65,536 bytes.
fn replies_to(alloc: Global, streams: &[ByteList], piece: usize) -> Option<MemSink> {
    let lanes = streams.len();
    if lanes == 0 || lanes > 64 {
        return None;
    }
    let events = events(alloc, streams, piece)?;
    let ran = run(alloc, lanes as u32, 1, &events, 65536, &[])?;
    if ran.last.is_err() {
        return None;
    }
    Some(ran.out)
}

// The numbers of a drill: what the streams are drawn from, how many lanes there are, and how many messages are drawn for
// each.
#[derive(Clone, Copy)]
struct Drill {
    seed: u32,
    lanes: u32,
    messages: u32,
}

// The stream of each lane.
fn streams(alloc: Global, drill: Drill) -> Option<Vec<ByteList>> {
    let mut streams = Vec::new(alloc);
    for lane in 0..drill.lanes {
        let stream = drill_stream(alloc, drill.seed, lane, drill.messages).ok()?;
        streams.push(stream).ok()?;
    }
    Some(streams)
}

// What the station leaves of the words of the drill. Its yard has no port and no link.
fn left<R: Threads + Wait + Sync>(rt: &R, alloc: Global, drill: Drill) -> Option<Left> {
    let Drill {
        seed,
        lanes,
        messages,
    } = drill;
    let words = format!(in alloc; "drill {seed} {lanes} {messages}").ok()?;
    let yard: Keeping = yard(alloc, Around::NOTHING)?;
    call(rt, alloc, words.as_str(), yard, 65536, &[])
}

// Whether the machine writes this on the streams in pieces of so many bytes.
fn are_replies(alloc: Global, streams: &[ByteList], piece: usize, written: &[u8]) -> Option<bool> {
    let replies = replies_to(alloc, streams, piece)?;
    Some(replies.taken() == written)
}

// The same of pieces of each of these sizes.
fn are_all_replies(
    alloc: Global,
    streams: &[ByteList],
    pieces: &[usize],
    written: &[u8],
) -> Option<bool> {
    for piece in pieces {
        if !are_replies(alloc, streams, *piece, written)? {
            return Some(false);
        }
    }
    Some(true)
}

// The same of the streams of the drill, where the station ended well.
fn are_of_drill(alloc: Global, drill: Drill, pieces: &[usize], left: &Left) -> Option<bool> {
    if left.status != 0 {
        return Some(false);
    }
    let streams = streams(alloc, drill)?;
    are_all_replies(alloc, &streams, pieces, left.out.taken())
}

// Whether what the drill writes is what the machine does, in pieces of each of these sizes.
fn is_as_the_machine<R: Threads + Wait + Sync>(
    rt: &R,
    alloc: Global,
    drill: Drill,
    pieces: &[usize],
) -> Option<bool> {
    let left = left(rt, alloc, drill)?;
    are_of_drill(alloc, drill, pieces, &left)
}

#[test]
fn small_drills_are_as_the_machine(rt: HostRuntime) -> Result<(), Fail> {
    for seed in [0, 1, 7, u32::MAX] {
        for lanes in 1..=3 {
            for messages in 1..=8 {
                let drill = Drill {
                    seed,
                    lanes,
                    messages,
                };
                let right = is_as_the_machine(&rt, rt.alloc(), drill, &[1, 7, 4096]);
                assert!(rt; right == Some(true), "drill {seed} {lanes} {messages}");
            }
        }
    }
    Ok(())
}

#[test]
fn larger_drills_are_as_the_machine(rt: HostRuntime) -> Result<(), Fail> {
    for (seed, lanes, messages, piece) in [
        (7, 1, 30, 1),
        (7, 2, 90, 7),
        (0, 3, 300, 100),
        (u32::MAX, 16, 200, 4096),
    ] {
        let drill = Drill {
            seed,
            lanes,
            messages,
        };
        let right = is_as_the_machine(&rt, rt.alloc(), drill, &[piece]);
        assert!(rt; right == Some(true), "drill {seed} {lanes} {messages}");
    }
    Ok(())
}
