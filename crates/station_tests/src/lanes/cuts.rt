//! A session that comes in pieces, cut at every place.
ghost use Rattle.std.specs.Prelude.{◌<◌, All};

use super::shown::{nothing, shows};
use super::watched::{Call, Look, Seen, look_on};
use super::worked::{BYTES, MESSAGES, Session, worked_session};
use bmp_specs::Cause;
use feed_worker::LaneEnd;
use router_tables::LaneState;
use station_doors::MemPort;
use std::alloc::Global;
use std::sync::Wait;
use std::test::Fail;
use wire_io::ByteList;

// What is seen of a lane that serves up to so many connections, where one comes, of these bytes in pieces of these sizes
// first.
fn seen<R: Wait>(rt: &R, alloc: Global, bytes: &[u8], pieces: &[u32], rounds: u32) -> Option<Seen>
    requires { All (λ n. 0 < n) pieces.now }
{
    let mut connection = ByteList::new(alloc);
    connection.extend(bytes).ok()?;
    let port = MemPort::new(alloc, &[connection], pieces, &[]).ok()?;
    look_on(rt, alloc, port, rounds)
}

// What is to be seen in such a look: the opening and exactly the messages that are whole. Before a further connection is
// asked for, the closing is published too.
fn wanted(session: &Session, look: &Look) -> Look {
    let whole = session.whole(look.taken);
    match look.call {
        Call::Next if look.taken == 0 => Look {
            revision: 0,
            shown: nothing(LaneState::Idle, 0),
            ..*look
        },
        Call::Next => Look {
            revision: MESSAGES as u64 + 2,
            shown: nothing(LaneState::Closed(Cause::Terminated), 11),
            ..*look
        },
        _ => Look {
            revision: (whole as u64).saturating_add(1),
            shown: session.shown(whole),
            ..*look
        },
    }
}

fn saw_whole_messages(session: &Session, seen: &Seen) -> bool {
    for look in seen.looks.iter() {
        if *look != wanted(session, look) {
            return false;
        }
    }
    true
}

// Whether the lane took the whole session, and published each of its messages between an opening and a closing.
fn is_whole(session: &Session, seen: &Seen) -> bool {
    saw_whole_messages(session, seen)
        && seen.end == LaneEnd::Over
        && seen.entries == MESSAGES as u64 + 2
        && shows(&seen.tables) == nothing(LaneState::Closed(Cause::Terminated), 11)
}

// Whether the lane asked so, with so many bytes given in front of each call.
fn has_asked(seen: &Seen, calls: &[(Call, u32)]) -> bool {
    if seen.looks.len() != calls.len() {
        return false;
    }
    for (look, (call, taken)) in seen.looks.iter().zip(calls.iter()) {
        if look.call != *call || look.taken != *taken as u64 {
            return false;
        }
    }
    true
}

fn is_asked_whole(session: &Session, seen: &Seen, calls: &[(Call, u32)]) -> bool {
    is_whole(session, seen) && has_asked(seen, calls)
}

// Whether the lane publishes the session that comes in two pieces, of which the first has so many bytes, as it should.
fn is_whole_in_two<R: Wait>(rt: &R, alloc: Global, session: &Session, first: u32) -> Option<bool>
    requires { 0 < first }
{
    let seen = seen(rt, alloc, session.bytes.as_slice(), &[first], 2)?;
    let calls = [
        (Call::Next, 0),
        (Call::Read, 0),
        (Call::Read, first),
        (Call::Close, BYTES),
        (Call::Next, BYTES),
    ];
    Some(is_asked_whole(session, &seen, &calls))
}

// There is a look before each byte, and one before each of three further calls.
fn has_all_looks(session: &Session, seen: &Seen) -> bool {
    is_whole(session, seen) && seen.looks.len() == BYTES as usize + 3
}

// The same of a session that comes byte by byte.
fn is_whole_byte_by_byte<R: Wait>(rt: &R, alloc: Global, session: &Session) -> Option<bool> {
    let seen = seen(rt, alloc, session.bytes.as_slice(), &[1; 1000], 2)?;
    Some(has_all_looks(session, &seen))
}

#[test]
fn every_cut_publishes_the_whole_messages(rt: HostRuntime) -> Result<(), Fail> {
    let session = worked_session(rt.alloc()).ok_or("no memory")?;
    assert!(rt; is_whole_byte_by_byte(&rt, rt.alloc(), &session) == Some(true));
    for first in 1..BYTES {
        let right = is_whole_in_two(&rt, rt.alloc(), &session, first);
        assert!(rt; right == Some(true), "cut at {first}");
    }
    Ok(())
}

// Whether it is the end of a connection that the router ends after a message, and else is cut short after the last whole
// one.
fn has_ended(session: &Session, place: u64, seen: &Seen) -> bool {
    let whole = session.whole(place);
    let offset = session.end(whole);
    let cause = if offset == place {
        Cause::Ended
    } else {
        Cause::CutShort { offset }
    };
    saw_whole_messages(session, seen)
        && seen.end == LaneEnd::Over
        && seen.tables.state() == LaneState::Closed(cause)
        && seen.entries == (whole as u64).saturating_add(2)
}

// Whether the lane publishes so many bytes of the session as it should.
fn is_front<R: Wait>(rt: &R, alloc: Global, session: &Session, place: usize) -> Option<bool> {
    let bytes = session.bytes.as_slice().get(..place)?;
    let seen = seen(rt, alloc, bytes, &[], 1)?;
    Some(has_ended(session, place as u64, &seen))
}

#[test]
fn every_end_of_a_connection(rt: HostRuntime) -> Result<(), Fail> {
    let session = worked_session(rt.alloc()).ok_or("no memory")?;
    for place in 0..BYTES as usize {
        let right = is_front(&rt, rt.alloc(), &session, place);
        assert!(rt; right == Some(true), "ended at {place}");
    }
    Ok(())
}
