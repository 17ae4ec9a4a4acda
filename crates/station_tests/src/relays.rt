//! A relayed stream whose writes fail.

use crate::station::{Keeping, Left, call};
use crate::streams::{FRONT_OF_252_ROUTES, INITIATION, PEER_UP, bytes, put};
use crate::yards::yard_of;
use std::alloc::Global;
use std::sync::Wait;
use std::test::Fail;
use std::thread::Threads;
use wire_io::ByteList;

// Appends a message of 252 prefixes, from 10.0.0.0/24 or 10.1.0.0/24 on.
fn put_routes(alloc: Global, stream: &mut ByteList, second: u8) -> Option<()> {
    put(alloc, stream, FRONT_OF_252_ROUTES)?;
    for third in 0..252u8 {
        stream.extend(&[24, 10, second, third]).ok()?;
    }
    Some(())
}

// A stream of 504 prefixes.
fn stream(alloc: Global) -> Option<ByteList> {
    let mut stream = bytes(alloc, &[INITIATION, PEER_UP])?;
    put_routes(alloc, &mut stream, 0)?;
    put_routes(alloc, &mut stream, 1)?;
    Some(stream)
}

// What `relay` leaves on that stream, where the writes with these numbers fail.
fn relayed<R: Threads + Wait + Sync>(rt: &R, alloc: Global, writes: &[u64]) -> Option<Left> {
    let yard: Keeping = yard_of(alloc, stream(alloc)?, &[4096], &[], &[])?;
    call(rt, alloc, "relay", yard, 60_000, writes)
}

// Whether a call ended so, and wrote a beginning of so many bytes at most.
fn is_front(left: &Left, status: u8, whole: &[u8], most: usize) -> bool {
    let taken = left.out.taken();
    left.status == status && taken.len() <= most && whole.starts_with(taken)
}

fn are_whole_and_front(whole: &Left, front: &Left) -> bool {
    let bytes = whole.out.taken();
    bytes.len() == WHOLE && is_front(whole, 0, bytes, WHOLE) && is_front(front, 4, bytes, WHOLE - 1)
}

// Whether the whole stream is written, and a front of it where a write fails. None out of memory.
fn are_fronts<R: Threads + Wait + Sync>(rt: &R, alloc: Global, write: u64) -> Option<bool> {
    let whole = relayed(rt, alloc, &[])?;
    let front = relayed(rt, alloc, &[write])?;
    Some(are_whole_and_front(&whole, &front))
}

// An Initiation of 20 bytes, a Peer Up of 154, and 504 routes of 95: the header of 48, an UPDATE of 47. That is more than
// one write hands on.
const WHOLE: usize = 48_054;

#[test]
fn a_failed_write_leaves_a_front_of_the_relayed_stream(rt: HostRuntime) -> Result<(), Fail> {
    for write in 0..2u64 {
        assert!(rt;
            are_fronts(&rt, rt.alloc(), write) == Some(true),
            "write {write}"
        );
    }
    Ok(())
}
