use crate::lane::Versions;
use crate::publisher::Call;
use crate::serving::Client;
use crate::tables::Order;
use crate::{frames, lane, publisher, routes, serving, tables};
use std::io;
use std::io::Read;
use std::rt::Clock;
use std::sync::Wait;
use std::thread::Threads;

/// Does each work once on a small load, to show that all of it does what it says. What takes a stream takes this one.
pub fn run<R: Threads + Wait + Clock + Print + AllocGlobal + Sync, I: Read + Drop>(
    rt: &R,
    input: I,
) -> io::Result<()> {
    let stream = serving::read_all(rt.alloc(), input)?;
    each_on(rt, stream.as_slice())
}

fn each_on<R: Threads + Wait + Clock + Print + AllocGlobal + Sync>(
    rt: &R,
    stream: &[u8],
) -> io::Result<()> {
    on_stream(rt, stream)?;
    serving::run(rt, rt.alloc(), stream, Client::Keeps, Some(16), None)?;
    publisher::run(rt, rt.alloc(), Call::Publish, Some(3), Some(2), Some(2))?;
    publisher::run(rt, rt.alloc(), Call::PublishHeld, Some(3), Some(2), None)?;
    publisher::run(rt, rt.alloc(), Call::Snapshot, Some(3), None, None)?;
    on_prefixes(rt)
}

fn on_stream<R: Print + AllocGlobal>(rt: &R, stream: &[u8]) -> io::Result<()> {
    frames::run(rt, stream, Some(16))?;
    lane::run(rt, stream, Versions::Last)?;
    lane::run(rt, stream, Versions::EveryTenth)?;
    lane::seek(rt, stream, Some(5), Some(3))?;
    lane::walk(rt, stream, Some(2))
}

fn on_prefixes<R: Print + AllocGlobal>(rt: &R) -> io::Result<()> {
    tables::trie(rt, Order::Prefix, Some(8), Some(1))?;
    tables::trie(rt, Order::Shuffled, Some(8), Some(1))?;
    tables::map(rt, Order::Prefix, Some(8))?;
    tables::map(rt, Order::Shuffled, Some(8))?;
    routes::runs(rt, Order::Prefix, Some(8))
}
