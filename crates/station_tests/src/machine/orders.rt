//! Every order of the events of two lanes and two askers, as far as each keeps its own order.

ghost use Rattle.std.specs.Prelude.{◌<◌, ◌≤◌};

mod replies;

use super::{Ran, ask, run, take};
use crate::streams::{PEER_DOWN, PEER_UP, ROUTES, WITHDRAWAL, bytes};
use replies::{put_cut, put_table};
use station_core::Event;
use std::alloc::Global;
use std::process::Abort;
use std::test::Fail;
use wire_io::ByteList;

// Each lane has one connection with three messages: a Peer Up Notification, two routes, and a Peer Down Notification on
// lane 0, the withdrawal of a route on lane 1. The first piece ends in the midst of the last message. So these are the
// events of a lane: Begin, Take, Publish, Take, Publish.
const LANE_EVENTS: u32 = 5;

// Those of both lanes; each asker has one more.
const EVENTS: u32 = 12;

// The connection of each lane.
fn streams(alloc: Global) -> Option<[ByteList; 2]> {
    let of_first = bytes(alloc, &[PEER_UP, ROUTES, PEER_DOWN])?;
    let of_second = bytes(alloc, &[PEER_UP, ROUTES, WITHDRAWAL])?;
    Some([of_first, of_second])
}

// How many bytes the first piece has: the two messages, and 16 bytes of the third.
const FIRST_PIECE: usize = 266;

// The event of a lane that has made so many.
fn lane_event(alloc: Global, streams: &[ByteList], lane: u32, made: u32) -> Option<Event> {
    let stream = streams.get(lane as usize)?.as_slice();
    match made {
        0 => Some(Event::Begin { lane }),
        1 => take(alloc, lane, stream.get(..FIRST_PIECE)?),
        3 => take(alloc, lane, stream.get(FIRST_PIECE..)?),
        _ => Some(Event::Publish { lane }),
    }
}

// How many entries are published of a lane that has made so many of its events: the opening and two messages, and then
// the third.
fn published(made: u32) -> u32
    ensures { result ≤ 4 }
{
    match made {
        0 | 1 | 2 => 0,
        3 | 4 => 3,
        _ => 4,
    }
}

// An order of all events: each binary digit of `lanes`, from the lowest, is the lane of one of the ten events of the lanes;
// so many of these come before the query `cut`; and so many of the eleven come before the other event.
#[derive(Clone, Copy)]
struct Order {
    lanes: u32,
    cut: u32,
    other: u32,
}

// The other event: the query `table` of the second asker, or the end.
#[derive(Clone, Copy, PartialEq, Eq)]
enum Other {
    Table,
    End,
}

// What comes at a place of an order.
#[derive(Clone, Copy)]
enum Next {
    Lane(u32),
    Cut,
    Other,
}

// The place, where one that is taken isn't counted.
fn without(place: u32, taken: u32) -> u32
    ensures { result ≤ place }
{
    if place > taken { place - 1 } else { place }
}

fn next_at(order: Order, place: u32) -> Next
    requires { place < 12 }
{
    if place == order.other {
        return Next::Other;
    }
    let place = without(place, order.other);
    if place == order.cut {
        return Next::Cut;
    }
    Next::Lane((order.lanes >> without(place, order.cut)) % 2)
}

// How many events the lane has made before this place.
fn made(order: Order, place: u32, lane: u32) -> u32
    requires { place ≤ 12 }
{
    let mut made = 0u32;
    for before in 0..place {
        if let Next::Lane(who) = next_at(order, before) {
            if who == lane {
                made = made.saturating_add(1);
            }
        }
    }
    made
}

// How many of the lane's entries are published before this place.
fn shown(order: Order, place: u32, lane: u32) -> u32
    requires { place ≤ 12 }
    ensures { result ≤ 4 }
{
    published(made(order, place, lane))
}

// The event at a place of an order.
fn event_at(
    alloc: Global,
    streams: &[ByteList],
    order: Order,
    other: Other,
    place: u32,
) -> Option<Event>
    requires { place < 12 }
{
    match next_at(order, place) {
        Next::Lane(lane) => lane_event(alloc, streams, lane, made(order, place, lane)),
        Next::Cut => ask(0, b"cut"),
        Next::Other => match other {
            Other::Table => ask(1, b"table"),
            Other::End => Some(Event::Finish),
        },
    }
}

// The events of an order.
fn events(alloc: Global, streams: &[ByteList], order: Order, other: Other) -> Option<Vec<Event>> {
    let mut events = Vec::new(alloc);
    for place in 0..EVENTS {
        let event = event_at(alloc, streams, order, other, place)?;
        events.push(event).ok()?;
    }
    Some(events)
}

// Puts the reply that is wanted at a place of an order: of each query on what is published before it, and none after the
// end.
fn put_wanted(
    alloc: Global,
    replies: &mut ByteList,
    order: Order,
    other: Other,
    place: u32,
) -> Option<()>
    requires { place < 12 }
{
    let first = shown(order, place, 0);
    let second = shown(order, place, 1);
    match next_at(order, place) {
        Next::Cut if other == Other::Table || place < order.other => {
            put_cut(replies, first, second)
        }
        Next::Other if other == Other::Table => put_table(alloc, replies, first, second),
        _ => Some(()),
    }
}

// The replies that are wanted.
fn wanted(alloc: Global, order: Order, other: Other) -> Option<ByteList> {
    let mut replies = ByteList::new(alloc);
    for place in 0..EVENTS {
        put_wanted(alloc, &mut replies, order, other, place)?;
    }
    Some(replies)
}

// How many entries are published in all.
fn last(order: Order, other: Other) -> u64
    requires { order.other < 12 }
{
    let end = match other {
        Other::Table => EVENTS,
        Other::End => order.other,
    };
    (shown(order, end, 0) + shown(order, end, 1)) as u64
}

// What the machine does in this order.
fn ran(alloc: Global, streams: &[ByteList], order: Order, other: Other) -> Option<Ran> {
    let events = events(alloc, streams, order, other)?;
    run(alloc, 2, 2, &events, 1024, &[])
}

// Whether the machine does what is wanted of it in this order.
fn is_right(alloc: Global, streams: &[ByteList], order: Order, other: Other) -> Option<bool>
    requires { order.other < 12 }
{
    let ran = ran(alloc, streams, order, other)?;
    let wanted = wanted(alloc, order, other)?;
    Some(ran.is(wanted.as_slice(), last(order, other)))
}

// How many of the ten events of the lanes are the second lane's.
fn ones(lanes: u32) -> u32 {
    let mut ones = 0u32;
    let mut rest = lanes;
    for _ in 0..10 {
        ones = ones.saturating_add(rest % 2);
        rest /= 2;
    }
    ones
}

// Tries each place of the two queries among these events of the lanes; how many these are.
fn places(rt: &impl Abort, alloc: Global, streams: &[ByteList], lanes: u32, other: Other) -> u32 {
    let mut orders = 0u32;
    for cut in 0..=10 {
        for place in 0..12 {
            let order = Order {
                lanes,
                cut,
                other: place,
            };
            let right = is_right(alloc, streams, order, other);
            assert!(rt; right == Some(true), "{lanes} {cut} {place}");
            orders = orders.saturating_add(1);
        }
    }
    orders
}

// Tries every order in which the lanes have as many events; how many orders these are.
fn orders(rt: &impl Abort, alloc: Global, other: Other) -> Option<u32> {
    let streams = streams(alloc)?;
    let mut orders = 0u32;
    for lanes in 0..1024 {
        if ones(lanes) == LANE_EVENTS {
            orders = orders.saturating_add(places(rt, alloc, &streams, lanes, other));
        }
    }
    Some(orders)
}

// 12! / (5! 5!).
const ORDERS: u32 = 33264;

#[test]
fn queries_between_publications(rt: HostRuntime) -> Result<(), Fail> {
    assert!(rt; orders(&rt, rt.alloc(), Other::Table) == Some(ORDERS));
    Ok(())
}

#[test]
fn nothing_happens_after_the_end(rt: HostRuntime) -> Result<(), Fail> {
    assert!(rt; orders(&rt, rt.alloc(), Other::End) == Some(ORDERS));
    Ok(())
}
