//! What a query is to be answered where so many entries of each lane are published: the rows are the plain model's.

ghost use Rattle.std.specs.Prelude.{◌≤◌};

use plain_model::{Address, Effect, Family, Peer, Route, Row, RowKey, View, rows};
use std::alloc::Global;
use wire_io::ByteList;

fn address(octets: [u8; 4]) -> Address {
    let [a, b, c, d] = octets;
    Address {
        family: Family::V4,
        octets: [a, b, c, d, 0, 0, 0, 0, 0, 0, 0, 0, 0, 0, 0, 0],
    }
}

fn peer() -> Peer {
    Peer {
        kind: 0,
        distinguisher: 0,
        address: address([192, 0, 2, 1]),
    }
}

fn place(second: u8, bits: u8) -> RowKey {
    RowKey {
        peer: peer(),
        view: View::InPre,
        address: address([10, second, 0, 0]),
        bits,
        id: None,
    }
}

fn announce(row_key: RowKey) -> Effect {
    Effect::Announce(Row {
        row_key,
        route: Route { origin: 64500 },
    })
}

// What the lane's messages do to its rows.
fn effects(lane: u32) -> [Effect; 4] {
    let last = if lane == 0 {
        Effect::Down {
            peer: peer(),
            reason: 4,
        }
    } else {
        Effect::Withdraw(place(1, 16))
    };
    let up = Effect::Up {
        peer: peer(),
        asn: 64500,
    };
    [up, announce(place(0, 8)), announce(place(1, 16)), last]
}

// The rows of the lane where so many of its entries are published: its opening and two messages are the first three.
fn rows_of(alloc: Global, lane: u32, published: u32) -> Option<Vec<Row>> {
    let count = match published {
        0 | 1 | 2 => 0,
        3 => 3,
        _ => 4,
    };
    let effects = effects(lane);
    rows(alloc, effects.get(..count)?).ok()
}

fn put(replies: &mut ByteList, text: &[u8]) -> Option<()> {
    replies.extend(text).ok()
}

// A number of one digit.
fn put_digit(replies: &mut ByteList, number: u64) -> Option<()> {
    let digit = b'0' + (number % 10) as u8;
    put(replies, &[digit])
}

// A line of a word and numbers of one digit.
fn put_line(replies: &mut ByteList, word: &[u8], numbers: &[u64]) -> Option<()> {
    put(replies, word)?;
    for number in numbers {
        put(replies, b" ")?;
        put_digit(replies, *number)?;
    }
    put(replies, b"\n")
}

fn rest_of_prefix(bits: u8) -> &'static [u8] {
    match bits {
        8 => b"0.0.0/8",
        _ => b"1.0.0/16",
    }
}

// The line of a row of the lane.
fn put_row(replies: &mut ByteList, lane: u32, row: &Row) -> Option<()> {
    put(replies, b"route ")?;
    put_digit(replies, lane as u64)?;
    put(replies, b" 0-0000000000000000-192.0.2.1 adj-in-pre 10.")?;
    put(replies, rest_of_prefix(row.row_key.bits))?;
    put(
        replies,
        b" next=192.0.2.1 origin=igp path=64500 med=- pref=- atomic=no agg=- comm=- other=-\n",
    )
}

// The lines of the lane's rows; how many these are.
fn put_rows(alloc: Global, replies: &mut ByteList, lane: u32, published: u32) -> Option<u64> {
    let rows = rows_of(alloc, lane, published)?;
    for row in rows.iter() {
        put_row(replies, lane, row)?;
    }
    Some(rows.len() as u64)
}

// The reply to `cut` where so many entries of each lane are published.
pub(crate) fn put_cut(replies: &mut ByteList, first: u32, second: u32) -> Option<()>
    requires { (first ≤ 4) × (second ≤ 4) }
{
    put_line(replies, b"at", &[(first + second) as u64])?;
    put_line(replies, b"lane", &[0, first as u64])?;
    put_line(replies, b"lane", &[1, second as u64])?;
    put_line(replies, b"end", &[2])
}

// The same of `table`.
pub(crate) fn put_table(
    alloc: Global,
    replies: &mut ByteList,
    first: u32,
    second: u32,
) -> Option<()>
    requires { (first ≤ 4) × (second ≤ 4) }
{
    put_line(replies, b"at", &[(first + second) as u64])?;
    let of_first = put_rows(alloc, replies, 0, first)?;
    let of_second = put_rows(alloc, replies, 1, second)?;
    put_line(replies, b"end", &[of_first.saturating_add(of_second)])
}
