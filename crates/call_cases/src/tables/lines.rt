//! Lines of replies, of lane 0.
use super::connections::put_connection;
use super::entries::stat_of;
use super::routes::{bytes_at, nlri_at, route_at};
use super::states::{info_of, list_of};
use super::statistics::counts_of;
use super::words::{long_at, peer_of, short_at, view_at};
use crate::line::{Line, at, behind, family_at, octet_at};
use bgp_open::DownInfo;
use bmp_frames::parse_key;
use bmp_specs::{Cause, Detail, Why};
use ip_prefix::Nlri;
use peer_book::{PeerLine, PeerState};
use reply_text::{
    Failed, RouterLine, RouterState, put_at, put_change, put_count, put_end, put_lane, put_mark,
    put_missed, put_peer, put_route, put_router, put_stat, put_steps, put_stop,
};
use rib_model::{Route, RowKey, Step};
use std::alloc::Global;
use wire_io::{ByteList, MemSink};

fn why_of(text: &str) -> Why {
    match text {
        "version" => Why::Version,
        "length" => Why::Length,
        _ => Why::Body,
    }
}

// How a connection ended: a word, the offset, and why.
fn cause_of(words: &[&str]) -> Cause {
    let offset = long_at(words, 1);
    match at(words, 0) {
        "terminated" => Cause::Terminated,
        "cutshort" => Cause::CutShort { offset },
        "broken" => Cause::Broken {
            offset,
            why: why_of(at(words, 2)),
        },
        "readfault" => Cause::ReadFault { offset },
        "full" => Cause::Full,
        _ => Cause::Ended,
    }
}

#[derive(Clone, Copy)]
enum Kind {
    At,
    End,
    Count,
    Lane,
    Steps,
    Missed,
    Stop,
    Router,
    FullRouter,
    Peer,
    Mark,
    Stat,
    Change,
    Route,
}

const KINDS: [(&str, Kind); 14] = [
    ("at", Kind::At),
    ("end", Kind::End),
    ("count", Kind::Count),
    ("lane", Kind::Lane),
    ("steps", Kind::Steps),
    ("missed", Kind::Missed),
    ("stop", Kind::Stop),
    ("router", Kind::Router),
    ("full-router", Kind::FullRouter),
    ("peer", Kind::Peer),
    ("mark", Kind::Mark),
    ("stat", Kind::Stat),
    ("change", Kind::Change),
    ("route", Kind::Route),
];

// The kind of a line by its word.
fn kind_of(word: &str) -> Option<Kind> {
    for (name, kind) in KINDS.iter() {
        if *name == word {
            return Some(*kind);
        }
    }
    None
}

// Writes the line that the words name; where they name none, it fails.
fn put_named(alloc: Global, sink: &mut MemSink, words: &[&str]) -> Result<(), Failed> {
    match kind_of(at(words, 1)) {
        Some(kind) => put_number(alloc, sink, kind, words),
        None => Err(Failed),
    }
}

// The line of a number, or another.
fn put_number(alloc: Global, sink: &mut MemSink, kind: Kind, words: &[&str]) -> Result<(), Failed> {
    let number = long_at(words, 2);
    match kind {
        Kind::At => put_at(sink, number),
        Kind::End => put_end(sink, number),
        Kind::Count => put_count(sink, number),
        Kind::Lane => put_lane(sink, 0, number),
        Kind::Steps => put_steps(sink, 0, number),
        Kind::Missed => put_missed(sink, number),
        _ => put_other(alloc, sink, kind, words),
    }
}

fn put_other(alloc: Global, sink: &mut MemSink, kind: Kind, words: &[&str]) -> Result<(), Failed> {
    match kind {
        Kind::Stop => put_stop(sink, &cause_of(behind(words, 2))),
        Kind::Router => put_router_in(alloc, sink, words),
        Kind::FullRouter => put_connection(alloc, sink, words),
        Kind::Peer => put_of_peer(alloc, sink, words),
        Kind::Mark => put_mark_of(sink, words),
        Kind::Stat => put_stat(sink, 0, &peer_of(0), &stat_of(behind(words, 2))),
        Kind::Change => put_change_of(alloc, sink, words),
        _ => put_route_of(alloc, sink, words),
    }
}

// The line of a router: its name and its description in hexadecimal, and the counts, or the cause of a closing.
fn put_router_in(alloc: Global, sink: &mut MemSink, words: &[&str]) -> Result<(), Failed> {
    let name = bytes_at(alloc, words, 3);
    let descr = bytes_at(alloc, words, 4);
    put_told(sink, name.as_slice(), descr.as_slice(), words)
}

fn put_told(sink: &mut MemSink, name: &[u8], descr: &[u8], words: &[&str]) -> Result<(), Failed> {
    let line = RouterLine {
        peers: 1,
        counts: counts_of(behind(words, 5)),
        name,
        descr,
    };
    let state = match at(words, 2) {
        "live" => RouterState::Live(line),
        "idle" => RouterState::Idle,
        _ => RouterState::Closed(cause_of(behind(words, 3))),
    };
    put_router(sink, 0, &state)
}

fn put_mark_of(sink: &mut MemSink, words: &[&str]) -> Result<(), Failed> {
    let (view, family) = (view_at(words, 2), family_at(words, 3));
    put_mark(
        sink,
        0,
        &peer_of(0),
        view,
        family,
        at(words, 4) == "complete",
    )
}

fn put_of_peer(alloc: Global, sink: &mut MemSink, words: &[&str]) -> Result<(), Failed> {
    if at(words, 3) == "up" {
        let state = up(alloc, words);
        put_peer_state(sink, words, &state)
    } else {
        put_peer_state(sink, words, &Some(down(words)))
    }
}

fn put_peer_state(
    sink: &mut MemSink,
    words: &[&str],
    state: &Option<PeerState>,
) -> Result<(), Failed> {
    match (parse_key(at(words, 2).as_bytes()), state) {
        (Some(key), Some(state)) => put_peer(sink, 0, &PeerLine { key, state }),
        _ => Err(Failed),
    }
}

fn detail_of(words: &[&str]) -> Detail {
    match at(words, 5) {
        "notified" => Detail::Notified {
            code: octet_at(words, 6),
            sub: octet_at(words, 7),
        },
        "event" => Detail::Event(short_at(words, 6)),
        _ => Detail::Unread,
    }
}

fn down(words: &[&str]) -> PeerState {
    PeerState::Down(DownInfo {
        reason: octet_at(words, 4),
        detail: detail_of(words),
    })
}

// The name of a table, which is hexadecimal; where there is no such word, there is none.
fn table_name(alloc: Global, words: &[&str]) -> Option<ByteList> {
    if at(words, 5) == "" {
        None
    } else {
        let name = bytes_at(alloc, words, 5);
        list_of(alloc, name.as_slice())
    }
}

// A peer that is up, and of a Loc-RIB whether it is filtered and its table's name.
fn up(alloc: Global, words: &[&str]) -> Option<PeerState> {
    match info_of(alloc, at(words, 4) == "filtered", table_name(alloc, words)) {
        Some(info) => Some(PeerState::Up(info)),
        None => None,
    }
}

fn put_change_of(alloc: Global, sink: &mut MemSink, words: &[&str]) -> Result<(), Failed> {
    let step = step_of(alloc, words);
    put_step(sink, long_at(words, 2), &step)
}

fn put_route_of(alloc: Global, sink: &mut MemSink, words: &[&str]) -> Result<(), Failed> {
    let route = route_at(alloc, words, 6);
    put_row(sink, &row_of(words), &route)
}

fn announced_at(alloc: Global, words: &[&str], nlri: Nlri) -> Option<Step> {
    match route_at(alloc, words, 7) {
        Some(route) => Some(Step::Announce {
            key: peer_of(0),
            view: view_at(words, 4),
            nlri,
            route,
        }),
        None => None,
    }
}

fn announced(alloc: Global, words: &[&str]) -> Option<Step> {
    match nlri_at(words, 5, 6) {
        Some(nlri) => announced_at(alloc, words, nlri),
        None => None,
    }
}

fn withdrawn(words: &[&str]) -> Option<Step> {
    match nlri_at(words, 5, 6) {
        Some(nlri) => Some(Step::Withdraw {
            key: peer_of(0),
            view: view_at(words, 4),
            nlri,
        }),
        None => None,
    }
}

fn step_of(alloc: Global, words: &[&str]) -> Option<Step> {
    match at(words, 3) {
        "opened" => Some(Step::Opened),
        "closed" => Some(Step::Closed(cause_of(behind(words, 4)))),
        "up" => Some(Step::Up(peer_of(0))),
        "down" => Some(Step::Down(peer_of(0))),
        "announce" => announced(alloc, words),
        _ => withdrawn(words),
    }
}

fn put_step(sink: &mut MemSink, number: u64, step: &Option<Step>) -> Result<(), Failed> {
    match step {
        Some(step) => put_change(sink, 0, number, step),
        None => Err(Failed),
    }
}

// The row of a route, by the texts of its peer, its view, its prefix and its path identifier.
fn row_of(words: &[&str]) -> Option<RowKey> {
    match (parse_key(at(words, 2).as_bytes()), nlri_at(words, 4, 5)) {
        (Some(key), Some(nlri)) => Some(RowKey {
            key,
            view: view_at(words, 3),
            nlri,
        }),
        _ => None,
    }
}

fn put_row(sink: &mut MemSink, row: &Option<RowKey>, route: &Option<Route>) -> Result<(), Failed> {
    match (row, route) {
        (Some(row), Some(route)) => put_route(sink, 0, row, route),
        _ => Err(Failed),
    }
}

// Whether a front of the line was written, and less than the line where a write failed.
fn is_front(line: &[u8], taken: &[u8], is_whole: bool) -> bool {
    line.starts_with(taken) && (is_whole || taken.len() < line.len())
}

fn leaves_front(alloc: Global, sink: &mut MemSink, line: &[u8], words: &[&str]) -> bool {
    let is_whole = put_named(alloc, sink, words).is_ok();
    is_front(line, sink.taken(), is_whole)
}

// Whether a front of the line is written where the write of this number fails.
fn leaves_front_at(alloc: Global, number: u64, line: &[u8], words: &[&str]) -> bool {
    match MemSink::new(alloc, 1000, &[number]) {
        Ok(mut sink) => leaves_front(alloc, &mut sink, line, words),
        Err(_) => false,
    }
}

// The line, whether the call writes it, and whether a front of it is written where its first, its second or its tenth
// write fails.
fn put_line(out: &mut Line, sink: &mut MemSink, words: &[&str]) {
    let is_whole = put_named(out.alloc, sink, words).is_ok();
    let line = sink.taken();
    out.put_text(line);
    let first = leaves_front_at(out.alloc, 0, line, words);
    let second = leaves_front_at(out.alloc, 1, line, words);
    let tenth = leaves_front_at(out.alloc, 9, line, words);
    out.show("Ok(", &is_whole);
    out.show(") ", &first);
    out.show(" ", &second);
    out.show(" ", &tenth);
}

pub(crate) fn line(out: &mut Line, words: &[&str]) {
    match MemSink::new(out.alloc, 1000, &[]) {
        Ok(mut sink) => put_line(out, &mut sink, words),
        Err(_) => out.fail(),
    }
}
