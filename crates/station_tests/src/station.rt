//! Whole calls of the station over yards in memory: what it answers and writes, and what the yard has then.
ghost use Rattle.std.specs.Prelude.{◌≡◌};

use crate::streams::{INITIATION, PEER_UP, PEER_UP_OF_TWO_OCTETS, ROUTE_IN_TWO_OCTETS};
use crate::words::words;
use crate::yards::{Around, Comes, yard};
use bmp_message::Reading;
use cut_publisher::Ending;
use ip_prefix::Addr;
use router_tables::RouterTables;
use station_doors::{Allowed, Listening, Log, MemYard};
use station_run::{Outcome, serve};
use station_top::station;
use std::alloc::Global;
use std::sync::Wait;
use std::test::Fail;
use std::thread::Threads;
use wire_io::MemSink;

/// A yard that keeps the ending that it took.
pub(crate) type Keeping = MemYard<Ending<RouterTables>>;

// A call of the station: its words, what stands round it, how much may be written, and which writes fail; its exit
// status, what is written, what each link is written begins with, and the last revision, where there is an ending.
#[derive(Clone, Copy)]
struct Row {
    words: &'static str,
    around: Around,
    room: u32,
    writes: &'static [u64],
    status: u8,
    written: &'static str,
    replies: &'static str,
    last: Option<u64>,
}

/// What a call left.
#[derive(Drop)]
pub(crate) struct Left {
    pub(crate) status: u8,
    pub(crate) out: MemSink,
    pub(crate) yard: Keeping,
}

/// What these words leave of a yard, and of a sink with so much room, of which these writes fail.
pub(crate) fn call<R: Threads + Wait + Sync>(
    rt: &R,
    alloc: Global,
    text: &str,
    mut yard: Keeping,
    room: u32,
    writes: &[u64],
) -> Option<Left> {
    let words = words(alloc, text)?;
    let mut out = MemSink::new(alloc, room, writes).ok()?;
    let status = station(rt, alloc, words.as_slice(), &mut yard, &mut out).code();
    Some(Left { status, out, yard })
}

fn called<R: Threads + Wait + Sync>(rt: &R, alloc: Global, row: &Row) -> Option<Left> {
    let yard = yard(alloc, row.around)?;
    call(rt, alloc, row.words, yard, row.room, row.writes)
}

// The revision of the ending that the yard has.
fn last(yard: &Keeping) -> Option<u64> {
    match yard.ending() {
        Some(ending) => Some(ending.cut.rev()),
        None => None,
    }
}

// Whether link 0 was written the replies: whole lines alone, and no line alone, else these first.
fn has_replies(yard: &Keeping, replies: &str) -> bool {
    let written = yard.written(0);
    let replies = replies.as_bytes();
    if replies.is_empty() || replies.ends_with(b"\n") {
        written == replies
    } else {
        written.starts_with(replies)
    }
}

// Whether a call left what its row has.
fn is_right(row: &Row, left: &Left) -> bool {
    left.status == row.status
        && left.out.taken() == row.written.as_bytes()
        && has_replies(&left.yard, row.replies)
        && last(&left.yard) == row.last
}

// Nobody, and one line that is never said: a call of nothing.
const NONE: Row = Row {
    words: "",
    around: Around::NOTHING,
    room: 4000,
    writes: &[],
    status: 0,
    written: "",
    replies: "",
    last: None,
};

const ONE_LANE: Around = Around {
    ports: 1,
    stream: &[INITIATION],
    ..Around::NOTHING
};

// A lane whose router sends a route that the lenient reading alone takes, and an asker.
const TWO_OCTETS: Around = Around {
    ports: 1,
    stream: &[PEER_UP_OF_TWO_OCTETS, ROUTE_IN_TWO_OCTETS],
    links: 1,
    ..Around::NOTHING
};

// Two lanes with a connection of two messages each, and an asker to whom nobody comes.
const TWO_ROUTERS: Around = Around {
    ports: 2,
    stream: &[INITIATION, PEER_UP],
    links: 1,
    ..Around::NOTHING
};

// Two lanes with a connection each, and two askers.
const TWO_AND_TWO: Around = Around {
    ports: 2,
    stream: &[INITIATION],
    links: 2,
    lines: &["cut\n"],
    ..Around::NOTHING
};

const ROWS: &[Row] = &[
    // two routers that stay for a moment, and nobody who asks: for one round, and for as many as come
    Row {
        words: "serve --feeds 2 --askers 1 --feed-port 1 --ask-port 3 --rounds 1",
        around: TWO_ROUTERS,
        written: "ready\ndone 8\n",
        last: Some(8),
        ..NONE
    },
    Row {
        words: "serve --feeds=2 --askers=1 --feed-port=1 --ask-port=5 --rounds=forever",
        around: TWO_ROUTERS,
        written: "ready\ndone 8\n",
        last: Some(8),
        ..NONE
    },
    // of each lane an opening, a message and a closing
    Row {
        words: "serve --feeds=2 --askers=2 --feed-port=5000 --ask-port=6000 --rounds=1",
        around: TWO_AND_TWO,
        written: "ready\ndone 6\n",
        replies: "at ",
        last: Some(6),
        ..NONE
    },
    // it can't listen; it has no first port; no second one; no link, and the port is given back unused
    Row {
        words: "serve --feeds=1 --askers=1 --feed-port=1 --ask-port=2 --rounds=1",
        around: Around {
            calls: &[0],
            ..ONE_LANE
        },
        status: 6,
        ..NONE
    },
    Row {
        words: "serve --feeds=1 --askers=1 --feed-port=1 --ask-port=2 --rounds=1",
        around: Around {
            calls: &[1],
            ..ONE_LANE
        },
        status: 6,
        ..NONE
    },
    Row {
        words: "serve --feeds=2 --askers=2 --feed-port=5000 --ask-port=6000 --rounds=1",
        around: Around {
            calls: &[2],
            ..TWO_AND_TWO
        },
        status: 6,
        ..NONE
    },
    Row {
        words: "serve --feeds=1 --askers=1 --feed-port=1 --ask-port=2 --rounds=1",
        around: ONE_LANE,
        status: 6,
        ..NONE
    },
    // a failed `ready`: nobody is served; a failed last line: all were
    Row {
        words: "serve --feeds=2 --askers=2 --feed-port=5000 --ask-port=6000 --rounds=1",
        around: TWO_AND_TWO,
        writes: &[0],
        status: 4,
        ..NONE
    },
    Row {
        words: "serve --feeds=2 --askers=2 --feed-port=5000 --ask-port=6000 --rounds=1",
        around: TWO_AND_TWO,
        room: 6,
        status: 4,
        written: "ready\n",
        replies: "at ",
        last: Some(6),
        ..NONE
    },
    // a read that fails at once, inside a message, and after it
    Row {
        words: "replay table",
        around: Around {
            stream: &[],
            reads: &[0],
            ..ONE_LANE
        },
        status: 3,
        written: "at 1\nend 0\nstop readfault 0\n",
        ..NONE
    },
    Row {
        words: "replay table",
        around: Around {
            reads: &[2],
            ..ONE_LANE
        },
        status: 3,
        written: "at 1\nend 0\nstop readfault 2\n",
        ..NONE
    },
    Row {
        words: "replay table",
        around: Around {
            reads: &[5],
            ..ONE_LANE
        },
        status: 3,
        written: "at 2\nend 0\nstop readfault 20\n",
        ..NONE
    },
    // no port; a write that fails; one that fails after the last
    Row {
        words: "replay table",
        around: Around {
            calls: &[0],
            ..ONE_LANE
        },
        status: 6,
        ..NONE
    },
    Row {
        words: "replay table",
        around: ONE_LANE,
        writes: &[0],
        status: 4,
        ..NONE
    },
    Row {
        words: "replay table view loc",
        around: ONE_LANE,
        writes: &[1],
        written: "at 2\nend 0\nstop ended\n",
        ..NONE
    },
    // words that are no command ask the yard for nothing
    Row {
        words: "--help x",
        around: Around {
            calls: &[0],
            ..Around::NOTHING
        },
        status: 2,
        written: "usage: bmpstation replay QUERY, check, serve OPTIONS, or drill SEED LANES MESSAGES\n",
        ..NONE
    },
    // 64 lanes at one port, beside one for the asker: 0 to 63 bytes of a Peer Up, an opening and a closing each
    Row {
        words: "serve --ports shared --feed-port 5 --ask-port 6 --feeds 64 --askers 1 --rounds 1",
        around: Around {
            ports: 64,
            comes: Comes::Fronts,
            stream: &[PEER_UP],
            links: 1,
            ..Around::NOTHING
        },
        written: "ready\ndone 128\n",
        last: Some(128),
        ..NONE
    },
    // no router, and a client whose line is no query
    Row {
        words: "serve --feeds=1 --askers=1 --feed-port=1 --ask-port=2 --rounds=1",
        around: Around {
            ports: 1,
            comes: Comes::Nobody,
            links: 1,
            lines: &["error\n"],
            ..Around::NOTHING
        },
        written: "ready\ndone 0\n",
        replies: "error query\n",
        last: Some(0),
        ..NONE
    },
    // read leniently, and by the RFCs
    Row {
        words: "serve --feeds=1 --askers=1 --lenient --feed-port=5 --ask-port=6 --rounds=1",
        around: TWO_OCTETS,
        written: "ready\ndone 4\n",
        last: Some(4),
        ..NONE
    },
    Row {
        words: "serve --feeds=1 --askers=1 --feed-port=5 --ask-port=6 --rounds=1",
        around: TWO_OCTETS,
        written: "ready\ndone 3\n",
        last: Some(3),
        ..NONE
    },
    // the usage can't be written
    Row {
        writes: &[0],
        status: 4,
        ..NONE
    },
];

// Whether a call leaves what its row has; without memory for what stands round it, nothing.
fn leaves<R: Threads + Wait + Sync>(rt: &R, alloc: Global, row: &Row) -> Option<bool> {
    let left = called(rt, alloc, row)?;
    Some(is_right(row, &left))
}

// Further words, and the replies of an asker and of a whole stream, are those of the program's rows.
#[test]
fn calls_and_what_they_leave(rt: HostRuntime) -> Result<(), Fail> {
    for row in ROWS.iter() {
        assert!(rt; leaves(&rt, rt.alloc(), row) == Some(true), "{}", row.words);
    }
    Ok(())
}

// Whether the link was written whole replies of two rows.
fn is_served(yard: &Keeping, number: u32) -> bool {
    let written = yard.written(number);
    written.starts_with(b"at ") && written.ends_with(b"end 2\n")
}

fn ended_well(outcome: Outcome, out: &MemSink, yard: &Keeping) -> bool {
    outcome == Outcome::Done
        && out.taken() == b"ready\ndone 6\n".as_slice()
        && is_served(yard, 0)
        && is_served(yard, 1)
        && last(yard) == Some(6)
}

// Whether two lanes and two askers are served well, without words.
fn serves_two_and_two<R: Threads + Wait + Sync>(rt: &R, alloc: Global) -> Option<bool> {
    let at = Listening {
        address: Addr::v4([127, 0, 0, 1]),
        ask_address: Addr::v4([127, 0, 0, 1]),
        feeds: 2,
        askers: 2,
        feed_port: 5000,
        ask_port: 6000,
        shared: false,
        idle: None,
        ask_idle: None,
        log: Log::Routers,
        feed_from: Allowed::anywhere(),
        ask_from: Allowed::anywhere(),
    };
    let mut yard: Keeping = yard(alloc, TWO_AND_TWO)?;
    let mut out = MemSink::new(alloc, 64, &[]).ok()?;
    let outcome = serve::<Reading, _, _, _>(rt, alloc, &at, 1, &mut yard, &mut out);
    Some(ended_well(outcome, &out, &yard))
}

#[test]
fn routers_and_clients_at_once(rt: HostRuntime) -> Result<(), Fail> {
    assert!(rt; serves_two_and_two(&rt, rt.alloc()) == Some(true));
    Ok(())
}
