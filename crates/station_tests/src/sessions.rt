//! Sessions over links in memory, of a station that published nothing.
ghost use Rattle.std.specs.Prelude.{◌≡◌, ◌<◌};
ghost use Rattle.cut_publisher.specs.Opening.{IsOpened};

use crate::opened::{named, opened};
use ask_session::serve_session;
use cut_publisher::{AskPass, Naming, Station};
use router_tables::RouterTables;
use station_doors::MemLink;
use std::alloc::Global;
use std::marker::Brand;
use std::sync::Wait;
use std::test::Fail;
use wire_io::ByteList;

type Asker = AskPass<RouterTables>;

// An asker of a station that publishes nothing.
fn idle_asker<R: Wait>(rt: &R, alloc: Global) -> Option<Asker> {
    let station = opened(alloc)?;
    asker_of::<Brand, R>(rt, station)
}

fn asker_of<J: Naming, R: Wait>(rt: &R, station: Station<RouterTables>) -> Option<Asker>
    requires named { station.publisher.station ≡ J.site }
    requires opened { IsOpened 1 1 station.publisher station.feeds station.asks }
{
    let (publisher, _, mut asks) = named::<RouterTables, J, R>(rt, station);
    publisher.close(rt);
    asks.pop()
}

// What a client sends: so many times `x`, and this text.
fn sent(alloc: Global, count: u32, text: &str) -> Option<ByteList> {
    let mut bytes = ByteList::new(alloc);
    for _ in 0..count {
        bytes.extend(b"x").ok()?;
    }
    bytes.extend(text.as_bytes()).ok()?;
    Some(bytes)
}

// So many times `x`, and what follows; and the reply.
#[derive(Clone, Copy)]
struct Row {
    count: u32,
    text: &'static str,
    reply: &'static str,
}

const ROWS: &[Row] = &[
    Row {
        count: 0,
        text: "cut\n",
        reply: "at 0\nlane 0 0\nend 1\n",
    },
    Row {
        count: 0,
        text: "cut\r\ncut\n",
        reply: "at 0\nlane 0 0\nend 1\nat 0\nlane 0 0\nend 1\n",
    },
    Row {
        count: 0,
        text: "table view adj-in-pre router 0\n",
        reply: "error query\n",
    },
    Row {
        count: 0,
        text: "c\rut\ncut\r\r\n",
        reply: "error query\nerror query\n",
    },
    Row {
        count: 0,
        text: "\n\r\ncut\n",
        reply: "error query\nerror query\nat 0\nlane 0 0\nend 1\n",
    },
    // the last line has no end
    Row {
        count: 0,
        text: "x\ncut",
        reply: "error query\nat 0\nlane 0 0\nend 1\n",
    },
    Row {
        count: 0,
        text: "cut\r",
        reply: "error query\n",
    },
    Row {
        count: 0,
        text: "",
        reply: "",
    },
    Row {
        count: 0,
        text: "cut\nquit\ncut\n",
        reply: "at 0\nlane 0 0\nend 1\n",
    },
    Row {
        count: 0,
        text: "quit",
        reply: "",
    },
    Row {
        count: 0,
        text: "quit \nQUIT\n",
        reply: "error query\nerror query\n",
    },
    // 1,024 bytes
    Row {
        count: 1024,
        text: "\ncut\n",
        reply: "error query\nat 0\nlane 0 0\nend 1\n",
    },
    Row {
        count: 1024,
        text: "\r\ncut\n",
        reply: "error query\nat 0\nlane 0 0\nend 1\n",
    },
    // 1,025 bytes
    Row {
        count: 1025,
        text: "\ncut\n",
        reply: "error line\n",
    },
    Row {
        count: 1024,
        text: "\r",
        reply: "error line\n",
    },
    Row {
        count: 1026,
        text: "",
        reply: "error line\n",
    },
];

// A link over which the bytes of the row come, in pieces of this size.
fn link(alloc: Global, row: &Row, size: u32) -> Option<MemLink>
    requires { 0 < size }
{
    let connections = [sent(alloc, row.count, row.text)?];
    MemLink::new(alloc, &connections, &[size; 1040], 200, &[]).ok()
}

fn has_taken(link: &MemLink, count: u32, reply: &str) -> bool {
    count == 1 && link.taken() == reply.as_bytes()
}

// Whether the one client of the row is answered so.
fn is_answered(alloc: Global, asker: &mut Asker, row: &Row, size: u32) -> Option<bool>
    requires { 0 < size }
{
    let mut link = link(alloc, row, size)?;
    let count = serve_session(asker, &mut link, 1);
    Some(has_taken(&link, count, row.reply))
}

// In pieces of each size: the first of them ends at each place, and those of size 1 are single bytes.
#[test]
fn lines_are_answered(rt: HostRuntime) -> Result<(), Fail> {
    let mut asker = idle_asker(&rt, rt.alloc()).ok_or("no asker")?;
    for row in ROWS.iter() {
        for size in 1..1030u32 {
            let answered = is_answered(rt.alloc(), &mut asker, row, size);
            assert!(rt;
                answered == Some(true),
                "{} times x, {}, by {size}",
                row.count,
                row.text
            );
        }
    }
    Ok(())
}

const ALL: &str = "at 0\nlane 0 0\nend 1\nat 0\nlane 0 0\nend 1\nerror query\n";

// A link over which three lines come, of which two are cut, and then nothing, where there is so much room and these calls
// fail.
fn failing_link(alloc: Global, room: u32, fails: &[u64]) -> Option<MemLink> {
    let lines = sent(alloc, 0, "cut\ncut\nxyz\n")?;
    let connections = [lines, ByteList::new(alloc)];
    MemLink::new(alloc, &connections, &[6, 3], room, fails).ok()
}

// How many bytes of the replies the link took. None where both connections weren't served, or it took other bytes.
fn front(link: &MemLink, count: u32) -> Option<usize> {
    let taken = link.taken();
    if count == 2 && ALL.as_bytes().starts_with(taken) {
        Some(taken.len())
    } else {
        None
    }
}

// The same of such a link that is served.
fn taken(alloc: Global, asker: &mut Asker, room: u32, fails: &[u64]) -> Option<usize> {
    let mut link = failing_link(alloc, room, fails)?;
    let count = serve_session(asker, &mut link, 3);
    front(&link, count)
}

// A write may take less than it was given, and may fail in the midst of a reply: a front is written.
#[test]
fn failed_calls_leave_a_front(rt: HostRuntime) -> Result<(), Fail> {
    let mut asker = idle_asker(&rt, rt.alloc()).ok_or("no asker")?;
    for room in 0..=52u32 {
        let taken = taken(rt.alloc(), &mut asker, room, &[]);
        assert!(rt; taken == Some(room as usize), "room {room}");
    }
    for call in 0..=20u64 {
        let taken = taken(rt.alloc(), &mut asker, 100, &[call]);
        assert!(rt; taken.is_some(), "call {call}");
    }
    Ok(())
}
