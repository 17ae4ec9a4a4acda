//! Archives, and files of payloads, of whole calls over yards in memory whose calls fail.

use crate::station::{Keeping, Left, call};
use crate::streams::{INITIATION, PEER_UP, ROUTES, bytes};
use crate::yards::yard_of;
use disk_doors::MemDisk;
use std::alloc::Global;
use std::sync::Wait;
use std::test::Fail;
use std::thread::Threads;
use wire_io::ByteList;

// A call of the station: its words; the messages that come to its port, in pieces of 20 and 154 bytes first, and which
// reads fail; which calls of the yard fail; the disk F, how many bytes it has room for, and the call of it that fails;
// which writes fail. Then its exit status, what is written, and what F holds.
#[derive(Clone, Copy)]
struct Row {
    words: &'static str,
    stream: &'static [&'static str],
    reads: &'static [u64],
    calls: &'static [u64],
    file: &'static [&'static str],
    room: u32,
    failing: u64,
    writes: &'static [u64],
    status: u8,
    written: &'static str,
    kept: &'static [&'static str],
}

// No call of a disk has this number.
const NONE_FAILS: u64 = u64::MAX;

// An Initiation and a Peer Up are kept.
const ARCHIVE: Row = Row {
    words: "archive F",
    stream: &[INITIATION, PEER_UP],
    reads: &[],
    calls: &[],
    file: &[],
    room: 1000,
    failing: NONE_FAILS,
    writes: &[],
    status: 0,
    written: "kept 174\nstop ended\n",
    kept: BOTH,
};

// What stands before each of them in its record: a 1, and its length.
const FIRST: &str = "0100000014";

const SECOND: &str = "010000009a";

const BOTH: &[&str] = &[FIRST, INITIATION, SECOND, PEER_UP, "00"];

const RECALL: Row = Row {
    words: "recall F cut",
    stream: &[],
    file: BOTH,
    written: "at 3\nlane 0 3\nend 1\nstop ended\n",
    ..ARCHIVE
};

// Two routes, of which V allows one.
const ROV: Row = Row {
    words: "rov V 0.0.0.0/0",
    stream: &[INITIATION, PEER_UP, ROUTES],
    written: "at 4\nrov 0 0-0000000000000000-192.0.2.1 adj-in-pre 10.0.0.0/8 64500 valid\nrov 0 0-0000000000000000-192.0.2.1 adj-in-pre 10.1.0.0/16 64500 invalid\nend 2\nstop ended\n",
    kept: &[],
    ..ARCHIVE
};

const VRPS: &[u8] = b"ASN,IP Prefix,Max Length\nAS64500,10.0.0.0/8,8\n";

const BAD: &[u8] = b"ASN,IP Prefix,Max Length\nAS64500,10.0.0.0/8,7\n";

const ROWS: &[Row] = &[
    ARCHIVE,
    // a record has five bytes more than its piece, and the archive one byte more: just room enough, and a byte too little
    Row {
        room: 185,
        ..ARCHIVE
    },
    Row {
        room: 184,
        status: 11,
        written: "kept 20\n",
        kept: &[FIRST, INITIATION, "00"],
        ..ARCHIVE
    },
    Row {
        room: 25,
        status: 11,
        written: "kept 0\n",
        kept: &["00"],
        ..ARCHIVE
    },
    Row {
        room: 0,
        status: 11,
        written: "",
        kept: &[],
        ..ARCHIVE
    },
    // no disk, no port: the disk is as it was
    Row {
        calls: &[0],
        status: 6,
        written: "",
        kept: &[],
        ..ARCHIVE
    },
    Row {
        words: "archive G",
        status: 6,
        written: "",
        kept: &[],
        ..ARCHIVE
    },
    Row {
        calls: &[1],
        status: 6,
        written: "",
        kept: &[],
        ..ARCHIVE
    },
    // the file isn't empty
    Row {
        file: &["00"],
        status: 10,
        written: "notempty\n",
        kept: &["00"],
        ..ARCHIVE
    },
    // a read that fails at once, and after the Initiation
    Row {
        reads: &[0],
        status: 3,
        written: "kept 0\nstop readfault 0\n",
        kept: &["00"],
        ..ARCHIVE
    },
    Row {
        reads: &[1],
        status: 3,
        written: "kept 20\nstop readfault 20\n",
        kept: &[FIRST, INITIATION, "00"],
        ..ARCHIVE
    },
    // a write that fails: all is kept
    Row {
        writes: &[0],
        status: 4,
        written: "",
        ..ARCHIVE
    },
    Row {
        file: &["00"],
        writes: &[0],
        status: 4,
        written: "",
        kept: &["00"],
        ..ARCHIVE
    },
    RECALL,
    // no port is asked for
    Row {
        calls: &[1],
        ..RECALL
    },
    Row {
        calls: &[0],
        status: 6,
        written: "",
        ..RECALL
    },
    Row {
        words: "recall G cut",
        status: 6,
        written: "",
        ..RECALL
    },
    Row {
        failing: 0,
        status: 11,
        written: "",
        ..RECALL
    },
    Row {
        failing: 1,
        status: 11,
        written: "",
        ..RECALL
    },
    Row {
        writes: &[0],
        status: 4,
        written: "",
        ..RECALL
    },
    Row {
        file: &[FIRST],
        status: 10,
        written: "badarchive 0\n",
        kept: &[FIRST],
        ..RECALL
    },
    ROV,
    // the file fails, and isn't there; the port fails
    Row {
        calls: &[0],
        status: 6,
        written: "",
        ..ROV
    },
    Row {
        words: "rov W 0.0.0.0/0",
        status: 6,
        written: "",
        ..ROV
    },
    Row {
        calls: &[1],
        status: 6,
        written: "",
        ..ROV
    },
    // a bad file: no port is asked for
    Row {
        words: "rov B 0.0.0.0/0",
        calls: &[1],
        status: 9,
        written: "badfile 1\n",
        ..ROV
    },
    Row {
        words: "rov B 0.0.0.0/0",
        writes: &[0],
        status: 4,
        written: "",
        ..ROV
    },
    Row {
        reads: &[1],
        status: 3,
        written: "at 2\nend 0\nstop readfault 20\n",
        ..ROV
    },
    Row {
        writes: &[0],
        status: 4,
        written: "",
        ..ROV
    },
];

// Gives the yard the disk F, with these bytes.
fn put_disk(alloc: Global, yard: &mut Keeping, file: &[u8], room: u32, failing: u64) -> Option<()> {
    if file.len() > room as usize {
        return None;
    }
    let disk = MemDisk::new(alloc, file, room, &[failing]).ok()?;
    yard.put_disk("F", disk).ok()
}

// Gives the yard a file with these bytes.
fn put_file(alloc: Global, yard: &mut Keeping, path: &str, text: &[u8]) -> Option<()> {
    let mut file = ByteList::new(alloc);
    file.extend(text).ok()?;
    yard.put_file(path, &file).ok()
}

// Gives the yard the disk and the files of a row.
fn put_files(alloc: Global, yard: &mut Keeping, row: &Row) -> Option<()> {
    let file = bytes(alloc, row.file)?;
    put_disk(alloc, yard, file.as_slice(), row.room, row.failing)?;
    put_file(alloc, yard, "V", VRPS)?;
    put_file(alloc, yard, "B", BAD)
}

// The yard of a row.
fn yard(alloc: Global, row: &Row) -> Option<Keeping> {
    let stream = bytes(alloc, row.stream)?;
    let mut yard: Keeping = yard_of(alloc, stream, &[20, 154], row.reads, row.calls)?;
    put_files(alloc, &mut yard, row)?;
    Some(yard)
}

fn called<R: Threads + Wait + Sync>(rt: &R, alloc: Global, row: &Row) -> Option<Left> {
    let yard = yard(alloc, row)?;
    call(rt, alloc, row.words, yard, 1000, row.writes)
}

// Whether a call left what its row has, and these bytes in F.
fn is_right(row: &Row, kept: &[u8], left: &Left) -> bool {
    left.status == row.status
        && left.out.taken() == row.written.as_bytes()
        && left.yard.kept("F") == kept
}

// The same of a call that is made. None out of memory.
fn leaves<R: Threads + Wait + Sync>(rt: &R, alloc: Global, row: &Row) -> Option<bool> {
    let kept = bytes(alloc, row.kept)?;
    let left = called(rt, alloc, row)?;
    Some(is_right(row, kept.as_slice(), &left))
}

#[test]
fn disks_and_files_that_fail(rt: HostRuntime) -> Result<(), Fail> {
    for row in ROWS.iter() {
        assert!(rt;
            leaves(&rt, rt.alloc(), row) == Some(true),
            "{}: {}",
            row.words,
            row.written
        );
    }
    Ok(())
}

// What `recall F cut` leaves of this file.
fn recalled<R: Threads + Wait + Sync>(rt: &R, alloc: Global, file: &[u8]) -> Option<Left> {
    let mut yard: Keeping = yard_of(alloc, ByteList::new(alloc), &[], &[], &[])?;
    put_disk(alloc, &mut yard, file, 1000, NONE_FAILS)?;
    call(rt, alloc, "recall F cut", yard, 1000, &[])
}

const NO_MESSAGE: &[u8] = b"at 1\nlane 0 1\nend 1\nstop ended\n";

const ONE_MESSAGE: &[u8] = b"at 2\nlane 0 2\nend 1\nstop ended\n";

const TWO_MESSAGES: &[u8] = b"at 3\nlane 0 3\nend 1\nstop ended\n";

const NO_ARCHIVE: &[u8] = b"badarchive 0\n";

const KEPT_NOTHING: &[u8] = b"kept 0\n";

const KEPT_ONE: &[u8] = b"kept 20\n";

const KEPT_BOTH: &[u8] = b"kept 174\nstop ended\n";

// Whether this may be recalled where `archive` wrote that: what was told as kept, and one piece more at most. It told
// nothing where the disk failed before the first piece, and then the file may be empty.
fn may_be_recalled(written: &[u8], recalled: &[u8]) -> bool {
    if written.is_empty() {
        recalled == NO_MESSAGE || recalled == NO_ARCHIVE
    } else if written == KEPT_NOTHING {
        recalled == NO_MESSAGE || recalled == ONE_MESSAGE
    } else if written == KEPT_ONE {
        recalled == ONE_MESSAGE || recalled == TWO_MESSAGES
    } else {
        written == KEPT_BOTH && recalled == TWO_MESSAGES
    }
}

// Whether a call ended so, and its disk is recalled so.
fn ends_as(status: u8, left: &Left, again: &Left) -> bool {
    left.status == status && may_be_recalled(left.out.taken(), again.out.taken())
}

// Whether a disk whose call of this number fails leaves what may be recalled, and the status says whether it failed.
fn leaves_a_front<R: Threads + Wait + Sync>(
    rt: &R,
    alloc: Global,
    failing: u64,
    fails: bool,
) -> Option<bool> {
    let row = Row { failing, ..ARCHIVE };
    let status = if fails { 11 } else { 0 };
    let left = called(rt, alloc, &row)?;
    let again = recalled(rt, alloc, left.yard.kept("F"))?;
    Some(ends_as(status, &left, &again))
}

// It is asked for its size, written and synced for `create`; asked for its size, read and synced for `begin`; and written
// and synced twice for each of two pieces.
const CALLS: u64 = 14;

#[test]
fn each_call_of_a_disk_fails(rt: HostRuntime) -> Result<(), Fail> {
    for failing in 0..20 {
        let is_front = leaves_a_front(&rt, rt.alloc(), failing, failing < CALLS);
        assert!(rt; is_front == Some(true), "call {failing}");
    }
    Ok(())
}
