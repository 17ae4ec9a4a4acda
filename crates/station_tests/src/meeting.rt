//! Two lanes and a client that wait for one another, so that they run side by side.
ghost use Rattle.std.specs.Prelude.{◌≡◌, ◌<◌, ◌≤◌, Some, length, All, IfOk, IfSome, IsTrue};
ghost use Rattle.std.specs.Io.{ReadsAtMost};
ghost use Rattle.std.specs.Io.KnownBytes.{WriteAppends};
ghost use Rattle.wire_io.specs.Faults.{HasCause};
ghost use Rattle.station_doors.specs.Doors.{Reads, AsPlanned, read_size};
ghost use Rattle.station_doors.specs.MemYard.{IsUntouched, IsIdle};

use crate::station::Keeping;
use crate::streams::{INITIATION, bytes};
use crate::words::words;
use cut_publisher::Ending;
use disk_doors::MemDisk;
use router_tables::RouterTables;
use station_doors::{
    Ended, FileFault, Link, LinkList, Listening, MemLink, MemPort, MemYard, Port, PortList, Told,
    Yard,
};
use station_top::station;
use std::alloc::Global;
use std::sync::Wait;
use std::sync::atomic::AtomicBool;
use std::sync::atomic::Ordering::SeqCst;
use std::test::Fail;
use std::thread::{Threads, yield_now};
use wire_io::{ByteList, Failed, MemSink, Sink};

// How often a flag is looked at.
const MOST_LOOKS: u32 = 1 << 24;

// What lanes and client tell one another.
#[derive(Drop)]
struct Flags {
    // The client was answered once, so the routers may send.
    may_send: AtomicBool,
    // All that a lane read is published, by lane.
    zero_is_seen: AtomicBool,
    one_is_seen: AtomicBool,
    // The client was answered again, so the routers may close.
    may_close: AtomicBool,
    // A flag wasn't set at any look.
    is_late: AtomicBool,
}

impl Flags {
    fn new() -> Flags {
        Flags {
            may_send: AtomicBool::new(false),
            zero_is_seen: AtomicBool::new(false),
            one_is_seen: AtomicBool::new(false),
            may_close: AtomicBool::new(false),
            is_late: AtomicBool::new(false),
        }
    }

    // Looks at one of them until it is set.
    fn wait(&self, flag: &AtomicBool) {
        for _ in 0..MOST_LOOKS {
            if flag.load(SeqCst) {
                return;
            }
            yield_now();
        }
        self.is_late.store(true, SeqCst);
    }

    // In front of a router's read.
    fn before_read(&self, lane: u32, has_sent: bool) {
        if !has_sent {
            self.wait(&self.may_send);
            return;
        }
        if lane == 0 {
            self.zero_is_seen.store(true, SeqCst);
        } else {
            self.one_is_seen.store(true, SeqCst);
        }
        self.wait(&self.may_close);
    }

    // In front of a read of the client, which has had so many lines.
    fn before_line(&self, lines: u32) {
        if lines == 1 {
            self.may_send.store(true, SeqCst);
            self.wait(&self.zero_is_seen);
            self.wait(&self.one_is_seen);
        } else if lines == 2 {
            self.may_close.store(true, SeqCst);
        }
    }
}

// A port whose router sends when the client was answered, and closes when it was answered again.
#[derive(Drop)]
struct Router<'a> {
    port: MemPort,
    flags: &'a Flags,
    lane: u32,
    has_sent: bool,
}

impl<'a> Port for Router<'a> {
    ghost aside = { λ r. r.port.shows };

    ghost calls = { λ r. r.port.reads };

    fn next_connection(&mut self) -> Result<bool, Failed> {
        self.port.next_connection()
    }

    fn read(&mut self, buf: &mut [u8]) -> Result<usize, Failed>
        requires some { 0 < length buf.old }
        requires size { length buf.old ≡ read_size self.old.port.shows.taken }
        requires is_open { IsTrue self.old.port.shows.is_open }
        ensures bound { ReadsAtMost result buf.new }
        ensures reads { Reads self.old.port.shows self.new.port.shows result buf.new }
        ensures planned { AsPlanned self.old.port.shows.plan self.old.port.reads self.new.port.reads result }
    {
        self.flags.before_read(self.lane, self.has_sent);
        self.has_sent = true;
        self.port.read(buf)
    }

    fn close(&mut self) {
        self.port.close();
    }

    fn told(&self) -> Told {
        Told::nothing()
    }

    fn ended(&mut self, _end: &Ended<'_>) {}
}

// A link whose client asks once in front of all messages, and again when both lanes have published theirs.
#[derive(Drop)]
struct Client<'a> {
    link: MemLink,
    flags: &'a Flags,
    lines: u32,
}

impl<'a> Sink for Client<'a> {
    ghost told = { λ c. Some c.link.written };

    ghost faults = { λ c. c.link.faults };

    ghost aside = { λ c. c.link.shows };

    fn write(&mut self, piece: &[u8]) -> Result<usize, Failed> {
        self.link.write(piece)
    }
}

impl<'a> Link for Client<'a> {
    ghost calls = { λ c. c.link.calls };

    fn next_connection(&mut self) -> Result<bool, Failed> {
        self.link.next_connection()
    }

    fn read(&mut self, buf: &mut [u8]) -> Result<usize, Failed> {
        self.flags.before_line(self.lines);
        self.lines = self.lines.saturating_add(1);
        self.link.read(buf)
    }

    fn close(&mut self) {
        self.link.close();
    }
}

// A yard in memory with such ports and links.
#[derive(Drop)]
struct Meeting<'a> {
    yard: Keeping,
    flags: &'a Flags,
}

impl<'a> Yard for Meeting<'a> {
    type Port = Router<'a>;

    type Link = Client<'a>;

    type Disk = MemDisk;

    type Ending = Ending<RouterTables>;

    ghost seen = { λ m. record { told = Some m.yard.tells; calls = m.yard.calls; listened = m.yard.listened; endings = m.yard.endings; last_ending = m.yard.ending } };

    ghost faults = { λ m. m.yard.faults };

    fn listen(&mut self, at: &Listening) -> Result<(), Failed> {
        self.yard.listen(at)
    }

    fn port(&mut self, lane: u32) -> Result<Router<'a>, Failed> {
        let flags = self.flags;
        match self.yard.port(lane) {
            Ok(port) => Ok(Router {
                port,
                flags,
                lane,
                has_sent: false,
            }),
            Err(failed) => Err(failed),
        }
    }

    fn link(&mut self, number: u32) -> Result<Client<'a>, Failed> {
        let flags = self.flags;
        match self.yard.link(number) {
            Ok(link) => Ok(Client {
                link,
                flags,
                lines: 0,
            }),
            Err(failed) => Err(failed),
        }
    }

    fn file(&mut self, alloc: Global, path: &str) -> Result<ByteList, FileFault> {
        self.yard.file(alloc, path)
    }

    fn disk(&mut self, path: &str) -> Result<MemDisk, Failed> {
        self.yard.disk(path)
    }

    fn take_port(&mut self, lane: u32, port: Router<'a>) {
        let Router { port, .. } = port;
        self.yard.take_port(lane, port);
    }

    fn take_link(&mut self, number: u32, link: Client<'a>) {
        let Client { link, .. } = link;
        self.yard.take_link(number, link);
    }

    fn take_disk(&mut self, path: &str, disk: MemDisk) {
        self.yard.take_disk(path, disk);
    }

    fn take_ending(&mut self, ending: Ending<RouterTables>) {
        self.yard.take_ending(ending);
    }
}

// A port with one connection of an Initiation.
fn port(alloc: Global) -> Option<MemPort>
    ensures { IfSome result IsUntouched }
{
    let connections = [bytes(alloc, &[INITIATION])?];
    MemPort::new(alloc, &connections, &[], &[]).ok()
}

// These ports and one such port more.
fn with_port(alloc: Global, mut ports: PortList) -> Option<PortList>
    requires { All IsUntouched ports }
    ensures { IfSome result (All IsUntouched) }
{
    let port = port(alloc)?;
    match ports.push(port) {
        Ok(()) => Some(ports),
        Err(_) => None,
    }
}

fn ports(alloc: Global) -> Option<PortList>
    ensures { IfSome result (All IsUntouched) }
{
    let one = with_port(alloc, PortList::new(alloc))?;
    with_port(alloc, one)
}

// A link with one connection of three lines, of which each read gives one.
fn links(alloc: Global) -> Option<LinkList>
    ensures { IfSome result (All IsIdle) }
{
    let mut lines = ByteList::new(alloc);
    lines.extend(b"cut\nrouters\nquit\n").ok()?;
    let link = MemLink::new(alloc, &[lines], &[4, 8, 5], 1000, &[]).ok()?;
    let mut links = LinkList::new(alloc);
    links.push(link).ok()?;
    Some(links)
}

fn yard<'a>(alloc: Global, flags: &'a Flags) -> Option<Meeting<'a>> {
    let ports = ports(alloc)?;
    let links = links(alloc)?;
    let yard: Keeping = MemYard::new(alloc, ports, links, &[]).ok()?;
    Some(Meeting { yard, flags })
}

const SERVE: &str = "serve --feeds=2 --askers=1 --feed-port=5000 --ask-port=6000 --rounds=1";

// The status and what was written, where two routers and a client meet.
fn served<'a, R: Threads + Wait + Sync>(
    rt: &R,
    alloc: Global,
    meeting: &mut Meeting<'a>,
) -> Option<(u8, MemSink)> {
    let words = words(alloc, SERVE)?;
    let mut out = MemSink::new(alloc, 64, &[]).ok()?;
    let status = station(rt, alloc, words.as_slice(), meeting, &mut out).code();
    Some((status, out))
}

const ROUTERS: &[u8] = b"at 4
router 0 live peers=0 messages=1 bytes=20 orphans=0 unread=0 mirrored=0 passed=0 name=r1 descr=test
router 1 live peers=0 messages=1 bytes=20 orphans=0 unread=0 mirrored=0 passed=0 name=r1 descr=test
end 2
";

// What the client may be told at first, as lanes have been opened or not.
const FIRST_CUTS: [&[u8]; 4] = [
    b"at 0\nlane 0 0\nlane 1 0\nend 2\n",
    b"at 1\nlane 0 1\nlane 1 0\nend 2\n",
    b"at 1\nlane 0 0\nlane 1 1\nend 2\n",
    b"at 2\nlane 0 1\nlane 1 1\nend 2\n",
];

// Whether the call ended well, no reply shows a message before both lanes published theirs, and the reply after that shows
// both.
fn is_met(flags: &Flags, status: u8, out: &MemSink, yard: &Keeping) -> bool {
    let written = yard.written(0);
    let first = written.len().saturating_sub(ROUTERS.len());
    status == 0
        && !flags.is_late.load(SeqCst)
        && out.taken() == b"ready\ndone 6\n".as_slice()
        && written.ends_with(ROUTERS)
        && FIRST_CUTS.contains(&written.get(..first).unwrap_or(&[]))
}

fn meet<'a, R: Threads + Wait + Sync>(rt: &R, alloc: Global, flags: &'a Flags) -> Option<bool> {
    let mut meeting = yard(alloc, flags)?;
    let (status, out) = served(rt, alloc, &mut meeting)?;
    Some(is_met(flags, status, &out, &meeting.yard))
}

#[test]
fn two_lanes_meet(rt: HostRuntime) -> Result<(), Fail> {
    let flags = Flags::new();
    assert!(rt; meet(&rt, rt.alloc(), &flags) == Some(true));
    Ok(())
}
