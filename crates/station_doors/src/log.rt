//! What a real yard says of its connections, a line each. What is said changes nothing that contracts see.

use crate::line::Line;
use crate::lines::Lines;
use crate::{Ended, PeerChange};
use bmp_frames::PeerKey;
use bmp_specs::{Cause, Why};
use std::fmt;
use std::fmt::{Display, Formatter, Write as _};
use std::io::{self, ErrorKind};
use std::net::SocketAddr;
use std::sync::Wait;
use std::time::Clock;

// Whose place a port or a link is.
#[derive(Clone, Copy)]
pub(crate) enum Place {
    Lane(u32),
    Client(u32),
}

impl Display for Place {
    fn fmt<W: fmt::Write>(&self, f: &mut Formatter<W>) -> fmt::Result {
        match *self {
            Place::Lane(number) => write!(f, "lane={number}"),
            Place::Client(number) => write!(f, "client={number}"),
        }
    }
}

// Where a connection comes from, where the system still knows it.
#[derive(Drop)]
struct Address(Option<SocketAddr>);

impl Display for Address {
    fn fmt<W: fmt::Write>(&self, f: &mut Formatter<W>) -> fmt::Result {
        match self.0 {
            Some(from) => write!(f, "from={from}"),
            None => f.write_str("from=-"),
        }
    }
}

// The first octets of what is no message, in hexadecimal.
#[derive(Drop)]
struct Octets<'a>(&'a [u8]);

impl Display for Octets<'_> {
    fn fmt<W: fmt::Write>(&self, f: &mut Formatter<W>) -> fmt::Result {
        for octet in self.0 {
            let octet = *octet;
            write!(f, "{octet:02x}")?;
        }
        Ok(())
    }
}

// Why a connection ended, in the words of the replies. Where it broke these are the first octets of what is no message.
#[derive(Drop)]
struct Because<'a> {
    cause: Option<Cause>,
    octets: &'a [u8],
}

fn why_word(why: Why) -> &'static str {
    match why {
        Why::Version => "version",
        Why::Length => "length",
        Why::Body => "body",
    }
}

impl Display for Because<'_> {
    fn fmt<W: fmt::Write>(&self, f: &mut Formatter<W>) -> fmt::Result {
        match self.cause {
            None => f.write_str("cause=memory"),
            Some(Cause::Ended) => f.write_str("cause=ended"),
            Some(Cause::Terminated) => f.write_str("cause=terminated"),
            Some(Cause::Full) => f.write_str("cause=full"),
            Some(Cause::CutShort { offset }) => write!(f, "cause=cutshort offset={offset}"),
            Some(Cause::ReadFault { offset }) => write!(f, "cause=readfault offset={offset}"),
            Some(Cause::Broken { offset, why }) => {
                write!(
                    f,
                    "cause=broken offset={offset} why={} octets={}",
                    why_word(why),
                    Octets(self.octets)
                )
            }
        }
    }
}

// The most bytes of a name that a line has.
const MOST_NAME: usize = 64;

// A router's name. What is no printable ASCII, a quote or a backslash is written in hexadecimal.
#[derive(Drop)]
struct Name<'a>(&'a [u8]);

impl Display for Name<'_> {
    fn fmt<W: fmt::Write>(&self, f: &mut Formatter<W>) -> fmt::Result {
        f.write_str("\"")?;
        for byte in self.0.iter().take(MOST_NAME) {
            let byte = *byte;
            if (32..127).contains(&byte) && byte != b'"' && byte != b'\\' {
                f.write_char(byte as char)?;
            } else {
                write!(f, "\\x{byte:02x}")?;
            }
        }
        f.write_str("\"")
    }
}

// A peer, as the replies name it.
#[derive(Drop)]
struct Peer(PeerKey);

impl Display for Peer {
    fn fmt<W: fmt::Write>(&self, f: &mut Formatter<W>) -> fmt::Result {
        f.write_str("peer=")?;
        let text = self.0.text();
        for byte in text.as_slice() {
            f.write_char(*byte as char)?;
        }
        Ok(())
    }
}

// Why a read failed, where one did: its connection was silent for so long, or what the system said.
#[derive(Drop)]
struct Reason<'a> {
    error: Option<&'a io::Error>,
    idle: Option<u32>,
}

impl Display for Reason<'_> {
    fn fmt<W: fmt::Write>(&self, f: &mut Formatter<W>) -> fmt::Result {
        let Some(error) = self.error else {
            return Ok(());
        };
        match (error.kind(), self.idle) {
            (ErrorKind::WouldBlock | ErrorKind::TimedOut, Some(seconds)) => {
                write!(f, " reason=\"silent for {seconds} s\"")
            }
            _ => write!(f, " reason=\"{error}\""),
        }
    }
}

// Where the routers and the clients of a station connect to.
#[derive(Drop)]
pub(crate) struct Places {
    pub(crate) routers: SocketAddr,
    pub(crate) lanes: u32,
    pub(crate) clients: SocketAddr,
    pub(crate) places: u32,
    pub(crate) shared: bool,
}

// Says where a station listens.
pub(crate) fn say_listening<R: Wait>(rt: &R, lines: &Lines, at: &Places) {
    let ports = if at.shared { "shared" } else { "each" };
    let mut line = Line::new();
    let _ = write!(
        line,
        "level=info event=listening routers={} lanes={} clients={} places={} ports={ports}",
        at.routers, at.lanes, at.clients, at.places
    );
    lines.say(rt, line);
}

// What one place says in the log of its yard, where that has one.
#[derive(Clone, Copy)]
pub(crate) struct PlaceLog<'a> {
    pub(crate) lines: Option<&'a Lines>,
    pub(crate) place: Place,
    // Its connections are said too, and not only what needs somebody.
    pub(crate) says_all: bool,
}

// Says how many places have no thread, where there are such.
fn say_lacking<R: Clock + Wait>(rt: &R, lines: &Lines) {
    if let Some((places, begun)) = lines.lacking(rt) {
        let mut line = Line::new();
        let _ = write!(
            line,
            "level=warning event=unserved count={} places={places} reason=\"the system gives no further thread\"",
            places.saturating_sub(begun)
        );
        lines.say(rt, line);
    }
}

impl<'a> PlaceLog<'a> {
    // It begins to be served.
    pub(crate) fn begun(&self) {
        if let Some(lines) = self.lines {
            lines.begin();
        }
    }

    // A connection was taken.
    pub(crate) fn connected<R: Clock + Wait>(&self, rt: &R, from: Option<SocketAddr>) {
        if let Some(lines) = self.lines {
            say_lacking(rt, lines);
        }
        if let Some(lines) = self.lines
            && self.says_all
        {
            let mut line = Line::new();
            let _ = write!(
                line,
                "level=info {} {} event=connected",
                self.place,
                Address(from)
            );
            lines.say(rt, line);
        }
    }

    // A connection from where none may come was closed unread, the so manieth since one was taken.
    pub(crate) fn refused<R: Wait>(&self, rt: &R, from: Option<SocketAddr>, count: u32) {
        if let Some(lines) = self.lines
            && self.says_all
        {
            let mut line = Line::new();
            let _ = write!(
                line,
                "level=warning {} {} event=refused count={count}",
                self.place,
                Address(from)
            );
            lines.say(rt, line);
        }
    }

    // A peer of the router went up or down.
    pub(crate) fn peer<R: Wait>(&self, rt: &R, from: Option<SocketAddr>, change: &PeerChange<'_>) {
        if let Some(lines) = self.lines
            && self.says_all
        {
            let mut line = Line::new();
            let _ = match *change {
                PeerChange::Up { key, asn } => write!(
                    line,
                    "level=info {} {} event=peer-up {} asn={asn}",
                    self.place,
                    Address(from),
                    Peer(key)
                ),
                PeerChange::Down { key, code, reason } => write!(
                    line,
                    "level=warning {} {} event=peer-down {} code={code} reason={reason}",
                    self.place,
                    Address(from),
                    Peer(key)
                ),
            };
            lines.say(rt, line);
        }
    }

    // So many changes of the router's peers have no line.
    pub(crate) fn unsaid<R: Wait>(&self, rt: &R, from: Option<SocketAddr>, count: u64) {
        if let Some(lines) = self.lines
            && self.says_all
        {
            let mut line = Line::new();
            let _ = write!(
                line,
                "level=warning {} {} event=peers-unsaid count={count}",
                self.place,
                Address(from)
            );
            lines.say(rt, line);
        }
    }

    // The connection of a router was closed. Of a stream that broke these are the first octets of what is no message. Why its
    // last read failed is said where it did.
    pub(crate) fn ended<R: Wait>(
        &self,
        rt: &R,
        from: Option<SocketAddr>,
        end: &Ended<'_>,
        octets: &[u8],
        error: Option<&io::Error>,
        idle: Option<u32>,
    ) {
        if let Some(lines) = self.lines
            && self.says_all
        {
            let level = match end.cause {
                Some(Cause::Ended | Cause::Terminated) => "info",
                _ => "warning",
            };
            let mut line = Line::new();
            let _ = write!(
                line,
                "level={level} {} {} event=closed {}{} messages={} bytes={} name={}",
                self.place,
                Address(from),
                Because {
                    cause: end.cause,
                    octets
                },
                Reason { error, idle },
                end.messages,
                end.bytes,
                Name(end.name)
            );
            lines.say(rt, line);
        }
        if end.cause.is_none() {
            self.stopped(rt, "out of memory");
        }
    }

    // The connection of a client was closed.
    pub(crate) fn left<R: Wait>(&self, rt: &R, from: Option<SocketAddr>, bytes: u64) {
        if let Some(lines) = self.lines
            && self.says_all
        {
            let mut line = Line::new();
            let _ = write!(
                line,
                "level=info {} {} event=closed bytes={bytes}",
                self.place,
                Address(from)
            );
            lines.say(rt, line);
        }
    }

    // It takes no further connection.
    pub(crate) fn stopped<R: Wait, D: Display + Drop>(&self, rt: &R, reason: D) {
        if let Some(lines) = self.lines {
            let mut line = Line::new();
            let _ = write!(
                line,
                "level=error {} event=stopped reason=\"{reason}\"",
                self.place
            );
            lines.say(rt, line);
        }
    }

    // The system has no room for a connection, or has it again.
    pub(crate) fn waiting<R: Wait>(&self, rt: &R, reason: &'static str) {
        if let Some(lines) = self.lines {
            let mut line = Line::new();
            let _ = write!(
                line,
                "level=warning {} event=waiting reason=\"{reason}\"",
                self.place
            );
            lines.say(rt, line);
        }
    }
}
