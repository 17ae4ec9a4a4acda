ghost use Rattle.std.specs.Prelude.{◌≡◌, ◌≤◌, [], None, Some, true, length, take, IfNone, IfOk, IfSome, OnErr, IsTrue};
ghost use Rattle.std.specs.Io.KnownBytes.{ReadConsumes};
ghost use Rattle.station_doors.specs.Counts.{rest_of};
ghost use Rattle.station_doors.specs.Doors.{Opens, Closes};
ghost use Rattle.station_doors.specs.Told.{IsEndpointOf, KeepsOpening, untold};

use crate::counts::Counts;
use crate::log::PlaceLog;
use crate::peer_lines::PeerLines;
use crate::sockets::{accept_next, read_stream};
use crate::told::known_endpoint;
use crate::{Allowed, Ended, PeerChange, Port, Told};
use ip_prefix::ShortText;
use std::io::{self, Read};
use std::net::{SocketAddr, TcpListener, TcpStream};
use std::sync::{Arc, Wait};
use std::thread::sleep;
use std::time::{Clock, Duration};
use wire_io::Failed;

/// A port over a reader, which has one connection, or over a listener, which has one after another. Over a reader it
/// tells what the reader tells, over a listener nothing of content. A reader that has nothing yet is waited for, also where
/// its reads don't wait. A connection of a listener that says nothing for `idle` seconds is a fault of the read that waits;
/// one from elsewhere than it may come from isn't taken. It says in the log of its yard what comes and goes. Over a listener
/// it tells from where a connection came, when it was taken and when it was closed; over a reader nothing of that.
#[derive(Drop)]
pub struct HostPort<'a, R, N> {
    clock: &'a N,
    input: Option<R>,
    listener: Option<Arc<TcpListener>>,
    idle: Option<u32>,
    allowed: Allowed,
    stream: Option<TcpStream>,
    counts: Counts,
    // Why the last read of the present connection failed, where it did.
    reason: Option<io::Error>,
    // Where the present connection comes from, or the last one came from.
    from: Option<SocketAddr>,
    // What is told of it.
    told: Told,
    // The first octets of what is no message in the present connection, where it broke.
    octets: ShortText,
    peers: PeerLines,
    log: PlaceLog<'a>,
}

impl<'a, R: Drop, N: Clock> HostPort<'a, R, N> {
    // A port over one of these, of which no call was made.
    pub(crate) fn over(
        clock: &'a N,
        input: Option<R>,
        listener: Option<Arc<TcpListener>>,
        idle: Option<u32>,
        allowed: Allowed,
        log: PlaceLog<'a>,
    ) -> HostPort<'a, R, N>
        ensures input { result.input ≡ input }
        ensures listener { result.listener ≡ listener }
        ensures rules { (result.idle ≡ idle) × (result.allowed ≡ allowed) }
        ensures told { result.told ≡ untold }
    {
        HostPort {
            clock,
            input,
            listener,
            idle,
            allowed,
            stream: None,
            counts: Counts::new(),
            reason: None,
            from: None,
            told: Told::nothing(),
            octets: ShortText::new(),
            peers: PeerLines::new(),
            log,
        }
    }

    // Why the last read that failed did so.
    pub(crate) fn into_reason(self) -> Option<io::Error> {
        self.reason
    }
}

// The most octets of a stream that broke which its log has.
const MOST_OCTETS: usize = 64;

// The first octets of these, 64 at most.
fn first_of(octets: &[u8]) -> &[u8]
    ensures short { length result.now ≤ 64 }
    ensures first { result.now ≡ take 64 octets.now }
{
    if octets.len() <= MOST_OCTETS {
        octets
    } else {
        &octets[..MOST_OCTETS]
    }
}

// The connection that comes next: true with one, false where there is none. None where that failed.
fn come<N: Clock + Wait>(
    clock: &N,
    idle: Option<u32>,
    allowed: &Allowed,
    log: &PlaceLog<'_>,
    listener: &Option<Arc<TcpListener>>,
    stream: &mut Option<TcpStream>,
    is_first: bool,
) -> Option<bool> {
    if is_first {
        log.begun();
    }
    match listener {
        Some(listener) => {
            let listener: &TcpListener = listener;
            *stream = accept_next(clock, listener, idle, allowed, log);
            if stream.is_some() { Some(true) } else { None }
        }
        None => Some(is_first),
    }
}

// The time of the clock, in seconds since 1970. None where it can't be read, or stands before that.
fn now_of<N: Clock>(clock: &N) -> Option<u64> {
    match clock.since_1970() {
        Ok(time) => Some(time.as_secs()),
        Err(_) => None,
    }
}

// What is told after the next connection was asked for: of one that a listener gave, that it came now, and from where;
// otherwise what was told before.
fn told_next<N: Clock>(
    clock: &N,
    listener: &Option<Arc<TcpListener>>,
    came: Option<bool>,
    from: &Option<SocketAddr>,
    told: Told,
) -> Told
    ensures reader { IfNone listener.now (result ≡ told) }
    ensures opened { IfSome listener.now (λ _. came ≡ Some true → IsEndpointOf from.now result.from × (result.until ≡ None)) }
    ensures none { (came ≡ Some true → ⊥) → result ≡ told }
{
    match (listener, came) {
        (Some(_), Some(true)) => Told {
            from: known_endpoint(from),
            since: now_of(clock),
            until: None,
        },
        _ => told,
    }
}

// What is told after the connection was closed: of one that a listener gave, that it was closed now.
fn told_closed<N: Clock>(clock: &N, listener: &Option<Arc<TcpListener>>, told: Told) -> Told
    ensures keeps { KeepsOpening told result }
    ensures reader { IfNone listener.now (result ≡ told) }
{
    match listener {
        Some(_) => Told {
            from: told.from,
            since: told.since,
            until: now_of(clock),
        },
        None => told,
    }
}

// How long an input that has nothing yet is left alone before it is read again, in thousandths of a second: the first time,
// and at most.
const FIRST_PAUSE: u64 = 1;

const LONGEST_PAUSE: u64 = 64;

// Reads from the input. One that has nothing yet, and whose reads don't wait, is read again after a pause, each twice as
// long as the one before. Why the input failed is kept.
fn read_input<R: Read, N: Clock>(
    clock: &N,
    input: &mut R,
    buf: &mut [u8],
    reason: &mut Option<io::Error>,
) -> Result<usize, Failed>
    ensures bound { IfOk result (λ n. n ≤ length buf.new) }
    ensures rest { ReadConsumes (R.remaining input.old) (R.remaining input.new) result buf.new }
{
    let mut pause = FIRST_PAUSE;
    'reads: for _ in 0..u64::MAX {
        match input.read(buf) {
            Ok(count) => return Ok(count),
            Err(error) => {
                if error.kind() != io::ErrorKind::WouldBlock {
                    *reason = Some(error);
                    return Err(Failed);
                }
            }
        }
        sleep(clock, Duration::from_millis(pause));
        pause = pause.saturating_mul(2).min(LONGEST_PAUSE);
    }
    Err(Failed)
}

// Reads from the input, or else from the stream. It fails too where there is neither. Why that failed is kept.
fn read_from<R: Read, N: Clock>(
    clock: &N,
    input: &mut Option<R>,
    stream: &mut Option<TcpStream>,
    buf: &mut [u8],
    reason: &mut Option<io::Error>,
) -> Result<usize, Failed>
    ensures bound { IfOk result (λ n. n ≤ length buf.new) }
    ensures rest { ReadConsumes (rest_of R.remaining input.old) (rest_of R.remaining input.new) result buf.new }
{
    if let Some(input) = input {
        return read_input(clock, input, buf, reason);
    }
    match stream {
        Some(stream) => match read_stream(stream, buf) {
            Ok(count) => Ok(count),
            Err(error) => {
                *reason = Some(error);
                Err(Failed)
            }
        },
        None => Err(Failed),
    }
}

impl<'a, R: Read + Drop, N: Clock + Wait + Sync> Port for HostPort<'a, R, N> {
    ghost aside = { λ p. record p.counts { rest = rest_of R.remaining p.input } };

    ghost tells = { λ p. p.told };

    fn next_connection(&mut self) -> Result<bool, Failed>
        ensures opens { Opens (record self.old.counts { rest = rest_of R.remaining self.old.input }) (record self.new.counts { rest = rest_of R.remaining self.new.input }) result }
        ensures planned { IfSome self.old.counts.plan (λ plan. OnErr result (plan.fails ≡ [] → ⊥)) }
        ensures input { self.new.input ≡ self.old.input }
        ensures reader { IfNone self.old.listener (self.new.told ≡ self.old.told) }
    {
        let is_first = self.counts.is_unused();
        let came = come(
            self.clock,
            self.idle,
            &self.allowed,
            &self.log,
            &self.listener,
            &mut self.stream,
            is_first,
        );
        self.reason = None;
        self.octets = ShortText::new();
        self.from = match &self.stream {
            Some(stream) => stream.peer_addr().ok(),
            None => None,
        };
        if self.stream.is_some() {
            self.log.connected(self.clock, self.from);
        }
        self.told = told_next(self.clock, &self.listener, came, &self.from, self.told);
        self.counts.open(came)
    }

    fn read(&mut self, buf: &mut [u8]) -> Result<usize, Failed> {
        let came = read_from(
            self.clock,
            &mut self.input,
            &mut self.stream,
            buf,
            &mut self.reason,
        );
        self.peers.catch_up(self.clock, &self.log, self.from);
        self.counts.read(came)
    }

    fn close(&mut self)
        requires { IsTrue self.old.counts.is_open }
        ensures closes { Closes (record self.old.counts { rest = rest_of R.remaining self.old.input }) (record self.new.counts { rest = rest_of R.remaining self.new.input }) }
        ensures input { self.new.input ≡ self.old.input }
        ensures tells { KeepsOpening self.old.told self.new.told }
        ensures reader { IfNone self.old.listener (self.new.told ≡ self.old.told) }
    {
        self.peers.end(self.clock, &self.log, self.from);
        self.stream = None;
        self.told = told_closed(self.clock, &self.listener, self.told);
        self.counts.close();
    }

    fn told(&self) -> Told {
        self.told
    }

    fn peer(&mut self, change: &PeerChange<'_>)
        ensures counts { self.new.counts ≡ self.old.counts }
        ensures input { self.new.input ≡ self.old.input }
        ensures told { self.new.told ≡ self.old.told }
    {
        self.peers.say(self.clock, &self.log, self.from, change);
    }

    fn broke(&mut self, octets: &[u8])
        ensures counts { self.new.counts ≡ self.old.counts }
        ensures input { self.new.input ≡ self.old.input }
        ensures told { self.new.told ≡ self.old.told }
    {
        let mut first = ShortText::new();
        first.extend(first_of(octets));
        self.octets = first;
    }

    fn ended(&mut self, end: &Ended<'_>)
        ensures same { self.new ≡ self.old }
    {
        let error = self.reason.as_ref();
        let octets = self.octets.as_slice();
        self.log
            .ended(self.clock, self.from, end, octets, error, self.idle);
    }
}
