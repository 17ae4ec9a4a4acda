ghost use Rattle.std.specs.Prelude.{◌≡◌, ◌+◌, ◌-◌, ◌^◌, ◌<◌, ◌≤◌, None, min, length, IfOk, IfSome, OnErr};
ghost use Rattle.std.specs.Io.KnownBytes.{WriteAppends};
ghost use Rattle.wire_io.specs.Faults.{HasCause};

use crate::counts::Counts;
use crate::log::PlaceLog;
use crate::sockets::{accept_next, read_stream, write_stream};
use crate::{Allowed, Link};
use std::net::{SocketAddr, TcpListener, TcpStream};
use std::sync::{Arc, Wait};
use std::time::Clock;
use wire_io::{Failed, Sink};

/// A link over a listener. It tells nothing of content. A write to a client that went away is a fault, as any
/// other write that fails, and a read or a write that waits for more than `idle` seconds. A connection from elsewhere than it
/// may come from isn't taken. It says in the log of its yard what comes and goes.
#[derive(Drop)]
pub struct HostLink<'a, N> {
    clock: &'a N,
    listener: Arc<TcpListener>,
    idle: Option<u32>,
    allowed: Allowed,
    stream: Option<TcpStream>,
    counts: Counts,
    faults: u64,
    // Where the present connection comes from, or the last one came from.
    from: Option<SocketAddr>,
    log: PlaceLog<'a>,
}

impl<'a, N: Clock> HostLink<'a, N> {
    // A link over this listener, of which no call was made.
    pub(crate) fn over(
        clock: &'a N,
        listener: Arc<TcpListener>,
        idle: Option<u32>,
        allowed: Allowed,
        log: PlaceLog<'a>,
    ) -> HostLink<'a, N>
        ensures listener { result.listener ≡ listener }
        ensures rules { (result.idle ≡ idle) × (result.allowed ≡ allowed) }
        ensures calm { result.faults ≡ 0 }
    {
        HostLink {
            clock,
            listener,
            idle,
            allowed,
            stream: None,
            counts: Counts::new(),
            faults: 0,
            from: None,
            log,
        }
    }
}

// The connection that comes next. None where that failed.
fn come<N: Clock + Wait>(
    clock: &N,
    listener: &Arc<TcpListener>,
    idle: Option<u32>,
    allowed: &Allowed,
    log: &PlaceLog<'_>,
    is_first: bool,
) -> Option<TcpStream> {
    if is_first {
        log.begun();
    }
    let listener: &TcpListener = listener;
    accept_next(clock, listener, idle, allowed, log)
}

// Reads from the stream. It fails too where there is none.
fn read_from(stream: &mut Option<TcpStream>, buf: &mut [u8]) -> Result<usize, Failed>
    ensures { IfOk result (λ n. n ≤ length buf.new) }
{
    match stream {
        Some(stream) => read_stream(stream, buf).map_err(|_| Failed),
        None => Err(Failed),
    }
}

// Writes to the stream. None where that failed, took nothing, or there is none.
fn write_to(stream: &mut Option<TcpStream>, piece: &[u8]) -> Option<usize>
    ensures { IfSome result (λ n. (0 < n) × (n ≤ length piece.now)) }
{
    match stream {
        Some(stream) => write_stream(stream, piece),
        None => None,
    }
}

impl<'a, N: Clock> Sink for HostLink<'a, N> {
    ghost faults = { λ k. k.faults };

    ghost aside = { λ k. k.counts };

    fn write(&mut self, piece: &[u8]) -> Result<usize, Failed>
        requires { 0 < length piece.now }
        ensures some { IfOk result (λ n. 0 < n) }
        ensures bound { IfOk result (λ n. n ≤ length piece.now) }
        ensures told { WriteAppends None None result piece.now }
        ensures aside { self.new.counts ≡ self.old.counts }
        ensures counted { OnErr result (self.new.faults ≡ min (self.old.faults + 1) (2 ^ 64 - 1)) }
        ensures cause { HasCause self.old.faults self.new.faults result }
    {
        match write_to(&mut self.stream, piece) {
            Some(count) => Ok(count),
            None => {
                self.faults = self.faults.saturating_add(1);
                Err(Failed)
            }
        }
    }
}

impl<'a, N: Clock + Wait + Sync> Link for HostLink<'a, N> {
    fn next_connection(&mut self) -> Result<bool, Failed> {
        let is_first = self.counts.is_unused();
        self.stream = come(
            self.clock,
            &self.listener,
            self.idle,
            &self.allowed,
            &self.log,
            is_first,
        );
        self.from = match &self.stream {
            Some(stream) => stream.peer_addr().ok(),
            None => None,
        };
        if self.stream.is_some() {
            self.log.connected(self.clock, self.from);
        }
        let came = if self.stream.is_some() {
            Some(true)
        } else {
            None
        };
        self.counts.open(came)
    }

    fn read(&mut self, buf: &mut [u8]) -> Result<usize, Failed> {
        let came = read_from(&mut self.stream, buf);
        self.counts.read(came)
    }

    fn close(&mut self) {
        self.log.left(self.clock, self.from, self.counts.taken());
        self.stream = None;
        self.counts.close();
    }
}
