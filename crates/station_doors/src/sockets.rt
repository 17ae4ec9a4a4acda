ghost use Rattle.std.specs.Prelude.{◌≡◌, ◌<◌, ◌≤◌, Some, length, slice_get, Contains, IfOk, IfSome, IsSomeAnd, IsTrue};
ghost use Rattle.std.specs.IoError.{raw_os_error};
ghost use Rattle.station_doors.specs.Accepting.{ended, unreachable, of_protocol, crowded, IsLost};

use crate::log::PlaceLog;
use crate::{Allowed, HostFault};
use ip_prefix::{Addr, Family};
use std::alloc::Global;
use std::io::{self, ErrorKind, Read, Write};
use std::net::{IpAddr, Net, SocketAddr, TcpListener, TcpStream};
use std::sync::{Arc, Wait};
use std::thread::sleep;
use std::time::{Clock, Duration};

/// The most routers, and the most clients, that are listened for.
pub const MOST_PLACES: u32 = 1024;

// The address as the network takes it.
pub(crate) fn ip_of(address: &Addr) -> IpAddr {
    let octets = address.octets();
    match address.family() {
        Family::V4 => IpAddr::from([octets[0], octets[1], octets[2], octets[3]]),
        Family::V6 => IpAddr::from(octets),
    }
}

// The listener of this number: at the port so far after the first one, or, where they share that port, the one that number 0
// has.
fn listener_of<N: Net<Listener = TcpListener, Stream = TcpStream>>(
    net: &N,
    alloc: Global,
    address: &Addr,
    first: u16,
    number: u32,
    shared: bool,
    places: &[Option<Arc<TcpListener>>],
) -> Result<Arc<TcpListener>, HostFault> {
    let port = if shared {
        first as u64
    } else {
        first as u64 + number as u64
    };
    if port > 65_535 {
        return Err(no_port(None, ErrorKind::InvalidInput.into()));
    }
    if shared {
        if let Some(Some(listener)) = places.first() {
            return Arc::try_clone(listener).map_err(|_| no_port(
                None,
                ErrorKind::OutOfMemory.into(),
            ));
        }
    }
    let at = SocketAddr::new(ip_of(address), port as u16);
    let listener = net.bind(at).map_err(|error| no_port(Some(at), error))?;
    Arc::new(alloc, listener).map_err(|_| no_port(None, ErrorKind::OutOfMemory.into()))
}

fn no_port(port: Option<SocketAddr>, error: io::Error) -> HostFault {
    HostFault { port, error }
}

// Listens for so many, each of which has a place: at the ports from the first one on, each by a listener of its own, or at the
// first one alone, all by one listener. It fails where one of them can't be had.
pub(crate) fn listen_at<N: Net<Listener = TcpListener, Stream = TcpStream>>(
    net: &N,
    address: &Addr,
    first: u16,
    count: u32,
    shared: bool,
    places: &mut Vec<Option<Arc<TcpListener>>>,
) -> Result<(), HostFault> {
    places.clear();
    let alloc = *places.allocator();
    if count > MOST_PLACES {
        return Err(no_port(None, ErrorKind::InvalidInput.into()));
    }
    for number in 0..count {
        let listener = listener_of(
            net,
            alloc,
            address,
            first,
            number,
            shared,
            places.as_slice(),
        )?;
        if places.push(Some(listener)).is_err() {
            return Err(no_port(None, ErrorKind::OutOfMemory.into()));
        }
    }
    Ok(())
}

// Takes the listener of this number out of its place.
pub(crate) fn take_listener(
    places: &mut Vec<Option<Arc<TcpListener>>>,
    number: u32,
) -> Option<Arc<TcpListener>>
    ensures { IfSome result (λ l. slice_get places.old.items number ≡ Some (Some l)) }
{
    match places.get_mut(number as usize) {
        Some(place) => place.take(),
        None => None,
    }
}

// What accept(2) says on Linux. The connection ended before it was taken, or the call was broken off.
const EINTR: i32 = 4;

const ECONNABORTED: i32 = 103;

const ECONNRESET: i32 = 104;

const ETIMEDOUT: i32 = 110;

// It can't be reached any more.
const ENETDOWN: i32 = 100;

const ENETUNREACH: i32 = 101;

const EHOSTDOWN: i32 = 112;

const EHOSTUNREACH: i32 = 113;

// Its protocol had a fault.
const ENONET: i32 = 64;

const EPROTO: i32 = 71;

const ENOPROTOOPT: i32 = 92;

const EOPNOTSUPP: i32 = 95;

// There is no room for a further connection: no memory, too many open files of the system or of this process, no buffer
// space.
const ENOMEM: i32 = 12;

const ENFILE: i32 = 23;

const EMFILE: i32 = 24;

const ENOBUFS: i32 = 105;

fn is_ended(code: i32) -> bool
    ensures { Contains ended code → IsTrue result }
{
    match code {
        EINTR | ECONNABORTED | ECONNRESET | ETIMEDOUT => true,
        _ => false,
    }
}

fn is_unreachable(code: i32) -> bool
    ensures { Contains unreachable code → IsTrue result }
{
    match code {
        ENETDOWN | ENETUNREACH | EHOSTDOWN | EHOSTUNREACH => true,
        _ => false,
    }
}

fn is_of_protocol(code: i32) -> bool
    ensures { Contains of_protocol code → IsTrue result }
{
    match code {
        ENONET | EPROTO | ENOPROTOOPT | EOPNOTSUPP => true,
        _ => false,
    }
}

fn is_crowded(code: i32) -> bool
    ensures { Contains crowded code → IsTrue result }
{
    match code {
        ENOMEM | ENFILE | EMFILE | ENOBUFS => true,
        _ => false,
    }
}

// What is done after a connection couldn't be taken.
#[derive(Clone, Copy, Debug, PartialEq, Eq)]
enum AfterFault {
    // The next one is taken: this one alone was lost, or the call was broken off.
    Next,
    // It is asked again a while later: the system has no room for a further connection now.
    Later,
    // The listener is given up.
    Never,
}

// What is done after this error number.
fn after_code(code: i32) -> AfterFault
    ensures next { IsLost code → result ≡ AfterFault.Next }
    ensures crowded { Contains crowded code → result ≡ AfterFault.Never → ⊥ }
{
    if is_ended(code) {
        return AfterFault::Next;
    }
    if is_unreachable(code) {
        return AfterFault::Next;
    }
    if is_of_protocol(code) {
        return AfterFault::Next;
    }
    if is_crowded(code) {
        AfterFault::Later
    } else {
        AfterFault::Never
    }
}

// What is done after this error. One that isn't the system's ends it.
fn after_fault(error: &io::Error) -> AfterFault
    ensures next { IsSomeAnd (raw_os_error error.now) IsLost → result ≡ AfterFault.Next }
    ensures crowded { IsSomeAnd (raw_os_error error.now) (Contains crowded) → result ≡ AfterFault.Never → ⊥ }
{
    match error.raw_os_error() {
        Some(code) => after_code(code),
        None => AfterFault::Never,
    }
}

// Bounds how long each read and each write of the stream waits, and lets its writes go out at once.
fn prepare(stream: &TcpStream, idle: Option<u32>) -> io::Result<()> {
    let time = idle.map(|seconds| Duration::from_secs(seconds as u64));
    stream.set_read_timeout(time)?;
    stream.set_write_timeout(time)?;
    stream.set_nodelay(true)
}

// Whether the stream comes from where it may. Where it matters, one whose other end is gone already comes from nowhere.
fn may_come(stream: &TcpStream, allowed: &Allowed) -> bool {
    if allowed.is_anywhere() {
        return true;
    }
    match stream.peer_addr() {
        Ok(from) => allowed.allows(&from.ip()),
        Err(_) => false,
    }
}

// Waits for the next connection, whose reads and writes then wait for `idle` seconds at most. One that is lost before it
// is ready is passed over, and one from elsewhere than `allowed` is closed before a byte of it is read: the log says so of the
// first such one, the second, the fourth and so on. Where the system has no room for a connection it is asked again a second
// later: the log says when that begins and when it is over. None where that failed for another cause, which the log says too;
// `after_fault` says which is which.
pub(crate) fn accept_next<C: Clock + Wait>(
    clock: &C,
    listener: &TcpListener,
    idle: Option<u32>,
    allowed: &Allowed,
    log: &PlaceLog<'_>,
) -> Option<TcpStream> {
    let mut is_waiting = false;
    let mut refused = 0u32;
    for stream in listener.incoming() {
        match stream {
            Ok(stream) => {
                if is_waiting {
                    is_waiting = false;
                    log.waiting(clock, "there is room again");
                }
                if !may_come(&stream, allowed) {
                    refused = u32::saturating_add(refused, 1);
                    if refused.is_power_of_two() {
                        log.refused(clock, stream.peer_addr().ok(), refused);
                    }
                    continue;
                }
                if prepare(&stream, idle).is_ok() {
                    return Some(stream);
                }
            }
            Err(error) => match after_fault(&error) {
                AfterFault::Next => {}
                AfterFault::Later => {
                    if !is_waiting {
                        is_waiting = true;
                        log.waiting(clock, crowd_text(&error));
                    }
                    sleep(clock, Duration::from_secs(1));
                }
                AfterFault::Never => {
                    log.stopped(clock, &error);
                    return None;
                }
            },
        }
    }
    None
}

// What there is no room for.
fn crowd_text(error: &io::Error) -> &'static str {
    match error.raw_os_error() {
        Some(EMFILE) => "too many open files",
        Some(ENFILE) => "too many open files of the system",
        _ => "no memory for a connection",
    }
}

// The most times that a read or a write is made which signals break off. Each waits anew for all of its seconds.
const MOST_TRIES: u32 = 1_000_000;

// Reads from the stream. A read that a signal broke off is made again.
pub(crate) fn read_stream(stream: &mut TcpStream, buf: &mut [u8]) -> io::Result<usize>
    ensures { IfOk result (λ n. n ≤ length buf.new) }
{
    for _ in 0..MOST_TRIES {
        match stream.read(buf) {
            Ok(count) => return Ok(count),
            Err(error) => {
                if error.kind() != ErrorKind::Interrupted {
                    return Err(error);
                }
            }
        }
    }
    Err(ErrorKind::Interrupted.into())
}

// Writes to the stream. A write that a signal broke off is made again. None where that failed, or took nothing.
pub(crate) fn write_stream(stream: &mut TcpStream, piece: &[u8]) -> Option<usize>
    ensures { IfSome result (λ n. (0 < n) × (n ≤ length piece.now)) }
{
    for _ in 0..MOST_TRIES {
        match stream.write(piece) {
            Ok(0) => return None,
            Ok(count) => return Some(count),
            Err(error) => {
                if error.kind() != ErrorKind::Interrupted {
                    return None;
                }
            }
        }
    }
    None
}
