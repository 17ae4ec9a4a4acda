ghost use Rattle.std.specs.Prelude.{◌≡◌, ◌↔◌, None, Some, Ok, IfOk, IfSome, IsOk, IsSome, ◌<◌, ◌≤◌, slice_get};
ghost use Rattle.wire_io.specs.Faults.{HasCause};
ghost use Rattle.disk_doors.specs.Opening.{made_where_none, as_it_is};
ghost use Rattle.station_doors.specs.Files.{HasFileCause};
ghost use Rattle.station_doors.specs.Doors.{CountsCall, KeepsInput, LeavesRest, askers_of, counts_only, one_more};

use crate::files::read_whole;
use crate::log::{Place, PlaceLog, Places, say_listening};
use crate::sockets::{MOST_PLACES, ip_of, listen_at, take_listener};
use crate::{Allowed, FileFault, HostFault, HostLink, HostPort, Lines, Listening, Log, Yard};
use disk_doors::HostDisk;
use std::alloc::Global;
use std::fs;
use std::fs::{File, Files};
use std::io::{self, Read};
use std::net::{Net, SocketAddr, TcpListener, TcpStream};
use std::sync::{Arc, Wait};
use std::time::Clock;
use wire_io::{ByteList, Failed, NoMemory};

/// The real yard: standard input, TCP listeners, and the files of the system. It tells nothing of content.
///
/// Where it was asked to listen, lane n listens at `feed_port + n` and asker n at `ask_port + n`. Where the ports are
/// shared, all lanes take their connections of one listener and all askers of another, and the system says which of them
/// gets one. A yard that wasn't asked gives at port 0 what the reader gives, as one connection. Until then no call reads of
/// the reader. Where it has a log, it says there where it listens, and its ports and links say what comes and goes.
#[derive(Drop)]
pub struct HostYard<'a, R, N> {
    input: Option<R>,
    net: &'a N,
    feeds: Vec<Option<Arc<TcpListener>>>,
    askers: Vec<Option<Arc<TcpListener>>>,
    listened: Option<Listening>,
    calls: u64,
    faults: u64,
    endings: u64,
    fault: Option<HostFault>,
    lines: Option<&'a Lines>,
}

impl<
    'a,
    R: Read + Drop,
    N: Net<Listener = TcpListener, Stream = TcpStream> + Clock + Sync,
> HostYard<'a, R, N> {
    /// A yard over this input and this network, with or without a log, of which no call was made. It takes the memory for
    /// all its places at once.
    pub fn new(
        alloc: Global,
        input: R,
        net: &'a N,
        lines: Option<&'a Lines>,
    ) -> Result<HostYard<'a, R, N>, NoMemory>
        ensures input { IfOk result (λ y. y.input ≡ Some input) }
        ensures calls { IfOk result (λ y. y.calls ≡ 0) }
        ensures calm { IfOk result (λ y. y.faults ≡ 0) }
        ensures listened { IfOk result (λ y. y.listened ≡ None) }
        ensures endings { IfOk result (λ y. y.endings ≡ 0) }
    {
        let feeds = Vec::with_capacity(alloc, MOST_PLACES as usize)?;
        let askers = Vec::with_capacity(alloc, MOST_PLACES as usize)?;
        Ok(HostYard {
            input: Some(input),
            net,
            feeds,
            askers,
            listened: None,
            calls: 0,
            faults: 0,
            endings: 0,
            fault: None,
            lines,
        })
    }

    /// Why it couldn't give what it was asked for last, or why a read of its input failed; None where neither happened.
    pub fn fault(&self) -> Option<&HostFault> {
        self.fault.as_ref()
    }
}

impl<'a, R, N> HostYard<'a, R, N> {
    // Keeps why it couldn't give something.
    fn blame(&mut self, port: Option<SocketAddr>, error: io::Error)
        ensures same { (self.new.input ≡ self.old.input) × (self.new.calls ≡ self.old.calls) × (self.new.listened ≡ self.old.listened) × (self.new.endings ≡ self.old.endings) }
        ensures calm { self.new.faults ≡ self.old.faults }
    {
        self.fault = Some(HostFault { port, error });
    }

    // Counts a call, and hands out the disk that was opened in it, or keeps why none was.
    fn hand_out(&mut self, opened: io::Result<HostDisk>) -> Result<HostDisk, Failed>
        ensures same { IfOk result (λ disk. opened ≡ Ok disk) }
        ensures counted { CountsCall (counts_only self.old.calls self.old.listened self.old.endings) (counts_only self.new.calls self.new.listened self.new.endings) }
        ensures cause { HasCause self.old.faults self.new.faults result }
        ensures input { self.new.input ≡ self.old.input }
    {
        self.calls = self.calls.saturating_add(1);
        match opened {
            Ok(disk) => Ok(disk),
            Err(error) => {
                self.blame(None, error);
                self.faults = self.faults.saturating_add(1);
                Err(Failed)
            }
        }
    }
}

// What this place says in the log: all, or only what needs somebody.
fn place_log<'a>(lines: Option<&'a Lines>, at: Option<Listening>, place: Place) -> PlaceLog<'a> {
    let says_all = match (place, at) {
        (_, None) => false,
        (Place::Lane(_), Some(at)) => !matches!(at.log, Log::None),
        (Place::Client(_), Some(at)) => matches!(at.log, Log::Clients),
    };
    PlaceLog {
        lines,
        place,
        says_all,
    }
}

// After how many seconds a silent router is given up, and from where routers may come.
fn feed_rules(at: Option<Listening>) -> (Option<u32>, Allowed)
    ensures { IfSome at (λ at. (result.0 ≡ at.idle) × (result.1 ≡ at.feed_from)) }
{
    match at {
        Some(at) => (at.idle, at.feed_from),
        None => (None, Allowed::anywhere()),
    }
}

// The same of clients.
fn ask_rules(at: Option<Listening>) -> (Option<u32>, Allowed)
    ensures { IfSome at (λ at. (result.0 ≡ at.ask_idle) × (result.1 ≡ at.ask_from)) }
{
    match at {
        Some(at) => (at.ask_idle, at.ask_from),
        None => (None, Allowed::anywhere()),
    }
}

// Says where the yard listens.
fn say_at<N: Wait>(net: &N, lines: &Lines, at: &Listening) {
    say_listening(
        net,
        lines,
        &Places {
            routers: SocketAddr::new(ip_of(&at.address), at.feed_port),
            lanes: at.feeds,
            clients: SocketAddr::new(ip_of(&at.ask_address), at.ask_port),
            places: at.askers,
            shared: at.shared,
        },
    );
}

// Listens for routers, and then for clients.
fn listen_all<N: Net<Listener = TcpListener, Stream = TcpStream>>(
    net: &N,
    at: &Listening,
    feeds: &mut Vec<Option<Arc<TcpListener>>>,
    askers: &mut Vec<Option<Arc<TcpListener>>>,
) -> Result<(), HostFault> {
    listen_at(net, &at.address, at.feed_port, at.feeds, at.shared, feeds)?;
    listen_at(
        net,
        &at.ask_address,
        at.ask_port,
        at.askers,
        at.shared,
        askers,
    )
}

impl<
    'a,
    R: Read + Drop + Send,
    N: Net<Listener = TcpListener, Stream = TcpStream> + Clock + Files<File = File> + Wait + Sync,
> Yard for HostYard<'a, R, N> {
    type Port = HostPort<'a, R, N>;

    type Link = HostLink<'a, N>;

    type Disk = HostDisk;

    type Ending = ();

    ghost seen = { λ y. counts_only y.calls y.listened y.endings };

    ghost faults = { λ y. y.faults };

    fn listen(&mut self, at: &Listening) -> Result<(), Failed>
        ensures listened { self.new.listened ≡ Some at.now }
        ensures calls { self.new.calls ≡ one_more self.old.calls }
        ensures cause { HasCause self.old.faults self.new.faults result }
        ensures endings { self.new.endings ≡ self.old.endings }
        ensures input { self.new.input ≡ self.old.input }
    {
        self.calls = self.calls.saturating_add(1);
        self.listened = Some(*at);
        match listen_all(self.net, at, &mut self.feeds, &mut self.askers) {
            Ok(()) => {
                if let Some(lines) = self.lines {
                    lines.expect(self.net, at.feeds as u64 + at.askers as u64);
                    if !matches!(at.log, Log::None) {
                        say_at(self.net, lines, at);
                    }
                }
                Ok(())
            }
            Err(HostFault { port, error }) => {
                self.feeds.clear();
                self.askers.clear();
                self.blame(port, error);
                self.faults = self.faults.saturating_add(1);
                Err(Failed)
            }
        }
    }

    fn port(&mut self, lane: u32) -> Result<HostPort<'a, R, N>, Failed>
        ensures once { self.old.listened ≡ None → (IsOk result ↔ IsSome self.old.input) }
        ensures reader { self.old.listened ≡ None → IfOk result (λ port. self.old.input ≡ port.input) }
        ensures input { self.old.listened ≡ None → self.new.input ≡ None }
        ensures kept { KeepsInput self.old.listened self.old.input self.new.input }
        ensures lane { IsSome self.old.listened → IfOk result (λ port. (port.input ≡ None) × (slice_get self.old.feeds.items lane ≡ Some port.listener)) }
        ensures rules { IfSome self.old.listened (λ at. IfOk result (λ port. (port.idle ≡ at.idle) × (port.allowed ≡ at.feed_from))) }
        ensures counted { CountsCall (counts_only self.old.calls self.old.listened self.old.endings) (counts_only self.new.calls self.new.listened self.new.endings) }
        ensures cause { HasCause self.old.faults self.new.faults result }
    {
        self.calls = self.calls.saturating_add(1);
        let (input, listener) = if self.listened.is_some() {
            (None, take_listener(&mut self.feeds, lane))
        } else {
            (self.input.take(), None)
        };
        if input.is_some() || listener.is_some() {
            let (idle, allowed) = feed_rules(self.listened);
            let log = place_log(self.lines, self.listened, Place::Lane(lane));
            return Ok(HostPort::over(self.net, input, listener, idle, allowed, log));
        }
        self.faults = self.faults.saturating_add(1);
        Err(Failed)
    }

    fn link(&mut self, number: u32) -> Result<HostLink<'a, N>, Failed>
        requires { number < askers_of self.old.listened }
        ensures asker { IfOk result (λ link. slice_get self.old.askers.items number ≡ Some (Some link.listener)) }
        ensures rules { IfSome self.old.listened (λ at. IfOk result (λ link. (link.idle ≡ at.ask_idle) × (link.allowed ≡ at.ask_from))) }
        ensures input { self.new.input ≡ self.old.input }
        ensures counted { CountsCall (counts_only self.old.calls self.old.listened self.old.endings) (counts_only self.new.calls self.new.listened self.new.endings) }
        ensures cause { HasCause self.old.faults self.new.faults result }
    {
        self.calls = self.calls.saturating_add(1);
        match take_listener(&mut self.askers, number) {
            Some(listener) => {
                let (idle, allowed) = ask_rules(self.listened);
                let log = place_log(self.lines, self.listened, Place::Client(number));
                Ok(HostLink::over(self.net, listener, idle, allowed, log))
            }
            None => {
                self.faults = self.faults.saturating_add(1);
                Err(Failed)
            }
        }
    }

    fn disk(&mut self, path: &str) -> Result<HostDisk, Failed>
        ensures made { IfOk result (λ disk. disk.opened ≡ made_where_none) }
        ensures counted { CountsCall (counts_only self.old.calls self.old.listened self.old.endings) (counts_only self.new.calls self.new.listened self.new.endings) }
        ensures cause { HasCause self.old.faults self.new.faults result }
        ensures input { self.new.input ≡ self.old.input }
    {
        let opened = HostDisk::open(self.net, path);
        self.hand_out(opened)
    }

    fn kept_disk(&mut self, path: &str) -> Result<HostDisk, Failed>
        ensures kept { IfOk result (λ disk. disk.opened ≡ as_it_is) }
        ensures counted { CountsCall (counts_only self.old.calls self.old.listened self.old.endings) (counts_only self.new.calls self.new.listened self.new.endings) }
        ensures cause { HasCause self.old.faults self.new.faults result }
        ensures input { self.new.input ≡ self.old.input }
    {
        let opened = HostDisk::open_kept(self.net, path);
        self.hand_out(opened)
    }

    fn file(&mut self, alloc: Global, path: &str) -> Result<ByteList, FileFault>
        ensures counted { CountsCall (counts_only self.old.calls self.old.listened self.old.endings) (counts_only self.new.calls self.new.listened self.new.endings) }
        ensures cause { HasFileCause self.old.faults self.new.faults result }
        ensures later { self.old.faults ≤ self.new.faults }
        ensures input { self.new.input ≡ self.old.input }
    {
        self.calls = self.calls.saturating_add(1);
        let found = match fs::open(self.net, path) {
            Ok(mut file) => {
                let found = read_whole(alloc, &mut file);
                if let Err(FileFault::Failed) = &found {
                    // A further read says why.
                    if let Err(error) = file.read(&mut [0u8; 1]) {
                        self.blame(None, error);
                    }
                }
                found
            }
            Err(error) => {
                self.blame(None, error);
                Err(FileFault::Failed)
            }
        };
        if let Err(FileFault::Failed) = &found {
            self.faults = self.faults.saturating_add(1);
        }
        found
    }

    fn take_port(&mut self, _lane: u32, port: HostPort<'a, R, N>)
        ensures rest { LeavesRest (counts_only self.old.calls self.old.listened self.old.endings) (counts_only self.new.calls self.new.listened self.new.endings) }
        ensures calm { self.new.faults ≡ self.old.faults }
        ensures input { self.new.input ≡ self.old.input }
    {
        // Why a connection of a router ended is said in the log.
        if self.listened.is_none()
            && let Some(error) = port.into_reason()
        {
            self.blame(None, error);
        }
    }

    fn take_link(&mut self, _number: u32, _link: HostLink<'a, N>)
        ensures rest { LeavesRest (counts_only self.old.calls self.old.listened self.old.endings) (counts_only self.new.calls self.new.listened self.new.endings) }
        ensures calm { self.new.faults ≡ self.old.faults }
        ensures input { self.new.input ≡ self.old.input }
    {}

    fn take_disk(&mut self, _path: &str, disk: HostDisk)
        ensures rest { LeavesRest (counts_only self.old.calls self.old.listened self.old.endings) (counts_only self.new.calls self.new.listened self.new.endings) }
        ensures calm { self.new.faults ≡ self.old.faults }
        ensures input { self.new.input ≡ self.old.input }
    {
        if let Some(error) = disk.into_error() {
            self.blame(None, error);
        }
    }

    fn take_ending(&mut self, _ending: ())
        ensures endings { self.new.endings ≡ one_more self.old.endings }
        ensures listened { self.new.listened ≡ self.old.listened }
        ensures calls { self.new.calls ≡ self.old.calls }
        ensures calm { self.new.faults ≡ self.old.faults }
        ensures input { self.new.input ≡ self.old.input }
    {
        self.endings = self.endings.saturating_add(1);
    }
}
