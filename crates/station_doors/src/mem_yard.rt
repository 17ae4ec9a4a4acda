ghost use Rattle.std.specs.Prelude.{◌≡◌, ℕ, ◌≤◌, ◌<◌, ◌+◌, [], ◌∷◌, None, Some, map, length, vec_len, All, Contains, IsTrue, true, false, ◌↔◌, IfOk, IfSome, IfNone, OnOk, OnErr, position, ◌==◌, slice_index};
ghost use Rattle.std.specs.Bool.{OnTrue, OnFalse};
ghost use Rattle.std.specs.Vec.{vec_capacity};
ghost use Rattle.station_doors.specs.Doors.{YardValue, without};
ghost use Rattle.station_doors.specs.Disks.{disk_at, file_of, put_at};
ghost use Rattle.station_doors.specs.Files.{GivesFile};
ghost use Rattle.station_doors.specs.MemYard.{file_value, shown_of};

use crate::files::{MemFile, content, is_too_long};
use crate::slots::{self, Slot};
use crate::{FileFault, Listening, MemLink, MemPort, Port, Yard};
use disk_doors::MemDisk;
use std::alloc::Global;
use std::marker::Model;
use wire_io::{ByteList, Failed, List, NoMemory};

/// A list of ports.
pub type PortList = List<MemPort>;

/// A list of links.
pub type LinkList = List<MemLink>;

// A port that was given back under this number.
#[derive(Drop)]
struct Back {
    lane: u32,
    port: MemPort,
}

// A link that was given back under this number.
#[derive(Drop)]
struct LinkBack {
    number: u32,
    link: MemLink,
}

/// A yard over ports, links, files and disks in memory. It tells all that it does.
///
/// It hands the ports out in order, each once, and the links in the same way. A disk is handed out by its path, and again
/// once it was given back. A call that answers a `Result` fails exactly where its number, counted from 0, is among
/// `fails`, or where nothing is left to hand out, or there is no file or no disk of the path.
#[derive(Drop)]
pub struct MemYard<E> {
    ports: Vec<MemPort>,
    links: Vec<MemLink>,
    fails: Vec<u64>,
    out: Vec<u32>,
    links_out: Vec<u32>,
    back: Vec<Back>,
    links_back: Vec<LinkBack>,
    files: Vec<MemFile>,
    disks: Vec<Slot>,
    listened: Option<Listening>,
    ending: Option<E>,
    calls: u64,
    faults: u64,
    endings: u64,
}

impl<E> Model for MemYard<E> {
    ghost use Rattle.std.specs.Prelude.{◌≡◌, ◌≤◌, ◌+◌, vec_len, All};
    ghost use Rattle.std.specs.Vec.{vec_capacity};
    ghost use Rattle.station_doors.specs.MemYard.{MemYardValue, tells_of, IsUntouched, IsIdle};

    ghost Value = { MemYardValue E };

    ghost view = { λ y. record {
      tells = tells_of y.ports.items y.links.items y.fails.items y.out.items y.links_out.items y.back.items y.links_back.items y.files.items y.disks.items;
      listened = y.listened;
      calls = y.calls;
      faults = y.faults;
      ending = y.ending;
      endings = y.endings;
    } };

    ghost invariant = { λ y. All IsUntouched y.ports.items × All IsIdle y.links.items
        × (vec_len y.ports + vec_len y.out ≤ vec_capacity y.out) × (vec_len y.ports + vec_len y.out + vec_len y.back ≤ vec_capacity y.back)
        × (vec_len y.links + vec_len y.links_out ≤ vec_capacity y.links_out) × (vec_len y.links + vec_len y.links_out + vec_len y.links_back ≤ vec_capacity y.links_back) };
}

impl<E> MemYard<E> {
    ghost use Rattle.station_doors.specs.MemYard.{IsUntouched, IsIdle, plan_of, link_plan_of, written_by};

    /// A yard with these ports and links, of which none has answered a call yet, and with no file and no disk. Where it
    /// is out of memory they are dropped.
    pub fn new(
        alloc: Global,
        ports: PortList,
        links: LinkList,
        fails: &[u64],
    ) -> Result<MemYard<E>, NoMemory>
        requires ports { All IsUntouched ports }
        requires links { All IsIdle links }
        ensures { IfOk result (λ y. y ≡ record {
          tells = record { ports = map plan_of ports; links = map link_plan_of links; fails = fails.now; out = []; links_out = []; back = []; links_back = []; files = []; disks = [] };
          listened = None;
          calls = 0;
          faults = 0;
          ending = None;
          endings = 0;
        }) }
    {
        let ports = ports.into_vec()?;
        let links = links.into_vec()?;
        let fails = Vec::from_slice(alloc, fails)?;
        let out = Vec::with_capacity(alloc, ports.len())?;
        let links_out = Vec::with_capacity(alloc, links.len())?;
        let back = Vec::with_capacity(alloc, ports.len())?;
        let links_back = Vec::with_capacity(alloc, links.len())?;
        Ok(MemYard {
            ports,
            links,
            fails,
            out,
            links_out,
            back,
            links_back,
            files: Vec::new(alloc),
            disks: Vec::new(alloc),
            listened: None,
            ending: None,
            calls: 0,
            faults: 0,
            endings: 0,
        })
    }

    /// Gives the yard a file, in the place of what stood under its path. Out of memory, nothing changed.
    pub fn put_file(&mut self, path: &str, bytes: &ByteList) -> Result<(), NoMemory>
        ensures ok { OnOk result (self.new ≡ record self.old { tells = record self.old.tells { files = record { path = path.now; bytes = bytes.now } ∷ self.old.tells.files } }) }
        ensures err { OnErr result (self.new ≡ self.old) }
    {
        let bytes = bytes.copy()?;
        let mut name = ByteList::new(*self.files.allocator());
        name.extend(path.as_bytes())?;
        let file = MemFile { path: name, bytes };
        self.files.insert(0, file)?;
        Ok(())
    }

    /// Gives the yard a disk, in the place of what stood under its path, also of one that is handed out, which is
    /// dropped once it comes back. Out of memory, nothing changed, and the disk is dropped.
    pub fn put_disk(&mut self, path: &str, disk: MemDisk) -> Result<(), NoMemory>
        ensures ok { OnOk result (self.new ≡ record self.old { tells = record self.old.tells { disks = put_at path.now (shown_of disk) self.old.tells.disks } }) }
        ensures err { OnErr result (self.new ≡ self.old) }
    {
        slots::put(&mut self.disks, path.as_bytes(), disk)
    }

    /// Lends the bytes of the disk that stands under the path. There are none where no disk stands there.
    pub fn kept(&self, path: &str) -> &[u8]
        ensures { result.now ≡ file_of (disk_at path.now self.now.tells.disks) }
    {
        slots::bytes_at(self.disks.as_slice(), path.as_bytes())
    }

    /// Lends the ending that it took last. `None` exactly where it took none.
    pub fn ending(&self) -> Option<&E>
        ensures some { IfSome result (λ e. self.now.ending ≡ Some e.now) }
        ensures none { IfNone result (self.now.ending ≡ None) }
    {
        self.ending.as_ref()
    }

    /// Lends what was written to the first link that was given back under this number. It is empty where there is
    /// none.
    pub fn written(&self, number: u32) -> &[u8]
        ensures { result.now ≡ written_by number self.now.tells.links_back }
    {
        match place_by(self.links_back.as_slice(), number) {
            Some(place) => self.links_back[place].link.taken(),
            None => &[],
        }
    }
}

// Whether the plan fails the call of this number.
fn is_among(fails: &[u64], call: u64) -> bool
    ensures planned { result ≡ true → Contains fails.now call }
    ensures unplanned { result ≡ false → Contains fails.now call → ⊥ }
{
    fails.contains(&call)
}

// Copies the first file of this path, in a call that the plan fails or not.
fn copy_at(files: &[MemFile], path: &[u8], is_planned: bool) -> Result<ByteList, FileFault>
    ensures { (y : YardValue) → (call : ℕ) → (is_planned ≡ true → Contains y.fails call) → (is_planned ≡ false → Contains y.fails call → ⊥) → y.files ≡ map file_value files.now → GivesFile path.now call (Some y) (Some y) result }
{
    if is_planned {
        return Err(FileFault::Failed);
    }
    let Some(bytes) = content(files, path) else {
        return Err(FileFault::Failed);
    };
    if is_too_long(bytes.as_slice()) {
        return Err(FileFault::TooLong);
    }
    match bytes.copy() {
        Ok(copy) => Ok(copy),
        Err(_) => Err(FileFault::NoMemory),
    }
}

// The first place of this number among those given back.
fn place_by(back: &[LinkBack], number: u32) -> Option<usize>
    ensures place { result ≡ position (λ b. b.number == number) back.now }
    ensures some { IfSome result (λ i. i < length back.now) }
    ensures none { IfNone result (All (λ b. b.number ≡ number → ⊥) back.now) }
{
    back.iter().position(|link| link.number == number)
}

// The first place of this number.
fn place_of(out: &[u32], lane: u32) -> Option<usize>
    ensures place { result ≡ position (λ n. n == lane) out.now }
    ensures some { IfSome result (λ i. (i < length out.now) × (slice_index out.now i ≡ lane)) }
    ensures none { IfNone result (Contains out.now lane → ⊥) }
{
    out.iter().position(|number| *number == lane)
}

// Takes the first place of this number out of the list, and answers whether it stood there.
fn take_out(out: &mut Vec<u32>, lane: u32) -> bool
    ensures stood { IsTrue result ↔ Contains out.old.items lane }
    ensures rest { OnTrue result (out.new.items ≡ without lane out.old.items) }
    ensures len { OnTrue result (vec_len out.new + 1 ≡ vec_len out.old) }
    ensures kept { OnFalse result (out.new ≡ out.old) }
    ensures capacity { vec_capacity out.new ≡ vec_capacity out.old }
{
    match place_of(out.as_slice(), lane) {
        Some(place) => {
            out.remove(place);
            true
        }
        None => false,
    }
}

impl<E: Drop> Yard for MemYard<E> {
    type Port = MemPort;

    type Link = MemLink;

    type Disk = MemDisk;

    type Ending = E;

    ghost seen = { λ y. record { told = Some y.tells; calls = y.calls; listened = y.listened; endings = y.endings; last_ending = y.ending } };

    ghost faults = { λ y. y.faults };

    fn listen(&mut self, at: &Listening) -> Result<(), Failed> {
        let call = self.calls;
        self.calls = call.saturating_add(1);
        self.listened = Some(*at);
        if self.fails.contains(&call) {
            self.faults = self.faults.saturating_add(1);
            return Err(Failed);
        }
        Ok(())
    }

    fn port(&mut self, lane: u32) -> Result<MemPort, Failed> {
        let call = self.calls;
        self.calls = call.saturating_add(1);
        if self.fails.contains(&call) {
            self.faults = self.faults.saturating_add(1);
            return Err(Failed);
        }
        if self.ports.is_empty() {
            self.faults = self.faults.saturating_add(1);
            return Err(Failed);
        }
        let port = self.ports.remove(0);
        if self.out.insert(0, lane).is_err() {
            // `new` took the memory for the ports
            unreachable!();
        }
        Ok(port)
    }

    fn link(&mut self, number: u32) -> Result<MemLink, Failed> {
        let call = self.calls;
        self.calls = call.saturating_add(1);
        if self.fails.contains(&call) {
            self.faults = self.faults.saturating_add(1);
            return Err(Failed);
        }
        if self.links.is_empty() {
            self.faults = self.faults.saturating_add(1);
            return Err(Failed);
        }
        let link = self.links.remove(0);
        if self.links_out.insert(0, number).is_err() {
            // `new` took the memory for the links
            unreachable!();
        }
        Ok(link)
    }

    fn file(&mut self, _alloc: Global, path: &str) -> Result<ByteList, FileFault> {
        let call = self.calls;
        self.calls = call.saturating_add(1);
        let is_planned = is_among(self.fails.as_slice(), call);
        let found = copy_at(self.files.as_slice(), path.as_bytes(), is_planned);
        if let Err(FileFault::Failed) = &found {
            self.faults = self.faults.saturating_add(1);
        }
        found
    }

    fn disk(&mut self, path: &str) -> Result<MemDisk, Failed> {
        let call = self.calls;
        self.calls = call.saturating_add(1);
        if self.fails.contains(&call) {
            self.faults = self.faults.saturating_add(1);
            return Err(Failed);
        }
        match slots::lend(self.disks.as_mut_slice(), path.as_bytes()) {
            Some(disk) => Ok(disk),
            None => {
                self.faults = self.faults.saturating_add(1);
                Err(Failed)
            }
        }
    }

    fn take_port(&mut self, lane: u32, port: MemPort) {
        if take_out(&mut self.out, lane) {
            if self.back.push(Back { lane, port }).is_err() {
                // `new` took the memory for the ports
                unreachable!();
            }
        }
    }

    fn take_link(&mut self, number: u32, link: MemLink) {
        if take_out(&mut self.links_out, number) {
            if self.links_back.push(LinkBack { number, link }).is_err() {
                // `new` took the memory for the links
                unreachable!();
            }
        }
    }

    fn take_disk(&mut self, path: &str, disk: MemDisk) {
        slots::put_back(self.disks.as_mut_slice(), path.as_bytes(), disk);
    }

    fn take_ending(&mut self, ending: E) {
        self.endings = self.endings.saturating_add(1);
        self.ending = Some(ending);
    }
}
