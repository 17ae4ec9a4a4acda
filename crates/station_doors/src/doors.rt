ghost use Rattle.std.specs.Prelude.{◌≡◌, ℕ, ◌<◌, ◌≤◌, List, Option, Some, None, [], IsTrue, IfSome, OnErr, length};
ghost use Rattle.std.specs.Io.{ReadsAtMost};
ghost use Rattle.std.specs.Io.KnownBytes.{Keeps};
ghost use Rattle.bmp_specs.specs.Life.{LastRead};
ghost use Rattle.bmp_specs.specs.declared.causes.Cause.{Cause};
ghost use Rattle.wire_io.specs.Aside.{Aside};
ghost use Rattle.wire_io.specs.Faults.{HasCause};
ghost use Rattle.station_doors.specs.Doors.{Opens, Reads, Closes, AsPlanned, MadeOver, Went, noted_writes, read_size, heard_size, YardSeen, CountsCall, LeavesRest, IsLane, askers_of, Listens, HandsOut, HandsOutLink, TakesBack, TakesLinkBack, KeepsEnding, one_more, told_after};
ghost use Rattle.station_doors.specs.Disks.{HandsOutDisk, TakesDiskBack};
ghost use Rattle.station_doors.specs.Files.{GivesFile, HasFileCause};
ghost use Rattle.station_doors.specs.Told.{KeepsOpening, ToldValue, untold};
ghost use Rattle.station_doors.specs.declared.listening.Listening.{Listening};

use crate::{Ended, FileFault, Listening, PeerChange, Told};
use disk_doors::Disk;
use std::alloc::Global;
use wire_io::{ByteList, Failed, Sink};

/// The place of one router, which gives one connection after another.
pub trait Port {
    /// What it tells: its plan, the connections that it gave, and its counts.
    ghost aside: { Self → Aside };

    /// How many of its calls were made that its plan numbers.
    ghost calls: { Self → ℕ } = { λ _. 0 };

    /// What it was made over, as that was then. It stays through its life, as its plan does.
    ghost stays: { Self → Option MadeOver } = { λ _. None };

    /// How its reads went, the last first, where it keeps that.
    ghost went: { Self → Option (List LastRead) } = { λ _. None };

    /// Why its connections ended, in the order in which it was told, where it keeps that.
    ghost causes: { Self → Option (List Cause) } = { λ _. None };

    /// From where its present connection came and when, or its last one, and when that was closed.
    ghost tells: { Self → ToldValue } = { λ _. untold };

    /// Opens the next connection, of which no byte was given. False where there is none. It fails only
    /// where the plan, if it is shown, has a call that fails.
    fn next_connection(&mut self) -> Result<bool, Failed>
        ensures opens { Opens (aside self.old) (aside self.new) result }
        ensures planned { IfSome (aside self.old).plan (λ plan. OnErr result (plan.fails ≡ [] → ⊥)) }
        ensures calls { calls self.new ≡ calls self.old }
        ensures stays { stays self.new ≡ stays self.old }
        ensures went { went self.new ≡ went self.old }
        ensures causes { causes self.new ≡ causes self.old };

    /// Gives the next bytes of the present connection, which is open: at least one, or none at its end. It
    /// is asked for 65,536 bytes, or for what is left up to 2^46 bytes of one connection.
    fn read(&mut self, buf: &mut [u8]) -> Result<usize, Failed>
        requires some { 0 < length buf.old }
        requires size { length buf.old ≡ read_size (aside self.old).taken }
        requires is_open { IsTrue (aside self.old).is_open }
        ensures bound { ReadsAtMost result buf.new }
        ensures reads { Reads (aside self.old) (aside self.new) result buf.new }
        ensures planned { AsPlanned (aside self.old).plan (calls self.old) (calls self.new) result }
        ensures stays { stays self.new ≡ stays self.old }
        ensures went { Went (went self.old) (went self.new) result }
        ensures causes { causes self.new ≡ causes self.old }
        ensures tells { tells self.new ≡ tells self.old };

    /// Closes the present connection, which is open. Nothing is read of it after that.
    fn close(&mut self)
        requires { IsTrue (aside self.old).is_open }
        ensures closes { Closes (aside self.old) (aside self.new) }
        ensures calls { calls self.new ≡ calls self.old }
        ensures stays { stays self.new ≡ stays self.old }
        ensures went { went self.new ≡ went self.old }
        ensures causes { causes self.new ≡ causes self.old }
        ensures tells { KeepsOpening (tells self.old) (tells self.new) };

    /// Tells from where the present connection came and when, by the station's clock, or the last one, and when that was
    /// closed.
    fn told(&self) -> Told
        ensures { result ≡ tells self.now };

    /// Is told that a peer of the present connection's router went up or down, which was published. A real port may say so
    /// to whoever runs the station. Nothing that contracts see changes.
    fn peer(&mut self, _change: &PeerChange<'_>)
        ensures aside { aside self.new ≡ aside self.old }
        ensures calls { calls self.new ≡ calls self.old }
        ensures stays { stays self.new ≡ stays self.old }
        ensures went { went self.new ≡ went self.old }
        ensures causes { causes self.new ≡ causes self.old }
        ensures tells { tells self.new ≡ tells self.old }
    {}

    /// Is told the first octets of what stands in the present connection where a message should, and is none. A real port
    /// may say so with the connection's end. Nothing that contracts see changes.
    fn broke(&mut self, _octets: &[u8])
        ensures aside { aside self.new ≡ aside self.old }
        ensures calls { calls self.new ≡ calls self.old }
        ensures stays { stays self.new ≡ stays self.old }
        ensures went { went self.new ≡ went self.old }
        ensures causes { causes self.new ≡ causes self.old }
        ensures tells { tells self.new ≡ tells self.old }
    {}

    /// Is told how the last connection ended, which was closed. A real port may say so to whoever runs the station.
    /// Nothing that contracts see changes but the causes that were told.
    fn ended(&mut self, end: &Ended<'_>)
        ensures aside { aside self.new ≡ aside self.old }
        ensures calls { calls self.new ≡ calls self.old }
        ensures stays { stays self.new ≡ stays self.old }
        ensures went { went self.new ≡ went self.old }
        ensures causes { causes self.new ≡ told_after (causes self.old) end.now.cause }
        ensures tells { tells self.new ≡ tells self.old };
}

/// The place of one client, which gives one connection after another and takes what is written to it. Its count
/// as a `Sink` is that of its writes alone; its other counts stand in what it tells, which no write changes.
pub trait Link: Sink {
    /// How many of its calls were made that its plan numbers.
    ghost calls: { Self → ℕ } = { λ _. 0 };

    /// Opens the next connection, of which no byte was given. False where there is none. It fails only
    /// where the plan, if it is shown, has a call that fails. The count of faults in writes is noted, so that it is
    /// told of each connection whether a write failed in it.
    fn next_connection(&mut self) -> Result<bool, Failed>
        ensures opens { Opens (Self.aside self.old) (Self.aside self.new) result }
        ensures writes { (Self.aside self.new).write_faults ≡ noted_writes (Self.faults self.old) (Self.aside self.old).write_faults result }
        ensures planned { IfSome (Self.aside self.old).plan (λ plan. OnErr result (plan.fails ≡ [] → ⊥)) }
        ensures told { Keeps (Self.told self.old) (Self.told self.new) }
        ensures calm { Self.faults self.new ≡ Self.faults self.old }
        ensures calls { calls self.new ≡ calls self.old };

    /// Gives the next bytes of the present connection, which is open: at least one, or none at its end. It
    /// is asked for 512 bytes, or for what is left up to 2^46 bytes of one connection.
    fn read(&mut self, buf: &mut [u8]) -> Result<usize, Failed>
        requires some { 0 < length buf.old }
        requires size { length buf.old ≡ heard_size (Self.aside self.old).taken }
        requires is_open { IsTrue (Self.aside self.old).is_open }
        ensures bound { ReadsAtMost result buf.new }
        ensures reads { Reads (Self.aside self.old) (Self.aside self.new) result buf.new }
        ensures planned { AsPlanned (Self.aside self.old).plan (calls self.old) (calls self.new) result }
        ensures told { Keeps (Self.told self.old) (Self.told self.new) }
        ensures calm { Self.faults self.new ≡ Self.faults self.old };

    /// Closes the present connection, which is open. Nothing is read of it after that.
    fn close(&mut self)
        requires { IsTrue (Self.aside self.old).is_open }
        ensures closes { Closes (Self.aside self.old) (Self.aside self.new) }
        ensures told { Keeps (Self.told self.old) (Self.told self.new) }
        ensures calm { Self.faults self.new ≡ Self.faults self.old }
        ensures calls { calls self.new ≡ calls self.old };
}

/// Hands out ports and links by number and disks by path, takes them back, gives files by path, and takes what a
/// station's end gave.
pub trait Yard {
    type Port: Port + Send + Drop;

    type Link: Link + Send + Drop;

    type Disk: Disk + Drop;

    type Ending: Drop;

    /// What contracts see of it but its count of faults.
    ghost seen: { Self → YardSeen Self.Ending };

    /// The count of faults. It never falls.
    ghost faults: { Self → ℕ };

    /// Listens for so many routers and clients, where and how these values say.
    fn listen(&mut self, at: &Listening) -> Result<(), Failed>
        ensures told { Listens (seen self.old).calls (seen self.old).told (seen self.new).told result }
        ensures listened { (seen self.new).listened ≡ Some at.now }
        ensures calls { (seen self.new).calls ≡ one_more (seen self.old).calls }
        ensures cause { HasCause (faults self.old) (faults self.new) result }
        ensures endings { (seen self.new).endings ≡ (seen self.old).endings }
        ensures ending { (seen self.new).last_ending ≡ (seen self.old).last_ending };

    /// Hands out a port under this number: that of a lane, or 0. Where nothing was asked to listen, port 0 is the
    /// program's one input connection.
    fn port(&mut self, lane: u32) -> Result<Self::Port, Failed>
        requires { IsLane (seen self.old).listened lane }
        ensures told { HandsOut Self.Port.aside Self.Port.calls lane (seen self.old).calls (seen self.old).told (seen self.new).told result }
        ensures counted { CountsCall (seen self.old) (seen self.new) }
        ensures cause { HasCause (faults self.old) (faults self.new) result };

    /// Hands out the link of this asker.
    fn link(&mut self, number: u32) -> Result<Self::Link, Failed>
        requires { number < askers_of (seen self.old).listened }
        ensures told { HandsOutLink Self.Link.aside Self.Link.told Self.Link.faults Self.Link.calls number (seen self.old).calls (seen self.old).told (seen self.new).told result }
        ensures counted { CountsCall (seen self.old) (seen self.new) }
        ensures cause { HasCause (faults self.old) (faults self.new) result };

    /// Gives the whole file of this path, which has at most 2^26 bytes. A file that has more is `TooLong`, which is no
    /// fault; it fails where there is no such file, or it can't be read. The yard stays as it is.
    fn file(&mut self, alloc: Global, path: &str) -> Result<ByteList, FileFault>
        ensures told { GivesFile path.now (seen self.old).calls (seen self.old).told (seen self.new).told result }
        ensures counted { CountsCall (seen self.old) (seen self.new) }
        ensures cause { HasFileCause (faults self.old) (faults self.new) result }
        ensures later { faults self.old ≤ faults self.new };

    /// Hands out the disk of this path. A real yard makes an empty file where there is none. It fails where no disk
    /// stands there, or one that was handed out and not given back since.
    fn disk(&mut self, path: &str) -> Result<Self::Disk, Failed>
        ensures told { HandsOutDisk Self.Disk.tells Self.Disk.shows Self.Disk.faults path.now (seen self.old).calls (seen self.old).told (seen self.new).told result }
        ensures counted { CountsCall (seen self.old) (seen self.new) }
        ensures cause { HasCause (faults self.old) (faults self.new) result };

    /// Hands out the disk of this path where one is there, as `disk` does. A real yard makes no file, and fails where
    /// there is none.
    fn kept_disk(&mut self, path: &str) -> Result<Self::Disk, Failed>
        ensures told { HandsOutDisk Self.Disk.tells Self.Disk.shows Self.Disk.faults path.now (seen self.old).calls (seen self.old).told (seen self.new).told result }
        ensures counted { CountsCall (seen self.old) (seen self.new) }
        ensures cause { HasCause (faults self.old) (faults self.new) result }
    {
        self.disk(path)
    }

    /// Takes back the port that was handed out under this number. It raises no count.
    fn take_port(&mut self, lane: u32, port: Self::Port)
        ensures told { TakesBack lane (Self.Port.aside port) (seen self.old).told (seen self.new).told }
        ensures rest { LeavesRest (seen self.old) (seen self.new) }
        ensures calm { faults self.new ≡ faults self.old };

    /// Takes back the link that was handed out under this number. It raises no count.
    fn take_link(&mut self, number: u32, link: Self::Link)
        ensures told { TakesLinkBack (record {
          number = number;
          shows = Self.Link.aside link;
          written = Self.Link.told link;
          faults = Self.Link.faults link;
        }) (seen self.old).told (seen self.new).told }
        ensures rest { LeavesRest (seen self.old) (seen self.new) }
        ensures calm { faults self.new ≡ faults self.old };

    /// Takes back the disk that was handed out under this path, and drops it where none was. It raises no count.
    fn take_disk(&mut self, path: &str, disk: Self::Disk)
        ensures told { TakesDiskBack path.now (record { value = Self.Disk.shows disk; faults = Self.Disk.faults disk }) (seen self.old).told (seen self.new).told }
        ensures rest { LeavesRest (seen self.old) (seen self.new) }
        ensures calm { faults self.new ≡ faults self.old };

    /// Takes what the end of a station gave, in the place of an earlier ending. It raises no count.
    fn take_ending(&mut self, ending: Self::Ending)
        ensures ending { KeepsEnding (seen self.old).told ending (seen self.new).last_ending }
        ensures endings { (seen self.new).endings ≡ one_more (seen self.old).endings }
        ensures told { (seen self.new).told ≡ (seen self.old).told }
        ensures listened { (seen self.new).listened ≡ (seen self.old).listened }
        ensures calls { (seen self.new).calls ≡ (seen self.old).calls }
        ensures calm { faults self.new ≡ faults self.old };
}
