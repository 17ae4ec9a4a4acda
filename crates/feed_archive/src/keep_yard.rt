//! A yard as one who keeps a stream sees it: what comes of its port is kept first.
ghost use Rattle.std.specs.Prelude.{◌≡◌, ℕ};
ghost use Rattle.wire_io.specs.Faults.{HasCause};
ghost use Rattle.station_doors.specs.Disks.{HandsOutDisk, TakesDiskBack};
ghost use Rattle.station_doors.specs.Doors.{CountsCall, HandsOut, IsLane, LeavesRest, TakesBack, YardSeen};

use crate::sealed_port::SealedPort;
use disk_doors::Disk;
use station_doors::{Port, Yard};
use wire_io::Failed;

/// A yard whose ports are handed out sealed, and as nothing else. Whoever is written over any such yard comes to the bytes
/// of a connection through a `KeepPort` alone, so only once all earlier ones are kept. What its calls do, a `Yard` says.
pub trait KeepYard {
    type Port: Port + Drop;

    type Disk: Disk + Drop;

    type Ending: Drop;

    /// What contracts see of it but its count of faults.
    ghost seen: { Self → YardSeen Self.Ending };

    /// The count of faults. It never falls.
    ghost faults: { Self → ℕ };

    /// Hands out a port under this number.
    fn port(&mut self, lane: u32) -> Result<SealedPort<Self::Port>, Failed>
        requires { IsLane (seen self.old).listened lane }
        ensures told { HandsOut Self.Port.aside Self.Port.calls lane (seen self.old).calls (seen self.old).told (seen self.new).told result }
        ensures counted { CountsCall (seen self.old) (seen self.new) }
        ensures cause { HasCause (faults self.old) (faults self.new) result };

    /// Hands out the disk of this path.
    fn disk(&mut self, path: &str) -> Result<Self::Disk, Failed>
        ensures told { HandsOutDisk Self.Disk.tells Self.Disk.shows Self.Disk.faults path.now (seen self.old).calls (seen self.old).told (seen self.new).told result }
        ensures counted { CountsCall (seen self.old) (seen self.new) }
        ensures cause { HasCause (faults self.old) (faults self.new) result };

    /// Takes back the port that was handed out under this number. It raises no count.
    fn take_port(&mut self, lane: u32, port: SealedPort<Self::Port>)
        ensures told { TakesBack lane (Self.Port.aside port) (seen self.old).told (seen self.new).told }
        ensures rest { LeavesRest (seen self.old) (seen self.new) }
        ensures calm { faults self.new ≡ faults self.old };

    /// Takes back the disk that was handed out under this path. It raises no count.
    fn take_disk(&mut self, path: &str, disk: Self::Disk)
        ensures told { TakesDiskBack path.now (record { value = Self.Disk.shows disk; faults = Self.Disk.faults disk }) (seen self.old).told (seen self.new).told }
        ensures rest { LeavesRest (seen self.old) (seen self.new) }
        ensures calm { faults self.new ≡ faults self.old };
}

impl<Y: Yard> KeepYard for Y {
    type Port = Y::Port;

    type Disk = Y::Disk;

    type Ending = Y::Ending;

    ghost seen = { Y.seen };

    ghost faults = { Y.faults };

    fn port(&mut self, lane: u32) -> Result<SealedPort<Y::Port>, Failed> {
        match <Y as Yard>::port(self, lane) {
            Ok(port) => Ok(SealedPort::new(port)),
            Err(failed) => Err(failed),
        }
    }

    fn disk(&mut self, path: &str) -> Result<Y::Disk, Failed> {
        <Y as Yard>::disk(self, path)
    }

    fn take_port(&mut self, lane: u32, port: SealedPort<Y::Port>)
        ensures told { TakesBack lane (Y.Port.aside port) (Y.seen self.old).told (Y.seen self.new).told }
        ensures rest { LeavesRest (Y.seen self.old) (Y.seen self.new) }
        ensures calm { Y.faults self.new ≡ Y.faults self.old }
    {
        <Y as Yard>::take_port(self, lane, port.into_port())
    }

    fn take_disk(&mut self, path: &str, disk: Y::Disk) {
        <Y as Yard>::take_disk(self, path, disk)
    }
}
