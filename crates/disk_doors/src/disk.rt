ghost use Rattle.std.specs.Io.{ReadsAtMost};
ghost use Rattle.wire_io.specs.Faults.{HasCause};
ghost use Rattle.disk_doors.specs.Disk.{DiskValue, Sizes, ReadsAt, WritesAt, Syncs};

use wire_io::Failed;

/// One file, of which a crash may leave any image of the moment. It counts its faults, and a call answers `Failed`
/// only where the count rose by one in it.
pub trait Disk {
    ghost use Rattle.std.specs.Prelude.{ℕ};

    /// It tells what it holds. Disks in memory do, real ones don't.
    ghost tells: { Type 0 };

    /// What it tells: its moments, which calls fail, and its room.
    ghost shows: { Self → DiskValue };

    /// The count of faults. It never falls.
    ghost faults: { Self → ℕ };

    /// How many bytes the file has.
    fn size(&mut self) -> Result<u64, Failed>
        ensures told { tells → Sizes (shows self.old) (shows self.new) result }
        ensures cause { HasCause (faults self.old) (faults self.new) result };

    /// Gives the bytes from this place on: as many as the file has there and the buffer holds.
    fn read_at(&mut self, place: u64, buf: &mut [u8]) -> Result<usize, Failed>
        ensures bound { ReadsAtMost result buf.new }
        ensures told { tells → ReadsAt (shows self.old) (shows self.new) place result buf.new }
        ensures cause { HasCause (faults self.old) (faults self.new) result };

    /// Writes the piece over what stands at this place, and past the end. A write that failed may have written
    /// any part of it.
    fn write_at(&mut self, place: u64, piece: &[u8]) -> Result<(), Failed>
        ensures told { tells → WritesAt (shows self.old) (shows self.new) place piece.now result }
        ensures cause { HasCause (faults self.old) (faults self.new) result };

    /// Syncs the file. After Ok a crash leaves it as it reads, and nothing else.
    fn sync(&mut self) -> Result<(), Failed>
        ensures told { tells → Syncs (shows self.old) (shows self.new) result }
        ensures cause { HasCause (faults self.old) (faults self.new) result };
}
