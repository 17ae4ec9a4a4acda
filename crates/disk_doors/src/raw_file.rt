ghost use Rattle.std.specs.Prelude.{OnErr};
ghost use Rattle.std.specs.Io.{ReadsAtMost};
ghost use Rattle.disk_doors.specs.Disk.{DiskValue, Sizes, ReadsAt, WritesAt, Syncs, nothing};
ghost use Rattle.disk_doors.specs.RawFile.{ReadsPart, FailsOn, answer_of};

use std::fs::File;
use std::io;
use std::os::unix::fs::FileExt;

/// A file by the calls that a disk makes of it.
///
/// A file that tells shows contracts what a disk shows, and the calls of its plan are those of the disk over it. A file of
/// the system tells nothing: that it does what is said here is a premise.
pub trait RawFile {
    /// It tells what it holds. A file of the system doesn't.
    ghost tells: { Type 0 };

    /// What it tells.
    ghost shows: { Self → DiskValue };

    /// How many bytes the file has.
    fn size(&mut self) -> io::Result<u64>
        ensures told { tells → Sizes (shows self.old) (shows self.new) (answer_of result) };

    /// Reads once from this place on. It may give fewer bytes than the file has there, but none only where the file ends
    /// there or the buffer has no room.
    fn read_part(&mut self, place: u64, buf: &mut [u8]) -> io::Result<usize>
        ensures bound { ReadsAtMost result buf.new }
        ensures told { tells → ReadsPart (shows self.old) (shows self.new) place (answer_of result) buf.new };

    /// Writes the whole piece over what stands at this place, and past the end. A write that failed may have written
    /// any part of it.
    fn write_whole(&mut self, place: u64, piece: &[u8]) -> io::Result<()>
        ensures told { tells → WritesAt (shows self.old) (shows self.new) place piece.now (answer_of result) };

    /// Syncs the file. After Ok a crash leaves it as it reads. After one that failed the system may have dropped what was
    /// written, and call the next sync done, so the disk makes no further call: the plan of a file that tells fails each.
    fn sync(&mut self) -> io::Result<()>
        ensures told { tells → Syncs (shows self.old) (shows self.new) (answer_of result) }
        ensures lost { tells → OnErr result (FailsOn (shows self.new)) };
}

// The most times that a read is made which signals break off.
const MOST_TRIES: u32 = 1_000_000;

// Each body is one call of std. Contracts see nothing of what it does.
impl RawFile for File {
    ghost tells = { ⊥ };

    ghost shows = { λ _. nothing };

    fn size(&mut self) -> io::Result<u64> {
        Ok(self.metadata()?.len())
    }

    // A read that a signal broke off is made again.
    fn read_part(&mut self, place: u64, buf: &mut [u8]) -> io::Result<usize> {
        for _ in 0..MOST_TRIES {
            match self.read_at(buf, place) {
                Ok(count) => return Ok(count),
                Err(error) => {
                    if error.kind() != io::ErrorKind::Interrupted {
                        return Err(error);
                    }
                }
            }
        }
        Err(io::ErrorKind::Interrupted.into())
    }

    fn write_whole(&mut self, place: u64, piece: &[u8]) -> io::Result<()> {
        self.write_all_at(piece, place)
    }

    fn sync(&mut self) -> io::Result<()> {
        self.sync_all()
    }
}

/// Reads from this place on until the buffer is full or the file ends.
pub(crate) fn fill<F: RawFile>(file: &mut F, place: u64, buf: &mut [u8]) -> io::Result<usize>
    ensures bound { ReadsAtMost result buf.new }
    ensures told { F.tells → ReadsAt (F.shows file.old) (F.shows file.new) place (answer_of result) buf.new }
{
    let mut done = 0;
    'parts: loop {
        let count = file.read_part(place.saturating_add(done as u64), &mut buf[done..])?;
        if count == 0 {
            return Ok(done);
        }
        done += count;
        if done == buf.len() {
            return Ok(done);
        }
    }
}
