ghost use Rattle.std.specs.Prelude.{◌≡◌};
ghost use Rattle.wire_io.specs.Faults.{HasCause};
ghost use Rattle.disk_doors.specs.Images.{settled};
ghost use Rattle.disk_doors.specs.Put.{Puts};

use crate::Disk;
use wire_io::Failed;

/// Writes the piece at this place and syncs. Condition: all of the file is kept, where the disk tells. A crash at any moment
/// of it leaves the file with at most this range, and what lies past its end, changed; after Ok all is kept. It fails only
/// where the disk does. It makes at most two calls of the disk.
pub fn put<D: Disk>(disk: &mut D, place: u64, piece: &[u8]) -> Result<(), Failed>
    requires { D.tells → (D.shows disk.old).now ≡ settled (D.shows disk.old).now.file }
    ensures told { D.tells → Puts (D.shows disk.old) (D.shows disk.new) place piece.now result }
    ensures cause { HasCause (D.faults disk.old) (D.faults disk.new) result }
{
    disk.write_at(place, piece)?;
    disk.sync()
}
