ghost use Rattle.disk_doors.specs.Disk.{Lasts};
ghost use Rattle.feed_archive.specs.Creating.{CreateCalls, CreateCause, CreatePlanned, Creates};

use crate::CreateFault;
use disk_doors::Disk;

/// Makes the archive with no content, which is the one byte 0, of a file with no bytes: it writes that byte and then
/// syncs, once each, and makes at most three calls of the disk. It is kept after Ok; nothing is said of a crash before
/// that. `NotEmpty` comes exactly where the file has a byte and no call fails. A disk whose file has a byte is left as it
/// was, also where a call failed.
///
/// After `Failed` a file that had no bytes has none still, where nothing was written; or it has the byte 0, where the sync
/// failed; or, where the write failed, what a failed write of that byte leaves.
pub fn create<D: Disk>(disk: &mut D) -> Result<(), CreateFault>
    ensures told { D.tells → Creates (D.shows disk.old) (D.shows disk.new) result }
    ensures calls { D.tells → CreateCalls (D.shows disk.old) (D.shows disk.new) result }
    ensures lasts { D.tells → Lasts (D.shows disk.old) (D.shows disk.new) }
    ensures planned { D.tells → CreatePlanned (D.shows disk.old) result }
    ensures cause { CreateCause (D.faults disk.old) (D.faults disk.new) result }
{
    if disk.size()? != 0 {
        return Err(CreateFault::NotEmpty);
    }
    disk.write_at(0, &[0])?;
    disk.sync()?;
    Ok(())
}
