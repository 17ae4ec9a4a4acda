ghost use Rattle.std.specs.Prelude.{IfErr};
ghost use Rattle.disk_doors.specs.Disk.{Rests};
ghost use Rattle.feed_archive.specs.Recovering.{Recovers, RecoverCause, FaultPlanned};

use crate::RecoverFault;
use crate::scanning::scan;
use disk_doors::Disk;
use std::alloc::Global;
use wire_io::ByteList;

/// Gives the content of the archive. It looks at the first 2^31 bytes of the file alone, and writes and syncs nothing.
///
/// `TooLong` comes exactly where the file has more than these and these aren't an archive, `Damaged` where it has no more
/// and isn't one; its offset is that of the first record that isn't whole or right, or the size where no byte closes the
/// archive. `Failed` comes only where the disk failed.
pub fn recover<D: Disk>(alloc: Global, disk: &mut D) -> Result<ByteList, RecoverFault>
    ensures told { D.tells → Recovers (D.shows disk.old).now.file result }
    ensures planned { D.tells → IfErr result (FaultPlanned (D.shows disk.old)) }
    ensures rests { D.tells → Rests (D.shows disk.old) (D.shows disk.new) }
    ensures cause { RecoverCause (D.faults disk.old) (D.faults disk.new) result }
{
    match scan(alloc, disk) {
        Ok(scanned) => Ok(scanned.content),
        Err(fault) => Err(fault),
    }
}
