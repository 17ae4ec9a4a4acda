//! The disks of a yard in memory, by path.

ghost use Rattle.std.specs.Prelude.{◌≡◌, ◌<◌, None, Some, IfSome, IfNone, OnOk, OnErr, All, IsTrue, false, true, length, map, position, slice_index, slice_get};
ghost use Rattle.station_doors.specs.Disks.{disk_at, file_of, put_at, with_disk};
ghost use Rattle.station_doors.specs.Doors.{DiskShown};
ghost use Rattle.station_doors.specs.MemYard.{shown_of, slot_value};
ghost use Rattle.station_doors.specs.Paths.{same_path};

use disk_doors::MemDisk;
use wire_io::{ByteList, NoMemory};

// A disk under a path, none where it was handed out and not given back since.
#[derive(Drop)]
pub(crate) struct Slot {
    pub(crate) path: ByteList,
    pub(crate) disk: Option<MemDisk>,
}

// Whether the slot is that of the path.
fn is_at(slot: &Slot, path: &[u8]) -> bool
    ensures { result ≡ same_path slot.now.path path.now }
{
    slot.path.as_slice() == path
}

// The first place of a path.
fn place_at(slots: &[Slot], path: &[u8]) -> Option<usize>
    ensures place { result ≡ position (λ s. same_path s.path path.now) slots.now }
    ensures some { IfSome result (λ i. i < length slots.now) }
    ensures none { IfNone result (All (λ s. same_path s.path path.now ≡ false) slots.now) }
{
    slots.iter().position(|slot| is_at(slot, path))
}

// Lends the bytes of the disk that stands under the path. There are none where no disk stands there.
pub(crate) fn bytes_at<'a>(slots: &'a [Slot], path: &[u8]) -> &'a [u8]
    ensures { result.now ≡ file_of (disk_at path.now (map slot_value slots.now)) }
{
    match place_at(slots, path) {
        Some(place) => match &slots[place].disk {
            Some(disk) => disk.bytes(),
            None => &[],
        },
        None => &[],
    }
}

// Hands out the disk that stands under the path.
pub(crate) fn lend(slots: &mut [Slot], path: &[u8]) -> Option<MemDisk>
    ensures stood { IfSome result (λ d. disk_at path.now (map slot_value slots.old) ≡ Some (Some (shown_of d))) }
    ensures lent { IfSome result (λ d. map slot_value slots.new ≡ with_disk path.now None (map slot_value slots.old)) }
    ensures none { IfNone result ((shown : DiskShown) → disk_at path.now (map slot_value slots.old) ≡ Some (Some shown) → ⊥) }
    ensures kept { IfNone result (map slot_value slots.new ≡ map slot_value slots.old) }
{
    match place_at(slots, path) {
        Some(place) => slots[place].disk.take(),
        None => None,
    }
}

// Takes back the disk that was handed out under the path. It is dropped where none was.
pub(crate) fn put_back(slots: &mut [Slot], path: &[u8], disk: MemDisk)
    ensures lent { disk_at path.now (map slot_value slots.old) ≡ Some None → map slot_value slots.new ≡ with_disk path.now (Some (shown_of disk)) (map slot_value slots.old) }
    ensures dropped { (disk_at path.now (map slot_value slots.old) ≡ Some None → ⊥) → map slot_value slots.new ≡ map slot_value slots.old }
{
    match place_at(slots, path) {
        Some(place) => {
            if slots[place].disk.is_none() {
                slots[place].disk = Some(disk);
            }
        }
        None => {}
    }
}

// Puts the disk under the path, in the place of what stood there. Out of memory, nothing changed.
pub(crate) fn put(slots: &mut Vec<Slot>, path: &[u8], disk: MemDisk) -> Result<(), NoMemory>
    ensures ok { OnOk result (map slot_value slots.new.items ≡ put_at path.now (shown_of disk) (map slot_value slots.old.items)) }
    ensures err { OnErr result (map slot_value slots.new.items ≡ map slot_value slots.old.items) }
{
    match place_at(slots.as_slice(), path) {
        Some(place) => {
            slots[place].disk = Some(disk);
            Ok(())
        }
        None => {
            let mut name = ByteList::new(*slots.allocator());
            name.extend(path)?;
            slots.push(Slot {
                path: name,
                disk: Some(disk),
            })?;
            Ok(())
        }
    }
}
