ghost use Rattle.std.specs.Prelude.{◌≡◌, ◌<◌, ◌≤◌, true, false, length, map};
ghost use Rattle.std.specs.Option.{option_map};
ghost use Rattle.station_doors.specs.Files.{ReadsWhole, file_at, most_file};
ghost use Rattle.station_doors.specs.MemYard.{file_value};

use std::alloc::Global;
use std::io::Read;
use wire_io::ByteList;

/// The most bytes of a file that a yard gives: 2^26.
const MOST_FILE: usize = 67_108_864;

/// Why a yard gave no file.
#[derive(Clone, Copy, Debug, PartialEq, Eq)]
pub enum FileFault {
    /// There is no such file, or it couldn't be read. The yard's count of faults has risen by one.
    Failed,

    /// The file has more than 2^26 bytes.
    TooLong,

    /// Out of memory.
    NoMemory,
}

// A file of a yard in memory.
#[derive(Drop)]
pub(crate) struct MemFile {
    pub(crate) path: ByteList,
    pub(crate) bytes: ByteList,
}

// The bytes of the first file of this path.
pub(crate) fn content<'a>(files: &'a [MemFile], path: &[u8]) -> Option<&'a ByteList>
    ensures { option_map (λ b. b.now) result ≡ file_at path.now (map file_value files.now) }
{
    for file in files {
        if file.path.as_slice() == path {
            return Some(&file.bytes);
        }
    }
    None
}

// Whether these are more bytes than a file may have.
pub(crate) fn is_too_long(bytes: &[u8]) -> bool
    ensures more { result ≡ true → most_file < length bytes.now }
    ensures fits { result ≡ false → length bytes.now ≤ most_file }
{
    bytes.len() > MOST_FILE
}

// Reads all that the input has, or up to 65,536 bytes past the most that a file may have.
pub(crate) fn read_whole<R: Read>(alloc: Global, input: &mut R) -> Result<ByteList, FileFault>
    ensures { ReadsWhole (R.remaining input.old) result }
{
    let mut bytes = ByteList::new(alloc);
    let mut buf = [0u8; 65_536];
    'reads: for _ in 0..u64::MAX {
        let Ok(count) = input.read(&mut buf) else {
            return Err(FileFault::Failed);
        };
        if count == 0 {
            return Ok(bytes);
        }
        let Ok(()) = bytes.extend(&buf[..count]) else {
            return Err(FileFault::NoMemory);
        };
        if is_too_long(bytes.as_slice()) {
            return Err(FileFault::TooLong);
        }
    }
    Err(FileFault::Failed)
}
