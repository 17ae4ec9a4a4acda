ghost use Rattle.std.specs.Prelude.{◌≡◌, IfOk};

use std::alloc::Global;
use wire_io::{ByteList, NoMemory};

// A list of these bytes.
pub(crate) fn bytes_of(alloc: Global, bytes: &[u8]) -> Result<ByteList, NoMemory>
    ensures { IfOk result (λ list. list ≡ bytes.now) }
{
    let mut list = ByteList::new(alloc);
    list.extend(bytes)?;
    Ok(list)
}
