ghost use Rattle.std.specs.Prelude.{◌≡◌, ◌≤◌, ◌<◌, ◌++◌, ℕ, List, Some, true, false, length, drop, IfSome, IfNone, OnOk};
ghost use Rattle.bmp_specs.specs.declared.wire.Family.{Family};
ghost use Rattle.bmp_specs.specs.AddressFamily.{uses_ids};
ghost use Rattle.bmp_specs.specs.Nlri.{AreNlri, IsNlri};
ghost use Rattle.bmp_specs.specs.Sequence.{HasFront};
ghost use Rattle.bmp_specs.specs.Values.{NlriValue};

use crate::list::NlriList;
use bmp_specs::IdUse;
use byteorder::{BigEndian, ByteOrder};
use ip_prefix::{Family, Nlri, Prefix};
use wire_io::NoMemory;

/// The bytes of a "Path Identifier" (RFC 7911, section 3).
pub(crate) const PATH_IDENTIFIER: usize = 4;

// Whether prefixes of the family have path identifiers.
pub(crate) fn uses_ids(ids: IdUse, family: Family) -> bool
    ensures { result ≡ uses_ids ids family }
{
    match family {
        Family::V4 => ids.v4,
        Family::V6 => ids.v6,
    }
}

// Reads a prefix without identifier from the front, and how many bytes it takes (RFC 4271, section 4.3).
fn read_bare(family: Family, input: &[u8]) -> Option<(Nlri, usize)>
    ensures found { IfSome result (λ found. HasFront (IsNlri family false) input.now found.0 (drop found.1 input.now)) }
    ensures some { IfSome result (λ found. 0 < found.1) }
    ensures within { IfSome result (λ found. found.1 ≤ length input.now) }
    ensures none { IfNone result ((n : NlriValue) (rest : List ℕ) → HasFront (IsNlri family false) input.now n rest → ⊥) }
{
    match Prefix::from_wire(family, input) {
        Some((prefix, size)) => Some((Nlri { prefix, id: None }, size)),
        None => None,
    }
}

// Reads a path identifier and a prefix from the front, and how many bytes they take (RFC 7911, section 3).
fn read_identified(family: Family, input: &[u8]) -> Option<(Nlri, usize)>
    ensures found { IfSome result (λ found. HasFront (IsNlri family true) input.now found.0 (drop found.1 input.now)) }
    ensures some { IfSome result (λ found. 0 < found.1) }
    ensures within { IfSome result (λ found. found.1 ≤ length input.now) }
    ensures none { IfNone result ((n : NlriValue) (rest : List ℕ) → HasFront (IsNlri family true) input.now n rest → ⊥) }
{
    if input.len() < PATH_IDENTIFIER {
        return None;
    }
    let (id, after) = input.split_at(PATH_IDENTIFIER);
    match Prefix::from_wire(family, after) {
        Some((prefix, size)) => {
            let id = Some(BigEndian::read_u32(id));
            Some((Nlri { prefix, id }, size + PATH_IDENTIFIER))
        }
        None => None,
    }
}

// Reads one item from the front, and how many bytes it takes.
fn read_item(family: Family, identified: bool, input: &[u8]) -> Option<(Nlri, usize)>
    ensures found { IfSome result (λ found. HasFront (IsNlri family identified) input.now found.0 (drop found.1 input.now)) }
    ensures some { IfSome result (λ found. 0 < found.1) }
    ensures within { IfSome result (λ found. found.1 ≤ length input.now) }
    ensures none { IfNone result ((n : NlriValue) (rest : List ℕ) → HasFront (IsNlri family identified) input.now n rest → ⊥) }
{
    match identified {
        false => read_bare(family, input),
        true => read_identified(family, input),
    }
}

// Appends the IPv4 prefixes without identifiers that stand in these bytes, up to bytes that are none. Most prefixes
// are such ones, and in a loop of their own nothing is asked about them.
fn add_plain_v4(list: &mut NlriList, bytes: &[u8]) -> Result<(), NoMemory>
    ensures { OnOk result ((ns : List NlriValue) → AreNlri Family.V4 false bytes.now ns → list.new ≡ list.old ++ ns) }
{
    let mut rest = bytes;
    while let Some((prefix, size)) = Prefix::v4_from_wire(rest) {
        list.push(Nlri { prefix, id: None })?;
        let (_, after) = rest.split_at(size);
        rest = after;
    }
    Ok(())
}

// Appends the items that stand in these bytes, up to bytes that are none.
pub(crate) fn add_items(
    list: &mut NlriList,
    family: Family,
    identified: bool,
    bytes: &[u8],
) -> Result<(), NoMemory>
    ensures { OnOk result ((ns : List NlriValue) → AreNlri family identified bytes.now ns → list.new ≡ list.old ++ ns) }
{
    if family == Family::V4 && !identified {
        return add_plain_v4(list, bytes);
    }
    let mut rest = bytes;
    while let Some((nlri, size)) = read_item(family, identified, rest) {
        list.push(nlri)?;
        let (_, after) = rest.split_at(size);
        rest = after;
    }
    Ok(())
}
