//! MP_REACH_NLRI and MP_UNREACH_NLRI (RFC 4760, sections 3 and 4).
ghost use Rattle.std.specs.Prelude.{◌≡◌, ◌≤◌, ◌<◌, ◌+◌, [], ◌∷◌, ◌++◌, length, IfSome, IfNone, OnOk, OnErr};
ghost use Rattle.byteorder.specs.Endian.{big_bytes};
ghost use Rattle.bmp_specs.specs.AddressFamily.{afi_of, unicast};
ghost use Rattle.bmp_writer.specs.Written.{Appends, Keeps};
ghost use Rattle.bmp_writer.specs.WrittenAttributes.{IsReach, IsReachValue, IsUnreach, IsUnreachValue, listed_size};
ghost use Rattle.bmp_writer.specs.WrittenNlri.{nlris_size};
ghost use Rattle.bmp_writer.specs.WrittenUpdate.{HasRoom, reach_size, unreach_size};

use crate::attributes::{OPTIONAL, put_head};
use crate::draft::{Draft, Full};
use crate::nlri::{left_by_nlris, put_nlris, size_of_nlris};
use ip_prefix::{Family, Nlri};
use path_attrs::{MP_REACH_NLRI, MP_UNREACH_NLRI};

// "Address Family Identifier" and "Subsequent Address Family Identifier", that of unicast.
fn family_octets(family: Family) -> [u8; 3]
    ensures { result ≡ big_bytes 2 (afi_of family) ++ unicast ∷ [] }
{
    match family {
        Family::V4 => [0, 1, 1],
        Family::V6 => [0, 2, 1],
    }
}

// The value of MP_REACH_NLRI.
fn put_reach_value(
    out: &mut Draft<'_>,
    family: Family,
    hop: &[u8],
    list: &[Nlri],
) -> Result<(), Full>
    requires { length hop.now ≤ 255 }
    ensures ok { OnOk result (Appends (IsReachValue family hop.now list.now) out.old out.new) }
    ensures err { OnErr result (Keeps out.old out.new) }
{
    out.extend(&family_octets(family))?;
    out.extend(&[hop.len() as u8])?;
    out.extend(hop)?;
    out.extend(&[0])?;
    put_nlris(out, list)
}

/// MP_REACH_NLRI, where there are prefixes. Where there is no room fewer bytes stand after those of before.
pub(crate) fn put_reach(
    out: &mut Draft<'_>,
    family: Family,
    hop: &[u8],
    list: &[Nlri],
) -> Result<(), Full>
    requires hop { HasRoom list.now hop.now }
    requires fits { reach_size hop.now list.now ≤ 65535 }
    ensures ok { OnOk result (Appends (IsReach family hop.now list.now) out.old out.new) }
    ensures err { OnErr result (Keeps out.old out.new) }
{
    if list.is_empty() {
        return Ok(());
    }
    let size = 5 + hop.len() + size_of_nlris(list);
    put_head(out, OPTIONAL, MP_REACH_NLRI, size)?;
    put_reach_value(out, family, hop, list)
}

// The value of MP_UNREACH_NLRI.
fn put_unreach_value(out: &mut Draft<'_>, family: Family, list: &[Nlri]) -> Result<(), Full>
    ensures ok { OnOk result (Appends (IsUnreachValue family list.now) out.old out.new) }
    ensures err { OnErr result (Keeps out.old out.new) }
{
    out.extend(&family_octets(family))?;
    put_nlris(out, list)
}

/// MP_UNREACH_NLRI, where there are prefixes. Where there is no room fewer bytes stand after those of before.
pub(crate) fn put_unreach(out: &mut Draft<'_>, family: Family, list: &[Nlri]) -> Result<(), Full>
    requires { unreach_size list.now ≤ 65535 }
    ensures ok { OnOk result (Appends (IsUnreach family list.now) out.old out.new) }
    ensures err { OnErr result (Keeps out.old out.new) }
{
    if list.is_empty() {
        return Ok(());
    }
    put_head(out, OPTIONAL, MP_UNREACH_NLRI, 3 + size_of_nlris(list))?;
    put_unreach_value(out, family, list)
}

// What is left of so many octets after an attribute whose value has these prefixes after so many octets. None exactly
// where it takes more.
fn left_by_multi(room: usize, before: usize, list: &[Nlri]) -> Option<usize>
    ensures some { IfSome result (λ left. left + listed_size before nlris_size list.now ≡ room) }
    ensures none { IfNone result (room < listed_size before nlris_size list.now) }
{
    if list.is_empty() {
        return Some(room);
    }
    let left = left_by_nlris(room, list)?;
    let left = left.checked_sub(before)?;
    left.checked_sub(if room - left > 255 { 4 } else { 3 })
}

/// What is left of so many octets after MP_REACH_NLRI. None exactly where it takes more.
pub(crate) fn left_by_reach(room: usize, hop: &[u8], list: &[Nlri]) -> Option<usize>
    requires { HasRoom list.now hop.now }
    ensures some { IfSome result (λ left. left + reach_size hop.now list.now ≡ room) }
    ensures none { IfNone result (room < reach_size hop.now list.now) }
{
    if list.is_empty() {
        return Some(room);
    }
    left_by_multi(room, 5 + hop.len(), list)
}

/// What is left of so many octets after MP_UNREACH_NLRI. None exactly where it takes more.
pub(crate) fn left_by_unreach(room: usize, list: &[Nlri]) -> Option<usize>
    ensures some { IfSome result (λ left. left + unreach_size list.now ≡ room) }
    ensures none { IfNone result (room < unreach_size list.now) }
{
    left_by_multi(room, 3, list)
}
