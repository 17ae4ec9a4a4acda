//! Prefixes of an UPDATE message (RFC 4271, section 4.3), with their path identifiers (RFC 7911, section 3).
ghost use Rattle.std.specs.Prelude.{◌≡◌, ◌≤◌, ◌<◌, ◌+◌, length, IfSome, IfNone, OnOk, OnErr};
ghost use Rattle.bmp_specs.specs.Number.{IsNumber};
ghost use Rattle.bmp_specs.specs.Prefix.{bytes_for};
ghost use Rattle.bmp_writer.specs.Written.{Appends, Keeps};
ghost use Rattle.bmp_writer.specs.WrittenNlri.{AreOwnNlri, IsId, IsOwnNlri, IsOwnPrefix, nlri_size, nlris_size};

use crate::draft::{Draft, Full};
use ip_prefix::{Nlri, Prefix};

/// A number in four octets, the highest first.
pub(crate) fn four_octets(number: u32) -> [u8; 4]
    ensures { IsNumber 4 result number }
{
    number.to_be_bytes()
}

// How many octets hold so many bits.
fn octets_for(bits: u8) -> usize
    requires { bits ≤ 128 }
    ensures { result ≡ bytes_for bits }
{
    (bits as usize + 7) / 8
}

// "Path Identifier", where there is one.
fn put_id(out: &mut Draft<'_>, id: Option<u32>) -> Result<(), Full>
    ensures ok { OnOk result (Appends (IsId id) out.old out.new) }
    ensures err { OnErr result (Keeps out.old out.new) }
{
    match id {
        Some(id) => out.extend(&four_octets(id)),
        None => Ok(()),
    }
}

// "Length" and "Prefix".
fn put_prefix(out: &mut Draft<'_>, prefix: &Prefix) -> Result<(), Full>
    ensures ok { OnOk result (Appends (IsOwnPrefix prefix.now) out.old out.new) }
    ensures err { OnErr result (Keeps out.old out.new) }
{
    let bits = prefix.bits();
    let octets = prefix.addr().octets();
    out.extend(&[bits])?;
    out.extend(&octets[..octets_for(bits)])
}

// One prefix, with its identifier where it has one.
fn put_nlri(out: &mut Draft<'_>, nlri: &Nlri) -> Result<(), Full>
    ensures ok { OnOk result (Appends (λ bytes. IsOwnNlri bytes nlri.now) out.old out.new) }
    ensures err { OnErr result (Keeps out.old out.new) }
{
    put_id(out, nlri.id)?;
    put_prefix(out, &nlri.prefix)
}

/// Appends the prefixes. Where there is no room fewer bytes stand after those of before.
pub(crate) fn put_nlris(out: &mut Draft<'_>, list: &[Nlri]) -> Result<(), Full>
    ensures ok { OnOk result (Appends (AreOwnNlri list.now) out.old out.new) }
    ensures err { OnErr result (Keeps out.old out.new) }
{
    for nlri in list {
        put_nlri(out, nlri)?;
    }
    Ok(())
}

// How many octets a prefix takes with its identifier.
fn size_of_nlri(nlri: &Nlri) -> usize
    ensures same { result ≡ nlri_size nlri.now }
    ensures some { 0 < result }
{
    let id = match nlri.id {
        Some(_) => 4,
        None => 0,
    };
    id + 1 + octets_for(nlri.prefix.bits())
}

/// What is left of so many octets after the prefixes. None exactly where they take more.
pub(crate) fn left_by_nlris(room: usize, list: &[Nlri]) -> Option<usize>
    ensures some { IfSome result (λ left. left + nlris_size list.now ≡ room) }
    ensures none { IfNone result (room < nlris_size list.now) }
{
    let mut left = room;
    for nlri in list {
        left = left.checked_sub(size_of_nlri(nlri))?;
    }
    Some(left)
}

/// How many octets the prefixes take.
pub(crate) fn size_of_nlris(list: &[Nlri]) -> usize
    requires { nlris_size list.now ≤ 65535 }
    ensures { result ≡ nlris_size list.now }
{
    match left_by_nlris(65535, list) {
        Some(left) => 65535 - left,
        // the premise bounds the size
        None => unreachable!(),
    }
}
