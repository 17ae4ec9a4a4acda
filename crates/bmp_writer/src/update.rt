//! An UPDATE message (RFC 4271, section 4.3): where its prefixes stand, and its bytes.
ghost use Rattle.std.specs.Prelude.{◌≡◌, ◌≤◌, ◌<◌, ◌+◌, [], length, IfSome, IfNone, OnOk, OnErr, ◌++◌, ◌∷◌, not};
ghost use Rattle.byteorder.specs.Endian.{big_bytes};
ghost use Rattle.bmp_specs.specs.BgpMessage.{marker, update_type};
ghost use Rattle.bmp_writer.specs.Written.{Appends, Keeps};
ghost use Rattle.bmp_writer.specs.WrittenAttributes.{IsFront, front_size};
ghost use Rattle.bmp_writer.specs.WrittenNlri.{AreOwnNlri, nlris_size};
ghost use Rattle.bmp_writer.specs.WrittenUpdate.{CanPlace, CanTell, HasRoom, IsCountedOf, IsField, IsUpdateOf, counted, field_size, hop_bytes, is_plain as plain_of, of_v4 as at_v4, of_v6 as at_v6, others_of as others_at, places, told_of, update_size, where_so};

use crate::draft::{Draft, Full};
use crate::front::{left_by_front, put_origin_to_communities};
use crate::multi::{left_by_reach, left_by_unreach, put_reach, put_unreach};
use crate::nlri::{left_by_nlris, put_nlris, size_of_nlris};
use crate::others::{left_by_others, put_others};
use bgp_open::UPDATE_MESSAGE;
use ip_prefix::{Family, Nlri};
use path_attrs::{Attrs, Other};
use wire_io::ByteList;

/// The bytes of an UPDATE message that has nothing: its header, and two lengths.
const SHORTEST: usize = 23;

/// The bytes of the longest (RFC 8654, section 3).
const LONGEST: usize = 65535;

/// Whether announcements stand in "Network Layer Reachability Information".
pub(crate) fn is_plain(family: Family, hop: &Option<ByteList>) -> bool
    ensures { result ≡ plain_of family hop.now }
{
    if family == Family::V6 {
        return false;
    }
    match hop {
        Some(hop) => hop.as_slice().len() == 4,
        None => true,
    }
}

// The prefixes, where they are of IPv4.
fn of_v4(family: Family, list: &[Nlri]) -> &[Nlri]
    ensures { result.now ≡ at_v4 family list.now }
{
    match family {
        Family::V4 => list,
        Family::V6 => &[],
    }
}

// The prefixes, where they are of IPv6.
fn of_v6(family: Family, list: &[Nlri]) -> &[Nlri]
    ensures { result.now ≡ at_v6 family list.now }
{
    match family {
        Family::V4 => &[],
        Family::V6 => list,
    }
}

/// The prefixes, where it is so.
pub(crate) fn where_there(there: bool, list: &[Nlri]) -> &[Nlri]
    ensures { result.now ≡ where_so there list.now }
{
    if there { list } else { &[] }
}

/// The bytes of the next hop.
pub(crate) fn hop_octets(hop: &Option<ByteList>) -> &[u8]
    ensures { result.now ≡ hop_bytes hop.now }
{
    match hop {
        Some(hop) => hop.as_slice(),
        None => &[],
    }
}

// The attributes that are kept as they came, where a prefix is announced.
fn told_others<'a>(announced: &[Nlri], attrs: &'a Attrs) -> &'a [Other]
    ensures { result.now ≡ others_at announced.now attrs.now }
{
    if announced.is_empty() {
        return &[];
    }
    attrs.others.as_slice()
}

// The attributes of types 1 to 8, where a prefix is announced.
fn put_told(out: &mut Draft<'_>, attrs: &Attrs, plain: bool, announced: &[Nlri]) -> Result<(), Full>
    requires { CanTell (told_of plain announced.now attrs.now) }
    ensures ok { OnOk result (Appends (IsFront (told_of plain announced.now attrs.now)) out.old out.new) }
    ensures err { OnErr result (Keeps out.old out.new) }
{
    if announced.is_empty() {
        return Ok(());
    }
    put_origin_to_communities(out, attrs, plain)
}

// What is left of so many octets after these. None exactly where they take more.
fn left_by_told(room: usize, attrs: &Attrs, plain: bool, announced: &[Nlri]) -> Option<usize>
    ensures some { IfSome result (λ left. left + front_size (told_of plain announced.now attrs.now) ≡ room) }
    ensures none { IfNone result (room < front_size (told_of plain announced.now attrs.now)) }
{
    if announced.is_empty() {
        return Some(room);
    }
    left_by_front(room, attrs, plain)
}

// What is left of so many octets after all attributes. None exactly where they take more.
fn left_by_field(
    room: usize,
    family: Family,
    withdrawn: &[Nlri],
    announced: &[Nlri],
    attrs: &Attrs,
) -> Option<usize>
    requires { HasRoom (where_so (not (plain_of family attrs.now.hop)) announced.now) (hop_bytes attrs.now.hop) }
    ensures some { IfSome result (λ left. left + field_size (places family withdrawn.now announced.now attrs.now) ≡ room) }
    ensures none { IfNone result (room < field_size (places family withdrawn.now announced.now attrs.now)) }
{
    let plain = is_plain(family, &attrs.hop);
    let left = left_by_told(room, attrs, plain, announced)?;
    let left = left_by_reach(left, hop_octets(&attrs.hop), where_there(!plain, announced))?;
    let left = left_by_unreach(left, of_v6(family, withdrawn))?;
    left_by_others(left, told_others(announced, attrs))
}

/// What is left of 65,535 octets after the message. None exactly where it takes more.
pub(crate) fn left_by_update(
    family: Family,
    withdrawn: &[Nlri],
    announced: &[Nlri],
    attrs: &Attrs,
) -> Option<usize>
    requires { HasRoom (where_so (not (plain_of family attrs.now.hop)) announced.now) (hop_bytes attrs.now.hop) }
    ensures some { IfSome result (λ left. left + update_size (places family withdrawn.now announced.now attrs.now) ≡ 65535) }
    ensures none { IfNone result (65535 < update_size (places family withdrawn.now announced.now attrs.now)) }
{
    let plain = is_plain(family, &attrs.hop);
    let left = left_by_nlris(LONGEST - SHORTEST, of_v4(family, withdrawn))?;
    let left = left_by_field(left, family, withdrawn, announced, attrs)?;
    left_by_nlris(left, where_there(plain, announced))
}

/// How many octets the message takes, whose attributes take so many.
pub(crate) fn size_of_update(
    family: Family,
    withdrawn: &[Nlri],
    announced: &[Nlri],
    attrs: &Attrs,
    field: usize,
) -> usize
    requires can { CanPlace (places family withdrawn.now announced.now attrs.now) }
    requires field { field ≡ field_size (places family withdrawn.now announced.now attrs.now) }
    ensures { result ≡ update_size (places family withdrawn.now announced.now attrs.now) }
{
    let before = size_of_nlris(of_v4(family, withdrawn));
    let plain = is_plain(family, &attrs.hop);
    let after = size_of_nlris(where_there(plain, announced));
    SHORTEST + before + field + after
}

/// "Path Attributes". Where there is no room fewer bytes stand after those of before.
pub(crate) fn put_field(
    out: &mut Draft<'_>,
    family: Family,
    withdrawn: &[Nlri],
    announced: &[Nlri],
    attrs: &Attrs,
) -> Result<(), Full>
    requires { CanPlace (places family withdrawn.now announced.now attrs.now) }
    ensures ok { OnOk result (Appends (IsField family (places family withdrawn.now announced.now attrs.now)) out.old out.new) }
    ensures err { OnErr result (Keeps out.old out.new) }
{
    let plain = is_plain(family, &attrs.hop);
    put_told(out, attrs, plain, announced)?;
    put_reach(
        out,
        family,
        hop_octets(&attrs.hop),
        where_there(!plain, announced),
    )?;
    put_unreach(out, family, of_v6(family, withdrawn))?;
    put_others(out, told_others(announced, attrs))
}

// "Path Attributes", which are these, after their length.
fn put_counted_field(out: &mut Draft<'_>, field: &[u8]) -> Result<(), Full>
    requires { length field.now ≤ 65535 }
    ensures ok { OnOk result (out.new ≡ out.old ++ counted field.now) }
    ensures err { OnErr result (Keeps out.old out.new) }
{
    let size = field.len() as u16;
    out.extend(&size.to_be_bytes())?;
    out.extend(field)
}

// "Withdrawn Routes" after their length.
fn put_counted_nlris(out: &mut Draft<'_>, list: &[Nlri]) -> Result<(), Full>
    requires { nlris_size list.now ≤ 65535 }
    ensures ok { OnOk result (Appends (IsCountedOf (AreOwnNlri list.now)) out.old out.new) }
    ensures err { OnErr result (Keeps out.old out.new) }
{
    let size = size_of_nlris(list) as u16;
    out.extend(&size.to_be_bytes())?;
    put_nlris(out, list)
}

// "Marker", "Length" and "Type" (RFC 4271, section 4.1).
fn header(size: u16) -> [u8; 19]
    ensures { result ≡ marker ++ (big_bytes 2 size ++ update_type ∷ []) }
{
    let [a, b] = size.to_be_bytes();
    [
        255,
        255,
        255,
        255,
        255,
        255,
        255,
        255,
        255,
        255,
        255,
        255,
        255,
        255,
        255,
        255,
        a,
        b,
        UPDATE_MESSAGE,
    ]
}

/// Appends the message, which has these attributes and this size. Where there is no room fewer bytes stand after those of
/// before.
pub(crate) fn put_update(
    out: &mut Draft<'_>,
    family: Family,
    withdrawn: &[Nlri],
    announced: &[Nlri],
    attrs: &Attrs,
    field: &[u8],
    size: usize,
) -> Result<(), Full>
    requires can { CanPlace (places family withdrawn.now announced.now attrs.now) }
    requires field { IsField family (places family withdrawn.now announced.now attrs.now) field.now }
    requires size { size ≡ update_size (places family withdrawn.now announced.now attrs.now) }
    ensures ok { OnOk result (Appends (IsUpdateOf family (places family withdrawn.now announced.now attrs.now)) out.old out.new) }
    ensures err { OnErr result (Keeps out.old out.new) }
{
    let plain = is_plain(family, &attrs.hop);
    out.extend(&header(size as u16))?;
    put_counted_nlris(out, of_v4(family, withdrawn))?;
    put_counted_field(out, field)?;
    put_nlris(out, where_there(plain, announced))
}
