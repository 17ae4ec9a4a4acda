//! Path attributes of an UPDATE message whose values are short (RFC 4271, section 4.3).
ghost use Rattle.std.specs.Prelude.{◌≡◌, ◌≤◌, ◌<◌, ◌+◌, ◌*◌, [], ◌∷◌, ◌++◌, length, IfSome, IfNone, OnOk, OnErr};
ghost use Rattle.bmp_specs.specs.declared.wire.Width.{Width};
ghost use Rattle.bmp_specs.specs.Attribute.{IsAttribute};
ghost use Rattle.bmp_specs.specs.Attributes.{IsAggregator, IsAtomic, Optional, aggregator as aggregator_type, atomic_aggregate, communities as communities_type, next_hop, origin as origin_type};
ghost use Rattle.bmp_specs.specs.Number.{IsNumber};
ghost use Rattle.bmp_specs.specs.Parts.{AreParts};
ghost use Rattle.bmp_specs.specs.Sequence.{IsField};
ghost use Rattle.bmp_writer.specs.Written.{Appends, Keeps};
ghost use Rattle.bmp_writer.specs.WrittenAttributes.{AreSomeCommunities, HasHop, IsPart, attribute_size, cleared as cleared_of, head_bytes, optional_transitive, transitive, written};

use crate::draft::{Draft, Full};
use crate::nlri::four_octets;
use path_attrs::{
    AGGREGATOR, ATOMIC_AGGREGATE, Aggregator, COMMUNITIES, EXTENDED_LENGTH, NEXT_HOP, ORIGIN,
};
use wire_io::ByteList;

/// "Transitive bit", "Optional bit", and both.
pub(crate) const TRANSITIVE: u8 = 0x40;

pub(crate) const OPTIONAL: u8 = 0x80;

pub(crate) const OPTIONAL_TRANSITIVE: u8 = 0xc0;

// The flags without the Extended Length bit.
fn cleared(flags: u8) -> u8
    ensures { result ≡ cleared_of flags }
{
    if flags & EXTENDED_LENGTH == EXTENDED_LENGTH {
        flags - EXTENDED_LENGTH
    } else {
        flags
    }
}

/// Appends what stands before a value of so many octets: its flags, its type and its length.
pub(crate) fn put_head(out: &mut Draft<'_>, flags: u8, code: u8, size: usize) -> Result<(), Full>
    requires { size ≤ 65535 }
    ensures ok { OnOk result (out.new ≡ out.old ++ head_bytes flags code size) }
    ensures err { OnErr result (out.new ≡ out.old) }
{
    let flags = cleared(flags);
    if size > 255 {
        let [a, b] = (size as u16).to_be_bytes();
        return out.extend(&[flags | EXTENDED_LENGTH, code, a, b]);
    }
    out.extend(&[flags, code, size as u8])
}

/// Appends an attribute. Where there is no room fewer bytes stand after those of before.
pub(crate) fn put_attribute(
    out: &mut Draft<'_>,
    flags: u8,
    code: u8,
    value: &[u8],
) -> Result<(), Full>
    requires { length value.now ≤ 65535 }
    ensures ok { OnOk result (Appends (λ bytes. IsAttribute bytes (written flags code value.now)) out.old out.new) }
    ensures err { OnErr result (Keeps out.old out.new) }
{
    put_head(out, flags, code, value.len())?;
    out.extend(value)
}

/// What is left of so many octets after an attribute with a value of this size. None exactly where it takes more.
pub(crate) fn left_by_attribute(room: usize, size: usize) -> Option<usize>
    ensures some { IfSome result (λ left. left + attribute_size size ≡ room) }
    ensures none { IfNone result (room < attribute_size size) }
{
    let head = if size > 255 { 4 } else { 3 };
    room.checked_sub(head)?.checked_sub(size)
}

/// ORIGIN.
pub(crate) fn put_origin(out: &mut Draft<'_>, origin: Option<u8>) -> Result<(), Full>
    ensures ok { OnOk result (Appends (IsPart transitive origin_type (λ value. Optional (IsNumber 1) value origin)) out.old out.new) }
    ensures err { OnErr result (Keeps out.old out.new) }
{
    match origin {
        Some(origin) => put_attribute(out, TRANSITIVE, ORIGIN, &[origin]),
        None => Ok(()),
    }
}

/// NEXT_HOP, an IPv4 address.
pub(crate) fn put_hop(out: &mut Draft<'_>, hop: &Option<ByteList>) -> Result<(), Full>
    requires { HasHop hop.now }
    ensures ok { OnOk result (Appends (IsPart transitive next_hop (λ value. Optional (IsField 4) value hop.now)) out.old out.new) }
    ensures err { OnErr result (Keeps out.old out.new) }
{
    match hop {
        Some(hop) => put_attribute(out, TRANSITIVE, NEXT_HOP, hop.as_slice()),
        None => Ok(()),
    }
}

/// An attribute whose value is one number: MULTI_EXIT_DISC or LOCAL_PREF.
pub(crate) fn put_number(
    out: &mut Draft<'_>,
    flags: u8,
    code: u8,
    number: Option<u32>,
) -> Result<(), Full>
    ensures ok { OnOk result (Appends (IsPart flags code (λ value. Optional (IsNumber 4) value number)) out.old out.new) }
    ensures err { OnErr result (Keeps out.old out.new) }
{
    match number {
        Some(number) => put_attribute(out, flags, code, &four_octets(number)),
        None => Ok(()),
    }
}

/// ATOMIC_AGGREGATE.
pub(crate) fn put_atomic(out: &mut Draft<'_>, atomic: bool) -> Result<(), Full>
    ensures ok { OnOk result (Appends (IsPart transitive atomic_aggregate (λ value. IsAtomic value atomic)) out.old out.new) }
    ensures err { OnErr result (Keeps out.old out.new) }
{
    if atomic {
        put_attribute(out, TRANSITIVE, ATOMIC_AGGREGATE, &[])
    } else {
        Ok(())
    }
}

// The value of an AGGREGATOR, with an AS number of four octets (RFC 6793, section 3).
fn aggregator_octets(aggregator: Aggregator) -> [u8; 8]
    ensures { IsAggregator Width.Four result aggregator }
{
    let [a, b, c, d] = four_octets(aggregator.asn);
    let [w, x, y, z] = aggregator.identifier;
    [a, b, c, d, w, x, y, z]
}

/// AGGREGATOR.
pub(crate) fn put_aggregator(
    out: &mut Draft<'_>,
    aggregator: Option<Aggregator>,
) -> Result<(), Full>
    ensures ok { OnOk result (Appends (IsPart optional_transitive aggregator_type (λ value. Optional (IsAggregator Width.Four) value aggregator)) out.old out.new) }
    ensures err { OnErr result (Keeps out.old out.new) }
{
    match aggregator {
        Some(aggregator) => {
            let octets = aggregator_octets(aggregator);
            put_attribute(out, OPTIONAL_TRANSITIVE, AGGREGATOR, &octets)
        }
        None => Ok(()),
    }
}

/// Appends numbers, each in four octets.
pub(crate) fn put_numbers(out: &mut Draft<'_>, numbers: &[u32]) -> Result<(), Full>
    ensures ok { OnOk result (Appends (λ bytes. AreParts (IsNumber 4) bytes numbers.now) out.old out.new) }
    ensures err { OnErr result (Keeps out.old out.new) }
{
    for number in numbers {
        out.extend(&four_octets(*number))?;
    }
    Ok(())
}

/// COMMUNITIES (RFC 1997), where there are any.
pub(crate) fn put_communities(out: &mut Draft<'_>, communities: &[u32]) -> Result<(), Full>
    requires { 4 * length communities.now ≤ 65535 }
    ensures ok { OnOk result (Appends (IsPart optional_transitive communities_type (λ value. AreSomeCommunities value communities.now)) out.old out.new) }
    ensures err { OnErr result (Keeps out.old out.new) }
{
    if communities.is_empty() {
        return Ok(());
    }
    put_head(out, OPTIONAL_TRANSITIVE, COMMUNITIES, 4 * communities.len())?;
    put_numbers(out, communities)
}
