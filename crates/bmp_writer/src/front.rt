//! The path attributes of types 1 to 8, in order of type (RFC 4271, section 5).
ghost use Rattle.std.specs.Prelude.{◌≡◌, ◌≤◌, ◌<◌, ◌+◌, ◌*◌, if◌then◌else◌, None, length, IfSome, IfNone, OnOk, OnErr};
ghost use Rattle.bmp_specs.specs.Sequence.{IsField};
ghost use Rattle.bmp_specs.specs.Attributes.{Optional, next_hop};
ghost use Rattle.bmp_specs.specs.Values.{AttrsValue};
ghost use Rattle.bmp_writer.specs.Written.{Appends, Keeps};
ghost use Rattle.bmp_writer.specs.WrittenAttributes.{HasHop, HasPath, IsFirst, IsFront, IsPart, IsSecond, atomic_size, communities_size, front_size, optional_size, segments_size, short_size, there_size, transitive, with_hop};

use crate::attributes::{
    OPTIONAL, TRANSITIVE, left_by_attribute, put_aggregator, put_atomic, put_communities, put_hop,
    put_number, put_origin,
};
use crate::draft::{Draft, Full};
use crate::path::{left_by_segments, put_path};
use path_attrs::{Aggregator, AsPath, Attrs, LOCAL_PREF, MULTI_EXIT_DISC};
use wire_io::ByteList;

// NEXT_HOP, where it is told.
fn put_next_hop(out: &mut Draft<'_>, plain: bool, hop: &Option<ByteList>) -> Result<(), Full>
    requires { HasHop (if plain then hop.now else None) }
    ensures ok { OnOk result (Appends (IsPart transitive next_hop (λ value. Optional (IsField 4) value (if plain then hop.now else None))) out.old out.new) }
    ensures err { OnErr result (Keeps out.old out.new) }
{
    if plain { put_hop(out, hop) } else { Ok(()) }
}

// ORIGIN, AS_PATH, NEXT_HOP and MULTI_EXIT_DISC.
fn put_first(out: &mut Draft<'_>, attrs: &Attrs, plain: bool) -> Result<(), Full>
    requires path { HasPath attrs.now.path }
    requires hop { HasHop (if plain then attrs.now.hop else None) }
    ensures ok { OnOk result (Appends (IsFirst (with_hop plain attrs.now)) out.old out.new) }
    ensures err { OnErr result (Keeps out.old out.new) }
{
    put_origin(out, attrs.origin)?;
    put_path(out, &attrs.path)?;
    put_next_hop(out, plain, &attrs.hop)?;
    put_number(out, OPTIONAL, MULTI_EXIT_DISC, attrs.med)
}

// LOCAL_PREF, ATOMIC_AGGREGATE, AGGREGATOR and COMMUNITIES.
fn put_second(out: &mut Draft<'_>, attrs: &Attrs) -> Result<(), Full>
    requires { 4 * length attrs.now.communities ≤ 65535 }
    ensures ok { OnOk result (Appends (IsSecond attrs.now) out.old out.new) }
    ensures err { OnErr result (Keeps out.old out.new) }
{
    put_number(out, TRANSITIVE, LOCAL_PREF, attrs.pref)?;
    put_atomic(out, attrs.atomic)?;
    put_aggregator(out, attrs.aggregator)?;
    put_communities(out, attrs.communities.as_slice())
}

/// Appends them, each where the route has it; NEXT_HOP only where it is told. Where there is no room fewer bytes stand
/// after those of before.
pub(crate) fn put_origin_to_communities(
    out: &mut Draft<'_>,
    attrs: &Attrs,
    plain: bool,
) -> Result<(), Full>
    requires path { HasPath attrs.now.path }
    requires hop { HasHop (if plain then attrs.now.hop else None) }
    requires communities { 4 * length attrs.now.communities ≤ 65535 }
    ensures ok { OnOk result (Appends (IsFront (with_hop plain attrs.now)) out.old out.new) }
    ensures err { OnErr result (Keeps out.old out.new) }
{
    put_first(out, attrs, plain)?;
    put_second(out, attrs)
}

// What is left of so many octets after AS_PATH. None exactly where it takes more.
fn left_by_path(room: usize, path: &Option<AsPath>) -> Option<usize>
    ensures some { IfSome result (λ left. left + optional_size segments_size path.now ≡ room) }
    ensures none { IfNone result (room < optional_size segments_size path.now) }
{
    let Some(path) = path else {
        return Some(room);
    };
    let left = left_by_segments(room, path.as_slice())?;
    left.checked_sub(if room - left > 255 { 4 } else { 3 })
}

// What is left of so many octets after COMMUNITIES. None exactly where it takes more.
fn left_by_communities(room: usize, communities: &[u32]) -> Option<usize>
    ensures some { IfSome result (λ left. left + communities_size communities.now ≡ room) }
    ensures none { IfNone result (room < communities_size communities.now) }
{
    let count = communities.len();
    if count == 0 {
        return Some(room);
    }
    if count > room / 4 {
        return None;
    }
    left_by_attribute(room, 4 * count)
}

// How many octets ORIGIN takes.
fn size_of_origin(origin: Option<u8>) -> usize
    ensures { result ≡ there_size 1 origin }
{
    match origin {
        Some(_) => 4,
        None => 0,
    }
}

// How many octets NEXT_HOP takes, where it is told.
fn size_of_hop(plain: bool, hop: &Option<ByteList>) -> usize
    ensures { result ≡ there_size 4 (if plain then hop.now else None) }
{
    if !plain {
        return 0;
    }
    match hop {
        Some(_) => 7,
        None => 0,
    }
}

// How many octets an attribute takes whose value is one number.
fn size_of_number(number: Option<u32>) -> usize
    ensures { result ≡ there_size 4 number }
{
    match number {
        Some(_) => 7,
        None => 0,
    }
}

// How many octets ATOMIC_AGGREGATE takes.
fn size_of_atomic(atomic: bool) -> usize
    ensures { result ≡ atomic_size atomic }
{
    if atomic { 3 } else { 0 }
}

// How many octets AGGREGATOR takes.
fn size_of_aggregator(aggregator: Option<Aggregator>) -> usize
    ensures { result ≡ there_size 8 aggregator }
{
    match aggregator {
        Some(_) => 11,
        None => 0,
    }
}

// How many octets these take together, that is all but AS_PATH and COMMUNITIES.
fn size_of_short(attrs: &Attrs, plain: bool) -> usize
    ensures { result ≡ short_size (with_hop plain attrs.now) }
{
    size_of_origin(attrs.origin)
        + size_of_hop(plain, &attrs.hop)
        + size_of_number(attrs.med)
        + size_of_number(attrs.pref)
        + size_of_atomic(attrs.atomic)
        + size_of_aggregator(attrs.aggregator)
}

/// What is left of so many octets after the attributes of types 1 to 8. None exactly where they take more.
pub(crate) fn left_by_front(room: usize, attrs: &Attrs, plain: bool) -> Option<usize>
    ensures some { IfSome result (λ left. left + front_size (with_hop plain attrs.now) ≡ room) }
    ensures none { IfNone result (room < front_size (with_hop plain attrs.now)) }
{
    let left = room.checked_sub(size_of_short(attrs, plain))?;
    let left = left_by_path(left, &attrs.path)?;
    left_by_communities(left, attrs.communities.as_slice())
}
