//! Whether a Route Monitoring message can carry routes.
ghost use Rattle.std.specs.Prelude.{◌≡◌, ◌≤◌, ◌<◌, ◌+◌, ◌*◌, ◌==◌, ◌↔◌, true, false, not, [], length, map, IsTrue, ◌++◌};
ghost use Rattle.std.specs.List.{AllByRecursion, IsDistinct};
ghost use Rattle.std.specs.Option.{is_some as some_of};
ghost use Rattle.bmp_specs.specs.PeerHeader.{IsViewOf, loc_rib};
ghost use Rattle.bmp_specs.specs.declared.wire.Family.{Family};
ghost use Rattle.bmp_writer.specs.WrittenAttributes.{front_size, others_size, with_hop};
ghost use Rattle.bmp_writer.specs.WrittenRoutes.{AreAlike, AreKept, CanBeAnnounced, CanBeGiven, CanCarryRoutes, FitsPath, HasFourOctets, HasNeededHop, HasOctets, IsAlike, IsGiven, IsKeptForm, IsOtherCode, IsShortHop, family_of as family_at, ids_of};
ghost use Rattle.bmp_writer.specs.WrittenUpdate.{AreShort, HasRoom, hop_bytes, is_plain as plain_of, places, update_size, where_so};

use crate::front::left_by_front;
use crate::others::left_by_others;
use crate::path::{are_short_segments, left_by_segments};
use crate::peer_up::has_four_octets;
use crate::routes::family_of;
use crate::update::{hop_octets, is_plain, left_by_update, where_there};
use bgp_update::NlriList;
use bmp_frames::{LOC_RIB, PeerKey, View};
use ip_prefix::{Family, Nlri};
use path_attrs::{Aggregator, AsPath, Attrs, EXTENDED_LENGTH, Other, is_read_type};
use wire_io::ByteList;

// Whether the view is one of the peer's.
fn has_view(key: &PeerKey, view: View) -> bool
    ensures { IsTrue result ↔ IsViewOf key.now view }
{
    match view {
        View::Loc => key.kind == LOC_RIB,
        _ => key.kind != LOC_RIB,
    }
}

// Whether a message can name the peer.
fn can_name(key: &PeerKey) -> bool
    ensures { IsTrue result ↔ ((key.now.kind ≤ loc_rib) × (key.now.kind ≡ loc_rib → key.now.address.family ≡ Family.V4)) }
{
    if key.kind > LOC_RIB {
        return false;
    }
    key.kind != LOC_RIB || key.address.family() == Family::V4
}

// Whether the first prefix has an identifier.
fn has_ids(withdrawn: &[Nlri], announced: &[Nlri]) -> bool
    ensures { result ≡ ids_of (withdrawn.now ++ announced.now) }
{
    if !withdrawn.is_empty() {
        let first = &withdrawn[0];
        return first.id.is_some();
    }
    if !announced.is_empty() {
        let first = &announced[0];
        return first.id.is_some();
    }
    false
}

// Whether a prefix is of the family, with an identifier or without.
fn is_alike(nlri: &Nlri, family: Family, ids: bool) -> bool
    ensures { IsTrue result ↔ IsAlike family ids nlri.now }
{
    nlri.prefix.addr().family() == family && nlri.id.is_some() == ids
}

// Whether all are.
fn are_alike(list: &[Nlri], family: Family, ids: bool) -> bool
    ensures { IsTrue result ↔ AllByRecursion (IsAlike family ids) list.now }
{
    for nlri in list {
        if !is_alike(nlri, family, ids) {
            return false;
        }
    }
    true
}

// Whether all prefixes have one family, and all have an identifier or none has.
fn are_all_alike(withdrawn: &[Nlri], announced: &[Nlri]) -> bool
    ensures { IsTrue result ↔ AreAlike (withdrawn.now ++ announced.now) }
{
    let family = family_of(withdrawn, announced);
    let ids = has_ids(withdrawn, announced);
    are_alike(withdrawn, family, ids) && are_alike(announced, family, ids)
}

// Whether an IPv6 announcement has a next hop.
fn has_needed_hop(family: Family, announced: &[Nlri], hop: &Option<ByteList>) -> bool
    ensures { IsTrue result ↔ HasNeededHop family announced.now hop.now }
{
    family == Family::V4 || announced.is_empty() || hop.is_some()
}

// Whether the next hop of MP_REACH_NLRI has room.
fn has_room(list: &[Nlri], hop: &[u8]) -> bool
    ensures { IsTrue result ↔ HasRoom list.now hop.now }
{
    list.is_empty() || hop.len() <= 255
}

// Whether each path segment has room.
fn are_short(path: &Option<AsPath>) -> bool
    ensures { IsTrue result ↔ AreShort path.now }
{
    match path {
        Some(path) => are_short_segments(path.as_slice()),
        None => true,
    }
}

// Whether the UPDATE message has room for all.
fn fits(family: Family, withdrawn: &[Nlri], announced: &[Nlri], attrs: &Attrs) -> bool
    requires { HasRoom (where_so (not (plain_of family attrs.now.hop)) announced.now) (hop_bytes attrs.now.hop) }
    ensures { IsTrue result ↔ (update_size (places family withdrawn.now announced.now attrs.now) ≤ 65535) }
{
    left_by_update(family, withdrawn, announced, attrs).is_some()
}

// Whether the message can carry the routes.
fn can_carry(
    key: &PeerKey,
    view: View,
    withdrawn: &[Nlri],
    announced: &[Nlri],
    attrs: &Attrs,
) -> bool
    ensures { IsTrue result ↔ CanCarryRoutes key.now view withdrawn.now announced.now attrs.now }
{
    if !can_name(key) || !has_view(key, view) {
        return false;
    }
    if withdrawn.is_empty() && announced.is_empty() {
        return false;
    }
    let family = family_of(withdrawn, announced);
    if !are_all_alike(withdrawn, announced) || !are_short(&attrs.path) {
        return false;
    }
    if !has_needed_hop(family, announced, &attrs.hop) {
        return false;
    }
    let multi = where_there(!is_plain(family, &attrs.hop), announced);
    if !has_room(multi, hop_octets(&attrs.hop)) {
        return false;
    }
    fits(family, withdrawn, announced, attrs)
}

// Whether an attribute is one that is kept as it came.
fn is_kept(other: &Other) -> bool
    ensures { IsTrue result ↔ IsKeptForm other.now }
{
    if is_read_type(other.code) || other.flags & EXTENDED_LENGTH == EXTENDED_LENGTH {
        return false;
    }
    other.value.as_slice().len() <= 65535
}

// Whether all are.
fn are_kept(others: &[Other]) -> bool
    ensures { IsTrue result ↔ AllByRecursion IsKeptForm others.now }
{
    for other in others {
        if !is_kept(other) {
            return false;
        }
    }
    true
}

// Whether none is of the type.
fn are_of_others(others: &[Other], code: u8) -> bool
    ensures { IsTrue result ↔ AllByRecursion (IsOtherCode code) others.now }
{
    for other in others {
        if other.code == code {
            return false;
        }
    }
    true
}

// Whether no two are of one type.
fn are_distinct(others: &[Other]) -> bool
    ensures { IsTrue result ↔ IsDistinct (λ j k. j == k) (map (λ a. a.code) others.now) }
{
    let count = others.len();
    for place in 0..count {
        let left = count - 1 - place;
        let other = &others[left];
        if !are_of_others(&others[left + 1..], other.code) {
            return false;
        }
    }
    true
}

// Whether an attribute has room for the path.
fn fits_path(path: &Option<AsPath>) -> bool
    ensures { IsTrue result ↔ FitsPath path.now }
{
    match path {
        Some(path) => left_by_segments(65535, path.as_slice()).is_some(),
        None => true,
    }
}

// Whether the aggregator has the four octets of an address.
fn has_address(aggregator: Option<Aggregator>) -> bool
    ensures { IsTrue result ↔ HasFourOctets aggregator }
{
    match aggregator {
        Some(aggregator) => has_four_octets(aggregator.identifier),
        None => true,
    }
}

// Whether the next hop has room.
fn is_short_hop(hop: &Option<ByteList>) -> bool
    ensures { IsTrue result ↔ IsShortHop hop.now }
{
    match hop {
        Some(hop) => hop.as_slice().len() <= 255,
        None => true,
    }
}

// Whether some field has the attributes, with whatever next hop.
fn can_be_given(attrs: &Attrs) -> bool
    ensures { IsTrue result ↔ CanBeGiven attrs.now }
{
    if !is_short_hop(&attrs.hop) || !fits_path(&attrs.path) || !has_address(attrs.aggregator) {
        return false;
    }
    if attrs.communities.as_slice().len() > 16383 {
        return false;
    }
    let others = attrs.others.as_slice();
    are_kept(others) && are_distinct(others)
}

// Whether the message has room for the attributes beside any prefix. Beside what is counted here stand 23 octets and at most
// 21 of a prefix, and in MP_REACH_NLRI at most 9 and 255 of the next hop.
fn fit_with_any(attrs: &Attrs) -> bool
    ensures { IsTrue result → front_size (with_hop true attrs.now) + others_size attrs.now.others ≤ 65227 }
{
    let Some(left) = left_by_front(65227, attrs, true) else {
        return false;
    };
    match left_by_others(left, attrs.others.as_slice()) {
        Some(_) => true,
        None => false,
    }
}

/// Whether it is known at once that `put_routes` can announce any one prefix with these attributes, and that they are some
/// that a field can have, as `can_routes` says of one prefix. Where there is no next hop, or the attributes nearly fill a
/// message, it isn't known.
pub fn can_announce(attrs: &Attrs) -> bool
    ensures { IsTrue result → CanBeAnnounced attrs.now }
{
    if attrs.hop.is_none() {
        return false;
    }
    if !are_short(&attrs.path) {
        return false;
    }
    can_be_given(attrs) && fit_with_any(attrs)
}

/// Whether `put_routes` can write it, and the attributes are some that a field can have, with a next hop that is absent
/// or has at most 255 bytes: the attributes that are kept as they came are of types that aren't read, no two of one
/// type, each without the Extended Length bit; and no value has more than 65,535 bytes.
pub fn can_routes(
    key: &PeerKey,
    view: View,
    withdrawn: &NlriList,
    announced: &NlriList,
    attrs: &Attrs,
) -> bool
    ensures { IsTrue result ↔ (CanCarryRoutes key.now view withdrawn.now announced.now attrs.now × IsGiven attrs.now) }
{
    let (withdrawn, announced) = (withdrawn.as_slice(), announced.as_slice());
    can_carry(key, view, withdrawn, announced, attrs) && can_be_given(attrs)
}
