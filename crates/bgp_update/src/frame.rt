ghost use Rattle.std.specs.Prelude.{◌≡◌, ◌++◌, ◌↔◌, List, IsTrue, IfOk, IfSome, IfNone, OnOk};
ghost use Rattle.std.specs.List.{AllByRecursion};
ghost use Rattle.std.specs.Option.{option_map};
ghost use Rattle.bmp_specs.specs.FramedUpdate.{FitsFamily, FitsPlace, FramedValue, IsFramed, place_in, places};
ghost use Rattle.bmp_specs.specs.TreatAsWithdraw.{ArePlaced};
ghost use Rattle.bmp_specs.specs.Values.{NlriValue};
ghost use Rattle.path_attrs.specs.Judged.{mp_value};
ghost use Rattle.bgp_update.specs.Framed.{framed_value};

use crate::body::split_body;
use crate::items::add_items;
use crate::list::NlriList;
use crate::multi::{add_multi, unicast_family};
use crate::sizes::item_count;
use bmp_specs::IdUse;
use ip_prefix::Family;
use path_attrs::{MpSlice, frame_attrs};
use std::alloc::Global;
use wire_io::NoMemory;

/// The frame of the body of an UPDATE message (RFC 4271, section 4.3): its fields, and its multiprotocol attributes
/// (RFC 4760). No other attribute is judged, nor are prefixes.
#[derive(Clone, Copy)]
pub struct FramedUpdate<'a> {
    /// "Withdrawn Routes".
    pub withdrawn: &'a [u8],

    /// "Path Attributes".
    pub attributes: &'a [u8],

    /// "Network Layer Reachability Information".
    pub nlri: &'a [u8],

    /// MP_REACH_NLRI.
    pub reach: Option<MpSlice<'a>>,

    /// MP_UNREACH_NLRI.
    pub unreach: Option<MpSlice<'a>>,
}

/// Finds the frame of the body. `None` exactly where the bytes have none: where a field ends past its bytes, the
/// attributes are no attributes, or a multiprotocol one stands there twice or isn't of its form (RFC 7606, section 3).
///
/// Takes no memory. The header of each attribute is read once.
pub fn frame_update(body: &[u8]) -> Option<FramedUpdate<'_>>
    ensures some { IfSome result (λ f. IsFramed body.now (framed_value f)) }
    ensures none { IfNone result ((f : FramedValue) → IsFramed body.now f → ⊥) }
{
    let Some(fields) = split_body(body) else {
        return None;
    };
    let Some(attrs) = frame_attrs(fields.attributes) else {
        return None;
    };
    Some(FramedUpdate {
        withdrawn: fields.withdrawn,
        attributes: fields.attributes,
        nlri: fields.nlri,
        reach: attrs.reach,
        unreach: attrs.unreach,
    })
}

// Whether the two families are one.
fn same_family(a: Family, b: Family) -> bool
    ensures { IsTrue result ↔ (a ≡ b) }
{
    match a {
        Family::V4 => match b {
            Family::V4 => true,
            Family::V6 => false,
        },
        Family::V6 => match b {
            Family::V4 => false,
            Family::V6 => true,
        },
    }
}

// Whether what stands at a place of this family fits.
fn fits_place(family: Family, identified: bool, place: Family, prefixes: &[u8]) -> bool
    ensures { IsTrue result ↔ FitsPlace family identified (record { family = place; prefixes = prefixes.now }) }
{
    if !same_family(place, family) {
        return true;
    }
    match item_count(family, identified, prefixes) {
        Some(_) => true,
        None => false,
    }
}

// Whether what stands in the attribute fits, where it is there and of a family that is read.
fn fits_multi(family: Family, identified: bool, part: &Option<MpSlice<'_>>) -> bool
    ensures { IsTrue result ↔ AllByRecursion (FitsPlace family identified) (place_in (option_map mp_value part.now)) }
{
    match part {
        None => true,
        Some(part) => match unicast_family(part.afi, part.safi) {
            None => true,
            Some(place) => fits_place(family, identified, place, part.prefixes),
        },
    }
}

/// Whether all places of the family have prefixes, with path identifiers or without (RFC 7911, section 3).
pub fn fits_family(framed: &FramedUpdate<'_>, family: Family, identified: bool) -> bool
    ensures { IsTrue result ↔ FitsFamily (framed_value framed.now) family identified }
{
    fits_place(family, identified, Family::V4, framed.withdrawn)
        && fits_multi(family, identified, &framed.unreach)
        && fits_place(family, identified, Family::V4, framed.nlri)
        && fits_multi(family, identified, &framed.reach)
}

// Appends the prefixes of all contained routes, place by place.
fn add_contained(list: &mut NlriList, framed: &FramedUpdate<'_>, ids: IdUse) -> Result<(), NoMemory>
    ensures { OnOk result ((ns : List NlriValue) → ArePlaced ids (places (framed_value framed.now)) ns → list.new ≡ list.old ++ ns) }
{
    add_items(list, Family::V4, ids.v4, framed.withdrawn)?;
    add_multi(list, ids, &framed.unreach)?;
    add_items(list, Family::V4, ids.v4, framed.nlri)?;
    add_multi(list, ids, &framed.reach)
}

/// The prefixes of all contained routes, place by place: for an UPDATE message that is treated as though they had been
/// withdrawn (RFC 7606, section 2). Of a place that isn't prefixes the list says nothing.
pub fn contained_routes(
    alloc: Global,
    framed: &FramedUpdate<'_>,
    ids: IdUse,
) -> Result<NlriList, NoMemory>
    ensures { IfOk result (λ list. (ns : List NlriValue) → ArePlaced ids (places (framed_value framed.now)) ns → list ≡ ns) }
{
    let mut list = NlriList::new(alloc);
    add_contained(&mut list, framed, ids)?;
    Ok(list)
}
