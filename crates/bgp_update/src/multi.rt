ghost use Rattle.std.specs.Prelude.{◌≡◌, ◌++◌, ◌≤◌, List, IfOk, OnOk};
ghost use Rattle.std.specs.Option.{option_map};
ghost use Rattle.bmp_specs.specs.AddressFamily.{unicast_family, uses_ids};
ghost use Rattle.bmp_specs.specs.Nlri.{AreNlri};
ghost use Rattle.bmp_specs.specs.Update.{AreMpNlri, empty_family, end_of_rib, passed_over};
ghost use Rattle.bmp_specs.specs.Values.{AttrsReadValue, NlriValue};
ghost use Rattle.bmp_specs.specs.declared.wire.Family.TheVariants.{V4};
ghost use Rattle.path_attrs.specs.Judged.{mp_value};

use crate::items::{add_items, uses_ids};
use crate::list::NlriList;
use bmp_specs::IdUse;
use ip_prefix::Family;
use path_attrs::{Judged, MpSlice};
use std::alloc::Global;
use wire_io::NoMemory;

/// "Address Family Identifier" of IPv4 (RFC 4760, section 3).
const AFI_IP: u16 = 1;

/// "Address Family Identifier" of IPv6 (RFC 4760, section 3).
const AFI_IP6: u16 = 2;

/// "Subsequent Address Family Identifier" of unicast forwarding (RFC 4760, section 6).
const SAFI_UNICAST: u8 = 1;

/// The family whose unicast the pair of AFI and SAFI is (RFC 4760, section 6): none of a family that isn't read.
pub fn unicast_family(afi: u16, safi: u8) -> Option<Family>
    ensures { result ≡ unicast_family afi safi }
{
    if afi == AFI_IP && safi == SAFI_UNICAST {
        Some(Family::V4)
    } else if afi == AFI_IP6 && safi == SAFI_UNICAST {
        Some(Family::V6)
    } else {
        None
    }
}

// 1 where the attribute is of a family that isn't read.
pub(crate) fn passed_over(part: &Option<MpSlice<'_>>) -> u32
    ensures is { result ≡ passed_over (option_map mp_value part.now) }
    ensures one { result ≤ 1 }
{
    match part {
        None => 0,
        Some(part) => match unicast_family(part.afi, part.safi) {
            None => 1,
            Some(_) => 0,
        },
    }
}

// The family of an MP_UNREACH_NLRI without prefixes.
fn empty_family(part: &Option<MpSlice<'_>>) -> Option<Family>
    ensures { result ≡ empty_family (option_map mp_value part.now) }
{
    match part {
        None => None,
        Some(part) => {
            if part.prefixes.is_empty() {
                unicast_family(part.afi, part.safi)
            } else {
                None
            }
        }
    }
}

// The family whose End-of-RIB marker the UPDATE is (RFC 4724, section 2): of IPv4 where its three fields
// are empty, else of the family of an MP_UNREACH_NLRI without prefixes that is all it has.
pub(crate) fn end_of_rib(withdrawn: &[u8], judged: &Judged<'_>, nlri: &[u8]) -> Option<Family>
    ensures { (read : AttrsReadValue) → read.count ≡ judged.now.count → read.unreach ≡ option_map mp_value judged.now.unreach
        → result ≡ end_of_rib withdrawn.now read nlri.now }
{
    if withdrawn.len() != 0 || nlri.len() != 0 {
        return None;
    }
    if judged.count == 0 {
        Some(Family::V4)
    } else if judged.count == 1 {
        empty_family(&judged.unreach)
    } else {
        None
    }
}

// Appends the prefixes of the attribute. One of a family that isn't read is passed over.
pub(crate) fn add_multi(
    list: &mut NlriList,
    ids: IdUse,
    part: &Option<MpSlice<'_>>,
) -> Result<(), NoMemory>
    ensures { OnOk result ((ns : List NlriValue) → AreMpNlri ids (option_map mp_value part.now) ns → list.new ≡ list.old ++ ns) }
{
    match part {
        None => Ok(()),
        Some(part) => match unicast_family(part.afi, part.safi) {
            None => Ok(()),
            Some(family) => add_items(list, family, uses_ids(ids, family), part.prefixes),
        },
    }
}

// The prefixes of MP_REACH_NLRI, so many.
pub(crate) fn make_multi(
    alloc: Global,
    ids: IdUse,
    reach: &Option<MpSlice<'_>>,
    count: usize,
) -> Result<NlriList, NoMemory>
    ensures { IfOk result (λ list. (ns : List NlriValue) → AreMpNlri ids (option_map mp_value reach.now) ns → list ≡ ns) }
{
    let mut list = NlriList::with_capacity(alloc, count)?;
    add_multi(&mut list, ids, reach)?;
    Ok(list)
}

// The prefixes of "Network Layer Reachability Information", so many.
pub(crate) fn make_plain(
    alloc: Global,
    ids: IdUse,
    nlri: &[u8],
    count: usize,
) -> Result<NlriList, NoMemory>
    ensures { IfOk result (λ list. (ns : List NlriValue) → AreNlri V4 (uses_ids ids V4) nlri.now ns → list ≡ ns) }
{
    let mut list = NlriList::with_capacity(alloc, count)?;
    add_items(&mut list, Family::V4, ids.v4, nlri)?;
    Ok(list)
}

// The prefixes of "Withdrawn Routes", and then those of MP_UNREACH_NLRI, so many.
pub(crate) fn make_withdrawn(
    alloc: Global,
    ids: IdUse,
    routes: &[u8],
    unreach: &Option<MpSlice<'_>>,
    count: usize,
) -> Result<NlriList, NoMemory>
    ensures { IfOk result (λ list. (gone lost : List NlriValue) → AreNlri V4 (uses_ids ids V4) routes.now gone
        → AreMpNlri ids (option_map mp_value unreach.now) lost → list ≡ gone ++ lost) }
{
    let mut list = NlriList::with_capacity(alloc, count)?;
    add_items(&mut list, Family::V4, ids.v4, routes)?;
    add_multi(&mut list, ids, unreach)?;
    Ok(list)
}
