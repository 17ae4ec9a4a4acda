//! Which rows the selectors of a query keep.
ghost use Rattle.std.specs.Prelude.{◌≡◌};
ghost use Rattle.std.specs.Ordering.{nat_cmp};
ghost use Rattle.bmp_specs.specs.Orders.{family_cmp, key_cmp, view_cmp};
ghost use Rattle.query_eval.specs.Selecting.{is_named, keeps_peer, keeps_table};

use bmp_frames::PeerKey;
use bmp_specs::{Family, View};
use query_lang::Select;

// Whether the lane is the one that is named, or none is named.
pub(crate) fn is_lane_named(named: Option<u32>, lane: u32) -> bool
    ensures { result ≡ is_named nat_cmp named lane }
{
    match named {
        Some(named) => named == lane,
        None => true,
    }
}

// The same of a peer.
pub(crate) fn is_peer_named(named: &Option<PeerKey>, key: &PeerKey) -> bool
    ensures { result ≡ is_named key_cmp named.now key.now }
{
    match named {
        Some(named) => named.cmp(key).is_eq(),
        None => true,
    }
}

// The same of a view.
pub(crate) fn is_view_named(named: Option<View>, view: View) -> bool
    ensures { result ≡ is_named view_cmp named view }
{
    match named {
        Some(named) => named == view,
        None => true,
    }
}

// The same of a family.
pub(crate) fn is_family_named(named: Option<Family>, family: Family) -> bool
    ensures { result ≡ is_named family_cmp named family }
{
    match named {
        Some(named) => named == family,
        None => true,
    }
}

// Whether rows of this peer of this lane are selected.
pub(crate) fn is_peer_selected(
    router: Option<u32>,
    peer: &Option<PeerKey>,
    lane: u32,
    key: &PeerKey,
) -> bool
    ensures { result ≡ keeps_peer router peer.now lane key.now }
{
    is_lane_named(router, lane) && is_peer_named(peer, key)
}

// Whether rows of this view and family, of a peer that is selected, are selected.
pub(crate) fn is_table_selected(select: &Select, view: View, family: Family) -> bool
    ensures { result ≡ keeps_table select.now view family }
{
    is_view_named(select.view, view) && is_family_named(select.family, family)
}
