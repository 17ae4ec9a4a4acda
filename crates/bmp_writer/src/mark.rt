ghost use Rattle.std.specs.Prelude.{◌≡◌, ◌+◌, ◌≤◌, length, [], ◌∷◌, OnOk, OnErr};
ghost use Rattle.bmp_specs.specs.declared.wire.Family.{Family};
ghost use Rattle.bmp_specs.specs.PeerHeader.{IsViewOf, loc_rib};
ghost use Rattle.bmp_specs.specs.Values.{mark};
ghost use Rattle.bmp_writer.specs.PeerMessage.{HasPlainHeader, IsPeerMessage, mark_update};
ghost use Rattle.bmp_writer.specs.Written.{Appends, HasUp, IsWritten, mark_size, route_monitoring_type, unchanged};

use crate::peer::put_peer_message;
use bmp_frames::{PeerKey, ROUTE_MONITORING, View};
use ip_prefix::Family;
use wire_io::{ByteList, NoMemory};

// The UPDATE with no withdrawn routes, no attributes and no NLRI (RFC 4724, section 2).
const MARK_V4: [u8; 23] = [
    255, 255, 255, 255, 255, 255, 255, 255, 255, 255, 255, 255, 255, 255, 255, 255, 0, 23, 2, 0, 0,
    0, 0,
];

// The UPDATE whose only attribute is an MP_UNREACH_NLRI of IPv6 unicast with no withdrawn routes.
const MARK_V6: [u8; 29] = [
    255, 255, 255, 255, 255, 255, 255, 255, 255, 255, 255, 255, 255, 255, 255, 255, 0, 29, 2, 0, 0,
    0, 6, 0x80, 15, 3, 0, 2, 1,
];

/// Appends the End-of-RIB marker of a family for a view of the peer's (RFC 4724, section 2): for IPv4 the
/// UPDATE that has nothing, for IPv6 the one with an empty MP_UNREACH_NLRI. The peer type is at most 3, and
/// a Loc-RIB Instance Peer has an IPv4 address. After `NoMemory` the list is as before.
pub fn put_mark(
    out: &mut ByteList,
    key: &PeerKey,
    view: View,
    family: Family,
) -> Result<(), NoMemory>
    requires kind { key.now.kind ≤ loc_rib }
    requires family { key.now.kind ≡ loc_rib → key.now.address.family ≡ Family.V4 }
    requires view { IsViewOf key.now view }
    ensures ok { OnOk result (Appends (IsWritten route_monitoring_type (HasUp key.now) (mark key.now view family ∷ []) unchanged) out.old out.new) }
    ensures bytes { OnOk result (Appends (IsPeerMessage route_monitoring_type key.now view (mark_update family)) out.old out.new) }
    ensures size { OnOk result (length out.new ≡ length out.old + mark_size family) }
    ensures plain { OnOk result (Appends HasPlainHeader out.old out.new) }
    ensures err { OnErr result (out.new ≡ out.old) }
{
    match family {
        Family::V4 => put_peer_message(out, ROUTE_MONITORING, key, view, &MARK_V4),
        Family::V6 => put_peer_message(out, ROUTE_MONITORING, key, view, &MARK_V6),
    }
}
