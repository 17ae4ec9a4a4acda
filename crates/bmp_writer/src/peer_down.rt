ghost use Rattle.std.specs.Prelude.{◌≡◌, ◌+◌, ◌≤◌, length, [], ◌∷◌, OnOk, OnErr};
ghost use Rattle.bmp_specs.specs.declared.peers.Detail.{Detail};
ghost use Rattle.bmp_specs.specs.declared.wire.Family.{Family};
ghost use Rattle.bmp_specs.specs.PeerHeader.{loc_rib};
ghost use Rattle.bmp_specs.specs.declared.peers.View.{View};
ghost use Rattle.bmp_specs.specs.Values.{down};
ghost use Rattle.bmp_writer.specs.PeerMessage.{HasPlainHeader, IsPeerMessage, first_view as view_of_kind};
ghost use Rattle.bmp_writer.specs.Written.{Always, Appends, IsWritten, peer_down_type, without};

use crate::peer::put_peer_message;
use bmp_frames::{LOC_RIB, PEER_DOWN, PeerKey, View};
use wire_io::{ByteList, NoMemory};

// The first view of a peer's, whose flags L and O are clear.
fn first_view(kind: u8) -> View
    ensures { result ≡ view_of_kind kind }
{
    if kind == LOC_RIB {
        View::Loc
    } else {
        View::InPre
    }
}

/// Appends a Peer Down Notification with this reason and no data (RFC 7854, section 4.9). The peer type is
/// at most 3, and a Loc-RIB Instance Peer has an IPv4 address. After `NoMemory` the list is as before.
pub fn put_peer_down(out: &mut ByteList, key: &PeerKey, reason: u8) -> Result<(), NoMemory>
    requires kind { key.now.kind ≤ loc_rib }
    requires family { key.now.kind ≡ loc_rib → key.now.address.family ≡ Family.V4 }
    ensures ok { OnOk result (Appends (IsWritten peer_down_type Always (down key.now (record { reason = reason; detail = Detail.Unread }) ∷ []) (without key.now)) out.old out.new) }
    ensures bytes { OnOk result (Appends (IsPeerMessage peer_down_type key.now (view_of_kind key.now.kind) (reason ∷ [])) out.old out.new) }
    ensures no_data { OnOk result (length out.new ≡ length out.old + 49) }
    ensures plain { OnOk result (Appends HasPlainHeader out.old out.new) }
    ensures err { OnErr result (out.new ≡ out.old) }
{
    put_peer_message(out, PEER_DOWN, key, first_view(key.kind), &[reason])
}
