ghost use Rattle.std.specs.Prelude.{◌≡◌};
ghost use Rattle.bmp_specs.specs.ImpliedPeerUp.{implied_info as implied, implied_open as implied_by, my_as_of};

use bgp_open::{CapList, Open, PeerInfo};
use bmp_frames::{F_FLAG, PeerHeader};
use ip_prefix::Addr;
use std::alloc::Global;

// "AS_TRANS" (RFC 6793, section 9).
const AS_TRANS: u16 = 23456;

// "My Autonomous System" of an AS: its number, and AS_TRANS where two octets don't hold it (RFC 6793, section 9).
fn my_as(asn: u32) -> u16
    ensures { result ≡ my_as_of asn }
{
    if asn < 0x1_0000 { asn as u16 } else { AS_TRANS }
}

// The OPEN that the header of a Loc-RIB implies: of its AS and its identifier, with the four-octet AS number capability
// alone.
fn implied_open(alloc: Global, head: &PeerHeader) -> Open
    ensures { result ≡ implied_by head.now }
{
    Open {
        version: 4,
        my_as: my_as(head.asn),
        hold: 0,
        identifier: head.identifier,
        four: Some(head.asn),
        families: CapList::new(alloc),
        paths: CapList::new(alloc),
        extended: false,
    }
}

// What the first routes of a Loc-RIB imply of which no Peer Up told (RFC 9069, section 5.2). It takes no memory.
pub(crate) fn implied_info(alloc: Global, head: &PeerHeader) -> PeerInfo
    ensures { result ≡ implied head.now }
{
    PeerInfo {
        asn: head.asn,
        identifier: head.identifier,
        local: Addr::v4([0, 0, 0, 0]),
        local_port: 0,
        remote_port: 0,
        sent: implied_open(alloc, head),
        received: implied_open(alloc, head),
        filtered: head.has(F_FLAG),
        table: None,
    }
}
