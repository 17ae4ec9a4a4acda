//! The four peers of a lane.
ghost use Rattle.std.specs.Prelude.{◌≡◌, ◌<◌, ◌+◌};
ghost use Rattle.drill_streams.specs.Peers.{peer_as, peer_info, peer_key, peer_octets, plain_open};

use bgp_open::{CapList, Open, PeerInfo};
use bmp_frames::PeerKey;
use ip_prefix::Addr;
use std::alloc::Global;

/// How many there are.
pub(crate) const PEERS: u8 = 4;

/// The address of the router, and its BGP Identifier.
const ROUTER: [u8; 4] = [192, 0, 2, 254];

/// The AS of the router, and that of the first peer.
const ROUTER_AS: u16 = 64496;

const FIRST_AS: u16 = 64512;

/// "Local Port" and "Remote Port".
const LOCAL_PORT: u16 = 179;

const REMOTE_PORT: u16 = 50000;

/// "Version" (RFC 4271, section 4.2).
const BGP_VERSION: u8 = 4;

/// "Hold Time", in seconds.
const HOLD: u16 = 180;

/// The octets of the peer's address.
pub(crate) fn octets_of(peer: u8) -> [u8; 4]
    requires { peer < 4 }
    ensures { result ≡ peer_octets peer }
{
    [192, 0, 2, peer + 1]
}

/// The AS of the peer.
pub(crate) fn as_of(peer: u8) -> u16
    requires { peer < 4 }
    ensures { result ≡ peer_as peer }
{
    FIRST_AS + peer as u16
}

/// What names the peer.
pub(crate) fn key_of(peer: u8) -> PeerKey
    requires { peer < 4 }
    ensures { result ≡ peer_key peer }
{
    PeerKey {
        kind: 0,
        distinguisher: 0,
        address: Addr::v4(octets_of(peer)),
    }
}

// An OPEN message without capabilities.
fn open(alloc: Global, my_as: u16, identifier: [u8; 4]) -> Open
    ensures { result ≡ plain_open my_as identifier }
{
    Open {
        version: BGP_VERSION,
        my_as,
        hold: HOLD,
        identifier,
        four: None,
        families: CapList::new(alloc),
        paths: CapList::new(alloc),
        extended: false,
    }
}

/// What the Peer Up Notification of the peer tells. It takes no memory.
pub(crate) fn info_of(alloc: Global, peer: u8) -> PeerInfo
    requires { peer < 4 }
    ensures { result ≡ peer_info peer }
{
    PeerInfo {
        asn: as_of(peer) as u32,
        identifier: octets_of(peer),
        local: Addr::v4(ROUTER),
        local_port: LOCAL_PORT,
        remote_port: REMOTE_PORT,
        sent: open(alloc, ROUTER_AS, ROUTER),
        received: open(alloc, as_of(peer), octets_of(peer)),
        filtered: false,
        table: None,
    }
}
