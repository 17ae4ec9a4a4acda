//! What a Peer Up and a Peer Down tell of a peer.

use bgp_open::{CapList, Detail, DownInfo, Open, PeerInfo};
use ip_prefix::Addr;
use std::alloc::Global;
use std::sync::Arc;
use wire_io::ByteList;

fn open(alloc: Global) -> Open {
    Open {
        version: 4,
        my_as: 64500,
        hold: 180,
        identifier: [192, 0, 2, 1],
        four: None,
        families: CapList::new(alloc),
        paths: CapList::new(alloc),
        extended: false,
    }
}

// A peer of AS 64500 with the identifier 192.0.2.1, and of a Loc-RIB the table's name.
pub(crate) fn info_of(
    alloc: Global,
    filtered: bool,
    table: Option<ByteList>,
) -> Option<Arc<PeerInfo>> {
    let info = PeerInfo {
        asn: 64500,
        identifier: [192, 0, 2, 1],
        local: Addr::v4([192, 0, 2, 254]),
        local_port: 179,
        remote_port: 50000,
        sent: open(alloc),
        received: open(alloc),
        filtered,
        table,
    };
    Arc::new(alloc, info).ok()
}

// A Peer Down of reason 4: the remote system closed the session, with no more to tell (RFC 7854, section 4.9).
pub(crate) const REMOTE_SILENT: DownInfo = DownInfo {
    reason: 4,
    detail: Detail::Unread,
};

// The bytes of a text.
pub(crate) fn list_of(alloc: Global, text: &[u8]) -> Option<ByteList> {
    let mut list = ByteList::new(alloc);
    match list.extend(text) {
        Ok(()) => Some(list),
        Err(_) => None,
    }
}
