use bgp_open::{DownInfo, PeerInfo};
use bmp_frames::PeerKey;
use bmp_specs::{Family, View};
use ip_prefix::Nlri;
use path_attrs::Attrs;
use std::sync::Arc;
use wire_io::{ByteList, List};
use wire_tables::Stat;

/// The path attributes of a route, shared by all prefixes of its UPDATE message.
pub type Route = Arc<Attrs>;

/// One thing that a message does to the tables, or a part of it that does nothing to them. The routes that an
/// UPDATE announces with the same attributes are one, and those that it withdraws another: such an item stands
/// for an effect on each of its prefixes, in their order.
#[derive(Drop)]
pub enum Effect {
    /// A Peer Up Notification (RFC 7854, section 4.10): the peer is up, with no route and no marker.
    Up {
        key: PeerKey,
        info: Arc<PeerInfo>,
    },

    /// A Peer Down Notification (RFC 7854, section 4.9): the peer is down, with all its routes.
    Down {
        key: PeerKey,
        info: DownInfo,
    },

    /// Routes that are announced with these attributes (RFC 7854, section 4.6).
    Announce {
        key: PeerKey,
        view: View,
        nlris: List<Nlri>,
        route: Route,
    },

    /// Routes that are withdrawn.
    Withdraw {
        key: PeerKey,
        view: View,
        nlris: List<Nlri>,
    },

    /// The End-of-RIB marker of a family (RFC 4724, section 2).
    Mark {
        key: PeerKey,
        view: View,
        family: Family,
    },

    /// A statistic of a peer (RFC 7854, section 4.8).
    Statistic {
        key: PeerKey,
        stat: Stat,
    },

    /// The sysName of an Initiation (RFC 7854, section 4.4).
    Name(ByteList),

    /// The sysDescr of an Initiation.
    Descr(ByteList),

    /// Routes or statistics of a peer that isn't up.
    Orphan,

    /// A Route Mirroring message (RFC 7854, section 4.7).
    Mirrored,

    /// A message of a type, or of a peer type, that isn't known.
    Passed,

    /// Parts of the message that were passed over, and how many they are.
    Unread(u32),
}
