use bmp_specs::{Family, View};

/// An address: IPv4 uses the first four bytes.
#[derive(Clone, Copy, Debug, PartialEq, Eq)]
pub struct Address {
    pub family: Family,
    pub octets: [u8; 16],
}

/// A peer: its type, its distinguisher and its address (RFC 7854, section 4.2).
#[derive(Clone, Copy, Debug, PartialEq, Eq)]
pub struct Peer {
    pub kind: u8,
    pub distinguisher: u64,
    pub address: Address,
}

/// Where a route stands: its peer, the RIB that it was seen in, its prefix and its path identifier.
#[derive(Clone, Copy, Debug, PartialEq, Eq)]
pub struct RowKey {
    pub peer: Peer,
    pub view: View,
    pub address: Address,
    pub bits: u8,
    pub id: Option<u32>,
}

/// A route, of which this model keeps the AS that it comes from.
#[derive(Clone, Copy, Debug, PartialEq, Eq)]
pub struct Route {
    pub origin: u32,
}

/// A route at its place.
#[derive(Clone, Copy, Debug, PartialEq, Eq)]
pub struct Row {
    pub row_key: RowKey,
    pub route: Route,
}

/// What a message does to the tables.
#[derive(Clone, Copy, Debug, PartialEq, Eq)]
pub enum Effect {
    /// A Peer Up Notification of a peer with this AS (RFC 7854, section 4.10).
    Up {
        peer: Peer,
        asn: u32,
    },
    /// A Peer Down Notification for this reason (RFC 7854, section 4.9).
    Down {
        peer: Peer,
        reason: u8,
    },
    /// A route is announced.
    Announce(Row),
    /// The route at the place is withdrawn.
    Withdraw(RowKey),
    /// An End-of-RIB marker (RFC 4724, section 2).
    Mark {
        peer: Peer,
        view: View,
        family: Family,
    },
    /// Anything that touches no row.
    Passed,
}
