/// The family of an address: IPv4 or IPv6.
#[derive(Clone, Copy, Debug, PartialEq, Eq, PartialOrd, Ord)]
pub enum Family {
    V4,
    V6,
}

/// The width of an AS number in a path attribute: two bytes (RFC 4271) or four (RFC 6793).
#[derive(Clone, Copy, Debug, PartialEq, Eq)]
pub enum Width {
    Two,
    Four,
}

/// The type of an AS path segment (RFC 4271, section 4.3; RFC 5065, section 3).
#[derive(Clone, Copy, Debug, PartialEq, Eq)]
pub enum SegmentKind {
    Set,
    Sequence,
    ConfedSequence,
    ConfedSet,
}

/// Which way a route went past the peer that is monitored, or that it is the router's own: a route of
/// the Adj-RIB-In, of the Adj-RIB-Out (RFC 8671), or of the Loc-RIB (RFC 9069).
#[derive(Clone, Copy, Debug, PartialEq, Eq)]
pub enum Side {
    Inward,
    Outward,
    Local,
}

/// Which families use path identifiers (RFC 7911, section 3).
#[derive(Clone, Copy, Debug, PartialEq, Eq)]
pub struct IdUse {
    pub v4: bool,
    pub v6: bool,
}
