use ip_prefix::Prefix;

/// A validated ROA payload (VRP; RFC 6811, section 2): the AS may originate the prefix, and the longer prefixes that it
/// contains, up to a number of bits.
#[derive(Clone, Copy, Debug)]
pub struct Vrp {
    /// The VRP's prefix.
    pub prefix: Prefix,

    /// "VRP maximum length", in bits. Those of a file are from the prefix's own number of bits to 32 or 128, by family.
    pub max: u8,

    /// "VRP ASN". No route is matched where it is 0.
    pub asn: u32,
}

/// Why a file of VRPs wasn't read.
#[derive(Clone, Copy, Debug, PartialEq, Eq)]
pub enum VrpFault {
    /// The record of this number, counted from 0, is the first after record 0 that isn't a VRP. An empty line is no
    /// record, and a quoted field may have line ends, so this isn't always the number of a line.
    Bad { line: u64 },

    /// Out of memory.
    NoMemory,
}

/// What VRPs say of a route (RFC 6811, section 2).
#[derive(Clone, Copy, Debug, PartialEq, Eq)]
pub enum Verdict {
    /// "At least one VRP Matches the Route Prefix."
    Valid,

    /// "At least one VRP Covers the Route Prefix, but no VRP Matches it."
    Invalid,

    /// "No VRP Covers the Route Prefix."
    NotFound,
}
