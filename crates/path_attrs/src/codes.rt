// Path attribute type codes (RFC 4271, section 5; RFC 1997; RFC 4760, sections 3 and 4; RFC 6793,
// section 3).

pub const ORIGIN: u8 = 1;

pub const AS_PATH: u8 = 2;

pub const NEXT_HOP: u8 = 3;

pub const MULTI_EXIT_DISC: u8 = 4;

pub const LOCAL_PREF: u8 = 5;

pub const ATOMIC_AGGREGATE: u8 = 6;

pub const AGGREGATOR: u8 = 7;

pub const COMMUNITIES: u8 = 8;

pub const MP_REACH_NLRI: u8 = 14;

pub const MP_UNREACH_NLRI: u8 = 15;

pub(crate) const AS4_PATH: u8 = 17;

pub(crate) const AS4_AGGREGATOR: u8 = 18;

// One place for each type up to AS4_AGGREGATOR, the last that is read.
pub(crate) const PLACES: usize = 19;

/// "Extended Length bit" of the flags (RFC 4271, section 4.3).
pub const EXTENDED_LENGTH: u8 = 0x10;
