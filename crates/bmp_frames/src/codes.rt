/// "Version" of the common header (RFC 7854, section 4.1).
pub const VERSION: u8 = 3;

/// The types of messages (RFC 7854, section 4.1).
pub const ROUTE_MONITORING: u8 = 0;

pub const STATISTICS_REPORT: u8 = 1;

pub const PEER_DOWN: u8 = 2;

pub const PEER_UP: u8 = 3;

pub const INITIATION: u8 = 4;

pub const TERMINATION: u8 = 5;

pub const ROUTE_MIRRORING: u8 = 6;

/// The bytes of a common header (RFC 7854, section 4.1): version, message length, message type.
pub const COMMON_HEADER: u32 = 6;

/// The last peer type that is known: the Loc-RIB Instance Peer (RFC 9069, section 4.1).
pub const LOC_RIB: u8 = 3;

/// The V flag: the addresses are IPv6 (RFC 7854, section 4.2).
pub const V_FLAG: u8 = 0x80;

/// The L flag: the message reflects the RIB after the policy (RFC 7854, section 4.2).
pub const L_FLAG: u8 = 0x40;

/// The A flag: the AS_PATH is in the two-byte form (RFC 7854, section 4.2).
pub const A_FLAG: u8 = 0x20;

/// The O flag: the message reflects the Adj-RIB-Out (RFC 8671, section 4).
pub const O_FLAG: u8 = 0x10;

/// The F flag of a Loc-RIB Instance Peer: the Loc-RIB is filtered (RFC 9069, section 4.2).
pub const F_FLAG: u8 = 0x80;

/// "Type = 0: String", in an Initiation and in a Peer Up (RFC 7854, section 4.4).
pub const STRING: u16 = 0;

/// "Type = 1: sysDescr" (RFC 7854, section 4.4).
pub const SYS_DESCR: u16 = 1;

/// "Type = 2: sysName" (RFC 7854, section 4.4).
pub const SYS_NAME: u16 = 2;

/// "Type = 3: VRF/Table Name" (RFC 9069, section 5.2.1).
pub const TABLE_NAME: u16 = 3;

/// "Type = 0: BGP Message" of Route Mirroring (RFC 7854, section 4.7).
pub const MIRRORED_MESSAGE: u16 = 0;

/// "Type = 1: Information" of Route Mirroring (RFC 7854, section 4.7).
pub const MIRRORING_INFORMATION: u16 = 1;
