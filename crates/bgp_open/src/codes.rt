/// "Parameter Type": capabilities (RFC 5492, section 4).
pub const CAPABILITIES: u8 = 2;

/// "Capability Code": multiprotocol extensions (RFC 4760, section 8).
pub const MULTIPROTOCOL: u8 = 1;

/// "Capability Code": four-octet AS numbers (RFC 6793, section 3).
pub const FOUR_OCTET_AS: u8 = 65;

/// "Capability Code": ADD-PATH (RFC 7911, section 4).
pub const ADD_PATH: u8 = 69;
