use wire_io::BodyFault;

/// Why a message has no entry: the body is none of its type (RFC 7854, section 4) under the peers that are up, or
/// out of memory.
pub type EntryFault = BodyFault;
