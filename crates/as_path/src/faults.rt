use wire_io::BodyFault;

/// Why a path was not read: the bytes are no list of path segments (RFC 4271, section 4.3), or the reader ran out of
/// memory.
pub type PathFault = BodyFault;
