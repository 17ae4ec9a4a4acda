use wire_io::BodyFault;

/// Why an UPDATE was not read: the bytes are no body of an UPDATE message (RFC 4271, section 4.3), or there
/// was no memory.
pub type UpdateFault = BodyFault;
