use wire_io::BodyFault;

/// Why an OPEN was not read: the bytes are no body of an OPEN message (RFC 4271, section 4.2), or there
/// was no memory.
pub type OpenFault = BodyFault;
