use wire_io::BodyFault;

/// Why a body was not read: the bytes are no body of such a message, or the reader ran out of memory.
pub type EventFault = BodyFault;
