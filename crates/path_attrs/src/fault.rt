use wire_io::BodyFault;

/// Why path attributes were not read: the bytes are no path attributes, two of them are of one type, or a value
/// isn't of the form of its type (RFC 4271, section 4.3); or the reader ran out of memory.
pub type AttrFault = BodyFault;

// A value isn't of the form of its type.
#[derive(Clone, Copy)]
pub(crate) struct Broken;
