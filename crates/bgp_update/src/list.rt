use ip_prefix::Nlri;
use wire_io::List;

/// A list of prefixes with their path identifiers, in the order of the wire.
pub type NlriList = List<Nlri>;
