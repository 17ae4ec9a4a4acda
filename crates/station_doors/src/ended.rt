use bmp_specs::Cause;

/// How the last connection of a port ended.
#[derive(Clone, Copy)]
pub struct Ended<'a> {
    /// Why it ended, which was published. None where memory ran out before that.
    pub cause: Option<Cause>,

    /// How many messages were taken of it.
    pub messages: u64,

    /// How many bytes these have, with their headers.
    pub bytes: u64,

    /// The name that the router gave in its Initiation (RFC 7854, section 4.3), empty where it gave none.
    pub name: &'a [u8],
}
