use crate::select::Select;
use bmp_frames::PeerKey;
use ip_prefix::{Addr, Prefix};

/// What a line of our query language asks for.
#[derive(Clone, Copy, Debug, PartialEq, Eq)]
pub enum Query {
    /// `routers`: the state of each lane.
    Routers,

    /// `cut`: how many entries each lane has.
    Cut,

    /// `peers`: the peers of a lane, or of all, and one of them, or all.
    Peers {
        router: Option<u32>,
        peer: Option<PeerKey>,
    },

    /// `marks`: the tables of each peer that is up, and whether each is complete (RFC 4724, section 2).
    Marks(Select),

    /// `table`: the rows.
    Table(Select),

    /// `count`: the number of rows.
    Count(Select),

    /// `prefix P`: the rows of this prefix.
    Exact(Prefix, Select),

    /// `match A`: the rows of the longest prefixes that hold the address.
    Longest(Addr, Select),

    /// `within P`: the rows of the prefixes that lie within this one.
    Within(Prefix, Select),

    /// `origin N`: the rows whose path has this origin AS.
    Origin(u32, Select),

    /// `stats KEY`: the statistics of a peer (RFC 7854, section 4.8).
    Stats(PeerKey),

    /// `changes N S P`: the changes of a prefix on a lane, from the step of number S on.
    Changes {
        lane: u32,
        from: u64,
        prefix: Prefix,
    },

    /// `quit`: the end of the session.
    Quit,
}
