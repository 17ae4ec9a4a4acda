use crate::Allowed;
use ip_prefix::Addr;

/// What a station says of its connections on standard error.
#[derive(Clone, Copy, Debug)]
pub enum Log {
    /// Only what needs somebody: a lane that stopped, or that waits.
    None,

    /// Routers that come and go too.
    Routers,

    /// And clients that come and go.
    Clients,
}

/// What a yard was asked to listen for.
///
/// Lane n listens at `feed_port + n` and asker n at `ask_port + n`. Where the ports are shared, all lanes listen at
/// `feed_port` and all askers at `ask_port`.
#[derive(Clone, Copy, Debug)]
pub struct Listening {
    /// Where the lanes listen.
    pub address: Addr,

    /// Where the askers listen.
    pub ask_address: Addr,

    /// So many lanes, one for each router at once.
    pub feeds: u32,

    /// So many askers, one for each client at once.
    pub askers: u32,

    pub feed_port: u16,
    pub ask_port: u16,
    pub shared: bool,

    /// A connection of a router that says nothing for so many seconds is given up. Without a number it may say nothing
    /// for ever.
    pub idle: Option<u32>,

    /// The same of a client's, and of one that takes nothing of what is written to it.
    pub ask_idle: Option<u32>,

    /// What is said of its connections.
    pub log: Log,

    /// Where connections of routers may come from. Others are closed unread.
    pub feed_from: Allowed,

    /// The same of clients'.
    pub ask_from: Allowed,
}
