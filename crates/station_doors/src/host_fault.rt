use std::io;
use std::net::SocketAddr;

/// Why a real yard couldn't give what it was asked for, or why a read of its input failed.
#[derive(Drop)]
pub struct HostFault {
    /// The port, where it is one that couldn't be listened at.
    pub port: Option<SocketAddr>,

    /// What the system said.
    pub error: io::Error,
}
