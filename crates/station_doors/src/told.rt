ghost use Rattle.std.specs.Prelude.{◌≡◌};
ghost use Rattle.station_doors.specs.Told.{IsEndpoint, IsEndpointOf, untold};

use crate::allowed::address_of;
use ip_prefix::Endpoint;
use std::marker::Model;
use std::net::SocketAddr;

/// What a port tells of its present connection, or of its last one. Times are those of the station's clock, in seconds
/// since 1970.
#[derive(Clone, Copy, Debug, PartialEq, Eq)]
pub struct Told {
    /// From where it came. None where that isn't known.
    pub from: Option<Endpoint>,

    /// When it was opened. None where that isn't known.
    pub since: Option<u64>,

    /// When it was closed. None where that isn't known, and of one that is open.
    pub until: Option<u64>,
}

impl Model for Told {
    ghost use Rattle.station_doors.specs.Told.{ToldValue};

    ghost Value = { ToldValue };

    ghost view = { λ t. record { from = t.from; since = t.since; until = t.until } };

    ghost inverse = { λ v. record { from = v.from; since = v.since; until = v.until } };
}

impl Told {
    /// Nothing is told.
    pub fn nothing() -> Told
        ensures { result ≡ untold }
    {
        Told {
            from: None,
            since: None,
            until: None,
        }
    }
}

// The address and the port of the network's address.
fn endpoint_of(at: &SocketAddr) -> Endpoint
    ensures { IsEndpoint at.now result }
{
    Endpoint {
        address: address_of(&at.ip()),
        port: at.port(),
    }
}

// The same where it is known.
pub(crate) fn known_endpoint(at: &Option<SocketAddr>) -> Option<Endpoint>
    ensures { IsEndpointOf at.now result }
{
    match at {
        Some(at) => Some(endpoint_of(at)),
        None => None,
    }
}
