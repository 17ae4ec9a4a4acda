use crate::Addr;
use std::marker::Model;

/// An address and a port of TCP.
#[derive(Clone, Copy, Debug, PartialEq, Eq)]
pub struct Endpoint {
    /// The address.
    pub address: Addr,
    /// The port.
    pub port: u16,
}

impl Model for Endpoint {
    ghost use Rattle.bmp_specs.specs.Values.{EndpointValue};

    ghost Value = { EndpointValue };

    ghost view = { λ e. record { address = e.address; port = e.port } };

    ghost inverse = { λ v. record { address = v.address; port = v.port } };
}
