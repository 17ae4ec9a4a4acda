//! A port that is handed to one who keeps what it gives.
ghost use Rattle.std.specs.Prelude.{◌≡◌};

use station_doors::Port;
use std::marker::Model;

/// Any port, whose bytes come out of it through a `KeepPort` alone. Contracts see it as its port.
#[derive(Drop)]
pub struct SealedPort<P> {
    port: P,
}

impl<P> Model for SealedPort<P> {
    ghost Value = { P };

    ghost view = { λ s. s.port };
}

impl<P: Port> SealedPort<P> {
    /// Holds the port.
    pub fn new(port: P) -> SealedPort<P>
        ensures { result ≡ port }
    {
        SealedPort { port }
    }

    // Hands the port back as it is.
    pub(crate) fn into_port(self) -> P
        ensures { result ≡ self }
    {
        let SealedPort { port } = self;
        port
    }
}
