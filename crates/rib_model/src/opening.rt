ghost use Rattle.std.specs.Prelude.{◌≡◌};
ghost use Rattle.bmp_specs.specs.Openings.{closing_for, nothing_told};

use bmp_specs::Cause;
use ip_prefix::Endpoint;
use std::marker::Model;

/// The opening of a connection.
#[derive(Clone, Copy, Debug, PartialEq, Eq)]
pub struct Opening {
    /// From where it came, where that is told.
    pub from: Option<Endpoint>,

    /// When, in seconds since 1970 by the station's clock, where that is told.
    pub since: Option<u64>,
}

impl Model for Opening {
    ghost use Rattle.bmp_specs.specs.Values.{OpeningValue};

    ghost Value = { OpeningValue };

    ghost view = { λ o. record { from = o.from; since = o.since } };

    ghost inverse = { λ v. record { from = v.from; since = v.since } };
}

impl Opening {
    /// An opening of which nothing is told.
    pub fn untold() -> Opening
        ensures { result ≡ nothing_told }
    {
        Opening {
            from: None,
            since: None,
        }
    }
}

/// The closing of a connection.
#[derive(Clone, Copy, Debug, PartialEq, Eq)]
pub struct Closing {
    /// Why.
    pub cause: Cause,

    /// When, in seconds since 1970 by the station's clock, where that is told.
    pub until: Option<u64>,
}

impl Model for Closing {
    ghost use Rattle.bmp_specs.specs.Values.{ClosingValue};

    ghost Value = { ClosingValue };

    ghost view = { λ c. record { cause = c.cause; until = c.until } };

    ghost inverse = { λ v. record { cause = v.cause; until = v.until } };
}

impl Closing {
    /// A closing of which the cause alone is told.
    pub fn untimed(cause: Cause) -> Closing
        ensures { result ≡ closing_for cause }
    {
        Closing { cause, until: None }
    }
}
