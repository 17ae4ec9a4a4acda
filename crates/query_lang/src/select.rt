ghost use Rattle.std.specs.Prelude.{◌≡◌};
ghost use Rattle.bmp_specs.specs.Selection.{select_all};

use bmp_frames::PeerKey;
use bmp_specs::{Family, View};
use std::marker::Model;

/// The selectors of a query: of the rows it keeps those of this lane, peer, view and family, each where
/// one is named.
#[derive(Clone, Copy, Debug, PartialEq, Eq)]
pub struct Select {
    /// The lane of a router.
    pub router: Option<u32>,
    /// A peer (RFC 7854, section 4.2).
    pub peer: Option<PeerKey>,
    /// The RIB that a route was seen in.
    pub view: Option<View>,
    /// The family of a route's prefix.
    pub family: Option<Family>,
}

impl Model for Select {
    ghost use Rattle.bmp_specs.specs.Selection.{SelectValue};

    ghost Value = { SelectValue };

    ghost view = { λ s. record { router = s.router; peer = s.peer; view = s.view; family = s.family } };

    ghost inverse = { λ v. record { router = v.router; peer = v.peer; view = v.view; family = v.family } };
}

impl Select {
    /// No selector is named, so that every row is kept.
    pub fn all() -> Select
        ensures { result ≡ select_all }
    {
        Select {
            router: None,
            peer: None,
            view: None,
            family: None,
        }
    }
}
