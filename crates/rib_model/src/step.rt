ghost use Rattle.std.specs.Prelude.{◌≡◌, refl};
ghost use Rattle.std.proofs.Common.{rules};
ghost use Rattle.rib_model.specs.Steps.{step_value};

use crate::Route;
use bmp_frames::PeerKey;
use bmp_specs::{Cause, View};
use ip_prefix::Nlri;
use recent_ring::Keep;
use std::sync::Arc;
use wire_io::NoMemory;

/// One step of a lane: an opening, a closing, or one change that a message made.
#[derive(Drop)]
pub enum Step {
    /// A connection was opened.
    Opened,

    /// The connection was closed.
    Closed(Cause),

    /// A Peer Up Notification (RFC 7854, section 4.10).
    Up(PeerKey),

    /// A Peer Down Notification (RFC 7854, section 4.9).
    Down(PeerKey),

    /// A route was announced.
    Announce {
        key: PeerKey,
        view: View,
        nlri: Nlri,
        route: Route,
    },

    /// A route was withdrawn.
    Withdraw {
        key: PeerKey,
        view: View,
        nlri: Nlri,
    },
}

impl Keep for Step {
    ghost alike = { λ x y. step_value y ≡ step_value x };

    ghost same = { λ x. refl };

    ghost further = { λ x y z a b. Prim.search (rules) };

    fn keep(&self) -> Result<Step, NoMemory> {
        match self {
            Step::Opened => Ok(Step::Opened),
            Step::Closed(cause) => Ok(Step::Closed(*cause)),
            Step::Up(key) => Ok(Step::Up(*key)),
            Step::Down(key) => Ok(Step::Down(*key)),
            Step::Announce {
                key,
                view,
                nlri,
                route,
            } => Ok(Step::Announce {
                key: *key,
                view: *view,
                nlri: *nlri,
                route: Arc::try_clone(route)?,
            }),
            Step::Withdraw { key, view, nlri } => Ok(Step::Withdraw {
                key: *key,
                view: *view,
                nlri: *nlri,
            }),
        }
    }
}
