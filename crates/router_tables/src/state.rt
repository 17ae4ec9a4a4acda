ghost use Rattle.std.specs.Prelude.{◌≡◌};
ghost use Rattle.router_tables.specs.State.{after_closing, is_live, state_value};

use bmp_specs::Cause;

/// The state of a lane.
#[derive(Clone, Copy, Debug, PartialEq, Eq)]
pub enum LaneState {
    /// It never had a connection.
    Idle,

    /// It has a connection.
    Live,

    /// Its last connection was closed.
    Closed(Cause),
}

impl LaneState {
    // Whether it has a connection.
    pub(crate) fn is_live(self) -> bool
        ensures { result ≡ is_live (state_value self) }
    {
        match self {
            LaneState::Live => true,
            _ => false,
        }
    }

    // The state once a connection was closed.
    pub(crate) fn after_closing(self, cause: Cause) -> LaneState
        ensures { state_value result ≡ after_closing (state_value self) cause }
    {
        match self {
            LaneState::Idle => LaneState::Idle,
            _ => LaneState::Closed(cause),
        }
    }
}
