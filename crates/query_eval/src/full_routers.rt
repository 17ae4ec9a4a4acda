//! The lines of `full routers`: each router, and all that its last connection told.
ghost use Rattle.std.specs.Prelude.{◌≡◌};
ghost use Rattle.ask_specs.specs.Asking.{full_routers};
ghost use Rattle.ask_specs.specs.AskReply.{AreAskedLaneLines};
ghost use Rattle.reply_text.specs.FullRouter.{lane_state};
ghost use Rattle.router_tables.specs.State.{state_value};
ghost use Rattle.router_tables.specs.Tables.{StandsFor};
ghost use Rattle.query_eval.specs.Puts.{PutsLines};

use reply_text::{ConnectionState, put_full_router};
use router_tables::{LaneState, RouterTables};
use wire_io::{Failed, Sink};

// The state of a lane as its line has it.
fn connection_state(state: LaneState) -> ConnectionState
    ensures { lane_state result ≡ state_value state }
{
    match state {
        LaneState::Idle => ConnectionState::Idle,
        LaneState::Live => ConnectionState::Live,
        LaneState::Closed(cause) => ConnectionState::Closed(cause),
    }
}

/// Writes the line of a lane with all that its last connection told, by its state, and answers that it is one.
pub(crate) fn put_full_routers<O: Sink>(
    out: &mut O,
    lane: u32,
    tables: &RouterTables,
) -> Result<u64, Failed>
    ensures { PutsLines O.faults O.told O.aside (StandsFor tables.now) (AreAskedLaneLines full_routers lane) out.old result out.new }
{
    put_full_router(
        out,
        lane,
        connection_state(tables.state()),
        &tables.connection(),
    )?;
    Ok(1)
}
