ghost use Rattle.std.specs.Prelude.{ℕ, List};
ghost use Rattle.bmp_specs.specs.Query.{routers};
ghost use Rattle.bmp_specs.specs.QueryReply.{AreLaneLines, IsRouterLine};
ghost use Rattle.bmp_specs.specs.Session.{state_of};
ghost use Rattle.bmp_specs.specs.Values.{EntryValue};
ghost use Rattle.reply_text.specs.Router.{router_line};
ghost use Rattle.router_tables.specs.Tables.{StandsFor};
ghost use Rattle.query_eval.specs.Puts.{PutsLines};

use reply_text::{RouterLine, RouterState, put_router};
use router_tables::{LaneState, RouterTables};
use wire_io::{Failed, Sink};

// What there is to tell of the router of a lane.
fn router_state(tables: &RouterTables) -> RouterState<'_>
    ensures { (lane : ℕ) (entries : List EntryValue) → StandsFor tables.now entries → IsRouterLine lane entries (state_of entries) (router_line lane result) }
{
    match tables.state() {
        LaneState::Idle => RouterState::Idle,
        LaneState::Closed(cause) => RouterState::Closed(cause),
        LaneState::Live => RouterState::Live(RouterLine {
            peers: tables.peers().count_up(),
            counts: tables.counts(),
            name: tables.name(),
            descr: tables.descr(),
        }),
    }
}

// Writes the line of a lane, by its state, and answers that it is one.
pub(crate) fn put_routers<O: Sink>(
    out: &mut O,
    lane: u32,
    tables: &RouterTables,
) -> Result<u64, Failed>
    ensures { PutsLines O.faults O.told O.aside (StandsFor tables.now) (AreLaneLines routers lane) out.old result out.new }
{
    put_router(out, lane, &router_state(tables))?;
    Ok(1)
}
