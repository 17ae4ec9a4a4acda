//! The lines of all lanes, lane after lane.
ghost use Rattle.std.specs.Prelude.{◌≡◌, length};
ghost use Rattle.ask_specs.specs.Asking.{steps};
ghost use Rattle.ask_specs.specs.AskReply.{AreAskedLaneLines};
ghost use Rattle.bmp_specs.specs.Query.{count, cut};
ghost use Rattle.bmp_specs.specs.QueryReply.{AreLaneLines};
ghost use Rattle.query_lang.specs.Asks.{ask_value};
ghost use Rattle.query_lang.specs.Queries.{query_value};
ghost use Rattle.query_lang.specs.TraitValues.{traits_value};
ghost use Rattle.router_tables.specs.Tables.{StandsFor};
ghost use Rattle.query_eval.specs.Puts.{PutsLines};
ghost use Rattle.query_eval.specs.Replies.{StandsForLane, StandForLanes, AreAskLaneLines, AreLanes, AsksByLane, TellsByLane, CountsAllRows};

use crate::changes::put_changes;
use crate::count::count_kept_rows;
use crate::full_marks::put_full_marks;
use crate::full_routers::put_full_routers;
use crate::longest::put_longest;
use crate::marks::put_marks;
use crate::origin::put_origin;
use crate::parts::put_part;
use crate::peers::put_peers;
use crate::routers::put_routers;
use crate::run::Part;
use crate::stats::put_stats;
use crate::steps::put_asked_rows;
use cut_publisher::Cut;
use ip_prefix::Prefix;
use query_lang::{Ask, Query, Select, Traits};
use reply_text::put_lane;
use router_tables::RouterTables;
use wire_io::{Failed, Sink};

// Writes how many entries a lane has, and answers that it is one line.
fn put_entries<O: Sink>(out: &mut O, lane: u32, entries: u64) -> Result<u64, Failed>
    ensures { PutsLines O.faults O.told O.aside (λ es. entries ≡ length es) (AreLaneLines cut lane) out.old result out.new }
{
    put_lane(out, lane, entries)?;
    Ok(1)
}

// Writes the lines of the steps that a lane keeps, or of the changes of a prefix, where they are asked of this lane.
fn put_lane_changes<O: Sink>(
    out: &mut O,
    full: bool,
    lane: u32,
    tables: &RouterTables,
    number: u32,
    from: u64,
    prefix: &Option<Prefix>,
) -> Result<u64, Failed>
    ensures { PutsLines O.faults O.told O.aside (StandsFor tables.now) (AreAskedLaneLines (steps full number from prefix.now) lane) out.old result out.new }
{
    if number != lane {
        return Ok(0);
    }
    put_changes(out, full, lane, tables, from, prefix)
}

// Writes the lines of one lane that a query asks for, and answers how many they are.
fn put_lane_lines<O: Sink>(
    out: &mut O,
    query: &Query,
    lane: u32,
    tables: &RouterTables,
    entries: u64,
) -> Result<u64, Failed>
    requires { TellsByLane (query_value query.now) }
    ensures { PutsLines O.faults O.told O.aside (StandsForLane (tables.now, entries)) (AreLaneLines (query_value query.now) lane) out.old result out.new }
{
    match query {
        Query::Routers => put_routers(out, lane, tables),
        Query::Cut => put_entries(out, lane, entries),
        Query::Peers { router, peer } => put_peers(out, lane, tables, *router, peer),
        Query::Marks(select) => put_marks(out, lane, tables, select),
        Query::Table(select) => put_part(out, lane, tables, Part::Whole, select),
        Query::Exact(prefix, select) => {
            put_part(out, lane, tables, Part::Exact(*prefix), select)
        }
        Query::Longest(address, select) => put_longest(out, lane, tables, address, select),
        Query::Within(prefix, select) => {
            put_part(out, lane, tables, Part::Within(*prefix), select)
        }
        Query::Origin(asn, select) => put_origin(out, lane, tables, *asn, select),
        Query::Stats(key) => put_stats(out, lane, tables, key),
        Query::Changes {
            lane: number,
            from,
            prefix,
        } => put_lane_changes(out, false, lane, tables, *number, *from, &Some(*prefix)),
        // excluded by the premise: rows are counted over all lanes together
        Query::Count(_) => unreachable!(),
        // excluded by the premise: `quit` has no reply
        Query::Quit => unreachable!(),
    }
}

// Writes the lines of one lane that are asked for, and answers how many they are.
fn put_ask_lines<O: Sink>(
    out: &mut O,
    ask: &Ask,
    lane: u32,
    tables: &RouterTables,
    entries: u64,
) -> Result<u64, Failed>
    requires { AsksByLane (ask_value ask.now) }
    ensures { PutsLines O.faults O.told O.aside (StandsForLane (tables.now, entries)) (AreAskLaneLines (ask_value ask.now) lane) out.old result out.new }
{
    match ask {
        Ask::Query(query) => put_lane_lines(out, query, lane, tables, entries),
        Ask::Rows(rows) => put_asked_rows(out, lane, tables, rows),
        Ask::Changes {
            full,
            lane: number,
            from,
            prefix,
        } => put_lane_changes(out, *full, lane, tables, *number, *from, prefix),
        Ask::FullMarks(select) => put_full_marks(out, lane, tables, select),
        Ask::FullRouters => put_full_routers(out, lane, tables),
        // excluded by the premise: rows are counted over all lanes together
        Ask::Count(_, _) => unreachable!(),
    }
}

// Writes the lines of all lanes, lane after lane, and answers how many they are.
pub(crate) fn put_lanes<O: Sink>(
    out: &mut O,
    cut: &Cut<RouterTables>,
    ask: &Ask,
) -> Result<u64, Failed>
    requires { AsksByLane (ask_value ask.now) }
    ensures { PutsLines O.faults O.told O.aside (StandForLanes cut.now) (AreLanes (AreAskLaneLines (ask_value ask.now))) out.old result out.new }
{
    let mut count: u64 = 0;
    for lane in 0..cut.lanes() {
        let lines = put_ask_lines(out, ask, lane, cut.value(lane), cut.count(lane))?;
        count = count.saturating_add(lines);
    }
    Ok(count)
}

// How many rows all lanes have that are selected and whose routes have what is asked, at most 2^64 - 1.
pub(crate) fn count_all(cut: &Cut<RouterTables>, select: &Select, traits: &Traits) -> u64
    ensures { CountsAllRows (StandForLanes cut.now) (count select.now) (traits_value traits.now) result }
{
    let mut count: u64 = 0;
    for lane in 0..cut.lanes() {
        count = count.saturating_add(count_kept_rows(lane, cut.value(lane), select, traits));
    }
    count
}
