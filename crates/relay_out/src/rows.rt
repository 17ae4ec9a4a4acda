ghost use Rattle.std.specs.Prelude.{◌≡◌, ◌<◌, ◌≤◌, [], ◌∷◌, ◌++◌, length, map, take};
ghost use Rattle.std.specs.List.{AllByRecursion};
ghost use Rattle.std.specs.Option.{option_copied};
ghost use Rattle.relay_out.specs.Handed.{Hands};
ghost use Rattle.relay_out.specs.Messages.{announces};
ghost use Rattle.query_eval.specs.RowRuns.{shown_all};
ghost use Rattle.query_eval.specs.Rows.{row_of};
ghost use Rattle.relay_out.specs.Tables.{table_rows, view_rows, all_views};

use crate::fault::EmitFault;
use crate::item::Item;
use crate::takes::Takes;
use bgp_open::PeerInfo;
use bmp_frames::PeerKey;
use bmp_specs::View;
use ip_prefix::Nlri;
use rib_model::{Route, RowKey};
use route_runs::{Place, RouteTable, Walk};
use router_tables::RouterTables;

const VIEWS: [View; 5] = [
    View::InPre,
    View::InPost,
    View::OutPre,
    View::OutPost,
    View::Loc,
];

/// How many routes are looked at before the first is handed on, so that they are fetched from memory side by side.
const AHEAD: usize = 16;

// Takes the next routes of a walk, and answers how many: fewer than there are places where none is left.
fn gather<'a>(
    walk: &mut Walk<'a>,
    nlris: &mut [Nlri; AHEAD],
    routes: &mut [&'a Route; AHEAD],
) -> usize
    ensures within { result ≤ 16 }
    ensures all { walk.old ≡ shown_all (take result nlris.new) (take result routes.new) ++ walk.new }
    ensures last { result < 16 → walk.new ≡ [] }
    ensures fewer { result ≡ 16 → length walk.new < length walk.old }
{
    let mut count = 0;
    while count < AHEAD {
        let Some(found) = walk.next() else {
            return count;
        };
        nlris[count] = found.0;
        routes[count] = found.1;
        count += 1;
    }
    count
}

// Hands on rows that stand in places, once all were looked at.
fn hand_batch<T: Takes>(
    key: &PeerKey,
    view: View,
    info: &PeerInfo,
    nlris: &[Nlri],
    routes: &[&Route],
    taker: &mut T,
) -> Result<(), EmitFault>
    requires same { length nlris.now ≡ length routes.now }
    requires may { AllByRecursion T.may (map (announces info.now) (map (row_of key.now view) (shown_all nlris.now routes.now))) }
    ensures { Hands T.of T.took T.stopped (map (announces info.now) (map (row_of key.now view) (shown_all nlris.now routes.now))) taker.old result taker.new }
{
    taker.look(key, view, info, nlris, routes)?;
    for at in 0..nlris.len() {
        let nlri = nlris[at];
        let set = routes[at];
        let row = RowKey {
            key: *key,
            view,
            nlri,
        };
        taker.take(&Item::Announces {
            info,
            row,
            route: set,
        })?;
    }
    Ok(())
}

// Hands on the routes that a walk gives.
fn hand_walk<T: Takes>(
    walk: Walk<'_>,
    key: &PeerKey,
    view: View,
    info: &PeerInfo,
    taker: &mut T,
) -> Result<(), EmitFault>
    requires { AllByRecursion T.may (map (announces info.now) (map (row_of key.now view) walk)) }
    ensures { Hands T.of T.took T.stopped (map (announces info.now) (map (row_of key.now view) walk.entry)) taker.old result taker.new }
{
    let mut walk = walk;
    let Some(found) = walk.next() else {
        return Ok(());
    };
    let mut nlris = [found.0; AHEAD];
    let mut routes = [found.1; AHEAD];
    hand_batch(key, view, info, &nlris[..1], &routes[..1], taker)?;
    loop {
        let some = gather(&mut walk, &mut nlris, &mut routes);
        hand_batch(key, view, info, &nlris[..some], &routes[..some], taker)?;
        if some < AHEAD {
            return Ok(());
        }
    }
}

// Hands on the rows of a table.
fn hand_table<T: Takes>(
    table: &RouteTable,
    key: &PeerKey,
    view: View,
    info: &PeerInfo,
    taker: &mut T,
) -> Result<(), EmitFault>
    requires { AllByRecursion T.may (map (announces info.now) (table_rows key.now view (Some table.now))) }
    ensures { Hands T.of T.took T.stopped (map (announces info.now) (table_rows key.now view (Some table.now))) taker.old result taker.new }
{
    if taker.has_taken(table, key, view, info) {
        return Ok(());
    }
    // For the proof: the rows are in order.
    table.see_order();
    hand_walk(table.walk(Place::First), key, view, info, taker)
}

// Hands on the rows of a peer in a view.
fn hand_view<T: Takes>(
    tables: &RouterTables,
    key: &PeerKey,
    view: View,
    info: &PeerInfo,
    taker: &mut T,
) -> Result<(), EmitFault>
    requires { AllByRecursion T.may (map (announces info.now) (view_rows tables.now.tables key.now (view ∷ []))) }
    ensures { Hands T.of T.took T.stopped (map (announces info.now) (view_rows tables.now.tables key.now (view ∷ []))) taker.old result taker.new }
{
    match tables.table(key, view) {
        Some(table) => hand_table(table, key, view, info, taker),
        None => Ok(()),
    }
}

// Hands on the rows of a peer in these views.
fn hand_views<T: Takes>(
    tables: &RouterTables,
    key: &PeerKey,
    views: &[View],
    info: &PeerInfo,
    taker: &mut T,
) -> Result<(), EmitFault>
    requires { AllByRecursion T.may (map (announces info.now) (view_rows tables.now.tables key.now views.now)) }
    ensures { Hands T.of T.took T.stopped (map (announces info.now) (view_rows tables.now.tables key.now views.now)) taker.old result taker.new }
{
    for view in views {
        hand_view(tables, key, *view, info, taker)?;
    }
    Ok(())
}

// All views.
pub(crate) fn views() -> &'static [View]
    ensures { result.now ≡ all_views }
{
    &VIEWS
}

/// Hands on the rows of a peer.
pub(crate) fn hand_rows<T: Takes>(
    tables: &RouterTables,
    key: &PeerKey,
    info: &PeerInfo,
    taker: &mut T,
) -> Result<(), EmitFault>
    requires { AllByRecursion T.may (map (announces info.now) (view_rows tables.now.tables key.now all_views)) }
    ensures { Hands T.of T.took T.stopped (map (announces info.now) (view_rows tables.now.tables key.now all_views)) taker.old result taker.new }
{
    hand_views(tables, key, views(), info, taker)
}
