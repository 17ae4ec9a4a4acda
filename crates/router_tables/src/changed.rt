ghost use Rattle.std.specs.Prelude.{◌≡◌, ◌↔◌, [], List, IfOk, OnOk, IsTrue, None, Some};
ghost use Rattle.std.specs.Arc.{arc_value};
ghost use Rattle.std.specs.Option.{option_map, unwrap_or};
ghost use Rattle.bmp_specs.specs.Values.{EffectValue};
ghost use Rattle.router_tables.specs.Pending.{AreRowsAfter, AreTablesAfter, IsPeerAfter, IsTableAfter};
ghost use Rattle.router_tables.specs.Tables.{AreRowsOf};
ghost use Rattle.router_tables.specs.Views.{no_tables};

use crate::indexing::Indexing;
use crate::pending::Pending;
use crate::views::Views;
use bmp_frames::PeerKey;
use route_runs::{Changes, Place, RouteTable};
use std::alloc::Global;
use std::collections::BTreeMap;
use std::sync::Arc;
use wire_io::NoMemory;

// Makes all changes that are gathered: each table takes one run. A table that is left without a row goes, and a peer
// without tables.
pub(crate) fn make_changes(
    alloc: Global,
    indexing: Indexing,
    mut pending: BTreeMap<PeerKey, Pending>,
    tables: &mut BTreeMap<PeerKey, Views>,
) -> Result<(), NoMemory>
    ensures { OnOk result ((effects : List EffectValue) → AreRowsAfter pending.entries tables.old.entries effects
        → AreRowsOf tables.new.entries effects) }
{
    while let Some(peer) = pending.pop_first() {
        change_peer(alloc, indexing, tables, peer.0, peer.1)?;
    }
    Ok(())
}

// Makes the changes of one peer's tables.
fn change_peer(
    alloc: Global,
    indexing: Indexing,
    tables: &mut BTreeMap<PeerKey, Views>,
    key: PeerKey,
    changes: Pending,
) -> Result<(), NoMemory>
    ensures { OnOk result (IsPeerAfter key changes tables.old.entries tables.new.entries) }
{
    let old = so_far(tables.remove(&key));
    let new = tables_with(alloc, indexing, old, changes)?;
    if !new.is_none() {
        tables.insert(key, new)?;
    }
    Ok(())
}

// The tables of a peer so far.
fn so_far(views: Option<Views>) -> Views
    ensures { result ≡ unwrap_or views no_tables }
{
    match views {
        Some(views) => views,
        None => Views::none(),
    }
}

// The tables of a peer with these changes made.
fn tables_with(
    alloc: Global,
    indexing: Indexing,
    mut views: Views,
    mut changes: Pending,
) -> Result<Views, NoMemory>
    ensures { IfOk result (AreTablesAfter changes views) }
{
    change_views(alloc, indexing, &mut views, &mut changes)?;
    Ok(views)
}

// Makes these changes of a peer's tables.
fn change_views(
    alloc: Global,
    indexing: Indexing,
    views: &mut Views,
    changes: &mut Pending,
) -> Result<(), NoMemory>
    ensures { OnOk result (AreTablesAfter changes.old views.old views.new) }
{
    renew(alloc, indexing, &mut views.in_pre, &mut changes.in_pre)?;
    renew(alloc, indexing, &mut views.in_post, &mut changes.in_post)?;
    renew(alloc, indexing, &mut views.out_pre, &mut changes.out_pre)?;
    renew(alloc, indexing, &mut views.out_post, &mut changes.out_post)?;
    renew(alloc, indexing, &mut views.loc, &mut changes.loc)
}

// Makes these changes of a table, if there are some.
fn renew(
    alloc: Global,
    indexing: Indexing,
    table: &mut Option<Arc<RouteTable>>,
    changes: &mut Option<Changes>,
) -> Result<(), NoMemory>
    ensures { OnOk result (IsTableAfter (unwrap_or changes.old []) (option_map arc_value table.old) (option_map arc_value table.new)) }
{
    if let Some(changes) = changes {
        *table = changed_table(alloc, indexing, table, changes)?;
    }
    Ok(())
}

// The table with these changes, which are some.
fn changed_table(
    alloc: Global,
    indexing: Indexing,
    table: &Option<Arc<RouteTable>>,
    changes: &mut Changes,
) -> Result<Option<Arc<RouteTable>>, NoMemory>
    ensures { IfOk result (λ new. IsTableAfter changes.old (option_map arc_value table.now) (option_map arc_value new)) }
{
    match table {
        Some(table) => later_table(alloc, table, changes),
        None => earliest_table(alloc, indexing, changes),
    }
}

// The table with these changes, where there was one.
fn later_table(
    alloc: Global,
    table: &RouteTable,
    changes: &mut Changes,
) -> Result<Option<Arc<RouteTable>>, NoMemory>
    ensures { IfOk result (λ new. IsTableAfter changes.old (Some table.now) (option_map arc_value new)) }
{
    let new = table.with(changes)?;
    next_table(alloc, new)
}

// The table with these changes, where there was none.
fn earliest_table(
    alloc: Global,
    indexing: Indexing,
    changes: &mut Changes,
) -> Result<Option<Arc<RouteTable>>, NoMemory>
    ensures { IfOk result (λ new. IsTableAfter changes.old None (option_map arc_value new)) }
{
    let new = bare_table(alloc, indexing).with(changes)?;
    first_table(alloc, new)
}

// The table with no route, which has an index by origin or none.
fn bare_table(alloc: Global, indexing: Indexing) -> RouteTable
    ensures { result ≡ [] }
{
    match indexing {
        Indexing::ByOrigin => RouteTable::new(alloc),
        Indexing::Unindexed => RouteTable::unindexed(alloc),
    }
}

// A later table of a peer and a RIB; none where no route is left. One whose withdrawals aren't merged with its oldest
// run stays: to pass over them would cost more than the table.
fn next_table(alloc: Global, table: RouteTable) -> Result<Option<Arc<RouteTable>>, NoMemory>
    ensures { IfOk result (λ kept. unwrap_or (option_map arc_value kept) [] ≡ table) }
{
    if table.is_bare() {
        return Ok(None);
    }
    Ok(Some(Arc::new(alloc, table)?))
}

// The first table of a peer and a RIB; none where its routes were announced and withdrawn again, or withdrawn alone.
fn first_table(alloc: Global, table: RouteTable) -> Result<Option<Arc<RouteTable>>, NoMemory>
    ensures { IfOk result (λ kept. unwrap_or (option_map arc_value kept) [] ≡ table) }
{
    if has_no_row(&table) {
        return Ok(None);
    }
    Ok(Some(Arc::new(alloc, table)?))
}

// Whether a table has no row.
fn has_no_row(table: &RouteTable) -> bool
    ensures { IsTrue result ↔ (table.now ≡ []) }
{
    table.walk(Place::First).next().is_none()
}
