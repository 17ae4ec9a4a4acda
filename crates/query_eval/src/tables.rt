ghost use Rattle.std.specs.Prelude.{◌≡◌, [], ◌∷◌, MatchOption};
ghost use Rattle.std.specs.List.Sorted.{IsStrictlySortedBy};
ghost use Rattle.std.specs.Map.{keys_of};
ghost use Rattle.std.specs.Option.{option_copied};
ghost use Rattle.bmp_specs.specs.Orders.{key_cmp};
ghost use Rattle.peer_book.specs.Peers.{after_place};
ghost use Rattle.query_eval.specs.RowTables.{IsFirstTable, asked_table, keys_after, keys_from, lane_keys, lane_tables, left_of, table_value, tables_from, view_after, view_table};

use crate::selection::{is_lane_named, is_view_named};
use bmp_frames::PeerKey;
use bmp_specs::View;
use query_lang::Select;
use route_runs::RouteTable;
use router_tables::RouterTables;

/// The routes that a peer has in a view.
#[derive(Clone, Copy)]
pub(crate) struct PeerTable<'a> {
    pub(crate) key: PeerKey,
    pub(crate) view: View,
    pub(crate) table: &'a RouteTable,
}

/// A walk over the tables of a lane that selectors ask, by peer and then by view. A peer that is named is gone
/// straight to. It takes no memory.
#[derive(Clone, Copy)]
pub(crate) struct AskedTables<'a> {
    tables: &'a RouterTables,
    // the peer and the view that are named
    peer: Option<PeerKey>,
    view: Option<View>,
    // the peer whose tables come next, from this view on
    key: Option<PeerKey>,
    from: Option<View>,
}

// The view that comes after one.
fn next_view(view: View) -> Option<View>
    ensures { result ≡ view_after view }
{
    match view {
        View::InPre => Some(View::InPost),
        View::InPost => Some(View::OutPre),
        View::OutPre => Some(View::OutPost),
        View::OutPost => Some(View::Loc),
        View::Loc => None,
    }
}

// The first peer of the session after a place, or the first of all.
fn peer_after(tables: &RouterTables, place: Option<&PeerKey>) -> Option<PeerKey>
    ensures first { keys_of (after_place place.entry tables.now.session.books.peers) ≡ keys_from None result tables.now.session.books.peers }
    ensures ordered { IsStrictlySortedBy key_cmp (keys_of tables.now.session.books.peers) }
{
    match tables.peers().after(place) {
        Some(line) => Some(line.key),
        None => None,
    }
}

// The first peer whose tables are asked.
fn first_key(lane: u32, tables: &RouterTables, select: &Select) -> Option<PeerKey>
    ensures all { keys_from select.now.peer result tables.now.session.books.peers ≡ lane_keys select.now lane tables.now.session.books.peers }
    ensures ordered { IsStrictlySortedBy key_cmp (keys_of tables.now.session.books.peers) }
{
    let first = peer_after(tables, None);
    if !is_lane_named(select.router, lane) {
        return None;
    }
    match select.peer {
        Some(key) => Some(key),
        None => first,
    }
}

// The next peer whose tables are asked.
fn next_key(tables: &RouterTables, named: Option<PeerKey>, key: &PeerKey) -> Option<PeerKey>
    ensures { keys_from named result tables.now.session.books.peers ≡ keys_after named key.now tables.now.session.books.peers }
{
    match named {
        Some(_) => None,
        None => peer_after(tables, Some(key)),
    }
}

// The table of a peer and a view, where the view is asked.
fn table_of<'a>(
    tables: &'a RouterTables,
    named: Option<View>,
    key: &PeerKey,
    view: View,
) -> Option<&'a RouteTable>
    ensures { view_table key.now view (option_copied result) ≡ asked_table tables.now.tables named key.now view }
{
    if !is_view_named(named, view) {
        return None;
    }
    tables.table(key, view)
}

// The first table of a peer that is asked, from a view on.
fn first_table<'a>(
    tables: &'a RouterTables,
    named: Option<View>,
    key: &PeerKey,
    from: Option<View>,
) -> Option<PeerTable<'a>>
    ensures { IsFirstTable result (tables_from tables.now.tables named key.now from) (λ view. tables_from tables.now.tables named key.now (view_after view)) }
{
    let mut at = from;
    while let Some(view) = at {
        if let Some(table) = table_of(tables, named, key, view) {
            return Some(PeerTable {
                key: *key,
                view,
                table,
            });
        }
        at = next_view(view);
    }
    None
}

impl<'a> AskedTables<'a> {
    pub(crate) fn new(lane: u32, tables: &'a RouterTables, select: &Select) -> AskedTables<'a>
        ensures all { left_of result ≡ lane_tables select.now lane tables.now }
        ensures ordered { IsStrictlySortedBy key_cmp (keys_of tables.now.session.books.peers) }
    {
        AskedTables {
            tables,
            peer: select.peer,
            view: select.view,
            key: first_key(lane, tables, select),
            from: Some(View::InPre),
        }
    }

    // The next table. None where none is left.
    pub(crate) fn next(&mut self) -> Option<PeerTable<'a>>
        ensures { MatchOption result (left_of self.old ≡ []) (λ found. left_of self.old ≡ table_value found ∷ left_of self.new) }
    {
        while let Some(key) = self.key {
            if let Some(found) = first_table(self.tables, self.view, &key, self.from) {
                self.from = next_view(found.view);
                return Some(found);
            }
            self.key = next_key(self.tables, self.peer, &key);
            self.from = Some(View::InPre);
        }
        None
    }
}
