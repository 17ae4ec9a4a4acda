ghost use Rattle.std.specs.Prelude.{◌≡◌, ◌↔◌, [], ◌∷◌, IsTrue, IfOk, Some, map};
ghost use Rattle.std.specs.List.{AllByRecursion};
ghost use Rattle.std.specs.Option.{is_some};
ghost use Rattle.bmp_specs.specs.declared.wire.Family.{Family};
ghost use Rattle.bmp_specs.specs.PathIds.{uses_path_ids};
ghost use Rattle.bmp_specs.specs.PeerHeader.{IsViewOf, loc_rib};
ghost use Rattle.bmp_writer.specs.WrittenRoutes.{CanBeAnnounced, side_of_view};
ghost use Rattle.relay_out.specs.Items.{item_value};
ghost use Rattle.relay_out.specs.Judging.{Refuses};
ghost use Rattle.relay_out.specs.Messages.{announces};
ghost use Rattle.relay_out.specs.Tables.{table_rows};
ghost use Rattle.relay_out.specs.Writable.{CanAnnounce, CanBringUp, CanComplete, CanTell, IsWritable};

use crate::fault::EmitFault;
use crate::item::Item;
use crate::takes::Takes;
use bgp_open::{PeerInfo, Side, path_ids};
use bgp_update::NlriList;
use bmp_frames::{LOC_RIB, PeerKey};
use bmp_specs::{Family, View};
use bmp_writer::{can_announce, can_peer_up, can_routes};
use ip_prefix::Nlri;
use path_attrs::Attrs;
use rib_model::{Route, RowKey};
use route_runs::{RouteTable, SetTest};
use std::alloc::Global;
use wire_io::NoMemory;

// The side that a view speaks of.
fn side_of(view: View) -> Side
    ensures { result ≡ side_of_view view }
{
    match view {
        View::InPre | View::InPost => Side::Inward,
        View::OutPre | View::OutPost => Side::Outward,
        View::Loc => Side::Local,
    }
}

// Whether an Initiation Message has room for both.
fn can_tell(name: &[u8], description: &[u8]) -> bool
    ensures { IsTrue result ↔ CanTell name.now description.now }
{
    name.len() <= 65535 && description.len() <= 65535
}

// Whether a Peer Up Notification can tell this.
fn can_bring_up(key: &PeerKey, info: &PeerInfo) -> bool
    ensures { IsTrue result ↔ CanBringUp key.now info.now }
{
    can_peer_up(key, info)
}

// Whether the peer's OPEN messages agree on path identifiers, for a family in a view.
fn agree_on_ids(info: &PeerInfo, family: Family, view: View) -> bool
    ensures { result ≡ uses_path_ids info.now.sent info.now.received family (side_of_view view) }
{
    path_ids(&info.sent, &info.received, family, side_of(view))
}

// Whether the row has a path identifier exactly where its peer's OPEN messages agree on them.
fn has_agreed_id(info: &PeerInfo, row: &RowKey) -> bool
    ensures { IsTrue result ↔ (uses_path_ids info.now.sent info.now.received row.now.nlri.prefix.address.family (side_of_view row.now.view) ≡ is_some row.now.nlri.id) }
{
    let family = row.nlri.prefix.addr().family();
    agree_on_ids(info, family, row.view) == row.nlri.id.is_some()
}

// Whether a Route Monitoring message can announce the row.
fn can_announce_row(
    alloc: Global,
    info: &PeerInfo,
    row: &RowKey,
    route: &Attrs,
) -> Result<bool, NoMemory>
    ensures { IfOk result (λ can. IsTrue can ↔ CanAnnounce info.now (record { row_key = row.now; route = route.now })) }
{
    let announced = NlriList::from_slice(alloc, &[row.nlri])?;
    if !has_agreed_id(info, row) {
        return Ok(false);
    }
    let none = NlriList::new(alloc);
    Ok(can_routes(&row.key, row.view, &none, &announced, route))
}

// Whether the view is one of the peer's.
fn has_view(key: &PeerKey, view: View) -> bool
    ensures { IsTrue result ↔ IsViewOf key.now view }
{
    match view {
        View::Loc => key.kind == LOC_RIB,
        _ => key.kind != LOC_RIB,
    }
}

// Whether a header can name the peer and the view.
fn can_complete(key: &PeerKey, view: View) -> bool
    ensures { IsTrue result ↔ CanComplete key.now view }
{
    if key.kind > LOC_RIB || !has_view(key, view) {
        return false;
    }
    key.kind != LOC_RIB || key.address.family() == Family::V4
}

// Whether the message can be written and is read back.
pub(crate) fn is_writable(alloc: Global, item: &Item<'_>) -> Result<bool, NoMemory>
    ensures { IfOk result (λ can. IsTrue can ↔ IsWritable (item_value item.now)) }
{
    match item {
        Item::Tells { name, description } => Ok(can_tell(name, description)),
        Item::BringsUp { key, info } => Ok(can_bring_up(key, info)),
        Item::Announces { info, row, route } => can_announce_row(alloc, info, row, route),
        Item::Completes { key, view, .. } => Ok(can_complete(key, *view)),
    }
}

// The attributes with which any prefix can be announced.
struct Announceable;

impl SetTest for Announceable {
    ghost passes = { CanBeAnnounced };

    fn test(attrs: &Attrs) -> bool {
        can_announce(attrs)
    }
}

// Whether it is known at once that each row of a table can be announced.
fn can_announce_all(table: &RouteTable, key: &PeerKey, view: View, info: &PeerInfo) -> bool
    ensures { IsTrue result → AllByRecursion IsWritable (map (announces info.now) (table_rows key.now view (Some table.now))) }
{
    // For the proof: the rows are in order.
    table.see_order();
    if !can_complete(key, view) {
        return false;
    }
    let low = agree_on_ids(info, Family::V4, view);
    let high = agree_on_ids(info, Family::V6, view);
    table.all_pass::<Announceable>(low, high)
}

/// Judges whether each message can be written, and writes nothing.
#[derive(Drop)]
pub(crate) struct Judge {
    alloc: Global,
}

impl Judge {
    pub(crate) fn new(alloc: Global) -> Judge {
        Judge { alloc }
    }
}

impl Takes for Judge {
    type Of = ();

    ghost of = { λ judge. tt };

    ghost may = { λ item. Unit {0} };

    ghost took = { λ judge items. AllByRecursion IsWritable items };

    ghost stopped = { λ judge items fault. Refuses items fault };

    fn take(&mut self, item: &Item<'_>) -> Result<(), EmitFault> {
        if is_writable(self.alloc, item)? {
            return Ok(());
        }
        Err(EmitFault::Unwritable)
    }

    // All rows of a table can be written where its attributes can be with any prefix. Where that isn't known, they are judged
    // row by row.
    fn has_taken(&self, table: &RouteTable, key: &PeerKey, view: View, info: &PeerInfo) -> bool {
        can_announce_all(table, key, view, info)
    }

    // There is nothing to look at: few tables are judged by their rows.
    fn look(
        &mut self,
        key: &PeerKey,
        view: View,
        info: &PeerInfo,
        nlris: &[Nlri],
        routes: &[&Route],
    ) -> Result<(), EmitFault> {
        Ok(())
    }
}
