ghost use Rattle.std.specs.Prelude.{◌≡◌, ◌↔◌, IsTrue};
ghost use Rattle.bmp_specs.specs.Orders.{family_number, view_number, address_cmp, key_cmp};
ghost use Rattle.bmp_specs.specs.TableRows.{row_key_cmp};
ghost use Rattle.plain_model.specs.Values.{address_value, key_value, row_key_value};

use crate::values::{Address, Peer, RowKey};
use bmp_specs::{Family, View};
use std::cmp::Ordering;

fn family_rank(family: Family) -> u8
    ensures { result ≡ family_number family }
{
    match family {
        Family::V4 => 0,
        Family::V6 => 1,
    }
}

fn view_rank(view: View) -> u8
    ensures { result ≡ view_number view }
{
    match view {
        View::InPre => 0,
        View::InPost => 1,
        View::OutPre => 2,
        View::OutPost => 3,
        View::Loc => 4,
    }
}

fn address_order(a: &Address, b: &Address) -> Ordering
    ensures { result ≡ address_cmp (address_value a.now) (address_value b.now) }
{
    family_rank(a.family)
        .cmp(&family_rank(b.family))
        .then(a.octets.cmp(&b.octets))
}

fn peer_order(a: &Peer, b: &Peer) -> Ordering
    ensures { result ≡ key_cmp (key_value a.now) (key_value b.now) }
{
    let address = address_order(&a.address, &b.address);
    a.kind
        .cmp(&b.kind)
        .then(a.distinguisher.cmp(&b.distinguisher).then(address))
}

/// Which of two places comes first in a reply: by peer, then by view, then by prefix and path
/// identifier.
pub fn row_key_order(a: &RowKey, b: &RowKey) -> Ordering
    ensures { result ≡ row_key_cmp (row_key_value a.now) (row_key_value b.now) }
{
    let prefix = address_order(&a.address, &b.address).then(a.bits.cmp(&b.bits));
    let nlri = prefix.then(a.id.cmp(&b.id));
    let view = view_rank(a.view).cmp(&view_rank(b.view));
    peer_order(&a.peer, &b.peer).then(view.then(nlri))
}

/// Tells whether two peers are one.
pub fn is_same_peer(a: &Peer, b: &Peer) -> bool
    ensures { IsTrue result ↔ (key_value a.now ≡ key_value b.now) }
{
    peer_order(a, b).is_eq()
}

/// Tells whether two places are one.
pub fn is_same_row_key(a: &RowKey, b: &RowKey) -> bool
    ensures { IsTrue result ↔ (row_key_value a.now ≡ row_key_value b.now) }
{
    row_key_order(a, b).is_eq()
}
