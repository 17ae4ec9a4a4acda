ghost use Rattle.std.specs.Prelude.{◌≡◌, ◌<◌, ◌↔◌, List, length, map, IsTrue, IfSome, IfNone, IfOk, IfErr, OnOk, slice_get, Some, ⊤};
ghost use Rattle.plain_model.specs.declared.values.Row.{Row};
ghost use Rattle.std.specs.List.Sorted.{IsStrictlySortedBy};
ghost use Rattle.bmp_specs.specs.PeerUp.{IsUp};
ghost use Rattle.bmp_specs.specs.Rows.{RowValue, ReplacesRow};
ghost use Rattle.bmp_specs.specs.TableRows.{row_key_cmp, AreRows};
ghost use Rattle.plain_model.specs.Rows.{IsRowAt, LeaveRow, KeepsUp, row_keys_of, IsGap, Puts};
ghost use Rattle.plain_model.specs.Values.{key_value, row_key_value, row_value, effect_value};

use crate::order::{is_same_peer, is_same_row_key, row_key_order};
use crate::values::{Effect, Peer, Row, RowKey};
use std::alloc::{AllocError, Global};
use std::cmp::Ordering;

// Tells whether the effect ends what stands at the place.
fn replaces(effect: &Effect, place: &RowKey) -> bool
    ensures { IsTrue result ↔ ReplacesRow (row_key_value place.now) (effect_value effect.now) }
{
    match effect {
        Effect::Up { peer, .. } => is_same_peer(peer, &place.peer),
        Effect::Down { peer, .. } => is_same_peer(peer, &place.peer),
        Effect::Announce(row) => is_same_row_key(&row.row_key, place),
        Effect::Withdraw(other) => is_same_row_key(other, place),
        Effect::Mark { .. } => false,
        Effect::Passed => false,
    }
}

// Tells whether the effects end nothing that stands at the place.
fn leave(effects: &[Effect], place: &RowKey) -> bool
    ensures { IsTrue result ↔ LeaveRow (row_key_value place.now) (map effect_value effects.now) }
{
    for effect in effects {
        if replaces(effect, place) {
            return false;
        }
    }
    true
}

// Tells whether the peer is up after one more effect, where `was` tells whether it was up before.
fn is_up_after(was: bool, effect: &Effect, peer: &Peer) -> bool
    ensures { KeepsUp (key_value peer.now) (effect_value effect.now) was result }
{
    match effect {
        Effect::Up { peer: named, .. } => was || is_same_peer(named, peer),
        Effect::Down { peer: named, .. } => was && !is_same_peer(named, peer),
        _ => was,
    }
}

// Tells whether the peer is up after the effects.
fn is_up(effects: &[Effect], peer: &Peer) -> bool
    ensures { IsTrue result ↔ IsUp (map effect_value effects.now) (key_value peer.now) }
{
    let mut up = false;
    for effect in effects {
        up = is_up_after(up, effect, peer);
    }
    up
}

/// Gives the row that the effect at index `at` announces, where the effects leave it.
pub fn row_at(effects: &[Effect], at: usize) -> Option<Row>
    requires { at < length effects.now }
    ensures row { IfSome result (λ row. IsRowAt (map effect_value effects.now) at (row_value row)) }
    ensures none { IfNone result ((row : RowValue) → IsRowAt (map effect_value effects.now) at row → ⊥) }
{
    let Effect::Announce(row) = effects[at] else {
        return None;
    };
    if !is_up(&effects[..at], &row.row_key.peer) {
        return None;
    }
    if !leave(&effects[at + 1..], &row.row_key) {
        return None;
    }
    Some(row)
}

// Finds the place among rows in order: the index where it stands, or where it has to stand.
fn find_place(rows: &[Row], place: &RowKey) -> Result<usize, usize>
    ensures there { IfOk result (λ at. (row : Row) × (slice_get rows.now at ≡ Some row) × (row_key_value row.row_key ≡ row_key_value place.now)) }
    ensures gap { IfErr result (λ at. IsGap (row_keys_of (map row_value rows.now)) (row_key_value place.now) at) }
{
    for (at, row) in rows.iter().enumerate() {
        match row_key_order(&row.row_key, place) {
            Ordering::Less => {}
            Ordering::Equal => return Ok(at),
            Ordering::Greater => return Err(at),
        }
    }
    Err(rows.len())
}

// Puts the row where it belongs, unless a row stands at its place.
fn put(rows: &mut Vec<Row>, row: Row) -> Result<(), AllocError>
    requires { IsStrictlySortedBy row_key_cmp (row_keys_of (map row_value rows.old.items)) }
    ensures { OnOk result (Puts (map row_value rows.old.items) (row_value row) (map row_value rows.new.items)) }
{
    if let Err(at) = find_place(rows, &row.row_key) {
        rows.insert(at, row)?;
    }
    Ok(())
}

/// Gives the rows that the effects leave, in the order of a reply. It looks at each effect and, for each
/// announcement, at all the others.
pub fn rows(alloc: Global, effects: &[Effect]) -> Result<Vec<Row>, AllocError>
    ensures { IfOk result (λ rows. AreRows (λ row. ⊤) (map effect_value effects.now) (map row_value rows.items)) }
{
    let mut rows = Vec::new(alloc);
    for at in 0..effects.len() {
        if let Some(row) = row_at(effects, at) {
            put(&mut rows, row)?;
        }
    }
    Ok(rows)
}
