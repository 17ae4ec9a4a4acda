ghost use Rattle.std.specs.Prelude.{◌≡◌, Some, true, IfSome, option_and_then};
ghost use Rattle.std.specs.Arc.{arc_value};
ghost use Rattle.std.specs.List.Sorted.{IsStrictlySortedBy};
ghost use Rattle.std.specs.Map.{keys_of};
ghost use Rattle.std.specs.Option.{option_map};
ghost use Rattle.route_runs.specs.Cursor.{pairs_in};
ghost use Rattle.route_runs.specs.Origins.{attrs_origin, is_number, has_spot, may_have, of_origin, passes, AreKeysBy, IsFirstSpot, IsKnown, IsReached, IsSkip};
ghost use Rattle.route_runs.specs.Override.{value_at};
ghost use Rattle.route_runs.specs.Places.{shown, is_after, is_from, IsFirst};
ghost use Rattle.route_runs.specs.Runs.{shared};

use crate::cursor::{Cursor, is_less};
use crate::key::{RunKey, TableKey};
use path_attrs::Attrs;
use rib_model::Route;

/// The origin AS of a route (RFC 6811, section 2), where there is a route and it has one.
pub(crate) fn origin_of(route: Option<&Route>) -> Option<u32>
    ensures { result ≡ option_and_then attrs_origin (option_map shared route.entry) }
{
    match route {
        None => None,
        Some(route) => match &route.path {
            None => None,
            Some(path) => path.origin(),
        },
    }
}

// Whether an origin is this AS.
fn is_this(origin: Option<u32>, asn: u32) -> bool
    ensures { result ≡ is_number asn origin }
{
    match origin {
        None => false,
        Some(n) => n == asn,
    }
}

// Whether a route has this origin.
fn has_origin(route: &Route, asn: u32) -> bool
    ensures { result ≡ is_number asn (attrs_origin (arc_value route.now)) }
{
    is_this(origin_of(Some(route)), asn)
}

// The route of a key, where it has this origin.
fn get_of<'a, K: RunKey>(rows: &Cursor<'a, K, Attrs>, asn: u32, key: &K) -> Option<&'a Route>
    ensures { option_map shared result ≡ of_origin attrs_origin asn (value_at K.cmp key.now rows.now.pairs) }
{
    match rows.get(key) {
        None => None,
        Some(route) => {
            if has_origin(route, asn) {
                Some(route)
            } else {
                None
            }
        }
    }
}

// The first spot, from one on, that the index has under an AS.
fn next_spot<S: RunKey>(index: &mut Cursor<'_, (u32, S), ()>, asn: u32, spot: S) -> Option<S>
    ensures next { IsFirstSpot S.cmp spot (has_spot S.cmp asn index.old.pairs) result }
    ensures pairs { index.new.pairs ≡ index.old.pairs }
{
    match index.from((asn, spot)) {
        None => None,
        Some((pair, _)) => { if pair.0 == asn { Some(pair.1) } else { None } }
    }
}

// The key, or a later one before all keys of a spot or after it.
fn reached<K: TableKey>(key: K, spot: K::Spot) -> K
    ensures { IsReached K.cmp K.Spot.cmp K.spot_of K.is_key key spot result }
{
    match K::before(spot) {
        None => key,
        Some(before) => { if is_less(&key, &before) { before } else { key } }
    }
}

// A key up to which, from this one on, no key has an origin by this index; none where no later key has it. Beside the
// place before, the index isn't asked again.
fn skipped_by<K: TableKey>(
    index: &mut Cursor<'_, (u32, K::Spot), ()>,
    asn: u32,
    place: &K,
    key: K,
) -> Option<K>
    requires { K.is_key key }
    ensures skip { IsSkip K.cmp K.spot_of K.is_key key (has_spot K.Spot.cmp asn index.old.pairs) result }
    ensures pairs { index.new.pairs ≡ index.old.pairs }
{
    let spot = key.spot();
    if spot == place.spot() {
        return Some(key);
    }
    match next_spot(index, asn, spot) {
        None => None,
        Some(spot) => Some(reached(key, spot)),
    }
}

// The same where there may be no index: then the next key may have the origin.
fn skipped<K: TableKey>(
    index: &mut Option<Cursor<'_, (u32, K::Spot), ()>>,
    asn: u32,
    place: &K,
    key: K,
) -> Option<K>
    requires { K.is_key key }
    ensures skip { IsSkip K.cmp K.spot_of K.is_key key (may_have K.Spot.cmp asn (pairs_in index.old)) result }
    ensures pairs { pairs_in index.new ≡ pairs_in index.old }
{
    match index {
        Some(index) => skipped_by(index, asn, place, key),
        None => Some(key),
    }
}

// The first pair after a place whose route has this origin.
fn first_after<'a, K: TableKey>(
    rows: &mut Cursor<'a, K, Attrs>,
    index: &mut Option<Cursor<'_, (u32, K::Spot), ()>>,
    asn: u32,
    place: &K,
) -> Option<(K, &'a Route)>
    requires indexed { IsKnown K.cmp K.Spot.cmp K.spot_of attrs_origin rows.old.pairs (pairs_in index.old) }
    requires keys { AreKeysBy K.cmp K.is_key rows.old.pairs }
    ensures first { IsFirst K.cmp (is_after K.cmp (Some place.now)) (λ q. of_origin attrs_origin asn (value_at K.cmp q rows.old.pairs)) (option_map shown result) }
    ensures rows { rows.new.pairs ≡ rows.old.pairs }
    ensures pairs { pairs_in index.new ≡ pairs_in index.old }
{
    let mut at = *place;
    loop {
        let Some(pair) = rows.after(Some(at)) else {
            return None;
        };
        if has_origin(pair.1, asn) {
            return Some(pair);
        }
        let Some(next) = skipped(index, asn, &at, pair.0) else {
            return None;
        };
        at = next;
    }
}

// The first pair from a place on whose route has this origin.
fn first_from<'a, K: TableKey>(
    rows: &mut Cursor<'a, K, Attrs>,
    index: &mut Option<Cursor<'_, (u32, K::Spot), ()>>,
    asn: u32,
    place: &K,
) -> Option<(K, &'a Route)>
    requires indexed { IsKnown K.cmp K.Spot.cmp K.spot_of attrs_origin rows.old.pairs (pairs_in index.old) }
    requires keys { AreKeysBy K.cmp K.is_key rows.old.pairs }
    ensures first { IsFirst K.cmp (is_from K.cmp place.now) (λ q. of_origin attrs_origin asn (value_at K.cmp q rows.old.pairs)) (option_map shown result) }
    ensures rows { rows.new.pairs ≡ rows.old.pairs }
    ensures pairs { pairs_in index.new ≡ pairs_in index.old }
{
    match get_of(rows, asn, place) {
        Some(route) => Some((*place, route)),
        None => first_after(rows, index, asn, place),
    }
}

/// The first pair whose route has this origin: after a place, or from it on.
pub(crate) fn first_of<'a, K: TableKey>(
    rows: &mut Cursor<'a, K, Attrs>,
    index: &mut Option<Cursor<'_, (u32, K::Spot), ()>>,
    asn: u32,
    place: &K,
    at: bool,
) -> Option<(K, &'a Route)>
    requires indexed { IsKnown K.cmp K.Spot.cmp K.spot_of attrs_origin rows.old.pairs (pairs_in index.old) }
    requires keys { AreKeysBy K.cmp K.is_key rows.old.pairs }
    ensures first { IsFirst K.cmp (passes K.cmp at place.now) (λ q. of_origin attrs_origin asn (value_at K.cmp q rows.old.pairs)) (option_map shown result) }
    ensures rows { rows.new.pairs ≡ rows.old.pairs }
    ensures pairs { pairs_in index.new ≡ pairs_in index.old }
    ensures ordered { IsStrictlySortedBy K.cmp (keys_of rows.old.pairs) }
{
    // For the proof: the pairs are in order.
    rows.see_order();
    if at {
        return first_from(rows, index, asn, place);
    }
    first_after(rows, index, asn, place)
}
