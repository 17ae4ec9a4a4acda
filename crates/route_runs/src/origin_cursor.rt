ghost use Rattle.std.specs.Prelude.{◌≡◌};
ghost use Rattle.std.specs.List.Sorted.{IsStrictlySortedBy};
ghost use Rattle.std.specs.Map.{keys_of};
ghost use Rattle.std.specs.Option.{option_map};
ghost use Rattle.route_runs.specs.Origins.{attrs_origin, of_origin, passes, AreKeysBy};
ghost use Rattle.route_runs.specs.Override.{value_at};
ghost use Rattle.route_runs.specs.Places.{shown, IsFirst};

use crate::cursor::Cursor;
use crate::key::TableKey;
use crate::origin::first_of;
use path_attrs::Attrs;
use rib_model::Route;
use std::marker::Model;

/// What reads the routes of an origin AS, of one family of addresses. It keeps its places in the table and in the
/// index, where there is one. Contracts see the pairs of all routes.
#[derive(Drop)]
pub(crate) struct OriginCursor<'a, K: TableKey> {
    pub(crate) rows: Cursor<'a, K, Attrs>,
    pub(crate) index: Option<Cursor<'a, (u32, K::Spot), ()>>,
}

impl<'a, K: TableKey> Model for OriginCursor<'a, K> {
    ghost use Rattle.std.specs.Prelude.{List};
    ghost use Rattle.bmp_specs.specs.Values.{AttrsValue};
    ghost use Rattle.route_runs.specs.Cursor.{pairs_in};
    ghost use Rattle.route_runs.specs.Origins.{attrs_origin, IsKnown};

    ghost Value = { List (K × AttrsValue) };

    ghost view = { λ o. o.rows.pairs };

    ghost invariant = { λ o. IsKnown K.cmp K.Spot.cmp K.spot_of attrs_origin o.rows.pairs (pairs_in o.index) };
}

impl<'a, K: TableKey> OriginCursor<'a, K> {
    /// The first pair whose route has this origin: after a place, or from it on.
    pub(crate) fn first(&mut self, asn: u32, place: &K, at: bool) -> Option<(K, &'a Route)>
        requires { AreKeysBy K.cmp K.is_key self.old }
        ensures first { IsFirst K.cmp (passes K.cmp at place.now) (λ q. of_origin attrs_origin asn (value_at K.cmp q self.old)) (option_map shown result) }
        ensures same { self.new ≡ self.old }
        ensures ordered { IsStrictlySortedBy K.cmp (keys_of self.old) }
    {
        first_of(&mut self.rows, &mut self.index, asn, place, at)
    }

    /// The keys stand in order.
    pub(crate) fn see_order(&self)
        ensures { IsStrictlySortedBy K.cmp (keys_of self.now) }
    {
        // For the proof: the rows are in order.
        self.rows.see_order();
    }
}
