//! The routes that pass a test of their attributes: `RouteTable::sift`.
ghost use Rattle.std.specs.Prelude.{◌≡◌, ◌↔◌, ◌++◌, [], Bool, IsNone, length, min, option_to_list};
ghost use Rattle.std.specs.Option.{option_map};
ghost use Rattle.bmp_specs.specs.Values.{AttrsValue};
ghost use Rattle.route_runs.specs.Places.{shown};
ghost use Rattle.route_runs.specs.Sift.{pairs_in, sifted};

use crate::cursor::place_of_next;
use crate::key::RunKey;
use crate::nlri_key::{Key4, Key6};
use crate::run::Run;
use crate::runs::Runs;
use crate::spots::{first_spots, next_passing_pair};
use crate::table_cursor::pair;
use ip_prefix::Nlri;
use path_attrs::Attrs;
use rib_model::Route;
use std::marker::Model;
use std::sync::Arc;

/// A test of the attributes of routes.
pub trait RouteTest {
    /// Whether attributes pass.
    ghost passes: { Self → AttrsValue → Bool };

    /// Whether they pass.
    fn test(&self, attrs: &Attrs) -> bool
        ensures { result ≡ passes self.now attrs.now };
}

/// A walk over the pairs of one family that pass a test, in key order. In each run it stands at the next row that passes, so
/// rows that don't pass are never compared. Contracts see the pairs that are left.
#[derive(Drop)]
pub(crate) struct Sift<'a, K: RunKey, T: RouteTest> {
    runs: &'a [Arc<Run<K, Attrs>>],
    test: &'a T,
    place: Option<K>,
    spots: [usize; 40],
    hints: [usize; 40],
}

impl<'a, K: RunKey, T: RouteTest> Model for Sift<'a, K, T> {
    ghost use Rattle.std.specs.Prelude.{◌≤◌, List, None, length, map};
    ghost use Rattle.std.specs.Arc.{arc_value};
    ghost use Rattle.bmp_specs.specs.Values.{AttrsValue};
    ghost use Rattle.route_runs.specs.Runs.{contents};
    ghost use Rattle.route_runs.specs.Sift.{sifted, AreSpots};
    ghost use Rattle.route_runs.specs.Walk.{left};

    ghost Value = { List (K × AttrsValue) };

    ghost view = { λ w. left K.cmp None (record { pairs = sifted (T.passes w.test.now) (contents K.cmp (map arc_value w.runs.now)); place = w.place }) };

    ghost invariant = { λ w. length w.runs.now ≤ 40 → AreSpots K.cmp (T.passes w.test.now) w.place (map arc_value w.runs.now) w.spots };
}

impl<'a, K: RunKey, T: RouteTest> Sift<'a, K, T> {
    /// A walk over all pairs that pass.
    pub(crate) fn new(runs: &'a Runs<K, Attrs>, test: &'a T) -> Sift<'a, K, T>
        ensures { result ≡ sifted (T.passes test.now) runs.now }
    {
        let runs = runs.runs.as_slice();
        Sift {
            runs,
            test,
            place: None,
            spots: first_spots(runs, test),
            hints: [0; 40],
        }
    }

    /// The next key and its route. `None` exactly where none is left.
    fn next(&mut self) -> Option<(K, &'a Route)>
        ensures next { self.old ≡ option_to_list (option_map shown result) ++ self.new }
        ensures none { IsNone result ↔ (self.old ≡ []) }
    {
        let runs = self.runs;
        let test = self.test;
        let place = self.place;
        let found = next_passing_pair(runs, test, place, &mut self.spots, &mut self.hints);
        self.place = place_of_next(place, &found);
        found
    }

    // How many are left, or 2^64 - 1 where there are more.
    fn count(&mut self) -> u64
        ensures { result ≡ min (length self.old) 18446744073709551615 }
    {
        let mut count: u64 = 0;
        while self.next().is_some() {
            count = count.saturating_add(1);
        }
        count
    }
}

// The next pair, where there is a walk.
fn next_in<'a, K: RunKey, T: RouteTest>(sift: &mut Option<Sift<'a, K, T>>) -> Option<(K, &'a Route)>
    ensures next { pairs_in sift.old ≡ option_to_list (option_map shown result) ++ pairs_in sift.new }
    ensures none { IsNone result ↔ (pairs_in sift.old ≡ []) }
{
    match sift {
        None => None,
        Some(sift) => sift.next(),
    }
}

// How many are left, where there is a walk.
fn count_in<K: RunKey, T: RouteTest>(sift: &mut Option<Sift<'_, K, T>>) -> u64
    ensures { result ≡ min (length (pairs_in sift.old)) 18446744073709551615 }
{
    match sift {
        None => 0,
        Some(sift) => sift.count(),
    }
}

/// A walk over the routes of a table that pass a test, in the order of NLRI: those of a family where one is named, else
/// all. Contracts see the pairs that are left. It takes no memory.
#[derive(Drop)]
pub struct SiftWalk<'a, T: RouteTest> {
    pub(crate) ipv4: Option<Sift<'a, Key4, T>>,
    pub(crate) ipv6: Option<Sift<'a, Key6, T>>,
}

impl<'a, T: RouteTest> Model for SiftWalk<'a, T> {
    ghost use Rattle.std.specs.Prelude.{◌++◌, List};
    ghost use Rattle.bmp_specs.specs.Values.{AttrsValue, NlriValue};
    ghost use Rattle.route_runs.specs.Sift.{pairs_in};

    ghost Value = { List (NlriValue × AttrsValue) };

    ghost view = { λ w. pairs_in w.ipv4 ++ pairs_in w.ipv6 };
}

impl<'a, T: RouteTest> SiftWalk<'a, T> {
    /// The next NLRI and its route. `None` exactly where none is left.
    pub fn next(&mut self) -> Option<(Nlri, &'a Route)>
        ensures next { self.old ≡ option_to_list (option_map shown result) ++ self.new }
        ensures none { IsNone result ↔ (self.old ≡ []) }
    {
        let found = next_in(&mut self.ipv4);
        if found.is_some() {
            return pair(&found);
        }
        self.ipv4 = None;
        pair(&next_in(&mut self.ipv6))
    }

    /// How many are left, or 2^64 - 1 where there are more. No NLRI is made.
    pub fn count(self) -> u64
        ensures { result ≡ min (length self.entry) 18446744073709551615 }
    {
        let mut walk = self;
        count_in(&mut walk.ipv4).saturating_add(count_in(&mut walk.ipv6))
    }
}
