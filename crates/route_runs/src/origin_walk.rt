ghost use Rattle.std.specs.Prelude.{◌≡◌, ◌↔◌, ◌++◌, [], IsNone, Some, true, false, option_to_list};
ghost use Rattle.std.specs.Option.{is_some, option_map};
ghost use Rattle.bmp_specs.specs.Orders.{nlri_cmp};
ghost use Rattle.bmp_specs.specs.declared.wire.Family.TheVariants.{V6};
ghost use Rattle.route_runs.specs.Cursor.{moved};
ghost use Rattle.route_runs.specs.Nlri.{AreHalves, AreKeys, IsNlriOf};
ghost use Rattle.route_runs.specs.Origins.{least_nlri, least_high, passes, with_origin};
ghost use Rattle.route_runs.specs.Override.{value_at};
ghost use Rattle.route_runs.specs.Places.{shown, IsFirst};

use crate::nlri_key::{Key4, Key6};
use crate::origin_cursor::OriginCursor;
use crate::table_cursor::{family_of, pair};
use ip_prefix::{Addr, Family, Nlri, Prefix};
use rib_model::Route;
use std::marker::Model;

/// A walk over the routes of a table whose path has one origin AS, in the order of NLRI. Contracts see the pairs
/// that are left. It takes no memory.
#[derive(Drop)]
pub struct OriginWalk<'a> {
    pub(crate) ipv4: OriginCursor<'a, Key4>,
    pub(crate) ipv6: OriginCursor<'a, Key6>,
    pub(crate) asn: u32,
    pub(crate) place: Nlri,
    pub(crate) at: bool,
}

impl<'a> Model for OriginWalk<'a> {
    ghost use Rattle.std.specs.Prelude.{◌++◌, List, Some};
    ghost use Rattle.bmp_specs.specs.Orders.{nlri_cmp};
    ghost use Rattle.bmp_specs.specs.Values.{AttrsValue, NlriValue};
    ghost use Rattle.route_runs.specs.Nlri.{AreHalves};
    ghost use Rattle.route_runs.specs.Origins.{with_origin, when};
    ghost use Rattle.route_runs.specs.Walk.{left};

    ghost Value = { List (NlriValue × AttrsValue) };

    ghost view = { λ w. left nlri_cmp (when w.at w.place) (record { pairs = with_origin w.asn (w.ipv4 ++ w.ipv6); place = Some w.place }) };

    ghost invariant = { λ w. AreHalves w.ipv4 w.ipv6 };
}

/// The first NLRI in their order.
pub(crate) fn least() -> Nlri
    ensures { result ≡ least_nlri }
{
    Nlri {
        prefix: Prefix::new(Addr::v4([0; 4]), 0).unwrap(),
        id: None,
    }
}

// The first key of IPv6.
fn least_of_ipv6() -> Key6
    ensures { result ≡ least_high }
{
    let nlri = Nlri {
        prefix: Prefix::new(Addr::v6([0; 16]), 0).unwrap(),
        id: None,
    };
    Key6::of(&nlri)
}

// The pair of IPv4 that was found, or else the first one of IPv6 with this origin.
fn or_first_of_ipv6<'a>(
    found: &Option<(Key4, &'a Route)>,
    ipv6: &mut OriginCursor<'a, Key6>,
    asn: u32,
) -> Option<(Nlri, &'a Route)>
    requires { AreKeys (IsNlriOf V6) ipv6.old }
    ensures some { is_some found.now ≡ true → option_map shown result ≡ option_map shown found.now }
    ensures none { is_some found.now ≡ false → IsFirst nlri_cmp (λ q. true) (λ q. value_at nlri_cmp q (with_origin asn ipv6.old)) (option_map shown result) }
    ensures same { ipv6.new ≡ ipv6.old }
{
    // For the proof: the pairs are in order.
    ipv6.see_order();
    if found.is_some() {
        return pair(found);
    }
    pair(&ipv6.first(asn, &least_of_ipv6(), true))
}

// The first pair of both families with this origin: after a place, or from it on.
fn first_in_both<'a>(
    ipv4: &mut OriginCursor<'a, Key4>,
    ipv6: &mut OriginCursor<'a, Key6>,
    asn: u32,
    place: &Nlri,
    at: bool,
) -> Option<(Nlri, &'a Route)>
    requires { AreHalves ipv4.old ipv6.old }
    ensures first { IsFirst nlri_cmp (passes nlri_cmp at place.now) (λ q. value_at nlri_cmp q (with_origin asn (ipv4.old ++ ipv6.old))) (option_map shown result) }
    ensures ipv4 { ipv4.new ≡ ipv4.old }
    ensures ipv6 { ipv6.new ≡ ipv6.old }
{
    // For the proof: the pairs are in order.
    ipv4.see_order();
    ipv6.see_order();
    match family_of(place) {
        Family::V4 => or_first_of_ipv6(&ipv4.first(asn, &Key4::of(place), at), ipv6, asn),
        Family::V6 => pair(&ipv6.first(asn, &Key6::of(place), at)),
    }
}

// The NLRI of the pair that was found, or the place before.
fn place_after(place: Nlri, found: &Option<(Nlri, &Route)>) -> Nlri
    ensures { Some result ≡ moved (Some place) (option_map shown found.now) }
{
    match found {
        Some((nlri, _)) => *nlri,
        None => place,
    }
}

impl<'a> OriginWalk<'a> {
    /// The next NLRI and its route. `None` exactly where none is left.
    pub fn next(&mut self) -> Option<(Nlri, &'a Route)>
        ensures next { self.old ≡ option_to_list (option_map shown result) ++ self.new }
        ensures none { IsNone result ↔ (self.old ≡ []) }
    {
        // For the proof: the pairs are in order.
        self.ipv4.see_order();
        self.ipv6.see_order();
        let place = self.place;
        let found = first_in_both(&mut self.ipv4, &mut self.ipv6, self.asn, &place, self.at);
        let last = place_after(place, &found);
        self.at = false;
        self.place = last;
        found
    }
}
