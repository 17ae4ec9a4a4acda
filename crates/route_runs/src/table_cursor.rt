ghost use Rattle.std.specs.Prelude.{◌≡◌, ◌++◌, true, false, None, Some};
ghost use Rattle.std.specs.List.Sorted.{IsStrictlySortedBy};
ghost use Rattle.std.specs.Map.{keys_of};
ghost use Rattle.std.specs.Option.{is_some, option_map};
ghost use Rattle.bmp_specs.specs.Orders.{nlri_cmp};
ghost use Rattle.route_runs.specs.Cursor.{moved};
ghost use Rattle.route_runs.specs.Nlri.{AreHalves};
ghost use Rattle.route_runs.specs.Override.{value_at};
ghost use Rattle.route_runs.specs.Places.{shown, is_after, is_from, IsFirst};

use crate::cursor::Cursor;
use crate::key_address::KeyAddress;
use crate::nlri_key::{Key4, Key6, NlriKey};
use ip_prefix::{Family, Nlri};
use path_attrs::Attrs;
use rib_model::Route;
use std::marker::Model;

/// A walk over the pairs of both families, those of IPv4 first.
#[derive(Drop)]
pub(crate) struct TableCursor<'a> {
    pub(crate) ipv4: Cursor<'a, Key4, Attrs>,
    pub(crate) ipv6: Cursor<'a, Key6, Attrs>,
    pub(crate) place: Option<Nlri>,
}

impl<'a> Model for TableCursor<'a> {
    ghost use Rattle.std.specs.Prelude.{◌++◌};
    ghost use Rattle.bmp_specs.specs.Values.{AttrsValue, NlriValue};
    ghost use Rattle.route_runs.specs.Cursor.{Walking};
    ghost use Rattle.route_runs.specs.Nlri.{AreHalves};

    ghost Value = { Walking NlriValue AttrsValue };

    ghost view = { λ w. record { pairs = w.ipv4.pairs ++ w.ipv6.pairs; place = w.place } };

    ghost invariant = { λ w. AreHalves w.ipv4.pairs w.ipv6.pairs };
}

// The family of an NLRI.
pub(crate) fn family_of(nlri: &Nlri) -> Family
    ensures { result ≡ nlri.now.prefix.address.family }
{
    nlri.prefix.addr().family()
}

// A pair of one family, with its NLRI.
pub(crate) fn pair<'a, N: KeyAddress>(
    found: &Option<(NlriKey<N>, &'a Route)>,
) -> Option<(Nlri, &'a Route)>
    ensures { option_map shown result ≡ option_map shown found.now }
{
    match found {
        Some((key, route)) => Some((key.nlri(), *route)),
        None => None,
    }
}

impl<'a> TableCursor<'a> {
    /// The first pair after the one given last, or after the place that the walk begins with.
    pub(crate) fn next(&mut self) -> Option<(Nlri, &'a Route)>
        ensures first { IsFirst nlri_cmp (is_after nlri_cmp self.old.place) (λ q. value_at nlri_cmp q self.old.pairs) (option_map shown result) }
        ensures place { self.new.place ≡ moved self.old.place (option_map shown result) }
        ensures pairs { self.new.pairs ≡ self.old.pairs }
        ensures ordered { IsStrictlySortedBy nlri_cmp (keys_of self.old.pairs) }
    {
        // For the proof: the pairs are in order.
        self.ipv4.see_order();
        self.ipv6.see_order();
        let found = next_in_both(&mut self.ipv4, &mut self.ipv6, self.place);
        self.place = place_of_next(self.place, &found);
        found
    }

    /// The pair of an NLRI, or the first one after it. The cursor stands there then.
    pub(crate) fn from(&mut self, nlri: Nlri) -> Option<(Nlri, &'a Route)>
        ensures first { IsFirst nlri_cmp (is_from nlri_cmp nlri) (λ q. value_at nlri_cmp q self.old.pairs) (option_map shown result) }
        ensures place { self.new.place ≡ moved (Some nlri) (option_map shown result) }
        ensures pairs { self.new.pairs ≡ self.old.pairs }
        ensures ordered { IsStrictlySortedBy nlri_cmp (keys_of self.old.pairs) }
    {
        // For the proof: the pairs are in order.
        self.ipv4.see_order();
        self.ipv6.see_order();
        let found = from_in_both(&mut self.ipv4, &mut self.ipv6, &nlri);
        self.place = place_of_next(Some(nlri), &found);
        found
    }
}

// The NLRI of the pair that was found, or the place before.
fn place_of_next(place: Option<Nlri>, found: &Option<(Nlri, &Route)>) -> Option<Nlri>
    ensures { result ≡ moved place (option_map shown found.now) }
{
    match found {
        Some((nlri, _)) => Some(*nlri),
        None => place,
    }
}

// The pair of IPv4 that was found, or else the first one of IPv6.
pub(crate) fn or_first_of_ipv6<'a>(
    found: &Option<(Key4, &'a Route)>,
    ipv6: &mut Cursor<'a, Key6, Attrs>,
) -> Option<(Nlri, &'a Route)>
    ensures some { is_some found.now ≡ true → option_map shown result ≡ option_map shown found.now }
    ensures none { is_some found.now ≡ false → IsFirst nlri_cmp (is_after nlri_cmp None) (λ q. value_at nlri_cmp q ipv6.old.pairs) (option_map shown result) }
    ensures pairs { ipv6.new.pairs ≡ ipv6.old.pairs }
{
    if found.is_some() {
        return pair(found);
    }
    pair(&ipv6.after(None))
}

// The first pair of both families after a place.
fn next_in_both<'a>(
    ipv4: &mut Cursor<'a, Key4, Attrs>,
    ipv6: &mut Cursor<'a, Key6, Attrs>,
    place: Option<Nlri>,
) -> Option<(Nlri, &'a Route)>
    requires { AreHalves ipv4.old.pairs ipv6.old.pairs }
    ensures first { IsFirst nlri_cmp (is_after nlri_cmp place) (λ q. value_at nlri_cmp q (ipv4.old.pairs ++ ipv6.old.pairs)) (option_map shown result) }
    ensures ipv4 { ipv4.new.pairs ≡ ipv4.old.pairs }
    ensures ipv6 { ipv6.new.pairs ≡ ipv6.old.pairs }
{
    let Some(nlri) = place else {
        return or_first_of_ipv6(&ipv4.after(None), ipv6);
    };
    match family_of(&nlri) {
        Family::V4 => or_first_of_ipv6(&ipv4.after(Some(Key4::of(&nlri))), ipv6),
        Family::V6 => pair(&ipv6.after(Some(Key6::of(&nlri)))),
    }
}

// The pair of an NLRI, or the first one of both families after it.
fn from_in_both<'a>(
    ipv4: &mut Cursor<'a, Key4, Attrs>,
    ipv6: &mut Cursor<'a, Key6, Attrs>,
    nlri: &Nlri,
) -> Option<(Nlri, &'a Route)>
    requires { AreHalves ipv4.old.pairs ipv6.old.pairs }
    ensures first { IsFirst nlri_cmp (is_from nlri_cmp nlri.now) (λ q. value_at nlri_cmp q (ipv4.old.pairs ++ ipv6.old.pairs)) (option_map shown result) }
    ensures ipv4 { ipv4.new.pairs ≡ ipv4.old.pairs }
    ensures ipv6 { ipv6.new.pairs ≡ ipv6.old.pairs }
{
    match family_of(nlri) {
        Family::V4 => or_first_of_ipv6(&ipv4.from(Key4::of(nlri)), ipv6),
        Family::V6 => pair(&ipv6.from(Key6::of(nlri))),
    }
}
