ghost use Rattle.std.specs.Prelude.{◌≡◌, ◌+◌, ◌++◌, true, false, None};
ghost use Rattle.std.specs.Option.{is_some, option_map};
ghost use Rattle.bmp_specs.specs.Orders.{nlri_cmp};
ghost use Rattle.route_runs.specs.Longest.{row_prefix, IsLastUpTo};
ghost use Rattle.route_runs.specs.Nlri.{AreNlri, AreHalves};
ghost use Rattle.route_runs.specs.Override.{value_at};
ghost use Rattle.route_runs.specs.Places.{shown, turned, is_after, is_from, IsFirst};

use crate::nlri_key::{Key4, Key6};
use crate::runs::Runs;
use crate::table_cursor::{family_of, pair};
use ip_prefix::{Family, Nlri, Prefix};
use path_attrs::Attrs;
use prefix_trie::Steps;
use rib_model::Route;
use std::marker::Model;
use std::sync::ledger::Ledger;

/// A table of which rows are read one by one, each for a step. Outside of this file nothing else of the
/// table can be read, so what has only this counts each row that it reads. A contract sees the table, its IPv4 rows
/// first.
#[derive(Drop)]
pub(crate) struct Looks<'a> {
    ipv4: &'a Runs<Key4, Attrs>,
    ipv6: &'a Runs<Key6, Attrs>,
}

impl<'a> Model for Looks<'a> {
    ghost use Rattle.std.specs.Prelude.{List, ◌++◌};
    ghost use Rattle.bmp_specs.specs.Values.{AttrsValue, NlriValue};
    ghost use Rattle.route_runs.specs.Nlri.{AreHalves};

    ghost Value = { List (NlriValue × AttrsValue) };

    ghost view = { λ l. l.ipv4.now ++ l.ipv6.now };

    ghost invariant = { λ l. AreHalves l.ipv4.now l.ipv6.now };
}

// The prefix of a row.
fn prefix_of(found: &Option<(Nlri, &Route)>) -> Option<Prefix>
    ensures { result ≡ option_map row_prefix (option_map shown found.now) }
{
    match found {
        Some((nlri, _)) => Some(nlri.prefix),
        None => None,
    }
}

// The pair of IPv6 that was found, or else the last one of IPv4.
fn or_last_of_ipv4<'a>(
    found: &Option<(Key6, &'a Route)>,
    ipv4: &'a Runs<Key4, Attrs>,
) -> Option<(Nlri, &'a Route)>
    ensures some { is_some found.now ≡ true → option_map shown result ≡ option_map shown found.now }
    ensures none { is_some found.now ≡ false → IsFirst (turned nlri_cmp) (is_after (turned nlri_cmp) None) (λ q. value_at nlri_cmp q ipv4.now) (option_map shown result) }
{
    if found.is_some() {
        return pair(found);
    }
    pair(&ipv4.last())
}

// The pair of an NLRI, or the last one of both families before it.
fn last_in_both<'a>(
    ipv4: &'a Runs<Key4, Attrs>,
    ipv6: &'a Runs<Key6, Attrs>,
    nlri: &Nlri,
) -> Option<(Nlri, &'a Route)>
    requires { AreHalves ipv4.now ipv6.now }
    ensures { IsFirst (turned nlri_cmp) (is_from (turned nlri_cmp) nlri.now) (λ q. value_at nlri_cmp q (ipv4.now ++ ipv6.now)) (option_map shown result) }
{
    match family_of(nlri) {
        Family::V4 => pair(&ipv4.at_or_before(&Key4::of(nlri))),
        Family::V6 => or_last_of_ipv4(&ipv6.at_or_before(&Key6::of(nlri)), ipv4),
    }
}

impl<'a> Looks<'a> {
    /// The looks at a table of two families.
    pub(crate) fn new(ipv4: &'a Runs<Key4, Attrs>, ipv6: &'a Runs<Key6, Attrs>) -> Looks<'a>
        requires { AreHalves ipv4.now ipv6.now }
        ensures { result ≡ ipv4.now ++ ipv6.now }
    {
        Looks { ipv4, ipv6 }
    }

    /// The last prefix at a place or before it, for one step.
    pub(crate) fn last_up_to<L: Ledger>(
        &self,
        place: &Prefix,
        steps: &mut Steps<L>,
    ) -> Option<Prefix>
        requires { AreNlri self.now }
        ensures last { IsLastUpTo self.now place.now result }
        ensures step { steps.new ≡ steps.old + 1 }
    {
        steps.tick();
        let last = Nlri {
            prefix: *place,
            id: Some(u32::MAX),
        };
        let found = last_in_both(self.ipv4, self.ipv6, &last);
        prefix_of(&found)
    }
}
