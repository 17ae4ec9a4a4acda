ghost use Rattle.std.specs.Prelude.{◌≡◌, ◌↔◌, ◌+◌, ◌≤◌, true};
ghost use Rattle.bmp_specs.specs.Prefix.{width_of};
ghost use Rattle.route_runs.specs.Longest.{IsLongest};
ghost use Rattle.route_runs.specs.Nlri.{AreNlri};

use crate::looks::Looks;
use ip_prefix::{Addr, Family, Prefix, width};
use prefix_trie::{Steps, shared_bits};
use std::sync::ledger::Ledger;

// Whether a prefix is of the address's family.
fn is_of_family(prefix: &Prefix, addr: &Addr) -> bool
    ensures { result ≡ true ↔ prefix.now.address.family ≡ addr.now.family }
{
    match (prefix.addr().family(), addr.family()) {
        (Family::V4, Family::V4) => true,
        (Family::V6, Family::V6) => true,
        _ => false,
    }
}

/// Searches for the longest prefix that holds an address.
///
/// Each look finds the last prefix at or before a place. Where it holds the address no longer one does. Where it
/// doesn't, those that do have no more bits than it shares with the address, so the next place has that many.
pub(crate) fn longest_by_looks<L: Ledger>(
    looks: &Looks<'_>,
    addr: &Addr,
    steps: &mut Steps<L>,
) -> Option<Prefix>
    requires { AreNlri looks.now }
    ensures longest { IsLongest addr.now looks.now result }
    ensures cost { steps.new ≤ steps.old + width_of addr.now.family + 1 }
{
    let octets = addr.octets();
    let mut bits = width(addr.family());
    loop {
        let Some(place) = Prefix::new(*addr, bits) else {
            return None;
        };
        let Some(found) = looks.last_up_to(&place, steps) else {
            return None;
        };
        if !is_of_family(&found, addr) {
            return None;
        }
        let shared = shared_bits(&found.addr().octets(), &octets);
        if found.bits() <= shared {
            return Some(found);
        }
        bits = shared;
    }
}
