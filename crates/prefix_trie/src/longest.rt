ghost use Rattle.std.specs.Prelude.{◌≡◌, ◌+◌, ◌≤◌};
ghost use Rattle.std.specs.Option.{option_map};
ghost use Rattle.prefix_trie.specs.Cursor.{shown};
ghost use Rattle.prefix_trie.specs.Longest.{IsLongest};

use crate::bits::shared_bits;
use crate::looks::Looks;
use crate::steps::Steps;
use crate::trie::Trie;
use ip_prefix::{Addr, Prefix, width};
use std::sync::ledger::Ledger;

impl<T: Drop> Trie<T> {
    /// The longest prefix that holds an address (RFC 1812, section 5.2.4.3), in at most 130 looks.
    pub fn longest<L: Ledger>(&self, addr: &Addr, steps: &mut Steps<L>) -> Option<(Prefix, &T)>
        requires { addr.now.family ≡ self.now.family }
        ensures longest { IsLongest addr.now self.now.pairs (option_map shown result) }
        ensures cost { steps.new ≤ steps.old + 130 }
    {
        longest_by_looks(&Looks::new(self), addr, steps)
    }
}

// Searches for the longest prefix that holds an address.
//
// Each look finds the last pair at or before a place. Where that prefix holds the address no longer
// one does. Where it doesn't, those that do have no more bits than it shares with the address, so
// the next place has that many.
fn longest_by_looks<'a, T: Drop, L: Ledger>(
    looks: &Looks<'a, T>,
    addr: &Addr,
    steps: &mut Steps<L>,
) -> Option<(Prefix, &'a T)>
    requires { addr.now.family ≡ looks.now.family }
    ensures longest { IsLongest addr.now looks.now.pairs (option_map shown result) }
    ensures cost { steps.new ≤ steps.old + 130 }
{
    let octets = addr.octets();
    let mut bits = width(looks.family());
    loop {
        let Some(place) = Prefix::new(*addr, bits) else {
            return None;
        };
        let Some(found) = looks.last_up_to(&place, steps) else {
            return None;
        };
        let shared = shared_bits(&found.0.addr().octets(), &octets);
        if found.0.bits() <= shared {
            return Some(found);
        }
        bits = shared;
    }
}
