ghost use Rattle.std.specs.Prelude.{◌≡◌};
ghost use Rattle.std.specs.List.{slice_get};
ghost use Rattle.std.specs.List.Sorted.{IsStrictlySortedBy};
ghost use Rattle.std.specs.Map.{keys_of};
ghost use Rattle.std.specs.Map.Iter.{deref_pair};
ghost use Rattle.std.specs.Option.{option_map, ForSome};
ghost use Rattle.bmp_specs.specs.Orders.{prefix_cmp};
ghost use Rattle.prefix_trie.specs.Cursor.{after_place, from_place, shown};

use crate::held::Held;
use crate::trie::Trie;
use ip_prefix::Prefix;
use std::ops::Bound;

impl<T: Drop> Trie<T> {
    /// The first pair greater than a place, or the first of all. One search.
    pub fn after(&self, place: Option<&Prefix>) -> Option<(Prefix, &T)>
        requires { ForSome place (λ p. p.now.address.family ≡ self.now.family) }
        ensures first { option_map shown result ≡ slice_get (after_place place.entry self.now.pairs) 0 }
        ensures ordered { IsStrictlySortedBy prefix_cmp (keys_of self.now.pairs) }
    {
        match place {
            None => lent(self.pairs.iter().next()),
            Some(place) => lent(
                self.pairs
                    .range((Bound::Excluded(*place), Bound::Unbounded))
                    .next(),
            ),
        }
    }

    /// The first pair at a place or greater than it. One search.
    pub fn at_or_after(&self, place: &Prefix) -> Option<(Prefix, &T)>
        requires { place.now.address.family ≡ self.now.family }
        ensures first { option_map shown result ≡ slice_get (from_place place.now self.now.pairs) 0 }
        ensures ordered { IsStrictlySortedBy prefix_cmp (keys_of self.now.pairs) }
    {
        lent(
            self.pairs
                .range((Bound::Included(*place), Bound::Unbounded))
                .next(),
        )
    }
}

// A pair of the map, with its prefix copied.
pub(crate) fn lent<'a, T>(found: Option<(&'a Prefix, &'a Held<T>)>) -> Option<(Prefix, &'a T)>
    ensures { option_map shown result ≡ option_map deref_pair found.entry }
{
    match found {
        Some((prefix, held)) => Some((*prefix, held.lend())),
        None => None,
    }
}
