ghost use Rattle.std.specs.Prelude.{◌≡◌, ◌+◌};
ghost use Rattle.std.specs.List.{All};
ghost use Rattle.std.specs.Map.{keys_of};
ghost use Rattle.std.specs.Option.{option_map};
ghost use Rattle.prefix_trie.specs.Cursor.{shown};
ghost use Rattle.prefix_trie.specs.Looking.{IsLastUpTo};
ghost use Rattle.prefix_trie.specs.Table.{IsOfFamily};

use crate::cursor::lent;
use crate::held::Held;
use crate::steps::Steps;
use crate::trie::Trie;
use ip_prefix::{Family, Prefix};
use std::collections::BTreeMap;
use std::marker::Model;
use std::ops::Bound;
use std::sync::ledger::Ledger;

/// A table of which pairs are read one by one, each for a step. Outside of this file nothing else of the
/// table can be read, so what has only this counts each pair that it reads. A contract sees the table.
#[derive(Drop)]
pub(crate) struct Looks<'a, T> {
    pairs: &'a BTreeMap<Prefix, Held<T>>,
    family: Family,
}

impl<'a, T> Model for Looks<'a, T> {
    ghost use Rattle.prefix_trie.specs.Table.{TableValue, IsOfFamily};
    ghost use Rattle.std.specs.List.{All};
    ghost use Rattle.std.specs.Map.{keys_of};

    ghost Value = { TableValue T };

    ghost view = { λ l. record { family = l.family; pairs = l.pairs.now.entries } };

    ghost invariant = { λ l. All (IsOfFamily l.family) (keys_of l.pairs.now.entries) };
}

impl<'a, T: Drop> Looks<'a, T> {
    pub(crate) fn new(trie: &'a Trie<T>) -> Looks<'a, T>
        ensures { result ≡ trie.now }
    {
        Looks {
            pairs: &trie.pairs,
            family: trie.family,
        }
    }

    // The family, of which all prefixes are.
    pub(crate) fn family(&self) -> Family
        ensures family { result ≡ self.now.family }
        ensures one_family { All (IsOfFamily self.now.family) (keys_of self.now.pairs) }
    {
        self.family
    }

    // The last pair at a place or before it, for one step.
    pub(crate) fn last_up_to<L: Ledger>(
        &self,
        place: &Prefix,
        steps: &mut Steps<L>,
    ) -> Option<(Prefix, &'a T)>
        ensures last { IsLastUpTo place.now self.now.pairs (option_map shown result) }
        ensures one_family { All (IsOfFamily self.now.family) (keys_of self.now.pairs) }
        ensures step { steps.new ≡ steps.old + 1 }
    {
        steps.tick();
        let pairs = self.pairs;
        lent(
            pairs
                .range((Bound::Unbounded, Bound::Included(*place)))
                .next_back(),
        )
    }
}
