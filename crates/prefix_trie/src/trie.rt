ghost use Rattle.std.specs.Prelude.{◌≡◌, ◌^◌, ◌<◌, [], length, IfOk, IfErr, OnOk, OnErr};
ghost use Rattle.std.specs.List.{All};
ghost use Rattle.std.specs.Option.{option_copied};
ghost use Rattle.std.specs.BTreeMap.{insert_entry, is_at};
ghost use Rattle.std.specs.List.Sorted.{IsStrictlySortedBy};
ghost use Rattle.std.specs.Map.{keys_of, lookup, remove_entry};
ghost use Rattle.bmp_specs.specs.Orders.{prefix_cmp};
ghost use Rattle.prefix_trie.specs.Table.{IsOfFamily};

use crate::held::Held;
use ip_prefix::{Family, Prefix};
use std::alloc::Global;
use std::collections::BTreeMap;
use std::marker::Model;

/// Pairs of a prefix and a value, in prefix order, where all prefixes are of one family.
#[derive(Drop)]
pub struct Trie<T> {
    pub(crate) pairs: BTreeMap<Prefix, Held<T>>,
    pub(crate) alloc: Global,
    pub(crate) family: Family,
}

impl<T> Model for Trie<T> {
    ghost use Rattle.prefix_trie.specs.Table.{TableValue, IsOfFamily};
    ghost use Rattle.std.specs.List.{All};
    ghost use Rattle.std.specs.Map.{keys_of};

    ghost Value = { TableValue T };

    ghost view = { λ t. record { family = t.family; pairs = t.pairs.entries } };

    ghost invariant = { λ t. All (IsOfFamily t.family) (keys_of t.pairs.entries) };
}

impl<T: Drop> Trie<T> {
    /// The table with no pair. It takes no memory.
    pub fn new(alloc: Global, family: Family) -> Trie<T>
        ensures { result ≡ record { family = family; pairs = [] } }
    {
        Trie {
            pairs: BTreeMap::new(alloc),
            alloc,
            family,
        }
    }

    /// Sets the value of a prefix, and hands back the one before. Where memory is wanting it hands the
    /// new value back and changes nothing.
    pub fn insert(&mut self, prefix: Prefix, value: T) -> Result<Option<T>, T>
        requires { prefix.address.family ≡ self.old.family }
        ensures before { IfOk result (λ before. before ≡ lookup (is_at (prefix_cmp prefix)) self.old.pairs) }
        ensures ok { OnOk result (self.new.pairs ≡ insert_entry prefix_cmp self.old.pairs prefix value) }
        ensures back { IfErr result (λ back. back ≡ value) }
        ensures err { OnErr result (self.new.pairs ≡ self.old.pairs) }
        ensures family { self.new.family ≡ self.old.family }
        ensures ordered { IsStrictlySortedBy prefix_cmp (keys_of self.new.pairs) }
    {
        // For the proof: a prefix has no more bits than its family.
        let _bits = prefix.bits();
        match self.pairs.insert(prefix, Held::new(value)) {
            Ok(Some(before)) => Ok(Some(before.into_value())),
            Ok(None) => Ok(None),
            Err(refused) => Err(refused.value.1.into_value()),
        }
    }

    /// Takes out the pair of a prefix, and hands back its value.
    pub fn remove(&mut self, prefix: &Prefix) -> Option<T>
        requires { prefix.now.address.family ≡ self.old.family }
        ensures value { result ≡ lookup (is_at (prefix_cmp prefix.now)) self.old.pairs }
        ensures rest { self.new.pairs ≡ remove_entry (is_at (prefix_cmp prefix.now)) self.old.pairs }
        ensures family { self.new.family ≡ self.old.family }
        ensures ordered { IsStrictlySortedBy prefix_cmp (keys_of self.new.pairs) }
    {
        match self.pairs.remove(prefix) {
            Some(held) => Some(held.into_value()),
            None => None,
        }
    }

    /// The value of a prefix.
    pub fn get(&self, prefix: &Prefix) -> Option<&T>
        requires { prefix.now.address.family ≡ self.now.family }
        ensures { option_copied result ≡ lookup (is_at (prefix_cmp prefix.now)) self.now.pairs }
    {
        match self.pairs.get(prefix) {
            Some(held) => Some(held.lend()),
            None => None,
        }
    }

    /// How many pairs there are.
    pub fn len(&self) -> u64
        ensures len { result ≡ length self.now.pairs }
        ensures ordered { IsStrictlySortedBy prefix_cmp (keys_of self.now.pairs) }
        ensures one_family { All (IsOfFamily self.now.family) (keys_of self.now.pairs) }
    {
        self.pairs.len() as u64
    }

    /// The family.
    pub fn family(&self) -> Family
        ensures { result ≡ self.now.family }
    {
        self.family
    }
}
