ghost use Rattle.std.specs.Prelude.{◌≡◌, [], length, min, IfOk, IfSome, IsTrue};
ghost use Rattle.std.specs.List.Sorted.{IsStrictlySortedBy};
ghost use Rattle.std.specs.Map.{keys_of};
ghost use Rattle.std.specs.Option.{option_map};
ghost use Rattle.route_runs.specs.Override.{value_at};
ghost use Rattle.route_runs.specs.Runs.{shared, IsChanged};

use crate::index::{share_index, walk_of, with_changes};
use crate::key::TableKey;
use crate::listed::Listed;
use crate::origin_cursor::OriginCursor;
use crate::runs::Runs;
use path_attrs::Attrs;
use rib_model::Route;
use std::alloc::Global;
use std::marker::Model;
use wire_io::NoMemory;

/// The routes of one family of addresses, and their index by origin AS, where it is kept. Contracts see the keys that have
/// a route, each with its attributes, in order.
#[derive(Drop)]
pub(crate) struct FamilyTable<K: TableKey> {
    runs: Runs<K, Attrs>,
    index: Option<Runs<(u32, K::Spot), ()>>,
}

impl<K: TableKey> Model for FamilyTable<K> {
    ghost use Rattle.std.specs.Prelude.{List};
    ghost use Rattle.bmp_specs.specs.Values.{AttrsValue};
    ghost use Rattle.route_runs.specs.Origins.{attrs_origin, IsKnown};

    ghost Value = { List (K × AttrsValue) };

    ghost view = { λ t. t.runs };

    ghost invariant = { λ t. IsKnown K.cmp K.Spot.cmp K.spot_of attrs_origin t.runs t.index };
}

impl<K: TableKey> FamilyTable<K> {
    /// The table with no route.
    pub(crate) fn new(alloc: Global) -> FamilyTable<K>
        ensures { result ≡ [] }
    {
        FamilyTable {
            runs: Runs::new(alloc),
            index: Some(Runs::new(alloc)),
        }
    }

    /// The table with no route that keeps no index.
    pub(crate) fn unindexed(alloc: Global) -> FamilyTable<K>
        ensures { result ≡ [] }
    {
        FamilyTable {
            runs: Runs::new(alloc),
            index: None,
        }
    }

    /// The table with these changes made.
    pub(crate) fn with(
        &self,
        alloc: Global,
        changes: Listed<K, Attrs>,
    ) -> Result<FamilyTable<K>, NoMemory>
        ensures { IfOk result (IsChanged K.cmp self.now changes) }
    {
        let (runs, index) = with_changes(alloc, &self.runs, &self.index, changes)?;
        Ok(FamilyTable { runs, index })
    }

    /// An equal table, at the price of a counter for each run.
    pub(crate) fn share(&self, alloc: Global) -> Result<FamilyTable<K>, NoMemory>
        ensures { IfOk result (λ copy. copy ≡ self.now) }
    {
        let runs = self.runs.share(alloc)?;
        let index = share_index(alloc, &self.index)?;
        Ok(FamilyTable { runs, index })
    }

    /// The route of a key.
    pub(crate) fn get(&self, key: &K) -> Option<&Route>
        ensures { option_map shared result ≡ value_at K.cmp key.now self.now }
    {
        self.runs.get(key)
    }

    /// The routes alone.
    pub(crate) fn rows(&self) -> &Runs<K, Attrs>
        ensures { result.now ≡ self.now }
    {
        &self.runs
    }

    /// What reads the routes of an origin AS.
    pub(crate) fn origins(&self) -> OriginCursor<'_, K>
        ensures { result ≡ self.now }
    {
        OriginCursor {
            rows: self.runs.cursor(None),
            index: walk_of(&self.index),
        }
    }

    /// The keys stand in order.
    pub(crate) fn see_order(&self)
        ensures { IsStrictlySortedBy K.cmp (keys_of self.now) }
    {
        // For the proof: the runs are in order.
        self.runs.see_order();
    }

    /// How many routes there are, or 2^64 - 1 where there are more.
    pub(crate) fn count(&self) -> u64
        ensures { result ≡ min (length self.now) 18446744073709551615 }
    {
        self.runs.count()
    }

    /// Whether it is known at once that there is no route.
    pub(crate) fn is_bare(&self) -> bool
        ensures { IsTrue result → self.now ≡ [] }
    {
        self.runs.is_bare()
    }
}
