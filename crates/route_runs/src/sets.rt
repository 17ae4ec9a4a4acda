//! What is so of all routes, told by a look at the keys and the sets that the runs keep, without a walk.
ghost use Rattle.std.specs.Prelude.{◌≡◌, IsTrue, map};
ghost use Rattle.std.specs.Arc.{arc_value};
ghost use Rattle.std.specs.List.{AllByRecursion};
ghost use Rattle.bmp_specs.specs.Values.{AttrsValue};
ghost use Rattle.route_runs.specs.Rows.{sets_of};
ghost use Rattle.route_runs.specs.Sets.{PairPasses, RowPasses};

use crate::key::TableKey;
use crate::run::{Pack, Run};
use crate::runs::Runs;
use path_attrs::Attrs;
use std::sync::Arc;

/// A test of the attributes of routes.
pub trait SetTest {
    /// These pass.
    ghost passes: { AttrsValue → Type 0 };

    /// Whether they are known to pass.
    fn test(attrs: &Attrs) -> bool
        ensures { IsTrue result → passes attrs.now };
}

// Whether each key has a path identifier, or none has.
fn have_ids<K: TableKey>(keys: &[K], ids: bool) -> bool
    ensures { IsTrue result → AllByRecursion (λ k. K.is_marked k ≡ ids) keys.now }
{
    for key in keys {
        if key.has_id() != ids {
            return false;
        }
    }
    true
}

// Whether each set is known to pass.
fn sets_pass<T: SetTest>(sets: &[Arc<Attrs>]) -> bool
    ensures { IsTrue result → AllByRecursion T.passes (map arc_value sets.now) }
{
    for set in sets {
        if !T::test(set) {
            return false;
        }
    }
    true
}

// Whether each set of the packs is known to pass.
fn packs_pass<T: SetTest>(packs: &[Arc<Pack<Attrs>>]) -> bool
    ensures { IsTrue result → AllByRecursion (λ sets. AllByRecursion T.passes sets) (sets_of packs.now) }
{
    for pack in packs {
        if !sets_pass::<T>(pack.as_slice()) {
            return false;
        }
    }
    true
}

// Whether each row of a run is known to pass.
fn run_passes<K: TableKey, T: SetTest>(run: &Run<K, Attrs>, ids: bool) -> bool
    ensures { IsTrue result → AllByRecursion (RowPasses K.is_marked ids T.passes) run.now }
{
    have_ids(&run.keys, ids) && packs_pass::<T>(&run.packs)
}

// Whether each row of the runs is known to pass.
fn runs_pass<K: TableKey, T: SetTest>(runs: &[Arc<Run<K, Attrs>>], ids: bool) -> bool
    ensures { IsTrue result → AllByRecursion (λ rows. AllByRecursion (RowPasses K.is_marked ids T.passes) rows) (map arc_value runs.now) }
{
    for run in runs {
        if !run_passes::<K, T>(run, ids) {
            return false;
        }
    }
    true
}

/// Whether it is known at once that each pair has a path identifier, or that none has, and that the attributes of each pass
/// the test.
pub(crate) fn all_pass<K: TableKey, T: SetTest>(runs: &Runs<K, Attrs>, ids: bool) -> bool
    ensures { IsTrue result → AllByRecursion (PairPasses K.is_marked ids T.passes) runs.now }
{
    runs_pass::<K, T>(runs.runs.as_slice(), ids)
}
