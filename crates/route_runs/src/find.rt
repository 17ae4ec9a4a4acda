ghost use Rattle.std.specs.Prelude.{◌≡◌, length, map};
ghost use Rattle.std.specs.Arc.{arc_value};
ghost use Rattle.std.specs.List.Sorted.{IsStrictlySortedBy};
ghost use Rattle.std.specs.Map.{keys_of};
ghost use Rattle.std.specs.Option.{option_map};
ghost use Rattle.route_runs.specs.Override.{value_at};
ghost use Rattle.route_runs.specs.Rows.{sets_of, set_at, IsHandle};
ghost use Rattle.route_runs.specs.Runs.{latest, seen, shared};
ghost use Rattle.route_runs.specs.Places.{IsAfterPoint};

use crate::key::RunKey;
use crate::run::{GONE, Pack, Run};
use crate::runs::Runs;
use std::sync::Arc;

/// The set that a handle names.
pub(crate) fn set_of<A>(packs: &[Arc<Pack<A>>], handle: u32) -> Option<&Arc<A>>
    requires { IsHandle (sets_of packs.now) handle }
    ensures { option_map shared result ≡ set_at (sets_of packs.now) handle }
{
    if handle == GONE {
        return None;
    }
    let pack = packs[(handle / 4096) as usize].as_slice();
    Some(&pack[(handle % 4096) as usize])
}

// Where the keys after a place begin.
pub(crate) fn after_place<K: RunKey>(keys: &[K], place: Option<K>) -> usize
    requires { IsStrictlySortedBy K.cmp keys.now }
    ensures { IsAfterPoint K.cmp place keys.now result }
{
    match place {
        None => 0,
        Some(place) => match keys.binary_search(&place) {
            Ok(at) => at + 1,
            Err(at) => at,
        },
    }
}

impl<K: RunKey, A> Run<K, A> {
    // What the run has at a key.
    fn find(&self, key: &K) -> Option<Option<&Arc<A>>>
        ensures { option_map (option_map shared) result ≡ value_at K.cmp key.now self.now }
    {
        match self.keys.binary_search(key) {
            Ok(at) => Some(set_of(&self.packs, self.handles[at])),
            Err(_) => None,
        }
    }
}

// What the latest run that has a key says of it.
fn latest_in<'a, K: RunKey, A>(runs: &'a [Arc<Run<K, A>>], key: &K) -> Option<Option<&'a Arc<A>>>
    ensures { option_map (option_map shared) result ≡ latest K.cmp key.now (map arc_value runs.now) }
{
    let mut at = runs.len();
    while at > 0 {
        at -= 1;
        if let Some(found) = runs[at].find(key) {
            return Some(found);
        }
    }
    None
}

/// The set of a key.
pub(crate) fn live_in<'a, K: RunKey, A>(runs: &'a [Arc<Run<K, A>>], key: &K) -> Option<&'a Arc<A>>
    ensures { option_map shared result ≡ seen (latest K.cmp key.now (map arc_value runs.now)) }
{
    match latest_in(runs, key) {
        Some(found) => found,
        None => None,
    }
}

impl<K: RunKey, A: Drop> Runs<K, A> {
    /// The set of a key.
    pub(crate) fn get(&self, key: &K) -> Option<&Arc<A>>
        ensures value { option_map shared result ≡ value_at K.cmp key.now self.now }
        ensures ordered { IsStrictlySortedBy K.cmp (keys_of self.now) }
    {
        live_in(self.runs.as_slice(), key)
    }
}
