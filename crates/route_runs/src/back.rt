ghost use Rattle.std.specs.Prelude.{◌≡◌, length, map, None};
ghost use Rattle.std.specs.Arc.{arc_value};
ghost use Rattle.std.specs.List.Sorted.{IsStrictlySortedBy};
ghost use Rattle.std.specs.Option.{option_map};
ghost use Rattle.route_runs.specs.Override.{value_at};
ghost use Rattle.route_runs.specs.Runs.{latest, seen};
ghost use Rattle.route_runs.specs.Places.{shown, told, turned, is_after, is_from, is_no_less, IsBeforePoint, IsFirst, IsFirstOver, IsNext, has_key, has_latest, lesser_of};

use crate::find::{after_place, live_in, set_of};
use crate::key::RunKey;
use crate::run::Run;
use crate::runs::Runs;
use std::cmp::Ordering;
use std::sync::Arc;

// How many keys are before a place, or how many there are.
fn before_place<K: RunKey>(keys: &[K], place: Option<K>) -> usize
    requires { IsStrictlySortedBy K.cmp keys.now }
    ensures { IsBeforePoint K.cmp place keys.now result }
{
    match place {
        None => keys.len(),
        Some(place) => match keys.binary_search(&place) {
            Ok(at) => at,
            Err(at) => at,
        },
    }
}

impl<K: RunKey, A> Run<K, A> {
    // The last key before a place, or of all.
    fn last_key(&self, place: Option<K>) -> Option<K>
        ensures { IsNext (turned K.cmp) place (has_key K.cmp self.now) result }
    {
        let at = before_place(&self.keys, place);
        if at > 0 {
            Some(self.keys[at - 1])
        } else {
            None
        }
    }
}

// The greater of two keys.
fn greater<K: RunKey>(a: Option<K>, b: Option<K>) -> Option<K>
    ensures { result ≡ lesser_of (turned K.cmp) a b }
{
    match a {
        None => b,
        Some(first) => match b {
            None => Some(first),
            Some(second) => match first.cmp(&second) {
                Ordering::Less => Some(second),
                _ => Some(first),
            },
        },
    }
}

// The last key of any run before a place.
fn greatest<K: RunKey, A>(runs: &[Arc<Run<K, A>>], place: Option<K>) -> Option<K>
    ensures { IsNext (turned K.cmp) place (has_latest K.cmp (map arc_value runs.now)) result }
{
    let mut best = None;
    for run in runs {
        best = greater(best, run.last_key(place));
    }
    best
}

// The last live pair before a place.
fn last_live<'a, K: RunKey, A>(
    runs: &'a [Arc<Run<K, A>>],
    place: Option<K>,
) -> Option<(K, &'a Arc<A>)>
    ensures { IsFirst (turned K.cmp) (is_after (turned K.cmp) place) (λ q. seen (latest K.cmp q (map arc_value runs.now))) (option_map shown result) }
{
    let mut at = place;
    loop {
        let Some(key) = greatest(runs, at) else {
            return None;
        };
        if let Some(set) = live_in(runs, &key) {
            return Some((key, set));
        }
        at = Some(key);
    }
}

// Whether a key is that of a row or after it, or there is no row.
fn reaches<K: RunKey, A>(row: &Option<(K, Option<&Arc<A>>)>, key: &K) -> bool
    ensures { result ≡ is_no_less K.cmp (option_map told row.now) key.now }
{
    match row {
        None => true,
        Some(row) => match key.cmp(&row.0) {
            Ordering::Less => false,
            _ => true,
        },
    }
}

impl<K: RunKey, A> Run<K, A> {
    // The last row at a place or before it, or the one of the earlier runs where that is after it.
    fn last_over<'a>(
        &'a self,
        place: &K,
        earlier: Option<(K, Option<&'a Arc<A>>)>,
    ) -> Option<(K, Option<&'a Arc<A>>)>
        ensures { IsFirstOver (turned K.cmp) (is_from (turned K.cmp) place.now) (λ q. value_at K.cmp q self.now) (option_map told earlier.entry) (option_map told result) }
    {
        let at = after_place(&self.keys, Some(*place));
        if at == 0 {
            return earlier;
        }
        let key = self.keys[at - 1];
        if !reaches(&earlier, &key) {
            return earlier;
        }
        Some((key, set_of(&self.packs, self.handles[at - 1])))
    }
}

// The last key of any run at a place or before it, with what the latest run that has it says of it.
fn last_row<'a, K: RunKey, A>(
    runs: &'a [Arc<Run<K, A>>],
    place: &K,
) -> Option<(K, Option<&'a Arc<A>>)>
    ensures { IsFirst (turned K.cmp) (is_from (turned K.cmp) place.now) (λ q. latest K.cmp q (map arc_value runs.now)) (option_map told result) }
{
    let mut last = None;
    for run in runs {
        last = run.last_over(place, last);
    }
    last
}

// The last live pair at a place or before it.
fn last_live_up_to<'a, K: RunKey, A>(
    runs: &'a [Arc<Run<K, A>>],
    place: &K,
) -> Option<(K, &'a Arc<A>)>
    ensures { IsFirst (turned K.cmp) (is_from (turned K.cmp) place.now) (λ q. seen (latest K.cmp q (map arc_value runs.now))) (option_map shown result) }
{
    let Some(row) = last_row(runs, place) else {
        return None;
    };
    match row.1 {
        Some(set) => Some((row.0, set)),
        None => last_live(runs, Some(row.0)),
    }
}

impl<K: RunKey, A: Drop> Runs<K, A> {
    // The last pair before a place, or of all.
    fn last_before(&self, place: Option<K>) -> Option<(K, &Arc<A>)>
        ensures { IsFirst (turned K.cmp) (is_after (turned K.cmp) place) (λ q. value_at K.cmp q self.now) (option_map shown result) }
    {
        last_live(self.runs.as_slice(), place)
    }

    /// The last pair. It takes no memory.
    pub(crate) fn last(&self) -> Option<(K, &Arc<A>)>
        ensures { IsFirst (turned K.cmp) (is_after (turned K.cmp) None) (λ q. value_at K.cmp q self.now) (option_map shown result) }
    {
        self.last_before(None)
    }

    /// The last pair at a place or before it. It takes no memory.
    pub(crate) fn at_or_before(&self, place: &K) -> Option<(K, &Arc<A>)>
        ensures { IsFirst (turned K.cmp) (is_from (turned K.cmp) place.now) (λ q. value_at K.cmp q self.now) (option_map shown result) }
    {
        last_live_up_to(self.runs.as_slice(), place)
    }
}
