ghost use Rattle.std.specs.Prelude.{◌≡◌, length, map, min};
ghost use Rattle.std.specs.Arc.{arc_value};
ghost use Rattle.std.specs.List.{filter};
ghost use Rattle.std.specs.Map.{keys_of};
ghost use Rattle.std.specs.Option.{is_some, option_map};
ghost use Rattle.route_runs.specs.Override.{value_at};
ghost use Rattle.route_runs.specs.Runs.{contents, latest, seen};

use crate::count::live_rows;
use crate::cursor::{hint_of, is_same, keep_hint, near_key};
use crate::key::RunKey;
use crate::run::{GONE, Run};
use crate::runs::Runs;
use std::sync::Arc;

impl<K: RunKey, A> Run<K, A> {
    /// Whether the run has a key with a set, or says that the key is gone; and where the keys after it begin.
    pub(crate) fn has_set(&self, key: &K, hint: usize) -> (Option<bool>, usize)
        ensures { result.0 ≡ option_map is_some (value_at K.cmp key.now self.now) }
    {
        let at = near_key(&self.keys, key, hint);
        if at == 0 {
            return (None, at);
        }
        if is_same(&self.keys[at - 1], key) {
            return (Some(self.handles[at - 1] != GONE), at);
        }
        (None, at)
    }
}

// Whether a key has a set in these runs.
fn is_there<K: RunKey, A>(runs: &[Arc<Run<K, A>>], key: &K, hints: &mut [usize; 40]) -> bool
    ensures { result ≡ is_some (seen (latest K.cmp key.now (map arc_value runs.now))) }
{
    let mut at = runs.len();
    while at > 0 {
        at -= 1;
        let (found, hint) = runs[at].has_set(key, hint_of(hints, at));
        keep_hint(hints, at, hint);
        if let Some(there) = found {
            return there;
        }
    }
    false
}

// How many of these keys have a set in the runs. Each search begins where the one before it ended.
fn hits<K: RunKey, A>(runs: &[Arc<Run<K, A>>], keys: &[K]) -> u64
    ensures { result ≡ length (filter (λ k. is_some (seen (latest K.cmp k (map arc_value runs.now)))) keys.now) }
{
    if runs.len() == 0 {
        return 0;
    }
    let mut hints = [0; 40];
    let mut count = 0u64;
    for at in 0..keys.len() {
        if is_there(runs, &keys[at], &mut hints) {
            count += 1;
        }
    }
    count
}

// How many keys of a run have a set in the runs before it.
fn known<K: RunKey, A>(earlier: &[Arc<Run<K, A>>], run: &Run<K, A>) -> u64
    ensures { result ≡ length (filter (λ k. is_some (seen (latest K.cmp k (map arc_value earlier.now)))) (keys_of run.now)) }
{
    hits(earlier, &run.keys)
}

// How many pairs the runs have, counted run by run: the rows of a run that have a set come on top, and its keys that
// had a set before are taken off.
fn total<K: RunKey, A>(runs: &[Arc<Run<K, A>>]) -> u128
    ensures { result ≡ length (contents K.cmp (map arc_value runs.now)) }
{
    let mut count = 0u128;
    let mut at = 0;
    while at < runs.len() {
        let live = live_rows(&runs[at]);
        let known = known(&runs[..at], &runs[at]);
        count = count + live as u128 - known as u128;
        at += 1;
    }
    count
}

impl<K: RunKey, A: Drop> Runs<K, A> {
    /// How many pairs there are, or 2^64 - 1 where there are more.
    pub(crate) fn count(&self) -> u64
        ensures { result ≡ min (length self.now) 18446744073709551615 }
    {
        let count = total(self.runs.as_slice());
        if count > 18446744073709551615 {
            return u64::MAX;
        }
        count as u64
    }
}
