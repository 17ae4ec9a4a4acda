//! Where the runs of a table stand in a walk over the rows that pass a test.
ghost use Rattle.std.specs.Prelude.{◌≡◌, ◌+◌, ◌<◌, ◌≤◌, None, Some, MatchOption, drop, length, map, slice_index_or, take};
ghost use Rattle.std.specs.Arc.{arc_value};
ghost use Rattle.std.specs.List.{AllByRecursion};
ghost use Rattle.std.specs.List.Sorted.{IsStrictlySortedBy};
ghost use Rattle.std.specs.Map.{keys_of};
ghost use Rattle.std.specs.Option.{is_some, option_map};
ghost use Rattle.route_runs.specs.Cursor.{moved};
ghost use Rattle.route_runs.specs.Places.{shown, is_after, IsFirst};
ghost use Rattle.route_runs.specs.Rows.{sets_of, set_at, IsHandle};
ghost use Rattle.route_runs.specs.Runs.{latest, seen, shared};
ghost use Rattle.route_runs.specs.Sift.{front, lesser_spot, passing, AreEnded, AreSpots, Fails, IfFront, IsLeastFrom, IsOnward, Passes};

use crate::cursor::{first_near, hint_of, is_less, keep_hint};
use crate::find::set_of;
use crate::key::RunKey;
use crate::run::{GONE, Pack, Run};
use crate::sift::RouteTest;
use path_attrs::Attrs;
use rib_model::Route;
use std::sync::Arc;

/// How many runs a walk keeps a row of.
pub(crate) const MOST: usize = 40;

// Whether the set of a handle passes.
fn passes_at<T: RouteTest>(packs: &[Arc<Pack<Attrs>>], handle: u32, test: &T) -> bool
    requires { IsHandle (sets_of packs.now) handle }
    ensures { result ≡ is_some (passing (T.passes test.now) (set_at (sets_of packs.now) handle)) }
{
    match set_of(packs, handle) {
        None => false,
        Some(set) => test.test(set),
    }
}

// How many handles stand before the first whose set passes. Of one handle it is known whether its set passes: so handles
// beside each other that are the same cost one test.
fn before_passing<T: RouteTest>(
    packs: &[Arc<Pack<Attrs>>],
    handles: &[u32],
    test: &T,
    known: u32,
    verdict: bool,
) -> usize
    requires handles { AllByRecursion (IsHandle (sets_of packs.now)) handles.now }
    requires known { verdict ≡ is_some (passing (T.passes test.now) (set_at (sets_of packs.now) known)) }
    ensures within { result ≤ length handles.now }
    ensures fail { AllByRecursion (λ h. Fails (T.passes test.now) (set_at (sets_of packs.now) h)) (take result handles.now) }
    ensures here { IfFront (λ h. Passes (T.passes test.now) (set_at (sets_of packs.now) h)) (drop result handles.now) }
{
    let mut tested = known;
    let mut passed = verdict;
    for at in 0..handles.len() {
        let handle = handles[at];
        if handle != tested {
            tested = handle;
            passed = passes_at(packs, handle, test);
        }
        if passed {
            return at;
        }
    }
    handles.len()
}

// The number of a run's first row that passes, or how many rows it has.
fn first_passing<K: RunKey, T: RouteTest>(run: &Run<K, Attrs>, test: &T) -> usize
    ensures first { IsOnward (T.passes test.now) run.now 0 result }
    ensures ordered { IsStrictlySortedBy K.cmp (keys_of run.now) }
{
    before_passing(&run.packs, &run.handles, test, GONE, false)
}

// How many handles stand between one whose set passes and the next such one.
fn between_passing<T: RouteTest>(
    packs: &[Arc<Pack<Attrs>>],
    handles: &[u32],
    test: &T,
    at: usize,
) -> usize
    requires handles { AllByRecursion (IsHandle (sets_of packs.now)) handles.now }
    requires there { at < length handles.now }
    requires here { Passes (T.passes test.now) (set_at (sets_of packs.now) (slice_index_or handles.now at 0)) }
    ensures within { at + 1 + result ≤ length handles.now }
    ensures fail { AllByRecursion (λ h. Fails (T.passes test.now) (set_at (sets_of packs.now) h)) (take result (drop (at + 1) handles.now)) }
    ensures here { IfFront (λ h. Passes (T.passes test.now) (set_at (sets_of packs.now) h)) (drop result (drop (at + 1) handles.now)) }
{
    before_passing(packs, &handles[at + 1..], test, handles[at], true)
}

// The number of the next row that passes, after one that passes.
fn next_passing<K: RunKey, T: RouteTest>(run: &Run<K, Attrs>, test: &T, at: usize) -> usize
    requires there { at < length run.now }
    requires here { IfFront (λ e. Passes (T.passes test.now) e.1) (drop at run.now) }
    ensures { IsOnward (T.passes test.now) run.now (at + 1) result }
{
    let between = between_passing(&run.packs, &run.handles, test, at);
    at + 1 + between
}

// The key of a run's row.
fn key_in<K: RunKey>(run: &Run<K, Attrs>, at: usize) -> Option<K>
    ensures { result ≡ option_map (λ e. e.0) (front (drop at run.now)) }
{
    if at < run.keys.len() {
        Some(run.keys[at])
    } else {
        None
    }
}

// The set of a run's row.
fn set_in<K: RunKey>(run: &Run<K, Attrs>, at: usize) -> Option<&Arc<Attrs>>
    requires { at < length run.now }
    ensures { Some (option_map shared result) ≡ option_map (λ e. e.1) (front (drop at run.now)) }
{
    set_of(&run.packs, run.handles[at])
}

// The lesser of a key with its run's number and the key of another run.
fn lesser<K: RunKey>(found: Option<(usize, K)>, number: usize, key: Option<K>) -> Option<(usize, K)>
    ensures { result ≡ lesser_spot K.cmp found number key }
{
    let Some(key) = key else {
        return found;
    };
    match found {
        None => Some((number, key)),
        Some(least) => {
            if is_less(&key, &least.1) {
                Some((number, key))
            } else {
                Some(least)
            }
        }
    }
}

// The run that stands at the least key, with that key; of several the latest.
fn least<K: RunKey>(runs: &[Arc<Run<K, Attrs>>], spots: &[usize; 40]) -> Option<(usize, K)>
    requires { length runs.now ≤ 40 }
    ensures { MatchOption result (AreEnded (map arc_value runs.now) spots.now) (IsLeastFrom K.cmp (map arc_value runs.now) spots.now 0) }
{
    let mut found = None;
    let mut at = runs.len();
    while at > 0 {
        at -= 1;
        found = lesser(found, at, key_in(&runs[at], spots[at]));
    }
    found
}

// Whether one of these runs, whose numbers begin with this one, has a key.
fn is_in<K: RunKey>(
    runs: &[Arc<Run<K, Attrs>>],
    first: usize,
    key: &K,
    hints: &mut [usize; 40],
) -> bool
    ensures { result ≡ is_some (latest K.cmp key.now (map arc_value runs.now)) }
{
    let mut at = runs.len();
    while at > 0 {
        at -= 1;
        let number = first.saturating_add(at);
        let (found, hint) = runs[at].has_set(key, hint_of(hints, number));
        keep_hint(hints, number, hint);
        if found.is_some() {
            return true;
        }
    }
    false
}

// Whether a later run has something at a key.
fn is_overridden<K: RunKey>(
    runs: &[Arc<Run<K, Attrs>>],
    number: usize,
    key: &K,
    hints: &mut [usize; 40],
) -> bool
    requires { number < length runs.now }
    ensures { result ≡ is_some (latest K.cmp key.now (drop (number + 1) (map arc_value runs.now))) }
{
    is_in(&runs[number + 1..], number + 1, key, hints)
}

/// Each run stands at its first row that passes.
pub(crate) fn first_spots<K: RunKey, T: RouteTest>(
    runs: &[Arc<Run<K, Attrs>>],
    test: &T,
) -> [usize; 40]
    ensures { length runs.now ≤ 40 → AreSpots K.cmp (T.passes test.now) None (map arc_value runs.now) result }
{
    let mut spots = [0; 40];
    if runs.len() > MOST {
        return spots;
    }
    let mut at = runs.len();
    while at > 0 {
        at -= 1;
        spots[at] = first_passing(&runs[at], test);
    }
    spots
}

// The first pair after a place that passes. The least key of all runs comes next, unless a later run has something else at it.
fn next_by_spots<'a, K: RunKey, T: RouteTest>(
    runs: &'a [Arc<Run<K, Attrs>>],
    test: &T,
    place: Option<K>,
    spots: &mut [usize; 40],
    hints: &mut [usize; 40],
) -> Option<(K, &'a Route)>
    requires few { length runs.now ≤ 40 }
    requires spots { AreSpots K.cmp (T.passes test.now) place (map arc_value runs.now) spots.old }
    ensures first { IsFirst K.cmp (is_after K.cmp place) (λ q. passing (T.passes test.now) (seen (latest K.cmp q (map arc_value runs.now)))) (option_map shown result) }
    ensures spots { AreSpots K.cmp (T.passes test.now) (moved place (option_map shown result)) (map arc_value runs.now) spots.new }
{
    loop {
        let Some(found) = least(runs, spots) else {
            return None;
        };
        let number = found.0;
        let at = spots[number];
        spots[number] = next_passing(&runs[number], test, at);
        if !is_overridden(runs, number, &found.1, hints) {
            if let Some(set) = set_in(&runs[number], at) {
                return Some((found.1, set));
            }
        }
    }
}

// The same by a test of each row.
fn next_by_rows<'a, K: RunKey, T: RouteTest>(
    runs: &'a [Arc<Run<K, Attrs>>],
    test: &T,
    place: Option<K>,
    hints: &mut [usize; 40],
) -> Option<(K, &'a Route)>
    ensures { IsFirst K.cmp (is_after K.cmp place) (λ q. passing (T.passes test.now) (seen (latest K.cmp q (map arc_value runs.now)))) (option_map shown result) }
{
    let mut at = place;
    loop {
        let Some(found) = first_near(runs, at, hints) else {
            return None;
        };
        if test.test(found.1) {
            return Some(found);
        }
        at = Some(found.0);
    }
}

/// The first pair after a place that passes.
pub(crate) fn next_passing_pair<'a, K: RunKey, T: RouteTest>(
    runs: &'a [Arc<Run<K, Attrs>>],
    test: &T,
    place: Option<K>,
    spots: &mut [usize; 40],
    hints: &mut [usize; 40],
) -> Option<(K, &'a Route)>
    requires { length runs.now ≤ 40 → AreSpots K.cmp (T.passes test.now) place (map arc_value runs.now) spots.old }
    ensures first { IsFirst K.cmp (is_after K.cmp place) (λ q. passing (T.passes test.now) (seen (latest K.cmp q (map arc_value runs.now)))) (option_map shown result) }
    ensures spots { length runs.now ≤ 40 → AreSpots K.cmp (T.passes test.now) (moved place (option_map shown result)) (map arc_value runs.now) spots.new }
{
    if runs.len() > MOST {
        return next_by_rows(runs, test, place, hints);
    }
    next_by_spots(runs, test, place, spots, hints)
}
