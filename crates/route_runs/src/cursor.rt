ghost use Rattle.std.specs.Prelude.{◌≡◌, ◌≤◌, true, length, map, Some};
ghost use Rattle.std.specs.Arc.{arc_value};
ghost use Rattle.std.specs.List.Sorted.{IsStrictlySortedBy};
ghost use Rattle.std.specs.Map.{keys_of};
ghost use Rattle.std.specs.Option.{option_map};
ghost use Rattle.std.specs.Ordering.{is_lt, is_eq};
ghost use Rattle.route_runs.specs.Override.{value_at};
ghost use Rattle.route_runs.specs.Runs.{latest, seen, shared};
ghost use Rattle.route_runs.specs.Places.{shown, told, turned, is_after, is_from, is_no_less, IsAfterPoint, IsFirst, IsFirstOver};
ghost use Rattle.route_runs.specs.Cursor.{moved, AreBefore, AreBehind};

use crate::find::{after_place, set_of};
use crate::key::RunKey;
use crate::run::Run;
use crate::runs::Runs;
use std::cmp::Ordering;
use std::marker::Model;
use std::sync::Arc;

// How many runs a walk keeps its place in.
const KEPT: usize = 40;

// How many keys from a hint on are looked at before a longer search.
const FEW: usize = 4;

/// A walk over the pairs of a table in key order. It keeps its place in each run, as a hint: a wrong one costs
/// a search.
#[derive(Drop)]
pub(crate) struct Cursor<'a, K: RunKey, A> {
    runs: &'a Runs<K, A>,
    place: Option<K>,
    hints: [usize; 40],
}

impl<'a, K: RunKey, A> Model for Cursor<'a, K, A> {
    ghost use Rattle.route_runs.specs.Cursor.{Walking};

    ghost Value = { Walking K A };

    ghost view = { λ w. record { pairs = w.runs.now; place = w.place } };
}

/// Whether a key is before another one.
pub(crate) fn is_less<K: RunKey>(a: &K, b: &K) -> bool
    ensures { result ≡ is_lt (K.cmp a.now b.now) }
{
    match a.cmp(b) {
        Ordering::Less => true,
        _ => false,
    }
}

/// Whether two keys are the same.
pub(crate) fn is_same<K: RunKey>(a: &K, b: &K) -> bool
    ensures { result ≡ is_eq (K.cmp a.now b.now) }
{
    match a.cmp(b) {
        Ordering::Equal => true,
        _ => false,
    }
}

// Whether the keys below a number are not after a place.
fn are_before<K: RunKey>(keys: &[K], place: &K, at: usize) -> bool
    requires sorted { IsStrictlySortedBy K.cmp keys.now }
    requires within { at ≤ length keys.now }
    ensures { result ≡ true → AreBefore K.cmp place.now keys.now at }
{
    if at == 0 {
        return true;
    }
    !is_less(place, &keys[at - 1])
}

// Whether the keys from a number on are after a place.
fn are_behind<K: RunKey>(keys: &[K], place: &K, at: usize) -> bool
    requires sorted { IsStrictlySortedBy K.cmp keys.now }
    requires within { at ≤ length keys.now }
    ensures { result ≡ true → AreBehind K.cmp place.now keys.now at }
{
    if at == keys.len() {
        return true;
    }
    is_less(place, &keys[at])
}

// Whether the keys after a place begin here.
fn is_point<K: RunKey>(keys: &[K], place: &K, at: usize) -> bool
    requires { IsStrictlySortedBy K.cmp keys.now }
    ensures { result ≡ true → IsAfterPoint K.cmp (Some place.now) keys.now at }
{
    if at > keys.len() {
        return false;
    }
    if !are_before(keys, place, at) {
        return false;
    }
    are_behind(keys, place, at)
}

// Where the keys after a place may begin: by steps from the hint on that double, and then by halving. It is a guess, which
// costs less than a search of all keys where the place isn't far.
fn guess<K: RunKey>(keys: &[K], place: &K, hint: usize) -> usize {
    let mut low = hint;
    let mut step = 1usize;
    for _ in 0..8 {
        if low >= keys.len() || step > keys.len() - low {
            return low;
        }
        if step == 0 || is_less(place, &keys[low + step - 1]) {
            break;
        }
        low += step;
        step = step.saturating_mul(2);
    }
    for _ in 0..8 {
        step /= 2;
        if step == 0 || low >= keys.len() || step > keys.len() - low {
            return low;
        }
        if !is_less(place, &keys[low + step - 1]) {
            low += step;
        }
    }
    low
}

// Where the keys after a place may begin, if that isn't far from the hint: as many keys further as there are among the next
// few that aren't after the place. All of these are compared, since a processor can't foresee where a loop would stop.
fn few_on<K: RunKey>(keys: &[K], place: &K, hint: usize) -> usize {
    if hint > keys.len() || keys.len() - hint < FEW {
        return hint;
    }
    let mut passed = 0usize;
    for step in 0..FEW {
        if !is_less(place, &keys[hint + step]) {
            passed += 1;
        }
    }
    hint + passed
}

/// Where the keys after a key begin: at the hint or a few keys further, or found by a search.
pub(crate) fn near_key<K: RunKey>(keys: &[K], place: &K, hint: usize) -> usize
    requires { IsStrictlySortedBy K.cmp keys.now }
    ensures { IsAfterPoint K.cmp (Some place.now) keys.now result }
{
    let at = few_on(keys, place, hint);
    if is_point(keys, place, at) {
        return at;
    }
    let near = guess(keys, place, at);
    if is_point(keys, place, near) {
        return near;
    }
    after_place(keys, Some(*place))
}

// Where the keys after a place begin.
fn near<K: RunKey>(keys: &[K], place: Option<K>, hint: usize) -> usize
    requires { IsStrictlySortedBy K.cmp keys.now }
    ensures { IsAfterPoint K.cmp place keys.now result }
{
    match place {
        None => after_place(keys, None),
        Some(key) => near_key(keys, &key, hint),
    }
}

// Whether a key is that of a row or before it, or there is no row.
fn comes_up<K: RunKey, A>(row: &Option<(K, Option<&Arc<A>>)>, key: &K) -> bool
    ensures { result ≡ is_no_less (turned K.cmp) (option_map told row.now) key.now }
{
    match row {
        None => true,
        Some(row) => match row.0.cmp(key) {
            Ordering::Less => false,
            _ => true,
        },
    }
}

impl<K: RunKey, A> Run<K, A> {
    // The first row after a place, or the one of the earlier runs where that is before it; and where the keys after the
    // place begin.
    fn next_over<'a>(
        &'a self,
        place: Option<K>,
        hint: usize,
        earlier: Option<(K, Option<&'a Arc<A>>)>,
    ) -> (Option<(K, Option<&'a Arc<A>>)>, usize)
        ensures { IsFirstOver K.cmp (is_after K.cmp place) (λ q. value_at K.cmp q self.now) (option_map told earlier.entry) (option_map told result.0) }
    {
        let at = near(&self.keys, place, hint);
        if at >= self.keys.len() {
            return (earlier, at);
        }
        let key = self.keys[at];
        if !comes_up(&earlier, &key) {
            return (earlier, at);
        }
        (Some((key, set_of(&self.packs, self.handles[at]))), at)
    }
}

/// The hint of a run.
pub(crate) fn hint_of(hints: &[usize; 40], at: usize) -> usize {
    if at < KEPT { hints[at] } else { 0 }
}

/// Keeps the hint of a run.
pub(crate) fn keep_hint(hints: &mut [usize; 40], at: usize, hint: usize) {
    if at < KEPT {
        hints[at] = hint;
    }
}

// The first key of any run after a place, with what the latest run that has it says of it.
fn first_row<'a, K: RunKey, A>(
    runs: &'a [Arc<Run<K, A>>],
    place: Option<K>,
    hints: &mut [usize; 40],
) -> Option<(K, Option<&'a Arc<A>>)>
    ensures { IsFirst K.cmp (is_after K.cmp place) (λ q. latest K.cmp q (map arc_value runs.now)) (option_map told result) }
{
    let mut first = None;
    let mut at = 0;
    while at < runs.len() {
        let (row, hint) = runs[at].next_over(place, hint_of(hints, at), first);
        keep_hint(hints, at, hint);
        first = row;
        at += 1;
    }
    first
}

/// The first live pair after a place.
pub(crate) fn first_near<'a, K: RunKey, A>(
    runs: &'a [Arc<Run<K, A>>],
    place: Option<K>,
    hints: &mut [usize; 40],
) -> Option<(K, &'a Arc<A>)>
    ensures { IsFirst K.cmp (is_after K.cmp place) (λ q. seen (latest K.cmp q (map arc_value runs.now))) (option_map shown result) }
{
    let mut at = place;
    loop {
        let Some(row) = first_row(runs, at, hints) else {
            return None;
        };
        if let Some(set) = row.1 {
            return Some((row.0, set));
        }
        at = Some(row.0);
    }
}

/// The key of the pair that was found, or the place before.
pub(crate) fn place_of_next<K: RunKey, A>(
    place: Option<K>,
    found: &Option<(K, &Arc<A>)>,
) -> Option<K>
    ensures { result ≡ moved place (option_map shown found.now) }
{
    match found {
        Some((key, _)) => Some(*key),
        None => place,
    }
}

impl<K: RunKey, A: Drop> Runs<K, A> {
    /// A walk over the pairs after a place, or over all. It takes no memory.
    pub(crate) fn cursor<'a>(&'a self, place: Option<K>) -> Cursor<'a, K, A>
        ensures { result ≡ record { pairs = self.now; place = place } }
    {
        Cursor {
            runs: self,
            place,
            hints: [0; 40],
        }
    }
}

impl<'a, K: RunKey, A: Drop> Cursor<'a, K, A> {
    /// The first pair after the one given last, or after the place that the walk begins with.
    pub(crate) fn next(&mut self) -> Option<(K, &'a Arc<A>)>
        ensures first { IsFirst K.cmp (is_after K.cmp self.old.place) (λ q. value_at K.cmp q self.old.pairs) (option_map shown result) }
        ensures place { self.new.place ≡ moved self.old.place (option_map shown result) }
        ensures pairs { self.new.pairs ≡ self.old.pairs }
        ensures ordered { IsStrictlySortedBy K.cmp (keys_of self.old.pairs) }
    {
        let runs = self.runs;
        let found = first_near(runs.runs.as_slice(), self.place, &mut self.hints);
        self.place = place_of_next(self.place, &found);
        found
    }

    /// The first pair after a key, or of all. The cursor stands there then.
    pub(crate) fn after(&mut self, place: Option<K>) -> Option<(K, &'a Arc<A>)>
        ensures first { IsFirst K.cmp (is_after K.cmp place) (λ q. value_at K.cmp q self.old.pairs) (option_map shown result) }
        ensures pairs { self.new.pairs ≡ self.old.pairs }
    {
        self.place = place;
        self.next()
    }

    /// The set of a key.
    pub(crate) fn get(&self, key: &K) -> Option<&'a Arc<A>>
        ensures { option_map shared result ≡ value_at K.cmp key.now self.now.pairs }
    {
        self.runs.get(key)
    }

    /// The keys stand in order.
    pub(crate) fn see_order(&self)
        ensures { IsStrictlySortedBy K.cmp (keys_of self.now.pairs) }
    {
        // For the proof: the runs are in order.
        self.runs.see_order();
    }

    /// The pair of a key, or the first one after it. The cursor stands there then.
    pub(crate) fn from(&mut self, key: K) -> Option<(K, &'a Arc<A>)>
        ensures first { IsFirst K.cmp (is_from K.cmp key) (λ q. value_at K.cmp q self.old.pairs) (option_map shown result) }
        ensures place { self.new.place ≡ moved (Some key) (option_map shown result) }
        ensures pairs { self.new.pairs ≡ self.old.pairs }
        ensures ordered { IsStrictlySortedBy K.cmp (keys_of self.old.pairs) }
    {
        self.place = Some(key);
        let runs = self.runs;
        match runs.get(&key) {
            Some(set) => Some((key, set)),
            None => self.next(),
        }
    }
}
