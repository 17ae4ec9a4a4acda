ghost use Rattle.std.specs.Prelude.{◌≡◌, ℕ, true, length, map, option_and_then, IfOk, IsTrue, OnOk};
ghost use Rattle.std.specs.Arc.{arc_value};
ghost use Rattle.std.specs.List.{slice_get, Contains};
ghost use Rattle.route_runs.specs.Cursor.{pairs_in};
ghost use Rattle.route_runs.specs.Origins.{attrs_origin, is_number, told_origin, AreAdded, AreAll, AreNamed, Covers, HasPairs, IsIndexed, IsKnown};
ghost use Rattle.route_runs.specs.Rows.{sets_of};
ghost use Rattle.route_runs.specs.Runs.{IsChanged};

use crate::cursor::{Cursor, is_same};
use crate::key::{RunKey, TableKey};
use crate::listed::Listed;
use crate::origin::origin_of;
use crate::run::{Pack, Run};
use crate::runs::Runs;
use path_attrs::Attrs;
use std::alloc::Global;
use std::sync::Arc;
use wire_io::NoMemory;

// For how many runs of like size a merge of rows waits. Each merge is time, and memory that old tables keep; each run is one
// more to look into.
const ROWS_WAIT: usize = 2;

// The same of the index, which few read.
const INDEX_WAIT: usize = 3;

// How many pairs are looked at for one that is there already.
const LOOKED_AT: usize = 16;

// Whether a pair stands among the last ones, as far as these have its spot. Rows come in the order of their spots, so the
// pairs of one spot stand together.
fn is_listed<S: RunKey>(pairs: &[(u32, S)], asn: u32, spot: &S) -> bool
    ensures { IsTrue result → Contains pairs.now (asn, spot.now) }
{
    for back in 0..LOOKED_AT {
        if back >= pairs.len() {
            return false;
        }
        let pair = pairs[pairs.len() - 1 - back];
        if !is_same(&pair.1, spot) {
            return false;
        }
        if pair.0 == asn {
            return true;
        }
    }
    false
}

// Adds a pair, where there is an origin and the pair isn't there.
fn add_pair<S: RunKey>(
    pairs: &mut Vec<(u32, S)>,
    origin: Option<u32>,
    spot: S,
) -> Result<(), NoMemory>
    ensures kept { OnOk result ((p : ℕ × S) → Contains pairs.old.items p → Contains pairs.new.items p) }
    ensures added { OnOk result ((asn : ℕ) → is_number asn origin ≡ true → Contains pairs.new.items (asn, spot)) }
{
    let Some(asn) = origin else {
        return Ok(());
    };
    if is_listed(pairs, asn, &spot) {
        return Ok(());
    }
    match pairs.push((asn, spot)) {
        Ok(_) => Ok(()),
        Err(_) => Err(NoMemory),
    }
}

// The origins of the sets of a pack, in their order.
fn origins_of(alloc: Global, pack: &[Arc<Attrs>]) -> Result<Vec<Option<u32>>, NoMemory>
    ensures { IfOk result (λ list. list.items ≡ map attrs_origin (map arc_value pack.now)) }
{
    let Ok(mut list) = Vec::with_capacity(alloc, pack.len()) else {
        return Err(NoMemory);
    };
    for set in pack {
        if list.push(origin_of(Some(set))).is_err() {
            return Err(NoMemory);
        }
    }
    Ok(list)
}

// The origins of all sets of packs. Sets lie in memory as they came, and rows name them in another order, most of them
// more than once: so each is looked into once, in its turn.
fn all_origins(alloc: Global, packs: &[Arc<Pack<Attrs>>]) -> Result<Vec<Vec<Option<u32>>>, NoMemory>
    ensures { IfOk result (λ list. map (λ v. v.items) list.items ≡ map (map attrs_origin) (sets_of packs.now)) }
{
    let Ok(mut list) = Vec::with_capacity(alloc, packs.len()) else {
        return Err(NoMemory);
    };
    for pack in packs {
        let origins = origins_of(alloc, pack.as_slice())?;
        if list.push(origins).is_err() {
            return Err(NoMemory);
        }
    }
    Ok(list)
}

// The origin at a place of a pack.
fn origin_in(origins: &[Option<u32>], place: usize) -> Option<u32>
    ensures { result ≡ option_and_then (λ o. o) (slice_get origins.now place) }
{
    match origins.get(place) {
        Some(origin) => *origin,
        None => None,
    }
}

// The origin of the set that a handle names.
fn origin_at(origins: &[Vec<Option<u32>>], handle: u32) -> Option<u32>
    ensures { result ≡ told_origin (map (λ v. v.items) origins.now) handle }
{
    match origins.get((handle / 4096) as usize) {
        Some(pack) => origin_in(pack.as_slice(), (handle % 4096) as usize),
        None => None,
    }
}

// Adds the pairs of rows that have an origin.
fn add_rows<K: TableKey>(
    pairs: &mut Vec<(u32, K::Spot)>,
    keys: &[K],
    handles: &[u32],
    origins: &[Vec<Option<u32>>],
) -> Result<(), NoMemory>
    requires { length handles.now ≡ length keys.now }
    ensures kept { OnOk result ((p : ℕ × K.Spot) → Contains pairs.old.items p → Contains pairs.new.items p) }
    ensures added { OnOk result (AreNamed K.spot_of (told_origin (map (λ v. v.items) origins.now)) keys.now handles.now (length keys.now) pairs.new.items) }
{
    for at in 0..keys.len() {
        let origin = origin_at(origins, handles[at]);
        add_pair(pairs, origin, keys[at].spot())?;
    }
    Ok(())
}

// Adds the pairs of the rows of a run that have an origin.
fn add_pairs<K: TableKey>(
    alloc: Global,
    pairs: &mut Vec<(u32, K::Spot)>,
    run: &Run<K, Attrs>,
) -> Result<(), NoMemory>
    ensures kept { OnOk result ((p : ℕ × K.Spot) → Contains pairs.old.items p → Contains pairs.new.items p) }
    ensures added { OnOk result (AreAdded K.cmp K.spot_of attrs_origin run.now pairs.new.items) }
{
    let origins = all_origins(alloc, &run.packs)?;
    add_rows(pairs, &run.keys, &run.handles, &origins)
}

// The run of these pairs.
fn run_of<S: RunKey>(alloc: Global, pairs: Vec<(u32, S)>) -> Result<Run<(u32, S), ()>, NoMemory>
    ensures { IfOk result (HasPairs S.cmp pairs.items) }
{
    match Arc::new(alloc, ()) {
        Ok(unit) => Run::many(alloc, pairs, Some(unit)),
        Err(_) => Err(NoMemory),
    }
}

// The pairs of a run. Routes beside each other have one pair, if an AS originates them.
fn pairs_of<K: TableKey>(
    alloc: Global,
    run: &Run<K, Attrs>,
) -> Result<Run<(u32, K::Spot), ()>, NoMemory>
    ensures { IfOk result (Covers K.cmp K.Spot.cmp K.spot_of attrs_origin run.now) }
{
    let Ok(mut pairs) = Vec::with_capacity(alloc, run.len()) else {
        return Err(NoMemory);
    };
    add_pairs(alloc, &mut pairs, run)?;
    run_of(alloc, pairs)
}

// The index of a table, of the rows of its runs alone.
fn anew<K: TableKey>(
    alloc: Global,
    runs: &Runs<K, Attrs>,
) -> Result<Runs<(u32, K::Spot), ()>, NoMemory>
    ensures { IfOk result (IsIndexed K.cmp K.Spot.cmp K.spot_of attrs_origin runs.now) }
{
    let mut pairs = Vec::new(alloc);
    add_all(alloc, &mut pairs, runs.runs.as_slice())?;
    let rows = run_of(alloc, pairs)?;
    let mut index = Runs::new(alloc);
    index.push(alloc, rows, 1)?;
    Ok(index)
}

// Adds the pairs of all runs.
fn add_all<K: TableKey>(
    alloc: Global,
    pairs: &mut Vec<(u32, K::Spot)>,
    runs: &[Arc<Run<K, Attrs>>],
) -> Result<(), NoMemory>
    ensures { OnOk result (AreAll K.cmp K.spot_of attrs_origin (map arc_value runs.now) pairs.new.items) }
{
    for run in runs {
        add_pairs(alloc, pairs, run)?;
    }
    Ok(())
}

// How many rows the runs have.
fn rows_of<K: RunKey, A: Drop>(runs: &Runs<K, A>) -> usize {
    let mut rows = 0usize;
    for run in &runs.runs {
        rows = rows.saturating_add(run.len());
    }
    rows
}

// The index of a table, made anew where it is twice as long as the table.
fn kept_short<K: TableKey>(
    alloc: Global,
    runs: &Runs<K, Attrs>,
    index: Runs<(u32, K::Spot), ()>,
) -> Result<Runs<(u32, K::Spot), ()>, NoMemory>
    requires { IsIndexed K.cmp K.Spot.cmp K.spot_of attrs_origin runs.now index }
    ensures { IfOk result (IsIndexed K.cmp K.Spot.cmp K.spot_of attrs_origin runs.now) }
{
    if rows_of(&index) / 2 > rows_of(runs) {
        return anew(alloc, runs);
    }
    Ok(index)
}

// A table with the rows of a run set.
fn with_rows<K: TableKey>(
    alloc: Global,
    runs: &Runs<K, Attrs>,
    run: Run<K, Attrs>,
) -> Result<Runs<K, Attrs>, NoMemory>
    ensures { IfOk result (IsChanged K.cmp runs.now run) }
{
    let mut new_runs = runs.share(alloc)?;
    new_runs.push(alloc, run, ROWS_WAIT)?;
    Ok(new_runs)
}

// A table with the rows of a run set, and its index.
fn with_both<K: TableKey>(
    alloc: Global,
    runs: &Runs<K, Attrs>,
    index: &Runs<(u32, K::Spot), ()>,
    run: Run<K, Attrs>,
) -> Result<(Runs<K, Attrs>, Runs<(u32, K::Spot), ()>), NoMemory>
    requires { IsIndexed K.cmp K.Spot.cmp K.spot_of attrs_origin runs.now index.now }
    ensures changed { IfOk result (λ r. IsChanged K.cmp runs.now run r.0) }
    ensures indexed { IfOk result (λ r. IsIndexed K.cmp K.Spot.cmp K.spot_of attrs_origin r.0 r.1) }
{
    let pairs = pairs_of(alloc, &run)?;
    let mut new_index = index.share(alloc)?;
    new_index.push(alloc, pairs, INDEX_WAIT)?;
    let new_runs = with_rows(alloc, runs, run)?;
    let short = kept_short(alloc, &new_runs, new_index)?;
    Ok((new_runs, short))
}

// A table with the rows of a run set, and its index, where it has one.
fn with_run<K: TableKey>(
    alloc: Global,
    runs: &Runs<K, Attrs>,
    index: &Option<Runs<(u32, K::Spot), ()>>,
    run: Run<K, Attrs>,
) -> Result<(Runs<K, Attrs>, Option<Runs<(u32, K::Spot), ()>>), NoMemory>
    requires { IsKnown K.cmp K.Spot.cmp K.spot_of attrs_origin runs.now index.now }
    ensures changed { IfOk result (λ r. IsChanged K.cmp runs.now run r.0) }
    ensures known { IfOk result (λ r. IsKnown K.cmp K.Spot.cmp K.spot_of attrs_origin r.0 r.1) }
{
    match index {
        Some(index) => {
            let (new_runs, new_index) = with_both(alloc, runs, index, run)?;
            Ok((new_runs, Some(new_index)))
        }
        None => {
            let new_runs = with_rows(alloc, runs, run)?;
            Ok((new_runs, None))
        }
    }
}

/// The same index, where there is one.
pub(crate) fn share_index<S: RunKey>(
    alloc: Global,
    index: &Option<Runs<(u32, S), ()>>,
) -> Result<Option<Runs<(u32, S), ()>>, NoMemory>
    ensures { IfOk result (λ copy. copy ≡ index.now) }
{
    match index {
        Some(index) => {
            let same = index.share(alloc)?;
            Ok(Some(same))
        }
        None => Ok(None),
    }
}

/// A walk over an index, where there is one. It takes no memory.
pub(crate) fn walk_of<S: RunKey>(
    index: &Option<Runs<(u32, S), ()>>,
) -> Option<Cursor<'_, (u32, S), ()>>
    ensures { pairs_in result ≡ index.now }
{
    match index {
        Some(index) => Some(index.cursor(None)),
        None => None,
    }
}

// The same table, and its index, where it has one.
fn share_both<K: TableKey>(
    alloc: Global,
    runs: &Runs<K, Attrs>,
    index: &Option<Runs<(u32, K::Spot), ()>>,
) -> Result<(Runs<K, Attrs>, Option<Runs<(u32, K::Spot), ()>>), NoMemory>
    ensures runs { IfOk result (λ r. r.0 ≡ runs.now) }
    ensures index { IfOk result (λ r. r.1 ≡ index.now) }
{
    let same_runs = runs.share(alloc)?;
    let same_index = share_index(alloc, index)?;
    Ok((same_runs, same_index))
}

/// A table with changes made, and its index, where it has one.
pub(crate) fn with_changes<K: TableKey>(
    alloc: Global,
    runs: &Runs<K, Attrs>,
    index: &Option<Runs<(u32, K::Spot), ()>>,
    changes: Listed<K, Attrs>,
) -> Result<(Runs<K, Attrs>, Option<Runs<(u32, K::Spot), ()>>), NoMemory>
    requires { IsKnown K.cmp K.Spot.cmp K.spot_of attrs_origin runs.now index.now }
    ensures changed { IfOk result (λ r. IsChanged K.cmp runs.now changes r.0) }
    ensures known { IfOk result (λ r. IsKnown K.cmp K.Spot.cmp K.spot_of attrs_origin r.0 r.1) }
{
    // For the proof: the pairs are in order.
    runs.see_order();
    let rows = changes.into_run(alloc)?;
    match rows {
        Some(run) => with_run(alloc, runs, index, run),
        None => share_both(alloc, runs, index),
    }
}
