ghost use Rattle.std.specs.Prelude.{◌≡◌, [], true, reverse, IfOk};
ghost use Rattle.std.specs.List.Sorted.{IsStrictlySortedBy};
ghost use Rattle.std.specs.Map.{keys_of};
ghost use Rattle.route_runs.specs.Layers.{handles_of, SaysTheSame};
ghost use Rattle.route_runs.specs.Override.{value_at};

use crate::by_guess::by_guess;
use crate::key::RunKey;
use crate::run::Run;
use crate::tidy::{Gathered, turn};
use std::alloc::Global;
use std::marker::Model;
use wire_io::NoMemory;

/// Changes that are gathered before a table is made with them: keys as they came, each with a handle. Contracts
/// see the last change of each key, in key order.
#[derive(Drop)]
pub(crate) struct Listed<K: RunKey, A> {
    pub(crate) rows: Vec<(K, u32)>,
    pub(crate) sets: Gathered<A>,
}

impl<K: RunKey, A> Model for Listed<K, A> {
    ghost use Rattle.std.specs.Prelude.{ℕ, List, Option};
    ghost use Rattle.std.specs.List.{AllByRecursion};
    ghost use Rattle.route_runs.specs.Gathering.{gathered};
    ghost use Rattle.route_runs.specs.Layers.{last_rows};
    ghost use Rattle.route_runs.specs.Rows.{IsHandle};

    ghost Value = { List (K × Option A) };

    ghost view = { λ l. last_rows K.cmp (gathered l.sets.packs.items l.sets.now.items) l.rows.items };

    ghost invariant = { λ l. AllByRecursion (λ (e : K × ℕ). IsHandle (gathered l.sets.packs.items l.sets.now.items) e.1) l.rows.items };
}

impl<K: RunKey, A: Drop> Listed<K, A> {
    /// No change.
    pub(crate) fn new(alloc: Global) -> Listed<K, A>
        ensures { result ≡ [] }
    {
        Listed {
            rows: Vec::new(alloc),
            sets: Gathered {
                packs: Vec::new(alloc),
                now: Vec::new(alloc),
            },
        }
    }

    /// The changes are in order.
    pub(crate) fn see_order(&self)
        ensures { IsStrictlySortedBy K.cmp (keys_of self.now) }
    {
        // The invariant says it; the length is read so that it is at hand.
        let _rows = self.rows.len();
    }

    /// All changes as one run; none where there is no change.
    pub(crate) fn into_run(self, alloc: Global) -> Result<Option<Run<K, A>>, NoMemory>
        ensures { IfOk result (SaysTheSame K.cmp self) }
    {
        if self.rows.len() == 0 {
            return Ok(None);
        }
        let run = self.run_of_all(alloc)?;
        Ok(Some(run))
    }

    // All changes as one run.
    fn run_of_all(self, alloc: Global) -> Result<Run<K, A>, NoMemory>
        ensures { IfOk result (λ run. (q : K) → value_at K.cmp q run ≡ value_at K.cmp q self) }
    {
        let mut sets = self.sets;
        turn(&mut sets, alloc)?;
        if sets.packs.len() >= 1_048_576 {
            return Err(NoMemory);
        }
        let rows = last_of_each(alloc, self.rows)?;
        let keys = keys_alone(alloc, rows.as_slice())?;
        let handles = handles_alone(alloc, rows.as_slice())?;
        Ok(Run {
            keys,
            handles,
            packs: sets.packs,
        })
    }
}

/// Whether the keys of rows rise.
pub(crate) fn are_rising<K: RunKey>(rows: &[(K, u32)]) -> bool
    ensures { result ≡ true → IsStrictlySortedBy K.cmp (keys_of rows.now) }
{
    for at in 1..rows.len() {
        let before = rows[at - 1];
        let row = rows[at];
        if !before.0.cmp(&row.0).is_lt() {
            return false;
        }
    }
    true
}

// Rows sorted by their keys, of each key the last one.
fn sorted_rows<K: RunKey>(rows: Vec<(K, u32)>) -> Result<Vec<(K, u32)>, NoMemory>
    ensures ordered { IfOk result (λ list. IsStrictlySortedBy K.cmp (keys_of list.items)) }
    ensures values { IfOk result (λ list. (q : K) → value_at K.cmp q list.items ≡ value_at K.cmp q (reverse rows.items)) }
{
    let mut rows = rows;
    rows.reverse();
    rows.sort_by_key(|row| row.0)?;
    rows.dedup_by_key(|row| row.0);
    Ok(rows)
}

// Rows in the order of their keys, of each key the last one. Where they stand so they stay as they are.
fn last_of_each<K: RunKey>(alloc: Global, rows: Vec<(K, u32)>) -> Result<Vec<(K, u32)>, NoMemory>
    ensures ordered { IfOk result (λ list. IsStrictlySortedBy K.cmp (keys_of list.items)) }
    ensures values { IfOk result (λ list. (q : K) → value_at K.cmp q list.items ≡ value_at K.cmp q (reverse rows.items)) }
{
    if are_rising(&rows) {
        return Ok(rows);
    }
    if let Some(list) = by_guess(alloc, &rows) {
        return Ok(list);
    }
    sorted_rows(rows)
}

// The keys of rows.
fn keys_alone<K: RunKey>(alloc: Global, rows: &[(K, u32)]) -> Result<Vec<K>, NoMemory>
    ensures { IfOk result (λ list. list.items ≡ keys_of rows.now) }
{
    let Ok(mut list) = Vec::with_capacity(alloc, rows.len()) else {
        return Err(NoMemory);
    };
    for at in 0..rows.len() {
        if list.push(rows[at].0).is_err() {
            return Err(NoMemory);
        }
    }
    Ok(list)
}

// The handles of rows.
fn handles_alone<K: RunKey>(alloc: Global, rows: &[(K, u32)]) -> Result<Vec<u32>, NoMemory>
    ensures { IfOk result (λ list. list.items ≡ handles_of rows.now) }
{
    let Ok(mut list) = Vec::with_capacity(alloc, rows.len()) else {
        return Err(NoMemory);
    };
    for at in 0..rows.len() {
        if list.push(rows[at].1).is_err() {
            return Err(NoMemory);
        }
    }
    Ok(list)
}
