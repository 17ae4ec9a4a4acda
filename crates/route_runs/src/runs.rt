ghost use Rattle.std.specs.Prelude.{◌≡◌, ◌++◌, ◌∷◌, ◌≤◌, [], length, map, take, IfOk, OnOk, OnErr};
ghost use Rattle.std.specs.Arc.{arc_value};
ghost use Rattle.std.specs.List.Sorted.{IsStrictlySortedBy};
ghost use Rattle.std.specs.Map.{keys_of};
ghost use Rattle.route_runs.specs.Runs.{IsChanged, IsSettled};

use crate::join::merge;
use crate::key::RunKey;
use crate::run::Run;
use std::alloc::Global;
use std::marker::Model;
use std::sync::Arc;
use wire_io::NoMemory;

/// A table as a list of runs, of which the later ones override the earlier ones. Contracts see the list of
/// its live pairs, in key order.
#[derive(Drop)]
pub(crate) struct Runs<K: RunKey, A> {
    pub(crate) runs: Vec<Arc<Run<K, A>>>,
}

impl<K: RunKey, A> Model for Runs<K, A> {
    ghost use Rattle.std.specs.Prelude.{List, map};
    ghost use Rattle.std.specs.Arc.{arc_value};
    ghost use Rattle.route_runs.specs.Runs.{contents};

    ghost Value = { List (K × A) };

    ghost view = { λ t. contents K.cmp (map arc_value t.runs.items) };
}

impl<K: RunKey, A: Drop> Runs<K, A> {
    /// The table with no pair.
    pub(crate) fn new(alloc: Global) -> Runs<K, A>
        ensures { result ≡ [] }
    {
        Runs {
            runs: Vec::new(alloc),
        }
    }

    /// Sets the rows of a run, and takes out those that are gone. Merges wait for so many runs of like size. After want
    /// of memory nothing has changed.
    pub(crate) fn push(
        &mut self,
        alloc: Global,
        run: Run<K, A>,
        wait: usize,
    ) -> Result<(), NoMemory>
        ensures ok { OnOk result (IsChanged K.cmp self.old run self.new) }
        ensures err { OnErr result (self.new ≡ self.old) }
    {
        let (own, kept) = settle(alloc, self.runs.as_slice(), run, wait)?;
        let Ok(own) = Arc::new(alloc, own) else {
            return Err(NoMemory);
        };
        replace(&mut self.runs, own, kept)
    }

    /// The pairs are in order.
    pub(crate) fn see_order(&self)
        ensures { IsStrictlySortedBy K.cmp (keys_of self.now) }
    {
        // The invariant says it; the length is read so that it is at hand.
        let _runs = self.runs.len();
    }

    /// An equal table, at the price of a counter for each run.
    pub(crate) fn share(&self, alloc: Global) -> Result<Runs<K, A>, NoMemory>
        ensures { IfOk result (λ copy. copy ≡ self.now) }
    {
        let runs = copied(alloc, self.runs.as_slice())?;
        Ok(Runs { runs })
    }
}

// How many of the last runs are merged with a run of this length: those that aren't more than twice as long, where they are
// as many as are waited for.
fn due_of<K: RunKey, A>(runs: &[Arc<Run<K, A>>], length: usize, wait: usize) -> usize {
    let mut due = 0usize;
    for run in runs.iter().rev() {
        if run.len() / 2 >= length {
            break;
        }
        due = due.saturating_add(1);
    }
    if due < wait { 0 } else { due }
}

// How many of the last runs are merged next: those that are left, or else what is due then.
fn due_next<K: RunKey, A>(
    runs: &[Arc<Run<K, A>>],
    length: usize,
    wait: usize,
    left: usize,
) -> usize {
    if left > 0 {
        return left;
    }
    due_of(runs, length, wait)
}

// Merges a run with the last ones that aren't more than twice as long, where they are as many as are waited for, and says
// how many runs are left before it.
fn settle<K: RunKey, A: Drop>(
    alloc: Global,
    runs: &[Arc<Run<K, A>>],
    run: Run<K, A>,
    wait: usize,
) -> Result<(Run<K, A>, usize), NoMemory>
    ensures { IfOk result (λ r. IsSettled K.cmp (map arc_value runs.now) run r.0 r.1) }
{
    let mut own = run;
    let mut kept = runs.len();
    let mut due = due_of(&runs[..kept], own.len(), wait);
    while kept > 0 && due > 0 {
        own = merge(alloc, &runs[kept - 1], &own, kept == 1)?;
        kept -= 1;
        due = due_next(&runs[..kept], own.len(), wait, due - 1);
    }
    Ok((own, kept))
}

// Puts a run in the place of those from a number on.
fn replace<K: RunKey, A: Drop>(
    runs: &mut Vec<Arc<Run<K, A>>>,
    own: Arc<Run<K, A>>,
    kept: usize,
) -> Result<(), NoMemory>
    requires { kept ≤ length runs.old.items }
    ensures ok { OnOk result (map arc_value runs.new.items ≡ take kept (map arc_value runs.old.items) ++ arc_value own ∷ []) }
    ensures err { OnErr result (map arc_value runs.new.items ≡ map arc_value runs.old.items) }
{
    if kept == runs.len() {
        return match runs.push(own) {
            Ok(_) => Ok(()),
            Err(_) => Err(NoMemory),
        };
    }
    runs[kept] = own;
    runs.truncate(kept + 1);
    Ok(())
}

// The list of the same runs.
fn copied<K: RunKey, A: Drop>(
    alloc: Global,
    runs: &[Arc<Run<K, A>>],
) -> Result<Vec<Arc<Run<K, A>>>, NoMemory>
    ensures { IfOk result (λ copy. map arc_value copy.items ≡ map arc_value runs.now) }
{
    let Ok(mut copy) = Vec::with_capacity(alloc, runs.len()) else {
        return Err(NoMemory);
    };
    for run in runs {
        let Ok(again) = Arc::try_clone(run) else {
            return Err(NoMemory);
        };
        if copy.push(again).is_err() {
            return Err(NoMemory);
        }
    }
    Ok(copy)
}
