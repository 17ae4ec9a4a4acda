ghost use Rattle.std.specs.Prelude.{◌≡◌, [], length, IsTrue};
ghost use Rattle.std.specs.List.{filter};
ghost use Rattle.std.specs.List.Sorted.{IsStrictlySortedBy};
ghost use Rattle.std.specs.Map.{keys_of};
ghost use Rattle.route_runs.specs.Rows.{is_live};
ghost use Rattle.route_runs.specs.Runs.{live};

use crate::key::RunKey;
use crate::run::{GONE, Run};
use crate::runs::Runs;

// How many handles are those of sets.
fn live_handles(handles: &[u32]) -> u64
    ensures { result ≡ length (filter is_live handles.now) }
{
    let mut count = 0u64;
    for at in 0..handles.len() {
        if handles[at] != GONE {
            count += 1;
        }
    }
    count
}

/// How many rows of a run aren't gone.
pub(crate) fn live_rows<K: RunKey, A>(run: &Run<K, A>) -> u64
    ensures count { result ≡ length (live run.now) }
    ensures ordered { IsStrictlySortedBy K.cmp (keys_of run.now) }
{
    live_handles(&run.handles)
}

impl<K: RunKey, A: Drop> Runs<K, A> {
    /// Whether there is no run, or one without rows: then there is no pair.
    pub(crate) fn is_bare(&self) -> bool
        ensures { IsTrue result → self.now ≡ [] }
    {
        if self.runs.len() == 1 {
            return self.runs[0].len() == 0;
        }
        self.runs.len() == 0
    }
}
