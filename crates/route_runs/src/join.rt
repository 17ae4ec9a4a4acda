ghost use Rattle.std.specs.Prelude.{◌≡◌, IfOk};
ghost use Rattle.route_runs.specs.Override.{IsOverride};

use crate::key::RunKey;
use crate::packs::joined_packs;
use crate::run::{Pack, Run};
use crate::weave::{RowSlice, woven};
use std::alloc::Global;
use std::sync::Arc;
use wire_io::NoMemory;

// How many sets the packs hold.
fn sets_in<A>(packs: &[Arc<Pack<A>>]) -> usize {
    let mut sets = 0usize;
    for pack in packs {
        sets = sets.saturating_add(pack.len());
    }
    sets
}

// Whether a run is made anew, in few packs. That costs a look at each row, and puts its set after that of the row
// before, away from those it came with. So it is done only where it gives much back: where there are more sets than
// two a row and 4,096, so that no row names the greater part of them; or where packs are many and tiny, as those of
// single messages are, so that there are more than one for 64 rows and 64. What has been made anew has at most one set
// a row, in full packs. It is not loose again before merges have brought as many sets as it has rows, and 4,096 more,
// or a pack for each 65 of its rows, and 62 more.
fn is_loose<K: RunKey, A>(run: &Run<K, A>) -> bool {
    let rows = run.keys.len();
    run.packs.len() > 64 + rows / 64 || sets_in(&run.packs) / 2 > 2_048 + rows
}

// The same run, in few packs.
fn in_few_packs<K: RunKey, A: Drop>(alloc: Global, run: Run<K, A>) -> Result<Run<K, A>, NoMemory>
    ensures { IfOk result (λ r. r ≡ run) }
{
    if is_loose(&run) {
        return run.tidy(alloc);
    }
    Ok(run)
}

/// The earlier run overridden by the later one, in few packs; at the bottom without the keys that are gone. One
/// pass, for which the memory is taken at once.
pub(crate) fn merge<K: RunKey, A: Drop>(
    alloc: Global,
    earlier: &Run<K, A>,
    later: &Run<K, A>,
    bottom: bool,
) -> Result<Run<K, A>, NoMemory>
    ensures { IfOk result (IsOverride K.cmp bottom earlier.now later.now) }
{
    let first = earlier.packs.len();
    let second = later.packs.len();
    if first + second >= 1_048_576 {
        return Err(NoMemory);
    }
    let packs = joined_packs(alloc, &earlier.packs, &later.packs)?;
    let shift = 4096 * first as u32;
    let earlier_rows = RowSlice {
        keys: &earlier.keys,
        handles: &earlier.handles,
    };
    let later_rows = RowSlice {
        keys: &later.keys,
        handles: &later.handles,
    };
    let rows = woven(alloc, earlier_rows, later_rows, shift, bottom)?;
    let both = Run {
        keys: rows.keys,
        handles: rows.handles,
        packs,
    };
    in_few_packs(alloc, both)
}
