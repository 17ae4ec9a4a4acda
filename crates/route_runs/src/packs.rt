ghost use Rattle.std.specs.Prelude.{◌≡◌, ◌++◌, IfOk, OnOk};
ghost use Rattle.route_runs.specs.Rows.{sets_of};

use crate::run::Pack;
use std::alloc::Global;
use std::sync::Arc;
use wire_io::NoMemory;

// Adds packs to others.
fn add_packs<A: Drop>(out: &mut Vec<Arc<Pack<A>>>, packs: &[Arc<Pack<A>>]) -> Result<(), NoMemory>
    ensures { OnOk result (sets_of out.new.items ≡ sets_of out.old.items ++ sets_of packs.now) }
{
    for pack in packs {
        let Ok(again) = Arc::try_clone(pack) else {
            return Err(NoMemory);
        };
        if out.push(again).is_err() {
            return Err(NoMemory);
        }
    }
    Ok(())
}

/// The packs of two runs, one after the other.
pub(crate) fn joined_packs<A: Drop>(
    alloc: Global,
    earlier: &[Arc<Pack<A>>],
    later: &[Arc<Pack<A>>],
) -> Result<Vec<Arc<Pack<A>>>, NoMemory>
    ensures { IfOk result (λ packs. sets_of packs.items ≡ sets_of earlier.now ++ sets_of later.now) }
{
    let Ok(mut packs) = Vec::with_capacity(alloc, earlier.len().saturating_add(later.len())) else {
        return Err(NoMemory);
    };
    add_packs(&mut packs, earlier)?;
    add_packs(&mut packs, later)?;
    Ok(packs)
}
