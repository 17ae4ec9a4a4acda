ghost use Rattle.std.specs.Prelude.{◌<◌, ◌≤◌, List, IsNone, None, option_map};
ghost use Rattle.bmp_specs.specs.QueryReply.{most_told};
ghost use Rattle.bmp_specs.specs.Values.{StepValue};
ghost use Rattle.route_watch.specs.Watch.{AreSteps, IsFirst, IsKeptChange, IsToldChange, change_of};

use recent_ring::Recent;
use rib_model::Step;

/// The first step of this number or a later one that is kept, whatever it speaks of, and its number. One step is looked at.
/// `None` where there were 2^64 - 1 steps or more, since the total says no more then.
pub fn poll_any<'a>(recent: &'a Recent<Step>, from: u64) -> Option<(u64, &'a Step)>
    ensures kept { recent.now.total < most_told → IsFirst (IsKeptChange recent.now from None) (option_map change_of result) }
    ensures most { most_told ≤ recent.now.total → IsNone result }
    // of the last of all steps of a lane
    ensures changes { (steps : List StepValue) → AreSteps recent.now steps → IsFirst (IsToldChange steps from None) (option_map change_of result) }
{
    let total = recent.total();
    if total == u64::MAX {
        return None;
    }
    next_kept(recent, from)
}

// The first step that is kept, from a number on.
fn next_kept<'a>(recent: &'a Recent<Step>, from: u64) -> Option<(u64, &'a Step)>
    ensures { IsFirst (IsKeptChange recent.now from None) (option_map change_of result) }
{
    let oldest = recent.total() - recent.len();
    let place = from.saturating_sub(oldest);
    match recent.get(place) {
        Some(step) => Some((oldest + place, step)),
        None => None,
    }
}
