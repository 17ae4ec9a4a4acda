ghost use Rattle.std.specs.Prelude.{◌≡◌, ◌↔◌, ◌<◌, ◌≤◌, ◌-◌, List, [], ◌∷◌, IsTrue, IsNone, Some, length, max, nat_lt, option_map, if◌then◌else◌};
ghost use Rattle.bmp_specs.specs.ChangeLines.{missed_line, missed_lines};
ghost use Rattle.bmp_specs.specs.Changes.{Concerns, oldest_kept};
ghost use Rattle.bmp_specs.specs.QueryReply.{most_told};
ghost use Rattle.bmp_specs.specs.Values.{StepValue};
ghost use Rattle.rib_model.specs.Steps.{step_value};
ghost use Rattle.route_watch.specs.Watch.{AreSteps, IsFirst, IsKeptChange, IsToldChange, change_of};

use ip_prefix::Prefix;
use recent_ring::Recent;
use rib_model::Step;

/// The first step of this number or a later one that may change what is known of the prefix, and its
/// number: a connection that opens or closes, a peer that comes up or goes down, or a route of exactly this
/// prefix that is announced or withdrawn. Only the steps that are kept are looked at, each once. `None` where there were
/// 2^64 - 1 steps or more, since the total says no more then.
pub fn poll<'a>(recent: &'a Recent<Step>, from: u64, prefix: &Prefix) -> Option<(u64, &'a Step)>
    ensures kept { recent.now.total < most_told → IsFirst (IsKeptChange recent.now from (Some prefix.now)) (option_map change_of result) }
    ensures most { most_told ≤ recent.now.total → IsNone result }
    // of the last of all steps of a lane
    ensures changes { (steps : List StepValue) → AreSteps recent.now steps → IsFirst (IsToldChange steps from (Some prefix.now)) (option_map change_of result) }
{
    let total = recent.total();
    if total == u64::MAX {
        return None;
    }
    first_kept(recent, from, prefix)
}

/// How many of the steps from this number on are no longer kept. 0 where there were 2^64 - 1 steps or more, since the total
/// says no more then.
pub fn missed(recent: &Recent<Step>, from: u64) -> u64
    ensures missed { recent.now.total < most_told → result ≡ oldest_kept recent.now.total - from }
    ensures most { most_told ≤ recent.now.total → result ≡ 0 }
    // the reply tells it exactly where there are some
    ensures lines { recent.now.total < most_told → missed_lines from (oldest_kept recent.now.total) ≡ (if nat_lt 0 result then missed_line result ∷ [] else []) }
{
    let total = recent.total();
    if total == u64::MAX {
        return 0;
    }
    let oldest = total - recent.len();
    oldest.saturating_sub(from)
}

// The first change that is kept, from a step on.
fn first_kept<'a>(recent: &'a Recent<Step>, from: u64, prefix: &Prefix) -> Option<(u64, &'a Step)>
    ensures { IsFirst (IsKeptChange recent.now from (Some prefix.now)) (option_map change_of result) }
{
    let total = recent.total();
    let oldest = total - recent.len();
    for place in from.saturating_sub(oldest)..recent.len() {
        if let Some(step) = recent.get(place) {
            if concerns(step, prefix) {
                return Some((oldest + place, step));
            }
        }
    }
    None
}

// Whether a step may change what is known of the prefix.
fn concerns(step: &Step, prefix: &Prefix) -> bool
    ensures { IsTrue result ↔ Concerns prefix.now (step_value step.now) }
{
    match step {
        Step::Opened => true,
        Step::Closed(_) => true,
        Step::Up(_) => true,
        Step::Down(_) => true,
        Step::Announce { nlri, .. } => nlri.prefix == *prefix,
        Step::Withdraw { nlri, .. } => nlri.prefix == *prefix,
    }
}
