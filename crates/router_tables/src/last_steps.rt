ghost use Rattle.std.specs.Prelude.{◌≡◌, ◌-◌, ◌^◌, ◌≤◌, ◌⊎◌, [], ◌∷◌, ◌++◌, List, drop, length, map, min, filter_map, IfOk, OnOk};
ghost use Rattle.std.specs.Arc.{arc_value};
ghost use Rattle.bmp_specs.specs.Steps.{step_of, steps_in, steps_of};
ghost use Rattle.bmp_specs.specs.Values.{EntryValue, announce_step, withdraw_step};
ghost use Rattle.recent_ring.specs.Recent.{recent};
ghost use Rattle.rib_model.specs.Effects.{item_values, effect_values};
ghost use Rattle.rib_model.specs.Entries.{entry_value, entry_values};
ghost use Rattle.rib_model.specs.Steps.{step_value};
ghost use Rattle.router_tables.specs.Tables.{steps_told};

use crate::steps::keep_steps;
use bmp_frames::PeerKey;
use bmp_specs::View;
use ip_prefix::Nlri;
use recent_ring::Recent;
use rib_model::{Effect, Entry, Route, Step};
use std::alloc::Global;
use std::sync::Arc;
use wire_io::NoMemory;

// How many steps are kept.
pub(crate) const KEPT: usize = 1024;

// With fewer steps than this, each is pushed.
const FEW: usize = 64;

// How many steps an effect is, or those on many routes are.
fn count_effect(effect: &Effect) -> usize
    ensures { result ≡ length (filter_map step_of (item_values effect.now)) }
{
    match effect {
        Effect::Up { .. } => 1,
        Effect::Down { .. } => 1,
        Effect::Announce { nlris, .. } => nlris.as_slice().len(),
        Effect::Withdraw { nlris, .. } => nlris.as_slice().len(),
        _ => 0,
    }
}

// How many steps a message has, at most 2^64 - 1.
fn count_effects(effects: &[Effect]) -> usize
    ensures { result ≡ min (length (filter_map step_of (effect_values effects.now))) (2 ^ 64 - 1) }
{
    let mut count: usize = 0;
    for effect in effects {
        count = count.saturating_add(count_effect(effect));
    }
    count
}

// How many steps an entry has, at most 2^64 - 1.
fn count_entry(entry: &Entry) -> usize
    ensures { result ≡ min (length (steps_in (entry_value entry.now))) (2 ^ 64 - 1) }
{
    match entry {
        Entry::Opened(_) => 1,
        Entry::Message { effects, .. } => count_effects(effects.as_slice()),
        Entry::Closed(_) => 1,
    }
}

// How many steps entries have, at most 2^64 - 1.
pub(crate) fn count_entries(entries: &[Entry]) -> usize
    ensures { result ≡ min (length (steps_of (entry_values entries.now))) (2 ^ 64 - 1) }
{
    let mut count: usize = 0;
    for entry in entries {
        count = count.saturating_add(count_entry(entry));
    }
    count
}

// Gathers a step, where none is to be passed over. Gives how many are then to be passed over.
fn gather_one(steps: &mut Vec<Step>, passed: usize, step: Step) -> Result<usize, NoMemory>
    ensures left { IfOk result (λ left. left ≡ passed - 1) }
    ensures steps { OnOk result (map step_value steps.new.items ≡ map step_value steps.old.items ++ drop passed (step_value step ∷ [])) }
{
    if passed > 0 {
        return Ok(passed - 1);
    }
    steps.push(step)?;
    Ok(0)
}

// Gathers a step for each of these routes, which are announced with the same attributes.
fn gather_each(
    steps: &mut Vec<Step>,
    key: &PeerKey,
    view: View,
    nlris: &[Nlri],
    route: &Route,
) -> Result<(), NoMemory>
    ensures { OnOk result (map step_value steps.new.items ≡ map step_value steps.old.items ++ map (λ n. announce_step key.now view n (arc_value route.now)) nlris.now) }
{
    for nlri in nlris {
        let route = Arc::try_clone(route)?;
        steps.push(Step::Announce {
            key: *key,
            view,
            nlri: *nlri,
            route,
        })?;
    }
    Ok(())
}

// Gathers a step for each of these routes, which are withdrawn.
fn gather_withdrawn(
    steps: &mut Vec<Step>,
    key: &PeerKey,
    view: View,
    nlris: &[Nlri],
) -> Result<(), NoMemory>
    ensures { OnOk result (map step_value steps.new.items ≡ map step_value steps.old.items ++ map (λ n. withdraw_step key.now view n) nlris.now) }
{
    for nlri in nlris {
        steps.push(Step::Withdraw {
            key: *key,
            view,
            nlri: *nlri,
        })?;
    }
    Ok(())
}

// Gathers the steps of an effect, or of those on many routes, without the first ones that are to be passed over. Gives
// how many are then to be passed over.
fn gather_effect(steps: &mut Vec<Step>, passed: usize, effect: &Effect) -> Result<usize, NoMemory>
    ensures left { IfOk result (λ left. left ≡ passed - length (filter_map step_of (item_values effect.now))) }
    ensures steps { OnOk result (map step_value steps.new.items ≡ map step_value steps.old.items ++ drop passed (filter_map step_of (item_values effect.now))) }
{
    match effect {
        Effect::Up { key, .. } => gather_one(steps, passed, Step::Up(*key)),
        Effect::Down { key, .. } => gather_one(steps, passed, Step::Down(*key)),
        Effect::Announce {
            key,
            view,
            nlris,
            route,
        } => {
            let nlris = nlris.as_slice();
            let first = passed.min(nlris.len());
            gather_each(steps, key, *view, &nlris[first..], route)?;
            Ok(passed - first)
        }
        Effect::Withdraw { key, view, nlris } => {
            let nlris = nlris.as_slice();
            let first = passed.min(nlris.len());
            gather_withdrawn(steps, key, *view, &nlris[first..])?;
            Ok(passed - first)
        }
        _ => Ok(passed),
    }
}

// Gathers the steps of a message, in order, without the first ones that are to be passed over.
fn gather_effects(
    steps: &mut Vec<Step>,
    passed: usize,
    effects: &[Effect],
) -> Result<usize, NoMemory>
    ensures left { IfOk result (λ left. left ≡ passed - length (filter_map step_of (effect_values effects.now))) }
    ensures steps { OnOk result (map step_value steps.new.items ≡ map step_value steps.old.items ++ drop passed (filter_map step_of (effect_values effects.now))) }
{
    let mut left = passed;
    for effect in effects {
        left = gather_effect(steps, left, effect)?;
    }
    Ok(left)
}

// Gathers the steps of an entry, without the first ones that are to be passed over.
fn gather_entry(steps: &mut Vec<Step>, passed: usize, entry: &Entry) -> Result<usize, NoMemory>
    ensures left { IfOk result (λ left. left ≡ passed - length (steps_in (entry_value entry.now))) }
    ensures steps { OnOk result (map step_value steps.new.items ≡ map step_value steps.old.items ++ drop passed (steps_in (entry_value entry.now))) }
{
    match entry {
        Entry::Opened(_) => gather_one(steps, passed, Step::Opened),
        Entry::Message { effects, .. } => gather_effects(steps, passed, effects.as_slice()),
        Entry::Closed(closing) => gather_one(steps, passed, Step::Closed(closing.cause)),
    }
}

// The steps of entries, in order, without so many of the first ones.
fn gathered(
    alloc: Global,
    entries: &[Entry],
    passed: usize,
    room: usize,
) -> Result<Vec<Step>, NoMemory>
    ensures { IfOk result (λ steps. map step_value steps.items ≡ drop passed (steps_of (entry_values entries.now))) }
{
    let mut steps = Vec::with_capacity(alloc, room)?;
    let mut left = passed;
    for entry in entries {
        left = gather_entry(&mut steps, left, entry)?;
    }
    Ok(steps)
}

// The last steps with those of a few entries.
fn pushed(before: &Recent<Step>, entries: &[Entry]) -> Result<Recent<Step>, NoMemory>
    ensures { IfOk result (λ steps. (so_far : List EntryValue) → steps_told before.now ≡ recent (steps_of so_far)
        → steps_told steps ≡ recent (steps_of (so_far ++ entry_values entries.now))) }
{
    let mut steps = before.copy()?;
    for entry in entries {
        keep_steps(&mut steps, entry)?;
    }
    Ok(steps)
}

// The last steps with those of these entries. Where these are many, only the last of them are made.
pub(crate) fn steps_with(
    alloc: Global,
    before: &Recent<Step>,
    entries: &[Entry],
) -> Result<Recent<Step>, NoMemory>
    ensures { IfOk result (λ steps. (so_far : List EntryValue) → steps_told before.now ≡ recent (steps_of so_far)
        → steps_told steps ≡ recent (steps_of (so_far ++ entry_values entries.now))) }
{
    let count = count_entries(entries);
    if count < FEW {
        return pushed(before, entries);
    }
    let passed = count.saturating_sub(KEPT);
    let last = gathered(alloc, entries, passed, count - passed)?;
    let steps = before.with_last(passed as u64, last)?;
    Ok(steps)
}

// The last steps with those of these entries, after others whose steps are passed over. Where there are such, these entries
// have 1,024 at least.
pub(crate) fn steps_past(
    alloc: Global,
    before: &Recent<Step>,
    passed: u64,
    entries: &[Entry],
) -> Result<Recent<Step>, NoMemory>
    ensures { IfOk result (λ steps. (so_far past : List EntryValue) → steps_told before.now ≡ recent (steps_of so_far) → passed ≡ min (length (steps_of past)) (2 ^ 64 - 1)
        → (passed ≡ 0) ⊎ (1024 ≤ length (steps_of (entry_values entries.now))) → steps_told steps ≡ recent (steps_of ((so_far ++ past) ++ entry_values entries.now))) }
{
    if passed == 0 {
        return steps_with(alloc, before, entries);
    }
    let count = count_entries(entries);
    let first = count.saturating_sub(KEPT);
    let last = gathered(alloc, entries, first, count - first)?;
    let steps = before.with_last(passed.saturating_add(first as u64), last)?;
    Ok(steps)
}
