ghost use Rattle.std.specs.Prelude.{◌≡◌, [], ◌∷◌, ◌++◌, List, map, filter_map, OnOk};
ghost use Rattle.std.specs.Arc.{arc_value};
ghost use Rattle.bmp_specs.specs.Steps.{step_of, steps_of};
ghost use Rattle.bmp_specs.specs.Values.{EntryValue, StepValue, announce_step, withdraw_step};
ghost use Rattle.recent_ring.specs.Recent.{recent};
ghost use Rattle.rib_model.specs.Effects.{item_values, effect_values};
ghost use Rattle.rib_model.specs.Entries.{entry_value};
ghost use Rattle.router_tables.specs.Tables.{steps_told};

use bmp_frames::PeerKey;
use bmp_specs::View;
use ip_prefix::Nlri;
use recent_ring::Recent;
use rib_model::{Effect, Entry, Route, Step};
use std::sync::Arc;
use wire_io::NoMemory;

// Keeps a step for each of these routes, which are announced with the same attributes.
fn keep_each(
    steps: &mut Recent<Step>,
    key: &PeerKey,
    view: View,
    nlris: &[Nlri],
    route: &Route,
) -> Result<(), NoMemory>
    ensures { OnOk result ((all : List StepValue) → steps_told steps.old ≡ recent all
        → steps_told steps.new ≡ recent (all ++ map (λ n. announce_step key.now view n (arc_value route.now)) nlris.now)) }
{
    for nlri in nlris {
        let route = Arc::try_clone(route)?;
        steps.push(Step::Announce {
            key: *key,
            view,
            nlri: *nlri,
            route,
        });
    }
    Ok(())
}

// Keeps a step for each of these routes, which are withdrawn.
fn keep_withdrawn(steps: &mut Recent<Step>, key: &PeerKey, view: View, nlris: &[Nlri])
    ensures { (all : List StepValue) → steps_told steps.old ≡ recent all
        → steps_told steps.new ≡ recent (all ++ map (λ n. withdraw_step key.now view n) nlris.now) }
{
    for nlri in nlris {
        steps.push(Step::Withdraw {
            key: *key,
            view,
            nlri: *nlri,
        });
    }
}

// Keeps the steps of an effect, or of those on many routes.
fn keep_effect(steps: &mut Recent<Step>, effect: &Effect) -> Result<(), NoMemory>
    ensures { OnOk result ((all : List StepValue) → steps_told steps.old ≡ recent all
        → steps_told steps.new ≡ recent (all ++ filter_map step_of (item_values effect.now))) }
{
    match effect {
        Effect::Up { key, .. } => {
            steps.push(Step::Up(*key));
            Ok(())
        }
        Effect::Down { key, .. } => {
            steps.push(Step::Down(*key));
            Ok(())
        }
        Effect::Announce {
            key,
            view,
            nlris,
            route,
        } => keep_each(steps, key, *view, nlris.as_slice(), route),
        Effect::Withdraw { key, view, nlris } => {
            keep_withdrawn(steps, key, *view, nlris.as_slice());
            Ok(())
        }
        _ => Ok(()),
    }
}

// Keeps the steps of a message, in order.
fn keep_effects(steps: &mut Recent<Step>, effects: &[Effect]) -> Result<(), NoMemory>
    ensures { OnOk result ((all : List StepValue) → steps_told steps.old ≡ recent all
        → steps_told steps.new ≡ recent (all ++ filter_map step_of (effect_values effects.now))) }
{
    for effect in effects {
        keep_effect(steps, effect)?;
    }
    Ok(())
}

// Keeps the steps of an entry. Out of memory, the steps may only be dropped.
pub(crate) fn keep_steps(steps: &mut Recent<Step>, entry: &Entry) -> Result<(), NoMemory>
    ensures { OnOk result ((entries : List EntryValue) → steps_told steps.old ≡ recent (steps_of entries)
        → steps_told steps.new ≡ recent (steps_of (entries ++ entry_value entry.now ∷ []))) }
{
    match entry {
        Entry::Opened(_) => {
            steps.push(Step::Opened);
            Ok(())
        }
        Entry::Message { effects, .. } => keep_effects(steps, effects.as_slice()),
        Entry::Closed(closing) => {
            steps.push(Step::Closed(closing.cause));
            Ok(())
        }
    }
}
