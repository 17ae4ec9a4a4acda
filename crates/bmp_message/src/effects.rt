ghost use Rattle.std.specs.Prelude.{◌≡◌, ◌≤◌, ◌+◌, [], ◌∷◌, ◌++◌, length, map, OnOk, IfOk};
ghost use Rattle.std.specs.Arc.{arc_value};
ghost use Rattle.std.specs.Option.{option_copied};
ghost use Rattle.rib_model.specs.Effects.{effect_values, item_values};
ghost use Rattle.bmp_specs.specs.MessageEffects.{effect_of, unread_effect};
ghost use Rattle.bmp_specs.specs.Values.{announce, mark, statistic, withdraw};

use bgp_update::NlriList;
use bmp_frames::PeerKey;
use bmp_specs::{Family, View};
use rib_model::{Effect, EffectList, Route};
use std::alloc::Global;
use wire_io::NoMemory;
use wire_tables::Stat;

// Appends an effect, or those on many routes.
pub(crate) fn add(effects: &mut EffectList, effect: Effect) -> Result<(), NoMemory>
    ensures effects { OnOk result (effect_values effects.new ≡ effect_values effects.old ++ item_values effect) }
    ensures item { OnOk result (effects.new ≡ effects.old ++ effect ∷ []) }
{
    effects.push(effect)?;
    Ok(())
}

// The list of one effect.
pub(crate) fn only(alloc: Global, effect: Effect) -> Result<EffectList, NoMemory>
    ensures { IfOk result (λ effects. effect_values effects ≡ item_values effect) }
{
    let mut effects = EffectList::with_capacity(alloc, 1)?;
    add(&mut effects, effect)?;
    Ok(effects)
}

// How many items of an effect list a part takes that may be there.
pub(crate) fn one_if(there: bool) -> usize
    ensures { result ≤ 1 }
{
    if there { 1 } else { 0 }
}

// Appends the effect of the parts that were passed over, where there are any.
pub(crate) fn add_unread(effects: &mut EffectList, unread: u32) -> Result<(), NoMemory>
    ensures effects { OnOk result (effect_values effects.new ≡ effect_values effects.old ++ unread_effect unread) }
    ensures one { OnOk result (length effects.new ≤ length effects.old + 1) }
{
    if unread == 0 {
        return Ok(());
    }
    add(effects, Effect::Unread(unread))
}

// Appends the withdrawals of these prefixes, where there are any, as one item.
pub(crate) fn add_withdrawals(
    effects: &mut EffectList,
    key: &PeerKey,
    view: View,
    nlris: NlriList,
) -> Result<(), NoMemory>
    ensures effects { OnOk result (effect_values effects.new ≡ effect_values effects.old ++ map (λ n. withdraw key.now view n) nlris) }
    ensures one { OnOk result (length effects.new ≤ length effects.old + 1) }
    ensures none { nlris ≡ [] → effects.new ≡ effects.old }
{
    if nlris.as_slice().is_empty() {
        return Ok(());
    }
    let key = *key;
    add(effects, Effect::Withdraw { key, view, nlris })
}

// Appends the announcements of these prefixes, where there are any, as one item with the attributes.
pub(crate) fn add_announcements(
    effects: &mut EffectList,
    key: &PeerKey,
    view: View,
    nlris: NlriList,
    route: Route,
) -> Result<(), NoMemory>
    ensures effects { OnOk result (effect_values effects.new ≡ effect_values effects.old ++ map (λ n. announce key.now view n (arc_value route)) nlris) }
    ensures one { OnOk result (length effects.new ≤ length effects.old + 1) }
    ensures none { nlris ≡ [] → effects.new ≡ effects.old }
{
    if nlris.as_slice().is_empty() {
        return Ok(());
    }
    let key = *key;
    add(
        effects,
        Effect::Announce {
            key,
            view,
            nlris,
            route,
        },
    )
}

// Appends the End-of-RIB marker of the family, where there is one.
pub(crate) fn add_mark(
    effects: &mut EffectList,
    key: &PeerKey,
    view: View,
    family: Option<Family>,
) -> Result<(), NoMemory>
    ensures effects { OnOk result (effect_values effects.new ≡ effect_values effects.old ++ effect_of (λ f. mark key.now view f) family) }
    ensures one { OnOk result (length effects.new ≤ length effects.old + 1) }
{
    if let Some(family) = family {
        let key = *key;
        add(effects, Effect::Mark { key, view, family })?;
    }
    Ok(())
}

// Appends the statistics.
pub(crate) fn add_statistics(
    effects: &mut EffectList,
    key: &PeerKey,
    stats: &[Stat],
) -> Result<(), NoMemory>
    ensures { OnOk result (effect_values effects.new ≡ effect_values effects.old ++ map (λ s. statistic key.now s) stats.now) }
{
    for stat in stats {
        let effect = Effect::Statistic {
            key: *key,
            stat: *stat,
        };
        add(effects, effect)?;
    }
    Ok(())
}
