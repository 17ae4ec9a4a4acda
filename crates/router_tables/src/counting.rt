ghost use Rattle.std.specs.Prelude.{◌≡◌, ℕ, [], ◌∷◌, ◌++◌, List};
ghost use Rattle.bmp_specs.specs.Counts.{CountsValue, counts_of};
ghost use Rattle.bmp_specs.specs.Session.{live, state_of};
ghost use Rattle.bmp_specs.specs.Sums.{sum_of, message_counts};
ghost use Rattle.bmp_specs.specs.Values.{EffectValue, EntryValue, message};
ghost use Rattle.rib_model.specs.Effects.{item_values, effect_values};
ghost use Rattle.rib_model.specs.Entries.{head_value};

use rib_model::{Effect, Head};
use stats_book::Counts;

// Counts one effect of a message, or those on many routes.
fn count_effect(counts: &mut Counts, effect: &Effect)
    ensures { (before : CountsValue) (len : ℕ) (effects : List EffectValue) → counts.old ≡ sum_of before (message_counts len effects)
        → counts.new ≡ sum_of before (message_counts len (effects ++ item_values effect.now)) }
{
    match effect {
        Effect::Orphan => counts.add(&Counts {
            orphans: 1,
            ..Counts::none()
        }),
        Effect::Mirrored => counts.add(&Counts {
            mirrored: 1,
            ..Counts::none()
        }),
        Effect::Passed => counts.add(&Counts {
            passed: 1,
            ..Counts::none()
        }),
        Effect::Unread(parts) => counts.add(&Counts {
            unread: *parts as u64,
            ..Counts::none()
        }),
        _ => {}
    }
}

// Counts the effects of a message.
fn count_effects(counts: &mut Counts, effects: &[Effect])
    ensures { (before : CountsValue) (len : ℕ) (earlier : List EffectValue) → counts.old ≡ sum_of before (message_counts len earlier)
        → counts.new ≡ sum_of before (message_counts len (earlier ++ effect_values effects.now)) }
{
    for effect in effects {
        count_effect(counts, effect);
    }
}

// Counts a message with this head and these effects.
pub(crate) fn count_message(counts: &mut Counts, head: &Head, effects: &[Effect])
    ensures { (entries : List EntryValue) → state_of entries ≡ live → counts.old ≡ counts_of entries
        → counts.new ≡ counts_of (entries ++ message (head_value head.now) (effect_values effects.now) ∷ []) }
{
    counts.add(&Counts {
        messages: 1,
        bytes: head.length as u64,
        ..Counts::none()
    });
    count_effects(counts, effects);
}
