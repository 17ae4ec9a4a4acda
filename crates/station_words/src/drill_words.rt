//! The words of `drill`: three numbers.

ghost use Rattle.std.specs.Prelude.{◌≡◌, ◌↔◌, ℕ, List, [], ◌∷◌, map, IsTrue, IfSome, IfNone};
ghost use Rattle.std.specs.String.{string_bytes};
ghost use Rattle.bmp_specs.specs.NumberText.{IsNumberText};
ghost use Rattle.station_words.specs.DrillWords.{IsDrill, MayDrill};
ghost use Rattle.station_words.specs.declared.drill_words.DrillWords.{DrillWords as AnyDrill};

use ip_prefix::parse_number;

/// What `drill` is asked for.
#[derive(Clone, Copy)]
pub struct DrillWords {
    /// What the streams are drawn from.
    pub seed: u32,

    /// So many lanes, from 1 to 16.
    pub lanes: u32,

    /// So many drawn messages in the stream of each lane, from 1 to 100,000.
    pub messages: u32,
}

// The number that the word is.
fn read_number(word: &str) -> Option<u32>
    ensures some { IfSome result (λ n. IsNumberText word.now n) }
    ensures none { IfNone result ((n : ℕ) → IsNumberText word.now n → ⊥) }
{
    parse_number(word.as_bytes())
}

// Whether there may be so many lanes and messages.
fn may_drill(drill: &DrillWords) -> bool
    ensures { IsTrue result ↔ MayDrill drill.now }
{
    (1..=16).contains(&drill.lanes) && (1..=100_000).contains(&drill.messages)
}

// What the three words ask for.
fn drill_of(seed: &str, lanes: &str, messages: &str) -> Option<DrillWords>
    ensures some { IfSome result (λ drill. IsDrill drill (seed.now ∷ lanes.now ∷ messages.now ∷ [])) }
    ensures none { IfNone result ((drill : AnyDrill) → IsDrill drill (seed.now ∷ lanes.now ∷ messages.now ∷ []) → ⊥) }
{
    let Some(seed) = read_number(seed) else {
        return None;
    };
    let Some(lanes) = read_number(lanes) else {
        return None;
    };
    let Some(messages) = read_number(messages) else {
        return None;
    };
    let drill = DrillWords {
        seed,
        lanes,
        messages,
    };
    if may_drill(&drill) { Some(drill) } else { None }
}

/// What the words after `drill` ask for: SEED below 2^32, LANES from 1 to 16 and MESSAGES from 1 to 100,000, each in
/// decimal digits without a leading zero. None exactly where the words are no such three numbers.
pub fn read_drill(words: &[String]) -> Option<DrillWords>
    ensures some { IfSome result (λ drill. IsDrill drill (map string_bytes words.now)) }
    ensures none { IfNone result ((drill : AnyDrill) → IsDrill drill (map string_bytes words.now) → ⊥) }
{
    match words {
        [seed, lanes, messages] => drill_of(seed.as_str(), lanes.as_str(), messages.as_str()),
        _ => None,
    }
}
