//! The value of `--feed-from` and of `--ask-from`: prefixes joined by commas.

ghost use Rattle.std.specs.Prelude.{◌≡◌, ◌∷◌, ◌==◌, List, IfSome, IfNone};
ghost use Rattle.std.specs.List.{position};
ghost use Rattle.bmp_specs.specs.Values.{PrefixValue};
ghost use Rattle.station_words.specs.ServeWords.{IsAllowed, comma};
ghost use Rattle.station_words.specs.AllowedTexts.{further_texts, texts_of};

use ip_prefix::parse_prefix;
use station_doors::{Allowed, MOST_ALLOWED};

// Where the first comma of the text is.
fn first_comma(text: &[u8]) -> Option<usize>
    ensures { result ≡ position (λ byte. byte == comma) text.now }
{
    text.iter().position(|byte| *byte == b',')
}

// What stands in front of the first comma, and what stands behind it, where there is one.
fn split_comma(text: &[u8]) -> (&[u8], Option<&[u8]>)
    ensures { texts_of text.now ≡ result.0.now ∷ further_texts result.1 }
{
    match first_comma(text) {
        Some(at) => (&text[..at], Some(&text[at + 1..])),
        None => (text, None),
    }
}

/// The prefixes that a value lists.
pub(crate) fn allowed_of(value: &str) -> Option<Allowed>
    ensures some { IfSome result (λ allowed. IsAllowed value.now allowed) }
    ensures none { IfNone result ((allowed : List PrefixValue) → IsAllowed value.now allowed → ⊥) }
{
    let mut allowed = Allowed::anywhere();
    let mut left = value.as_bytes();
    for _ in 0..MOST_ALLOWED {
        let (front, others) = split_comma(left);
        let Some(prefix) = parse_prefix(front) else {
            return None;
        };
        allowed.add(prefix);
        match others {
            Some(text) => left = text,
            None => return Some(allowed),
        }
    }
    None
}
