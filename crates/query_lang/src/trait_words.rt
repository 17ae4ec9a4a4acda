ghost use Rattle.std.specs.Prelude.{◌≡◌, codes, IfSome, IfNone};
ghost use Rattle.ask_specs.specs.Traits.{TraitsValue};
ghost use Rattle.ask_specs.specs.TraitText.{IsThroughText, IsCommunityText, IsTypeText};
ghost use Rattle.bmp_specs.specs.Query.{QueryValue};
ghost use Rattle.query_lang.specs.Reading.{words_of, AsksWith, BreaksLast, EndsWith, TakesLast};
ghost use Rattle.query_lang.specs.TraitValues.{community_value, traits_value};
ghost use Rattle.std.specs.Option.{option_map};

use crate::trait_texts::{parse_asns, parse_community};
use crate::traits::{Asns, Community, Traits};
use crate::words::take_last_selector;
use ip_prefix::parse_number_up_to;

// Takes `other T` from the end, where it stands there. None exactly where T is no type.
fn take_other(text: &[u8]) -> Option<(Option<u8>, &[u8])>
    ensures some { IfSome result (λ r. TakesLast (codes "other") IsTypeText (words_of text.now) r.0 (words_of r.1.now)) }
    ensures none { IfNone result (BreaksLast (codes "other") IsTypeText (words_of text.now)) }
{
    let Some((value, others)) = take_last_selector(b"other", text) else {
        return Some((None, text));
    };
    match parse_number_up_to(value, 255) {
        Some(code) => Some((Some(code as u8), others)),
        None => None,
    }
}

// Takes `community C` from the end, where it stands there. None exactly where C is no community.
fn take_community(text: &[u8]) -> Option<(Option<Community>, &[u8])>
    ensures some { IfSome result (λ r. TakesLast (codes "community") IsCommunityText (words_of text.now) (option_map community_value r.0) (words_of r.1.now)) }
    ensures none { IfNone result (BreaksLast (codes "community") IsCommunityText (words_of text.now)) }
{
    let Some((value, others)) = take_last_selector(b"community", text) else {
        return Some((None, text));
    };
    match parse_community(value) {
        Some(community) => Some((Some(community), others)),
        None => None,
    }
}

// Takes `through L` from the end, where it stands there. None exactly where L isn't one to four numbers.
fn take_through(text: &[u8]) -> Option<(Option<Asns>, &[u8])>
    ensures some { IfSome result (λ r. TakesLast (codes "through") IsThroughText (words_of text.now) r.0 (words_of r.1.now)) }
    ensures none { IfNone result (BreaksLast (codes "through") IsThroughText (words_of text.now)) }
{
    let Some((value, others)) = take_last_selector(b"through", text) else {
        return Some((None, text));
    };
    match parse_asns(value) {
        Some(asns) => Some((Some(asns), others)),
        None => None,
    }
}

// Takes the selectors of path attributes from the end of a line, and leaves what stands before them. Where a
// query for rows stands before such selectors, it is what is left.
pub(crate) fn take_traits(text: &[u8]) -> Option<(Traits, &[u8])>
    ensures some { IfSome result (λ r. EndsWith (traits_value r.0) (words_of text.now) (words_of r.1.now)) }
    ensures only { IfSome result (λ r. (v : QueryValue) (t : TraitsValue) (asks : AsksWith v t (words_of text.now)) → (t ≡ traits_value r.0) × (asks.front ≡ words_of r.1.now)) }
    ensures none { IfNone result ((v : QueryValue) (t : TraitsValue) → AsksWith v t (words_of text.now) → ⊥) }
{
    let Some((other, rest)) = take_other(text) else {
        return None;
    };
    let Some((community, rest)) = take_community(rest) else {
        return None;
    };
    match take_through(rest) {
        Some((through, rest)) => Some((
            Traits {
                through,
                community,
                other,
            },
            rest,
        )),
        None => None,
    }
}
