ghost use Rattle.std.specs.Prelude.{◌≡◌, ℕ, Option, codes, IfSome, IfNone};
ghost use Rattle.bmp_specs.specs.NumberText.{IsNumberText};
ghost use Rattle.bmp_specs.specs.PeerText.{IsKeyText, IsViewText};
ghost use Rattle.bmp_specs.specs.Query.{IsFamilyText, ArePeerSelectors, AreSelectors};
ghost use Rattle.bmp_specs.specs.Selection.{SelectValue};
ghost use Rattle.bmp_specs.specs.Values.{KeyValue};
ghost use Rattle.bmp_specs.specs.declared.wire.Family.{Family};
ghost use Rattle.query_lang.specs.Reading.{further_words, Takes, Breaks};

use crate::select::Select;
use crate::words::take_selector;
use bmp_frames::{PeerKey, parse_key, parse_view};
use bmp_specs::{Family, View};
use ip_prefix::parse_number;

// The family that the text names.
fn parse_family(text: &[u8]) -> Option<Family>
    ensures some { IfSome result (λ f. IsFamilyText text.now f) }
    ensures none { IfNone result ((f : Family) → IsFamilyText text.now f → ⊥) }
{
    match text {
        b"4" => Some(Family::V4),
        b"6" => Some(Family::V6),
        _ => None,
    }
}

// Takes `router N` from the front, where it stands there. None exactly where N is no number.
fn take_router(rest: &[u8]) -> Option<(Option<u32>, &[u8])>
    ensures some { IfSome result (λ r. Takes (codes "router") IsNumberText (further_words rest.now) r.0 (further_words r.1.now)) }
    ensures none { IfNone result (Breaks (codes "router") IsNumberText (further_words rest.now)) }
{
    let Some((text, others)) = take_selector(b"router", rest) else {
        return Some((None, rest));
    };
    match parse_number(text) {
        Some(number) => Some((Some(number), others)),
        None => None,
    }
}

// Takes `peer KEY` from the front, where it stands there. None exactly where KEY is no peer.
fn take_peer(rest: &[u8]) -> Option<(Option<PeerKey>, &[u8])>
    ensures some { IfSome result (λ r. Takes (codes "peer") IsKeyText (further_words rest.now) r.0 (further_words r.1.now)) }
    ensures none { IfNone result (Breaks (codes "peer") IsKeyText (further_words rest.now)) }
{
    let Some((text, others)) = take_selector(b"peer", rest) else {
        return Some((None, rest));
    };
    match parse_key(text) {
        Some(key) => Some((Some(key), others)),
        None => None,
    }
}

// Takes `view V` from the front, where it stands there. None exactly where V is no view.
fn take_view(rest: &[u8]) -> Option<(Option<View>, &[u8])>
    ensures some { IfSome result (λ r. Takes (codes "view") IsViewText (further_words rest.now) r.0 (further_words r.1.now)) }
    ensures none { IfNone result (Breaks (codes "view") IsViewText (further_words rest.now)) }
{
    let Some((text, others)) = take_selector(b"view", rest) else {
        return Some((None, rest));
    };
    match parse_view(text) {
        Some(view) => Some((Some(view), others)),
        None => None,
    }
}

// Takes `family F` from the front, where it stands there. None exactly where F is no family.
fn take_family(rest: &[u8]) -> Option<(Option<Family>, &[u8])>
    ensures some { IfSome result (λ r. Takes (codes "family") IsFamilyText (further_words rest.now) r.0 (further_words r.1.now)) }
    ensures none { IfNone result (Breaks (codes "family") IsFamilyText (further_words rest.now)) }
{
    let Some((text, others)) = take_selector(b"family", rest) else {
        return Some((None, rest));
    };
    match parse_family(text) {
        Some(family) => Some((Some(family), others)),
        None => None,
    }
}

// Reads the first two selectors, and nothing after them.
pub(crate) fn peer_selectors(rest: &[u8]) -> Option<(Option<u32>, Option<PeerKey>)>
    ensures some { IfSome result (λ r. ArePeerSelectors r.0 r.1 (further_words rest.now)) }
    ensures only { IfSome result (λ r. (router : Option ℕ) (peer : Option KeyValue) → ArePeerSelectors router peer (further_words rest.now) → (router ≡ r.0) × (peer ≡ r.1)) }
    ensures none { IfNone result ((router : Option ℕ) (peer : Option KeyValue) → ArePeerSelectors router peer (further_words rest.now) → ⊥) }
{
    let Some((router, rest)) = take_router(rest) else {
        return None;
    };
    let Some((peer, behind)) = take_peer(rest) else {
        return None;
    };
    if behind.is_empty() {
        Some((router, peer))
    } else {
        None
    }
}

// Reads the four selectors, and nothing after them.
pub(crate) fn selectors(rest: &[u8]) -> Option<Select>
    ensures some { IfSome result (λ s. AreSelectors s (further_words rest.now)) }
    ensures only { IfSome result (λ s. (t : SelectValue) → AreSelectors t (further_words rest.now) → t ≡ s) }
    ensures none { IfNone result ((t : SelectValue) → AreSelectors t (further_words rest.now) → ⊥) }
{
    let Some((router, rest)) = take_router(rest) else {
        return None;
    };
    let Some((peer, rest)) = take_peer(rest) else {
        return None;
    };
    let Some((view, rest)) = take_view(rest) else {
        return None;
    };
    let Some((family, left)) = take_family(rest) else {
        return None;
    };
    if left.is_empty() {
        Some(Select {
            router,
            peer,
            view,
            family,
        })
    } else {
        None
    }
}
