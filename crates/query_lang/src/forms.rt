ghost use Rattle.std.specs.Prelude.{◌≡◌, ℕ, List, [], ◌∷◌, codes, IfSome, IfNone};
ghost use Rattle.bmp_specs.specs.AddressText.{IsAddressText};
ghost use Rattle.bmp_specs.specs.NumberText.{IsNumberText};
ghost use Rattle.bmp_specs.specs.PrefixText.{IsPrefixText};
ghost use Rattle.bmp_specs.specs.Query.{QueryValue, AreQueryWords, IsSought, IsStatsQuery, IsChangesQuery};
ghost use Rattle.bmp_specs.specs.Selection.{SelectValue};
ghost use Rattle.bmp_specs.specs.Values.{AddressValue, KeyValue, PrefixValue};
ghost use Rattle.query_lang.specs.Queries.{query_value};
ghost use Rattle.query_lang.specs.Reading.{further_words};
ghost use Rattle.query_lang.specs.Verbs.{verb_text};

use crate::query::Query;
use crate::select::Select;
use crate::selectors::{peer_selectors, selectors};
use crate::verb::Verb;
use crate::words::next_word;
use bmp_frames::{PeerKey, parse_key};
use ip_prefix::{Addr, Prefix, parse_addr, parse_number, parse_number_up_to, parse_prefix};

// Reads a prefix and selectors.
fn sought_prefix(rest: &[u8]) -> Option<(Prefix, Select)>
    ensures some { IfSome result (λ r. (word : List ℕ) → IsSought word IsPrefixText r.0 r.1 (word ∷ further_words rest.now)) }
    ensures only { IfSome result (λ r. (word : List ℕ) (p : PrefixValue) (s : SelectValue) → IsSought word IsPrefixText p s (word ∷ further_words rest.now) → (p ≡ r.0) × (s ≡ r.1)) }
    ensures none { IfNone result ((word : List ℕ) (p : PrefixValue) (s : SelectValue) → IsSought word IsPrefixText p s (word ∷ further_words rest.now) → ⊥) }
{
    let Some((text, rest)) = next_word(rest) else {
        return None;
    };
    let Some(prefix) = parse_prefix(text) else {
        return None;
    };
    match selectors(rest) {
        Some(select) => Some((prefix, select)),
        None => None,
    }
}

// Reads an address and selectors.
fn sought_address(rest: &[u8]) -> Option<(Addr, Select)>
    ensures some { IfSome result (λ r. (word : List ℕ) → IsSought word IsAddressText r.0 r.1 (word ∷ further_words rest.now)) }
    ensures only { IfSome result (λ r. (word : List ℕ) (a : AddressValue) (s : SelectValue) → IsSought word IsAddressText a s (word ∷ further_words rest.now) → (a ≡ r.0) × (s ≡ r.1)) }
    ensures none { IfNone result ((word : List ℕ) (a : AddressValue) (s : SelectValue) → IsSought word IsAddressText a s (word ∷ further_words rest.now) → ⊥) }
{
    let Some((text, rest)) = next_word(rest) else {
        return None;
    };
    let Some(address) = parse_addr(text) else {
        return None;
    };
    match selectors(rest) {
        Some(select) => Some((address, select)),
        None => None,
    }
}

// Reads a number and selectors.
fn sought_number(rest: &[u8]) -> Option<(u32, Select)>
    ensures some { IfSome result (λ r. (word : List ℕ) → IsSought word IsNumberText r.0 r.1 (word ∷ further_words rest.now)) }
    ensures only { IfSome result (λ r. (word : List ℕ) (n : ℕ) (s : SelectValue) → IsSought word IsNumberText n s (word ∷ further_words rest.now) → (n ≡ r.0) × (s ≡ r.1)) }
    ensures none { IfNone result ((word : List ℕ) (n : ℕ) (s : SelectValue) → IsSought word IsNumberText n s (word ∷ further_words rest.now) → ⊥) }
{
    let Some((text, rest)) = next_word(rest) else {
        return None;
    };
    let Some(number) = parse_number(text) else {
        return None;
    };
    match selectors(rest) {
        Some(select) => Some((number, select)),
        None => None,
    }
}

// Reads a peer, and nothing after it.
fn only_peer(rest: &[u8]) -> Option<PeerKey>
    ensures some { IfSome result (λ key. IsStatsQuery key (codes "stats" ∷ further_words rest.now)) }
    ensures only { IfSome result (λ key. (k : KeyValue) → IsStatsQuery k (codes "stats" ∷ further_words rest.now) → k ≡ key) }
    ensures none { IfNone result ((k : KeyValue) → IsStatsQuery k (codes "stats" ∷ further_words rest.now) → ⊥) }
{
    let Some((text, behind)) = next_word(rest) else {
        return None;
    };
    if behind.is_empty() {
        parse_key(text)
    } else {
        None
    }
}

// Reads a lane, the number of a step and a prefix, and nothing after them.
fn lane_step_and_prefix(rest: &[u8]) -> Option<(u32, u64, Prefix)>
    ensures some { IfSome result (λ r. IsChangesQuery r.0 r.1 r.2 (codes "changes" ∷ further_words rest.now)) }
    ensures only { IfSome result (λ r. (lane from : ℕ) (p : PrefixValue) → IsChangesQuery lane from p (codes "changes" ∷ further_words rest.now)
        → (lane ≡ r.0) × (from ≡ r.1) × (p ≡ r.2)) }
    ensures none { IfNone result ((lane from : ℕ) (p : PrefixValue) → IsChangesQuery lane from p (codes "changes" ∷ further_words rest.now) → ⊥) }
{
    let Some((lane, rest)) = next_word(rest) else {
        return None;
    };
    let Some((from, rest)) = next_word(rest) else {
        return None;
    };
    let Some((prefix, behind)) = next_word(rest) else {
        return None;
    };
    if !behind.is_empty() {
        return None;
    }
    let Some(lane) = parse_number(lane) else {
        return None;
    };
    let Some(from) = parse_number_up_to(from, u64::MAX) else {
        return None;
    };
    match parse_prefix(prefix) {
        Some(prefix) => Some((lane, from, prefix)),
        None => None,
    }
}

// Reads what follows the first word of a query. None exactly where the words are no query.
pub(crate) fn read_form(verb: Verb, rest: &[u8]) -> Option<Query>
    ensures some { IfSome result (λ q. AreQueryWords (query_value q) (verb_text verb ∷ further_words rest.now)) }
    ensures only { IfSome result (λ q. (v : QueryValue) → AreQueryWords v (verb_text verb ∷ further_words rest.now) → v ≡ query_value q) }
    ensures none { IfNone result ((v : QueryValue) → AreQueryWords v (verb_text verb ∷ further_words rest.now) → ⊥) }
{
    match verb {
        Verb::Routers => {
            if rest.is_empty() {
                Some(Query::Routers)
            } else {
                None
            }
        }
        Verb::Cut => {
            if rest.is_empty() {
                Some(Query::Cut)
            } else {
                None
            }
        }
        Verb::Peers => match peer_selectors(rest) {
            Some((router, peer)) => Some(Query::Peers { router, peer }),
            None => None,
        },
        Verb::Marks => match selectors(rest) {
            Some(select) => Some(Query::Marks(select)),
            None => None,
        },
        Verb::Table => match selectors(rest) {
            Some(select) => Some(Query::Table(select)),
            None => None,
        },
        Verb::Count => match selectors(rest) {
            Some(select) => Some(Query::Count(select)),
            None => None,
        },
        Verb::Prefix => match sought_prefix(rest) {
            Some((prefix, select)) => Some(Query::Exact(prefix, select)),
            None => None,
        },
        Verb::Match => match sought_address(rest) {
            Some((address, select)) => Some(Query::Longest(address, select)),
            None => None,
        },
        Verb::Within => match sought_prefix(rest) {
            Some((prefix, select)) => Some(Query::Within(prefix, select)),
            None => None,
        },
        Verb::Origin => match sought_number(rest) {
            Some((number, select)) => Some(Query::Origin(number, select)),
            None => None,
        },
        Verb::Stats => match only_peer(rest) {
            Some(key) => Some(Query::Stats(key)),
            None => None,
        },
        Verb::Changes => match lane_step_and_prefix(rest) {
            Some((lane, from, prefix)) => Some(Query::Changes { lane, from, prefix }),
            None => None,
        },
        Verb::Quit => {
            if rest.is_empty() {
                Some(Query::Quit)
            } else {
                None
            }
        }
    }
}
