ghost use Rattle.std.specs.Prelude.{◌≡◌, ℕ, ◌∷◌, Option, codes, true, IfSome, IfNone};
ghost use Rattle.ask_specs.specs.Asking.{AskValue, AsksForRows, IsPrefixWord, TellsRows, full_marks, rows};
ghost use Rattle.ask_specs.specs.Traits.{TraitsValue};
ghost use Rattle.bmp_specs.specs.Query.{QueryValue, marks};
ghost use Rattle.bmp_specs.specs.Selection.{SelectValue};
ghost use Rattle.bmp_specs.specs.Values.{PrefixValue};
ghost use Rattle.query_lang.specs.Asks.{ask_value};
ghost use Rattle.query_lang.specs.Queries.{query_value};
ghost use Rattle.query_lang.specs.Reading.{words_of, further_words, AreChangesWords, AsksBehind, AsksWith};
ghost use Rattle.query_lang.specs.TraitValues.{traits_value};

use crate::ask::{Ask, RowsAsk, rows_of};
use crate::line::parse;
use crate::query::Query;
use crate::select::Select;
use crate::trait_words::take_traits;
use crate::traits::Traits;
use crate::words::{next_word, split_word};
use ip_prefix::{Prefix, parse_number, parse_number_up_to, parse_prefix};

// Reads a query, with selectors of path attributes behind it or none.
pub(crate) fn query_with(text: &[u8]) -> Option<(Query, Traits)>
    ensures some { IfSome result (λ r. AsksForRows (query_value r.0) → AsksWith (query_value r.0) (traits_value r.1) (words_of text.now)) }
    ensures only { IfSome result (λ r. (v : QueryValue) (t : TraitsValue) → AsksWith v t (words_of text.now) → (v ≡ query_value r.0) × (t ≡ traits_value r.1)) }
    ensures none { IfNone result ((v : QueryValue) (t : TraitsValue) → AsksWith v t (words_of text.now) → ⊥) }
{
    let Some((traits, front)) = take_traits(text) else {
        return None;
    };
    match parse(front) {
        Some(query) => Some((query, traits)),
        None => None,
    }
}

// What is asked by a query for rows, with selectors of path attributes behind it or none, behind `steps` and `full`.
// None exactly where it asks for no rows, or for their number behind one of these words.
fn asked_rows(steps: bool, full: bool, query: &Query, traits: Traits) -> Option<Ask>
    ensures some { IfSome result (λ a. (ask_value a ≡ rows steps full (query_value query.now) (traits_value traits)) × AsksForRows (query_value query.now) × (steps ≡ true → TellsRows (query_value query.now)) × (full ≡ true → TellsRows (query_value query.now))) }
    ensures none { IfNone result (AsksForRows (query_value query.now) → (steps ≡ true → TellsRows (query_value query.now)) → (full ≡ true → TellsRows (query_value query.now)) → ⊥) }
{
    match query {
        Query::Count(select) => {
            if steps || full {
                None
            } else {
                Some(Ask::Count(*select, traits))
            }
        }
        _ => match rows_of(query) {
            Some(query) => Some(Ask::Rows(RowsAsk {
                steps,
                full,
                query,
                traits,
            })),
            None => None,
        },
    }
}

// Reads a prefix and nothing after it, or nothing.
fn prefix_or_end(rest: &[u8]) -> Option<Option<Prefix>>
    ensures some { IfSome result (λ p. IsPrefixWord p (further_words rest.now)) }
    ensures none { IfNone result ((p : Option PrefixValue) → IsPrefixWord p (further_words rest.now) → ⊥) }
{
    let Some((text, behind)) = next_word(rest) else {
        return Some(None);
    };
    if !behind.is_empty() {
        return None;
    }
    match parse_prefix(text) {
        Some(prefix) => Some(Some(prefix)),
        None => None,
    }
}

// Reads a lane, the number of a step, and a prefix or none, behind `changes`.
fn lane_and_step(rest: &[u8]) -> Option<(u32, u64, Option<Prefix>)>
    ensures some { IfSome result (λ r. AreChangesWords r.0 r.1 r.2 (codes "changes" ∷ further_words rest.now)) }
    ensures none { IfNone result ((lane from : ℕ) (p : Option PrefixValue) → AreChangesWords lane from p (codes "changes" ∷ further_words rest.now) → ⊥) }
{
    let Some((lane, rest)) = next_word(rest) else {
        return None;
    };
    let Some((from, rest)) = next_word(rest) else {
        return None;
    };
    let Some(prefix) = prefix_or_end(rest) else {
        return None;
    };
    let Some(lane) = parse_number(lane) else {
        return None;
    };
    match parse_number_up_to(from, u64::MAX) {
        Some(from) => Some((lane, from, prefix)),
        None => None,
    }
}

// Reads what stands behind `changes`, which has `full` in front of it or not, and no `steps`.
fn asked_changes(steps: bool, full: bool, rest: &[u8]) -> Option<Ask>
    ensures some { IfSome result (λ a. AsksBehind steps full (codes "changes" ∷ further_words rest.now) (ask_value a)) }
    ensures none { IfNone result ((v : AskValue) → AsksBehind steps full (codes "changes" ∷ further_words rest.now) v → ⊥) }
{
    if steps {
        return None;
    }
    match lane_and_step(rest) {
        Some((lane, from, prefix)) => Some(Ask::Changes {
            full,
            lane,
            from,
            prefix,
        }),
        None => None,
    }
}

// The selectors of `marks`. None exactly where it is another query.
fn marks_of(query: &Query) -> Option<Select>
    ensures some { IfSome result (λ select. query_value query.now ≡ marks select) }
    ensures none { IfNone result ((v : SelectValue) → query_value query.now ≡ marks v → ⊥) }
{
    match query {
        Query::Marks(select) => Some(*select),
        _ => None,
    }
}

// Reads `marks` and its selectors, which has `full` in front of it, and no `steps`.
fn asked_marks(steps: bool, full: bool, text: &[u8]) -> Option<Ask>
    ensures some { IfSome result (λ a. AsksBehind steps full (words_of text.now) (ask_value a)) }
    ensures none { IfNone result ((v : SelectValue) → AsksBehind steps full (words_of text.now) (full_marks v) → ⊥) }
{
    if steps || !full {
        return None;
    }
    let Some(query) = parse(text) else {
        return None;
    };
    match marks_of(&query) {
        Some(select) => Some(Ask::FullMarks(select)),
        None => None,
    }
}

// Reads nothing behind `routers`, which has `full` in front of it, and no `steps`.
fn asked_routers(steps: bool, full: bool, rest: &[u8]) -> Option<Ask>
    ensures some { IfSome result (λ a. AsksBehind steps full (codes "routers" ∷ further_words rest.now) (ask_value a)) }
    ensures none { IfNone result ((v : AskValue) → AsksBehind steps full (codes "routers" ∷ further_words rest.now) v → ⊥) }
{
    if steps || !full || !rest.is_empty() {
        return None;
    }
    Some(Ask::FullRouters)
}

// Reads what stands behind `steps` and `full`, or behind none of them.
pub(crate) fn asked_behind(steps: bool, full: bool, text: &[u8]) -> Option<Ask>
    ensures some { IfSome result (λ a. AsksBehind steps full (words_of text.now) (ask_value a)) }
    ensures none { IfNone result ((v : AskValue) → AsksBehind steps full (words_of text.now) v → ⊥) }
{
    let (word, rest) = split_word(text);
    if word == b"changes".as_slice() {
        return asked_changes(steps, full, rest);
    }
    if word == b"marks".as_slice() {
        return asked_marks(steps, full, text);
    }
    if word == b"routers".as_slice() {
        return asked_routers(steps, full, rest);
    }
    match query_with(text) {
        Some((query, traits)) => asked_rows(steps, full, &query, traits),
        None => None,
    }
}
