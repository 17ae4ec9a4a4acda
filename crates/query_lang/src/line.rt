ghost use Rattle.std.specs.Prelude.{◌≡◌, IfSome, IfNone, IsSomeAnd};
ghost use Rattle.ask_specs.specs.Asking.{AskValue, plain};
ghost use Rattle.ask_specs.specs.Offer.{IsOfferedAsk};
ghost use Rattle.bmp_specs.specs.Query.{QueryValue, IsQuery};
ghost use Rattle.query_lang.specs.Asks.{ask_value};
ghost use Rattle.query_lang.specs.Queries.{query_value};

use crate::ask::Ask;
use crate::forms::read_form;
use crate::further::asked_behind;
use crate::query::Query;
use crate::verb::Verb;
use crate::words::{split_word, take_first};

/// Reads a line, without its end: words with one space between two of them, which are a query in our own
/// form, with each selector at most once and in their order. A line is one query at most. None exactly
/// where the line is no query.
pub fn parse(line: &[u8]) -> Option<Query>
    ensures some { IfSome result (λ q. IsQuery line.now (query_value q)) }
    ensures only { IfSome result (λ q. (v : QueryValue) → IsQuery line.now v → v ≡ query_value q) }
    ensures none { IfNone result ((v : QueryValue) → IsQuery line.now v → ⊥) }
{
    let (word, rest) = split_word(line);
    match Verb::parse(word) {
        Some(verb) => read_form(verb, rest),
        None => None,
    }
}

/// Reads a line, without its end, as what it asks for: a query, as `parse` reads it, or a query for rows with
/// `steps` or `full` in front of it or selectors of path attributes behind it, or the changes on a lane, all of
/// them or with `full` in front, or `marks` or `routers` with `full` in front. A line asks one thing at most. None
/// exactly where the line asks nothing.
pub fn parse_ask(line: &[u8]) -> Option<Ask>
    ensures some { IfSome result (λ a. IsOfferedAsk line.now (ask_value a)) }
    ensures only { IfSome result (λ a. (v : AskValue) → IsOfferedAsk line.now v → v ≡ ask_value a) }
    ensures none { IfNone result ((v : AskValue) → IsOfferedAsk line.now v → ⊥) }
    ensures keeps { (v : QueryValue) → IsQuery line.now v → IsSomeAnd result (λ a. ask_value a ≡ plain v) }
{
    if let Some(query) = parse(line) {
        return Some(Ask::Query(query));
    }
    let (steps, text) = take_first(b"steps", line);
    let (full, text) = take_first(b"full", text);
    asked_behind(steps, full, text)
}
