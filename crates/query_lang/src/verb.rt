ghost use Rattle.std.specs.Prelude.{◌≡◌, ◌↔◌, IsTrue, IfSome, IfNone};
ghost use Rattle.query_lang.specs.Verbs.{IsNoLook, IsNoPeerWord, IsNoneOfTheRest, verb_text};
ghost use Rattle.query_lang.specs.declared.verb.Verb.{Verb};

/// The first word of a query, which says what is asked.
#[derive(Clone, Copy)]
pub(crate) enum Verb {
    Routers,
    Cut,
    Peers,
    Marks,
    Table,
    Count,
    Prefix,
    Match,
    Within,
    Origin,
    Stats,
    Changes,
    Quit,
}

impl Verb {
    // The verb that the word is. None exactly where it is none of the thirteen.
    pub(crate) fn parse(word: &[u8]) -> Option<Verb>
        ensures some { IfSome result (λ v. word.now ≡ verb_text v) }
        ensures none { IfNone result ((v : Verb) → word.now ≡ verb_text v → ⊥) }
    {
        if let Some(verb) = of_peers_and_tables(word) {
            return Some(verb);
        }
        if let Some(verb) = of_looks(word) {
            return Some(verb);
        }
        if let Some(verb) = of_the_rest(word) {
            return Some(verb);
        }
        None
    }
}

// The words that ask for what stands in peers and tables.
fn of_peers_and_tables(word: &[u8]) -> Option<Verb>
    ensures some { IfSome result (λ v. word.now ≡ verb_text v) }
    ensures none { IfNone result (IsNoPeerWord word.now) }
{
    match word {
        b"routers" => Some(Verb::Routers),
        b"cut" => Some(Verb::Cut),
        b"peers" => Some(Verb::Peers),
        b"marks" => Some(Verb::Marks),
        b"table" => Some(Verb::Table),
        _ => None,
    }
}

// The words that look for prefixes, and the one that counts.
fn of_looks(word: &[u8]) -> Option<Verb>
    ensures some { IfSome result (λ v. word.now ≡ verb_text v) }
    ensures none { IfNone result (IsNoLook word.now) }
{
    match word {
        b"count" => Some(Verb::Count),
        b"prefix" => Some(Verb::Prefix),
        b"match" => Some(Verb::Match),
        b"within" => Some(Verb::Within),
        _ => None,
    }
}

// The other words.
fn of_the_rest(word: &[u8]) -> Option<Verb>
    ensures some { IfSome result (λ v. word.now ≡ verb_text v) }
    ensures none { IfNone result (IsNoneOfTheRest word.now) }
{
    match word {
        b"origin" => Some(Verb::Origin),
        b"stats" => Some(Verb::Stats),
        b"changes" => Some(Verb::Changes),
        b"quit" => Some(Verb::Quit),
        _ => None,
    }
}
