ghost use Rattle.std.specs.Prelude.{◌≡◌, ℕ, List, [], ◌∷◌, ◌++◌, ◌==◌, position, Contains, IfSome, IfNone, MatchOption};
ghost use Rattle.bmp_specs.specs.Query.{space};
ghost use Rattle.query_lang.specs.Reading.{words_of, further_words, CutsFirst, CutsLast, TakesFirst, Unended, Unnamed};

// Where the first space of a text is.
fn first_space(text: &[u8]) -> Option<usize>
    ensures { result ≡ position (λ b. b == space) text.now }
{
    text.iter().position(|byte| *byte == b' ')
}

// The first word of a text, and what follows it: nothing, or a space and more words.
pub(crate) fn split_word(text: &[u8]) -> (&[u8], &[u8])
    ensures { words_of text.now ≡ result.0.now ∷ further_words result.1.now }
{
    match first_space(text) {
        Some(at) => text.split_at(at),
        None => (text, b""),
    }
}

// The next word after another, and what follows it. None exactly where no word follows.
pub(crate) fn next_word(rest: &[u8]) -> Option<(&[u8], &[u8])>
    ensures { MatchOption result (further_words rest.now ≡ []) (λ next. further_words rest.now ≡ next.0.now ∷ further_words next.1.now) }
{
    match rest {
        [] => None,
        [_, text @ ..] => Some(split_word(text)),
    }
}

// The text after a selector's word, and what follows it. None exactly where the next word is another
// one, or has none after it.
pub(crate) fn take_selector<'a>(word: &[u8], rest: &'a [u8]) -> Option<(&'a [u8], &'a [u8])>
    ensures some { IfSome result (λ found. further_words rest.now ≡ word.now ∷ found.0.now ∷ further_words found.1.now) }
    ensures none { IfNone result (Unnamed word.now (further_words rest.now)) }
{
    let Some((first, behind)) = next_word(rest) else {
        return None;
    };
    if first != word {
        return None;
    }
    next_word(behind)
}

// Takes a word from the front of a text, where it stands there and another follows: whether it does, and what
// stands behind it, or the whole text.
pub(crate) fn take_first<'a>(word: &[u8], text: &'a [u8]) -> (bool, &'a [u8])
    ensures { TakesFirst word.now (words_of text.now) result.0 (words_of result.1.now) }
{
    let (first, behind) = split_word(text);
    if first != word {
        return (false, text);
    }
    match behind {
        [] => (false, text),
        [_, rest @ ..] => (true, rest),
    }
}

// What stands before the first such byte, and what stands after it.
pub(crate) fn cut_first(byte: u8, text: &[u8]) -> Option<(&[u8], &[u8])>
    ensures some { IfSome result (λ cut. CutsFirst byte text.now cut.0.now cut.1.now) }
    ensures none { IfNone result (Contains text.now byte → ⊥) }
{
    match text.iter().position(|b| *b == byte) {
        Some(at) => Some((&text[..at], &text[at + 1..])),
        None => None,
    }
}

// What stands before the last space, and what stands after it.
fn cut_last(text: &[u8]) -> Option<(&[u8], &[u8])>
    ensures some { IfSome result (λ cut. CutsLast space text.now cut.0.now cut.1.now) }
    ensures none { IfNone result (Contains text.now space → ⊥) }
{
    match text.iter().rposition(|b| *b == b' ') {
        Some(at) => Some((&text[..at], &text[at + 1..])),
        None => None,
    }
}

// The text of a selector at the end of a line, and the words before the selector. None exactly where the line
// ends with another word, or none stands before the selector.
pub(crate) fn take_last_selector<'a>(word: &[u8], text: &'a [u8]) -> Option<(&'a [u8], &'a [u8])>
    ensures some { IfSome result (λ found. words_of text.now ≡ words_of found.1.now ++ word.now ∷ found.0.now ∷ []) }
    ensures none { IfNone result (Unended word.now (words_of text.now)) }
{
    let Some((rest, value)) = cut_last(text) else {
        return None;
    };
    let Some((others, last)) = cut_last(rest) else {
        return None;
    };
    if last != word {
        return None;
    }
    Some((value, others))
}
