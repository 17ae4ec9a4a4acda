//! Why words are no command, for whoever wrote them.
//!
//! `why_no_command` is asked where `read_words` found no command. It takes the words apart once more, from the left, and
//! names the first of them that can't stand where it does. What it says decides nothing: `read_words` does.

ghost use Rattle.std.specs.Prelude.{◌≡◌, ◌↔◌, ◌+◌, ◌≤◌, ◌⊎◌, [], ◌∷◌, ℕ, List, IsTrue, IfSome, IfNone, codes, length, map};
ghost use Rattle.std.specs.String.{string_bytes};
ghost use Rattle.station_words.specs.Complaints.{AreAsked, AreCall, AreFrontWords, Complains, IsBestBeginning, IsTextName, JoinWords, JoinsWords};
ghost use Rattle.station_words.specs.Words.{IsCall};
ghost use Rattle.station_words.specs.declared.words.Call.{Call as AnyCall};

use crate::serve_options::{ServeOption, is_number, words_complaint};
use crate::serve_ports::ports_complaint;
use crate::words::{
    WordsFault, first_of, is_word, read_asked, read_prefix, split_lenient, with_reply,
};
use query_lang::parse_ask;
use std::alloc::Global;

/// Why words are no command.
#[derive(Clone, Copy)]
pub enum Complaint<'a> {
    /// There are none, or one of them is no text.
    NoWords,

    /// The first is no command.
    NoCommand(&'a str),

    /// These are no query: the first `good` of them are one, or are those alone that stand in front of one (`steps`, `full` or
    /// both), and no longer beginning is.
    NoQuery {
        asked: &'a [String],
        good: usize,
    },

    /// `quit` has no reply.
    Quit,

    /// After the command must stand what it needs.
    Needs {
        command: &'a str,
        needs: &'static str,
    },

    /// The command has no place for this word.
    Extra {
        command: &'a str,
        word: &'a str,
    },

    /// The word isn't of this form.
    NotA {
        word: &'a str,
        wanted: &'static str,
    },

    /// No option of `serve` has this name.
    NoOption(&'a str),

    /// After the option of `serve` stands no value.
    NoValue(ServeOption),

    /// The option is given twice.
    Twice(ServeOption),

    /// The flag has a value.
    HasValue(&'a str),

    /// The option has a value of another form than it takes.
    BadValue {
        option: ServeOption,
        value: &'a str,
    },

    /// So many ports from this one on go past the last.
    PastEnd {
        option: ServeOption,
        first: u32,
        count: u32,
    },

    /// Routers and clients have a port in common.
    Meet {
        feed: u32,
        feeds: u32,
        ask: u32,
        askers: u32,
    },
}

// Whether the words are `steps`, `full` or both, behind which a query can stand.
fn are_front_words(words: &[String]) -> bool
    ensures { IsTrue result ↔ AreFrontWords (map string_bytes words.now) }
{
    match words {
        [word] => is_word(word.as_str(), "steps") || is_word(word.as_str(), "full"),
        [first, second] => is_word(first.as_str(), "steps") && is_word(second.as_str(), "full"),
        _ => false,
    }
}

// So many words, where the first of these are a query that has a reply, or those alone that stand in front of one, or else as
// many as before: the most of those seen. None where memory is wanting.
fn more_good(alloc: Global, asked: &[String], good: usize, count: usize) -> Option<usize>
    requires within { count ≤ length asked.now }
    requires best { IsBestBeginning good count (map string_bytes asked.now) }
    ensures { IfSome result (λ more. IsBestBeginning more (count + 1) (map string_bytes asked.now)) }
{
    let beginning = &asked[..count];
    if are_front_words(beginning) {
        return Some(count);
    }
    match read_asked(alloc, beginning) {
        Ok(_) => Some(count),
        Err(WordsFault::Usage) => Some(good),
        Err(WordsFault::NoMemory) => None,
    }
}

// How many of the first words are a query that has a reply, or those alone that stand in front of one: the most that are so, and
// not all. 0 where none are. None where memory is wanting.
fn good_words(alloc: Global, asked: &[String]) -> Option<usize>
    ensures { IfSome result (λ good. IsBestBeginning good (length asked.now) (map string_bytes asked.now)) }
{
    let mut good = 0;
    for count in 0..asked.len() {
        good = more_good(alloc, asked, good, count)?;
    }
    Some(good)
}

// Why the words that are asked are no query with a reply. None where they are one, or where memory is wanting.
fn query_complaint<'a>(alloc: Global, asked: &'a [String]) -> Option<Complaint<'a>>
    ensures { (words : List (List ℕ)) → AreAsked (map string_bytes asked.now) words → IfSome result (λ complaint. Complains complaint words) }
{
    let Ok(line) = asked.join(alloc, " ") else {
        return None;
    };
    match parse_ask(line.as_bytes()) {
        Some(ask) => match with_reply(ask) {
            Some(_) => None,
            None => Some(Complaint::Quit),
        },
        None => match good_words(alloc, asked) {
            Some(good) => Some(Complaint::NoQuery { asked, good }),
            None => None,
        },
    }
}

fn replay_complaint<'a>(alloc: Global, given: &'a [String]) -> Option<Complaint<'a>>
    ensures { IfSome result (λ complaint. Complains complaint (codes "replay" ∷ map string_bytes given.now)) }
{
    let (_, asked) = split_lenient(given);
    if asked.is_empty() {
        return Some(Complaint::Needs {
            command: "replay",
            needs: "a query",
        });
    }
    query_complaint(alloc, asked)
}

fn recall_complaint<'a>(alloc: Global, given: &'a [String]) -> Option<Complaint<'a>>
    ensures { IfSome result (λ complaint. Complains complaint (codes "recall" ∷ map string_bytes given.now)) }
{
    let (_, plain) = split_lenient(given);
    let Some((_, asked)) = first_of(plain) else {
        return Some(Complaint::Needs {
            command: "recall",
            needs: "a file and a query",
        });
    };
    if asked.is_empty() {
        return Some(Complaint::Needs {
            command: "recall",
            needs: "a file and a query",
        });
    }
    query_complaint(alloc, asked)
}

fn check_complaint<'a>(given: &'a [String]) -> Option<Complaint<'a>>
    ensures some { IfSome result (λ complaint. Complains complaint (codes "check" ∷ map string_bytes given.now)) }
    ensures none { IfNone result (AreCall (codes "check" ∷ map string_bytes given.now)) }
{
    let (_, plain) = split_lenient(given);
    match first_of(plain) {
        Some((word, _)) => Some(Complaint::Extra {
            command: "check",
            word,
        }),
        None => None,
    }
}

fn relay_complaint<'a>(given: &'a [String]) -> Option<Complaint<'a>>
    ensures some { IfSome result (λ complaint. Complains complaint (codes "relay" ∷ map string_bytes given.now)) }
    ensures none { IfNone result (AreCall (codes "relay" ∷ map string_bytes given.now)) }
{
    let (_, plain) = split_lenient(given);
    match first_of(plain) {
        Some((word, _)) => Some(Complaint::Extra {
            command: "relay",
            word,
        }),
        None => None,
    }
}

fn archive_complaint<'a>(given: &'a [String]) -> Option<Complaint<'a>>
    ensures some { IfSome result (λ complaint. Complains complaint (codes "archive" ∷ map string_bytes given.now)) }
    ensures none { IfNone result (AreCall (codes "archive" ∷ map string_bytes given.now)) }
{
    let (_, plain) = split_lenient(given);
    let Some((_, others)) = first_of(plain) else {
        return Some(Complaint::Needs {
            command: "archive",
            needs: "a file",
        });
    };
    match first_of(others) {
        Some((word, _)) => Some(Complaint::Extra {
            command: "archive",
            word,
        }),
        None => None,
    }
}

fn rov_complaint<'a>(given: &'a [String]) -> Option<Complaint<'a>>
    ensures some { IfSome result (λ complaint. Complains complaint (codes "rov" ∷ map string_bytes given.now)) }
    ensures none { IfNone result (AreCall (codes "rov" ∷ map string_bytes given.now)) }
{
    let (_, plain) = split_lenient(given);
    let Some((_, others)) = first_of(plain) else {
        return Some(Complaint::Needs {
            command: "rov",
            needs: "a file and a prefix",
        });
    };
    let Some((text, left)) = first_of(others) else {
        return Some(Complaint::Needs {
            command: "rov",
            needs: "a file and a prefix",
        });
    };
    let Some(_) = read_prefix(text) else {
        return Some(Complaint::NotA {
            word: text,
            wanted: "a prefix",
        });
    };
    match first_of(left) {
        Some((word, _)) => Some(Complaint::Extra {
            command: "rov",
            word,
        }),
        None => None,
    }
}

fn drill_complaint<'a>(given: &'a [String]) -> Option<Complaint<'a>>
    ensures some { IfSome result (λ complaint. Complains complaint (codes "drill" ∷ map string_bytes given.now)) }
    ensures none { IfNone result (AreCall (codes "drill" ∷ map string_bytes given.now)) }
{
    let Some((seed, after_seed)) = first_of(given) else {
        return Some(Complaint::Needs {
            command: "drill",
            needs: "SEED LANES MESSAGES, three numbers,",
        });
    };
    if !is_number(seed, 0, u32::MAX) {
        return Some(Complaint::NotA {
            word: seed,
            wanted: "a number",
        });
    }
    let Some((lanes, after_lanes)) = first_of(after_seed) else {
        return Some(Complaint::Needs {
            command: "drill",
            needs: "SEED LANES MESSAGES, three numbers,",
        });
    };
    if !is_number(lanes, 1, 16) {
        return Some(Complaint::NotA {
            word: lanes,
            wanted: "a number from 1 to 16",
        });
    }
    let Some((messages, after_messages)) = first_of(after_lanes) else {
        return Some(Complaint::Needs {
            command: "drill",
            needs: "SEED LANES MESSAGES, three numbers,",
        });
    };
    if !is_number(messages, 1, 100_000) {
        return Some(Complaint::NotA {
            word: messages,
            wanted: "a number from 1 to 100000",
        });
    }
    match first_of(after_messages) {
        Some((word, _)) => Some(Complaint::Extra {
            command: "drill",
            word,
        }),
        None => None,
    }
}

// After `--help` or `--version`.
fn lone_complaint<'a>(command: &'a str, given: &'a [String]) -> Option<Complaint<'a>>
    ensures some { IsTextName command.now → IfSome result (λ complaint. Complains complaint (command.now ∷ map string_bytes given.now)) }
    ensures none { IsTextName command.now → IfNone result (AreCall (command.now ∷ map string_bytes given.now)) }
{
    match first_of(given) {
        Some((word, _)) => Some(Complaint::Extra { command, word }),
        None => None,
    }
}

fn serve_complaint<'a>(given: &'a [String]) -> Option<Complaint<'a>>
    ensures some { IfSome result (λ complaint. Complains complaint (codes "serve" ∷ map string_bytes given.now)) }
    ensures none { IfNone result (AreCall (codes "serve" ∷ map string_bytes given.now)) }
{
    match words_complaint(given) {
        Some(complaint) => Some(complaint),
        None => ports_complaint(given),
    }
}

// Why a word and those after it are no command. None where no reason is found.
fn complaint_at<'a>(alloc: Global, first: &'a str, given: &'a [String]) -> Option<Complaint<'a>>
    ensures some { IfSome result (λ complaint. Complains complaint (first.now ∷ map string_bytes given.now)) }
    ensures none { IfNone result (AreCall (first.now ∷ map string_bytes given.now) ⊎ JoinsWords first.now) }
{
    match first {
        "replay" => replay_complaint(alloc, given),
        "check" => check_complaint(given),
        "serve" => serve_complaint(given),
        "drill" => drill_complaint(given),
        "relay" => relay_complaint(given),
        "rov" => rov_complaint(given),
        "archive" => archive_complaint(given),
        "recall" => recall_complaint(alloc, given),
        "--help" | "-h" | "--version" | "-V" => lone_complaint(first, given),
        _ => Some(Complaint::NoCommand(first)),
    }
}

/// Why the words are no command. None only where they are one, or where they begin with `replay` or `recall` and there was no
/// memory to join those that follow.
pub fn why_no_command<'a>(alloc: Global, words: &'a [String]) -> Option<Complaint<'a>>
    // What it says is so.
    ensures some { IfSome result (λ complaint. Complains complaint (map string_bytes words.now)) }

    // The words are no call.
    ensures none_read { IfSome result (λ complaint. (call : AnyCall) → IsCall call (map string_bytes words.now) → ⊥) }

    ensures none { IfNone result (AreCall (map string_bytes words.now) ⊎ JoinWords (map string_bytes words.now)) }
{
    match first_of(words) {
        Some((first, given)) => complaint_at(alloc, first, given),
        None => Some(Complaint::NoWords),
    }
}
