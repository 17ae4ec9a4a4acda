ghost use Rattle.std.specs.Prelude.{◌≡◌, ◌≢◌, ◌↔◌, ℕ, List, [], ◌∷◌, IsTrue, IfSome, IfNone, IfOk, Err, false, map, get_or, codes};
ghost use Rattle.std.specs.List.{join_with_byte};
ghost use Rattle.std.specs.String.{string_bytes};
ghost use Rattle.bmp_specs.specs.PrefixText.{IsPrefixText};
ghost use Rattle.ask_specs.specs.Asking.{AskValue};
ghost use Rattle.bmp_specs.specs.Query.{space};
ghost use Rattle.bmp_specs.specs.Values.{PrefixValue};
ghost use Rattle.query_lang.specs.Asks.{ask_value};
ghost use Rattle.station_words.specs.Reading.{IsLoneReading, IsPlainReading, IsReading};
ghost use Rattle.station_words.specs.Words.{AsksOf, IsAsking, IsCall, IsPlain, NamesFile, TakeMemory, file_in, session_end};
ghost use Rattle.station_words.specs.declared.words.Call.{Call as AnyCall};

use crate::drill_words::{DrillWords, read_drill};
use crate::serve_words::{ServeWords, read_serve};
use ip_prefix::{Prefix, parse_prefix};
use query_lang::{Ask, Query, parse_ask};
use std::alloc::Global;
use thiserror::Error;

/// What is asked for.
#[derive(Clone, Copy)]
pub enum Command {
    /// `replay` and a query other than `quit`, with the further words that are offered: its reply on what the input leaves.
    Replay(Ask),

    /// `check`: how many messages of each type the input has.
    Check,

    /// `serve`: routers and clients side by side.
    Serve(ServeWords),

    /// `drill`: lanes over streams that follow from a few numbers.
    Drill(DrillWords),

    /// `relay`: a BMP stream that rebuilds what the input leaves.
    Relay,

    /// `rov`, a file of validated ROA payloads (VRPs) and a prefix: what the VRPs say of each route within the prefix. The file
    /// stays a word of the call.
    Rov(Prefix),

    /// `archive` and a file: the input is kept in it. The file stays a word of the call.
    Archive,

    /// `recall`, a file and such a query: its reply on what the archive in the file keeps. The file stays a word of the call.
    Recall(Ask),

    /// `--help`: what the commands are.
    Help,

    /// `--version`: which version this is.
    Version,
}

/// What the words of a call ask for.
#[derive(Clone, Copy)]
pub struct Call {
    pub command: Command,

    /// Whether bodies are read leniently, as routers send them, or by the RFCs alone.
    pub lenient: bool,
}

/// Why the words give no command.
#[derive(Clone, Copy, Debug, PartialEq, Eq, Error)]
pub enum WordsFault {
    /// They are none.
    #[error("the words are no command")]
    Usage,

    /// There is no memory to join them.
    #[error("no memory to read the words")]
    NoMemory,
}

// Whether the word is this one.
pub(crate) fn is_word(word: &str, name: &str) -> bool
    ensures { IsTrue result ↔ (word.now ≡ name.now) }
{
    word == name
}

// The first of the words, and those after it.
pub(crate) fn first_of(words: &[String]) -> Option<(&str, &[String])>
    ensures some { IfSome result (λ parts. map string_bytes words.now ≡ parts.0.now ∷ map string_bytes parts.1.now) }
    ensures none { IfNone result (map string_bytes words.now ≡ []) }
{
    match words {
        [first, others @ ..] => Some((first.as_str(), others)),
        [] => None,
    }
}

// What is asked, where it has a reply.
pub(crate) fn with_reply(ask: Ask) -> Option<Ask>
    ensures some { IfSome result (λ a. (a ≡ ask) × (ask_value ask ≢ session_end)) }
    ensures none { IfNone result (ask_value ask ≡ session_end) }
{
    match ask {
        Ask::Query(Query::Quit) => None,
        _ => Some(ask),
    }
}

// What the line asks, where it has a reply. None where it asks no such thing.
fn read_ask(line: &[u8]) -> Option<Ask>
    ensures some { IfSome result (λ ask. IsAsking line.now (ask_value ask)) }
    ensures none { IfNone result ((ask : AskValue) → IsAsking line.now ask → ⊥) }
{
    match parse_ask(line) {
        Some(ask) => with_reply(ask),
        None => None,
    }
}

// The same of the words, joined by single spaces.
pub(crate) fn read_asked(alloc: Global, words: &[String]) -> Result<Ask, WordsFault>
    ensures ok { IfOk result (λ ask. IsAsking (join_with_byte space (map string_bytes words.now)) (ask_value ask)) }
    ensures usage { result ≡ Err WordsFault.Usage → (ask : AskValue) → IsAsking (join_with_byte space (map string_bytes words.now)) ask → ⊥ }
{
    match words.join(alloc, " ") {
        Ok(line) => match read_ask(line.as_bytes()) {
            Some(ask) => Ok(ask),
            None => Err(WordsFault::Usage),
        },
        Err(_) => Err(WordsFault::NoMemory),
    }
}

// Whether `--lenient` stands in front of the words, and the words without it.
pub(crate) fn split_lenient(given: &[String]) -> (bool, &[String])
    ensures { IsPlain result.0 (map string_bytes given.now) (map string_bytes result.1.now) }
{
    match given {
        [word, plain @ ..] if is_word(word.as_str(), "--lenient") => (true, plain),
        _ => (false, given),
    }
}

// The call of `replay` and these words.
fn read_replay(alloc: Global, given: &[String]) -> Result<Call, WordsFault>
    ensures { IsReading (codes "replay") (map string_bytes given.now) result }
{
    let (lenient, asked) = split_lenient(given);
    match read_asked(alloc, asked) {
        Ok(ask) => Ok(Call {
            command: Command::Replay(ask),
            lenient,
        }),
        Err(fault) => Err(fault),
    }
}

// The call of this command, which is `check` or `relay`, and these words: none, or `--lenient` alone.
fn read_plain(command: Command, given: &[String]) -> Result<Call, WordsFault>
    ensures { IsPlainReading command (map string_bytes given.now) result }
{
    let (lenient, plain) = split_lenient(given);
    if plain.is_empty() {
        Ok(Call { command, lenient })
    } else {
        Err(WordsFault::Usage)
    }
}

// The call of this command, which is `--help` or `--version`, and no words.
fn read_lone(command: Command, given: &[String]) -> Result<Call, WordsFault>
    ensures { IsLoneReading command (map string_bytes given.now) result }
{
    if given.is_empty() {
        Ok(Call {
            command,
            lenient: false,
        })
    } else {
        Err(WordsFault::Usage)
    }
}

// The prefix that a word is.
pub(crate) fn read_prefix(word: &str) -> Option<Prefix>
    ensures some { IfSome result (λ prefix. IsPrefixText word.now prefix) }
    ensures none { IfNone result ((prefix : PrefixValue) → IsPrefixText word.now prefix → ⊥) }
{
    parse_prefix(word.as_bytes())
}

// The prefix after the file, where the words are these two.
fn read_judged(words: &[String]) -> Option<Prefix>
    ensures some { IfSome result (λ prefix. (file : List ℕ) × NamesFile file prefix (map string_bytes words.now)) }
    ensures none { IfNone result ((file : List ℕ) (prefix : PrefixValue) → NamesFile file prefix (map string_bytes words.now) → ⊥) }
{
    match words {
        [_, prefix] => read_prefix(prefix.as_str()),
        _ => None,
    }
}

// The call of `rov` and these words.
fn read_rov(given: &[String]) -> Result<Call, WordsFault>
    ensures { IsReading (codes "rov") (map string_bytes given.now) result }
{
    let (lenient, asked) = split_lenient(given);
    match read_judged(asked) {
        Some(prefix) => Ok(Call {
            command: Command::Rov(prefix),
            lenient,
        }),
        None => Err(WordsFault::Usage),
    }
}

// The call of `archive` and these words: a file alone, or `--lenient` and a file.
fn read_archive(given: &[String]) -> Result<Call, WordsFault>
    ensures { IsReading (codes "archive") (map string_bytes given.now) result }
{
    let (lenient, asked) = split_lenient(given);
    if asked.len() == 1 {
        Ok(Call {
            command: Command::Archive,
            lenient,
        })
    } else {
        Err(WordsFault::Usage)
    }
}

// What is asked after the file, where the words are a file and those of a query.
fn read_kept(alloc: Global, words: &[String]) -> Result<Ask, WordsFault>
    ensures ok { IfOk result (λ ask. (file : List ℕ) × AsksOf file (ask_value ask) (map string_bytes words.now)) }
    ensures usage { result ≡ Err WordsFault.Usage → (file : List ℕ) (ask : AskValue) → AsksOf file ask (map string_bytes words.now) → ⊥ }
{
    match words {
        [_, asked @ ..] => read_asked(alloc, asked),
        [] => Err(WordsFault::Usage),
    }
}

// The call of `recall` and these words.
fn read_recall(alloc: Global, given: &[String]) -> Result<Call, WordsFault>
    ensures { IsReading (codes "recall") (map string_bytes given.now) result }
{
    let (lenient, asked) = split_lenient(given);
    match read_kept(alloc, asked) {
        Ok(ask) => Ok(Call {
            command: Command::Recall(ask),
            lenient,
        }),
        Err(fault) => Err(fault),
    }
}

// The call of `serve` and these words.
fn read_served(alloc: Global, given: &[String]) -> Result<Call, WordsFault>
    ensures { IsReading (codes "serve") (map string_bytes given.now) result }
{
    match read_serve(alloc, given) {
        Ok((serve, lenient)) => Ok(Call {
            command: Command::Serve(serve),
            lenient,
        }),
        Err(fault) => Err(fault),
    }
}

// The call of `drill` and these words.
fn read_drilled(given: &[String]) -> Result<Call, WordsFault>
    ensures { IsReading (codes "drill") (map string_bytes given.now) result }
{
    match read_drill(given) {
        Some(drill) => Ok(Call {
            command: Command::Drill(drill),
            lenient: false,
        }),
        None => Err(WordsFault::Usage),
    }
}

// The call that a word and those after it are.
fn read_call(alloc: Global, first: &str, given: &[String]) -> Result<Call, WordsFault>
    ensures { IsReading first.now (map string_bytes given.now) result }
{
    match first {
        "replay" => read_replay(alloc, given),
        "check" => read_plain(Command::Check, given),
        "serve" => read_served(alloc, given),
        "drill" => read_drilled(given),
        "relay" => read_plain(Command::Relay, given),
        "rov" => read_rov(given),
        "archive" => read_archive(given),
        "recall" => read_recall(alloc, given),
        "--help" | "-h" => read_lone(Command::Help, given),
        "--version" | "-V" => read_lone(Command::Version, given),
        _ => Err(WordsFault::Usage),
    }
}

/// What the words of a call ask for, which don't hold the program's name. `Usage` exactly where they are no command;
/// after `NoMemory` they begin with `replay`, `serve` or `recall`, which may take memory to read.
pub fn read_words(alloc: Global, words: &[String]) -> Result<Call, WordsFault>
    // The call is the one that the words are.
    ensures ok { IfOk result (λ call. IsCall call (map string_bytes words.now)) }

    // They are no command.
    ensures usage { result ≡ Err WordsFault.Usage → (call : AnyCall) → IsCall call (map string_bytes words.now) → ⊥ }

    ensures memory { result ≡ Err WordsFault.NoMemory → TakeMemory (map string_bytes words.now) }
{
    match words {
        [first, given @ ..] => read_call(alloc, first.as_str(), given),
        [] => Err(WordsFault::Usage),
    }
}

/// The words behind `--check-options`, where it is the first of the words: of those it is asked whether they are a command. No
/// command begins with it.
pub fn behind_check(words: &[String]) -> Option<&[String]>
    ensures some { IfSome result (λ others. map string_bytes words.now ≡ codes "--check-options" ∷ map string_bytes others.now) }
    ensures none { IfNone result ((others : List (List ℕ)) → map string_bytes words.now ≡ codes "--check-options" ∷ others → ⊥) }
{
    match first_of(words) {
        Some((first, others)) => if is_word(first, "--check-options") {
            Some(others)
        } else {
            None
        },
        None => None,
    }
}

// The word at this place; empty where there is none.
fn word_at(words: &[String], place: usize) -> &str
    ensures { result.now ≡ get_or (map string_bytes words.now) place [] }
{
    match words.get(place) {
        Some(word) => word.as_str(),
        None => "",
    }
}

/// The word that names the file of a call: the one after the command, or after `--lenient` where the call is lenient.
pub fn file_word(words: &[String], lenient: bool) -> &str
    ensures { result.now ≡ file_in lenient (map string_bytes words.now) }
{
    if lenient {
        word_at(words, 2)
    } else {
        word_at(words, 1)
    }
}
