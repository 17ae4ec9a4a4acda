//! The options of `serve`, read one after another, for whoever asks what is wrong with them.

ghost use Rattle.std.specs.Prelude.{◌≡◌, ◌<◌, ◌⊎◌, ◌++◌, ◌∷◌, [], ℕ, List, Bool, true, false, IfSome, IfNone, IfOk, IfErr, map};
ghost use Rattle.std.specs.String.{string_bytes};
ghost use Rattle.station_words.specs.Complaints.{AreSound, FrontComplains, IsDashed, IsNoNumber, IsNumberWithin, IsValueOf, Knows, ServeComplains, StandInFront, index_of, is_seen, name_of};
ghost use Rattle.station_words.specs.ServeWords.{AreSettings, Has, IsInFront, IsOption, Setting as AnySetting, values_of};
ghost use Rattle.station_words.specs.declared.serve_options.ServeOption.{ServeOption as AnyOption};

use crate::allowed_words::allowed_of;
use crate::complaint::Complaint;
use crate::serve_words::{log_of, ports_of, rounds_of, seconds_of};
use crate::words::first_of;
use ip_prefix::{parse_addr, parse_number};
use station_doors::MOST_PLACES;

/// An option of `serve`.
#[derive(Clone, Copy, Debug, PartialEq, Eq)]
pub enum ServeOption {
    Feeds,
    Askers,
    FeedPort,
    AskPort,
    Rounds,
    Address,
    AskAddress,
    Ports,
    Idle,
    AskIdle,
    Log,
    FeedFrom,
    AskFrom,
    Lenient,
}

impl ServeOption {
    /// The option as it is written.
    pub fn name(&self) -> &'static str
        ensures { result.now ≡ name_of self.now }
    {
        match self {
            ServeOption::Feeds => "--feeds",
            ServeOption::Askers => "--askers",
            ServeOption::FeedPort => "--feed-port",
            ServeOption::AskPort => "--ask-port",
            ServeOption::Rounds => "--rounds",
            ServeOption::Address => "--address",
            ServeOption::AskAddress => "--ask-address",
            ServeOption::Ports => "--ports",
            ServeOption::Idle => "--idle",
            ServeOption::AskIdle => "--ask-idle",
            ServeOption::Log => "--log",
            ServeOption::FeedFrom => "--feed-from",
            ServeOption::AskFrom => "--ask-from",
            ServeOption::Lenient => "--lenient",
        }
    }

    // What its value must be.
    pub(crate) fn wanted(&self) -> &'static str {
        match self {
            ServeOption::Feeds | ServeOption::Askers => "a number from 1 to 1024",
            ServeOption::FeedPort | ServeOption::AskPort => "a port from 1 to 65535",
            ServeOption::Rounds => "a number from 1 to 4096, or forever",
            ServeOption::Address | ServeOption::AskAddress => "an IPv4 or IPv6 address",
            ServeOption::Ports => "each or shared",
            ServeOption::Idle | ServeOption::AskIdle => "a number of seconds from 1 to 86400",
            ServeOption::Log => "none, routers or clients",
            ServeOption::FeedFrom | ServeOption::AskFrom => {
                "prefixes joined by commas, at most 32"
            }
            ServeOption::Lenient => "no value",
        }
    }

    fn is_flag(&self) -> bool
        ensures yes { result ≡ true → self.now ≡ ServeOption.Lenient }
        ensures no { result ≡ false → IsOption (name_of self.now) }
    {
        match self {
            ServeOption::Lenient => true,
            _ => false,
        }
    }

    // Whether it is this one.
    fn equals(&self, other: ServeOption) -> bool
        ensures yes { result ≡ true → self.now ≡ other }
        ensures no { result ≡ false → self.now ≡ other → ⊥ }
    {
        self.index() == other.index()
    }

    // Its place among the options.
    fn index(&self) -> usize
        ensures is { result ≡ index_of self.now }
        ensures bound { result < 14 }
    {
        match self {
            ServeOption::Feeds => 0,
            ServeOption::Askers => 1,
            ServeOption::FeedPort => 2,
            ServeOption::AskPort => 3,
            ServeOption::Rounds => 4,
            ServeOption::Address => 5,
            ServeOption::AskAddress => 6,
            ServeOption::Ports => 7,
            ServeOption::Idle => 8,
            ServeOption::AskIdle => 9,
            ServeOption::Lenient => 10,
            ServeOption::Log => 11,
            ServeOption::FeedFrom => 12,
            ServeOption::AskFrom => 13,
        }
    }
}

// The option that a word is.
fn option_named(word: &str) -> Option<ServeOption>
    ensures some { IfSome result (λ option. word.now ≡ name_of option) }
    ensures none { IfNone result ((option : AnyOption) → word.now ≡ name_of option → ⊥) }
{
    match word {
        "--feeds" => Some(ServeOption::Feeds),
        "--askers" => Some(ServeOption::Askers),
        "--feed-port" => Some(ServeOption::FeedPort),
        "--ask-port" => Some(ServeOption::AskPort),
        "--rounds" => Some(ServeOption::Rounds),
        "--address" => Some(ServeOption::Address),
        "--ask-address" => Some(ServeOption::AskAddress),
        "--ports" => Some(ServeOption::Ports),
        "--idle" => Some(ServeOption::Idle),
        "--ask-idle" => Some(ServeOption::AskIdle),
        "--log" => Some(ServeOption::Log),
        "--feed-from" => Some(ServeOption::FeedFrom),
        "--ask-from" => Some(ServeOption::AskFrom),
        "--lenient" => Some(ServeOption::Lenient),
        _ => None,
    }
}

// The option that a word begins with, and the value behind its first `=`.
fn option_valued(word: &str) -> Option<(ServeOption, &str)>
    ensures some { IfSome result (λ found. word.now ≡ name_of found.0 ++ 61 ∷ found.1.now) }
    ensures none { IfNone result ((option : AnyOption) (value : List ℕ) → word.now ≡ name_of option ++ 61 ∷ value → ⊥) }
{
    match word.split_once('=') {
        Some((name, value)) => match option_named(name) {
            Some(option) => Some((option, value)),
            None => None,
        },
        None => None,
    }
}

// Whether the word begins with `--`.
fn is_dashed(word: &str) -> bool
    ensures { result ≡ true → IsDashed word.now }
{
    matches!(word.as_bytes(), [b'-', b'-', ..])
}

// The option in front of these words, its value, which is empty where it has none, and the words behind it.
fn read_setting<'a>(
    word: &'a str,
    more: &'a [String],
) -> Result<(ServeOption, &'a str, &'a [String]), Complaint<'a>>
    ensures ok { IfOk result (λ read. IsInFront (name_of read.0, read.1.now) (word.now ∷ map string_bytes more.now) (map string_bytes read.2.now)) }
    ensures err { IfErr result (λ complaint. FrontComplains complaint word.now (map string_bytes more.now)) }
{
    if let Some((option, value)) = option_valued(word) {
        if option.is_flag() {
            return Err(Complaint::HasValue(word));
        }
        return Ok((option, value, more));
    }
    let Some(option) = option_named(word) else {
        return Err(Complaint::NoOption(word));
    };
    if option.is_flag() {
        return Ok((option, "", more));
    }
    match first_of(more) {
        Some((value, rest)) => {
            if is_dashed(value) {
                return Err(Complaint::NoValue(option));
            }
            Ok((option, value, rest))
        }
        None => Err(Complaint::NoValue(option)),
    }
}

// Whether the value is a number between these.
pub(crate) fn is_number(value: &str, least: u32, most: u32) -> bool
    ensures yes { result ≡ true → IsNumberWithin least most value.now }
    ensures no { result ≡ false → IsNoNumber least most value.now }
{
    match parse_number(value.as_bytes()) {
        Some(number) => least <= number && number <= most,
        None => false,
    }
}

fn is_addr(value: &str) -> bool
    ensures yes { result ≡ true → IsValueOf ServeOption.Address value.now }
    ensures no { result ≡ false → IsValueOf ServeOption.Address value.now → ⊥ }
{
    parse_addr(value.as_bytes()).is_some()
}

// Whether the option takes this value.
fn takes(option: ServeOption, value: &str) -> bool
    ensures yes { result ≡ true → IsValueOf option value.now }
    ensures no { result ≡ false → IsValueOf option value.now → ⊥ }
{
    match option {
        ServeOption::Feeds => is_number(value, 1, MOST_PLACES),
        ServeOption::Askers => is_number(value, 1, MOST_PLACES),
        ServeOption::FeedPort => is_number(value, 1, 65_535),
        ServeOption::AskPort => is_number(value, 1, 65_535),
        ServeOption::Rounds => rounds_of(value).is_some(),
        ServeOption::Address => is_addr(value),
        ServeOption::AskAddress => is_addr(value),
        ServeOption::Ports => ports_of(value).is_some(),
        ServeOption::Idle => seconds_of(value).is_some(),
        ServeOption::AskIdle => seconds_of(value).is_some(),
        ServeOption::Log => log_of(value).is_some(),
        ServeOption::FeedFrom => allowed_of(value).is_some(),
        ServeOption::AskFrom => allowed_of(value).is_some(),
        ServeOption::Lenient => value.is_empty(),
    }
}

// Which options were read.
#[derive(Drop)]
struct Seen {
    given: [bool; 14],
}

impl Seen {
    fn none() -> Seen
        ensures { (option : AnyOption) → is_seen result.given option ≡ false }
    {
        Seen { given: [false; 14] }
    }

    fn has(&self, option: ServeOption) -> bool
        ensures { result ≡ is_seen self.now.given option }
    {
        self.given[option.index()]
    }

    fn add(&mut self, option: ServeOption)
        ensures there { is_seen self.new.given option ≡ true }
        ensures kept { (other : AnyOption) → is_seen self.old.given other ≡ true → is_seen self.new.given other ≡ true }
        ensures only { (other : AnyOption) → is_seen self.new.given other ≡ true → (is_seen self.old.given other ≡ true) ⊎ (other ≡ option) }
    {
        self.given[option.index()] = true;
    }
}

// Reads the setting in front of these words, behind settings that were read. The words behind it, or what is wrong.
fn step<'a>(
    seen: &mut Seen,
    word: &'a str,
    more: &'a [String],
) -> Result<&'a [String], Complaint<'a>>
    ensures ok { IfOk result (λ left. (settings : List AnySetting) (given : List (List ℕ)) → StandInFront settings given (word.now ∷ map string_bytes more.now) → Knows seen.old.given settings
        → (setting : AnySetting) × StandInFront (settings ++ setting ∷ []) given (map string_bytes left.now) × Knows seen.new.given (settings ++ setting ∷ [])) }
    ensures err { IfErr result (λ complaint. (settings : List AnySetting) (given : List (List ℕ)) → StandInFront settings given (word.now ∷ map string_bytes more.now) → Knows seen.old.given settings → ServeComplains complaint given) }
{
    match read_setting(word, more) {
        Ok((option, value, left)) => {
            if seen.has(option) {
                return Err(Complaint::Twice(option));
            }
            if !takes(option, value) {
                return Err(Complaint::BadValue { option, value });
            }
            seen.add(option);
            Ok(left)
        }
        Err(complaint) => Err(complaint),
    }
}

/// What is wrong with the words after `serve`, where one of them can't stand where it does: the first such from the left.
pub(crate) fn words_complaint<'a>(given: &'a [String]) -> Option<Complaint<'a>>
    ensures some { IfSome result (λ complaint. ServeComplains complaint (map string_bytes given.now)) }
    ensures none { IfNone result (Has AreSound (map string_bytes given.now)) }
{
    let mut seen = Seen::none();
    let mut left = given;
    for _ in 0..given.len() {
        let Some((word, more)) = first_of(left) else {
            return None;
        };
        match step(&mut seen, word, more) {
            Ok(rest) => left = rest,
            Err(complaint) => return Some(complaint),
        }
    }
    None
}

/// The value that the words after `serve` give for an option, where nothing is wrong with one of these words. None where they
/// don't give it.
pub(crate) fn value_of<'a>(given: &'a [String], option: ServeOption) -> Option<&'a str>
    ensures some { (settings : List AnySetting) → AreSettings settings (map string_bytes given.now) → AreSound settings → IfSome result (λ value. values_of (name_of option) settings ≡ value.now ∷ []) }
    ensures none { (settings : List AnySetting) → AreSettings settings (map string_bytes given.now) → AreSound settings → IfNone result (values_of (name_of option) settings ≡ []) }
{
    let mut left = given;
    for _ in 0..given.len() {
        let Some((word, more)) = first_of(left) else {
            return None;
        };
        match read_setting(word, more) {
            Ok((other, value, rest)) => {
                if other.equals(option) {
                    return Some(value);
                }
                left = rest;
            }
            Err(_) => return None,
        }
    }
    None
}
