//! The settings of `serve`, in any order and form.

ghost use Rattle.std.specs.Prelude.{◌≡◌, ◌≢◌, [], ◌↔◌, ◌≤◌, ℕ, Bool, List, Option, Err, None, codes, map, IsTrue, IfSome, IfNone, IfOk, false, true, not, ◌&&◌};
ghost use Rattle.std.specs.List.{list_any};
ghost use Rattle.std.specs.String.{string_bytes};
ghost use Rattle.bmp_specs.specs.AddressText.{IsAddressText};
ghost use Rattle.bmp_specs.specs.NumberText.{IsNumberText};
ghost use Rattle.bmp_specs.specs.Values.{AddressValue, PrefixValue};
ghost use Rattle.clap.specs.Words.{app_of, rule_of};
ghost use Rattle.station_doors.specs.declared.listening.Log.{Log as AnyLog};
ghost use Rattle.station_words.specs.ServeOptions.{AreMatches, dashed, flag_rule, is_dashes, option_rule, options_of, serve_app, with_rules};
ghost use Rattle.station_words.specs.ServeWords.{Gives, Has, ArePorts, IsAllowed, IsLog, IsPorts, IsRounds, IsSeconds, IsServe, MayGive, MayServe, flag, forever, is_given, usually_shared, loopback, ports_for};
ghost use Rattle.station_words.specs.declared.serve_words.ServeWords.{ServeWords as AnyServe};

use crate::allowed_words::allowed_of;
use crate::words::WordsFault;
use clap::builder::ValueRange;
use clap::error::ErrorKind;
use clap::{Arg, ArgAction, ArgMatches, Command};
use ip_prefix::{Addr, parse_addr, parse_number};
use station_doors::{Allowed, Listening, Log, MOST_PLACES};
use std::alloc::{AllocError, Global};

// What is asked for where an option isn't given.
pub(crate) const FEEDS: u32 = 64;

pub(crate) const ASKERS: u32 = 16;

pub(crate) const FEED_PORT: u32 = 11019;

pub(crate) const ASK_PORT: u32 = 11120;

/// What `serve` is asked for.
#[derive(Clone, Copy)]
pub struct ServeWords {
    /// Where it listens, for so many routers and clients.
    pub at: Listening,

    /// So many connections each lane and each asker takes, one after another. `forever` is the greatest number.
    pub rounds: u32,
}

// An option with a value, as `--name value` or `--name=value`.
fn option<'a>(alloc: Global, name: &'a str) -> Arg<'a>
    ensures rule { rule_of result ≡ option_rule name.entry.now }
    ensures local { result.global ≡ false }
{
    Arg::new(alloc, name).long(name)
}

// The command with these options.
fn with_options<'a>(
    alloc: Global,
    command: Command<'a>,
    names: &[&'a str],
) -> Result<Command<'a>, AllocError>
    ensures { IfOk result (λ with. app_of with ≡ with_rules (app_of command.entry) (options_of names.entry.now)) }
{
    let mut command = command;
    for name in names {
        command = command.arg(option(alloc, *name))?;
    }
    Ok(command)
}

// The command `serve`, whose words have no name of a program in front.
fn serve_command<'a>(alloc: Global) -> Result<Command<'a>, AllocError>
    ensures { IfOk result (λ command. app_of command ≡ serve_app) }
{
    let command = Command::new(alloc, "serve")
        .no_binary_name(true)
        .disable_help_flag(true);
    let options = [
        "feeds",
        "askers",
        "feed-port",
        "ask-port",
        "rounds",
        "address",
        "ports",
        "idle",
        "ask-idle",
        "ask-address",
        "log",
        "feed-from",
        "ask-from",
    ];
    with_options(alloc, command, &options)?.arg(lenient(alloc))
}

// The flag `--lenient`. It takes no value; where it stands, the empty one is found.
fn lenient<'a>(alloc: Global) -> Arg<'a>
    ensures rule { rule_of result ≡ flag_rule }
    ensures local { result.global ≡ false }
{
    Arg::new(alloc, "lenient")
        .long("lenient")
        .action(ArgAction::Set)
        .num_args(ValueRange::EMPTY)
        .default_missing_value("")
}

// Whether a `--` stands among the words, which would end the options.
fn has_dashes(words: &[String]) -> bool
    ensures { result ≡ list_any (λ word. is_dashes (string_bytes word)) words.now }
{
    words.iter().any(|word| word.as_str() == "--")
}

// Why there are no options, by the kind of error.
fn fault_by(kind: ErrorKind) -> WordsFault
    ensures { result ≡ WordsFault.Usage → kind ≢ ErrorKind.OutOfMemory }
{
    match kind {
        ErrorKind::OutOfMemory => WordsFault::NoMemory,
        _ => WordsFault::Usage,
    }
}

// The settings in the words, each given once. `Usage` exactly where they are no words of `serve`.
fn read_options<'a>(alloc: Global, words: &'a [String]) -> Result<ArgMatches<'a>, WordsFault>
    ensures ok { IfOk result (λ matches. AreMatches (map string_bytes words.entry.now) matches) }
    ensures usage { result ≡ Err WordsFault.Usage → (serve : AnyServe) (lenient : Bool) → IsServe serve lenient (map string_bytes words.entry.now) → ⊥ }
{
    if has_dashes(words) {
        return Err(WordsFault::Usage);
    }
    let Ok(command) = serve_command(alloc) else {
        return Err(WordsFault::NoMemory);
    };
    match command.try_get_matches_from(words) {
        Ok(matches) => Ok(matches),
        Err(error) => Err(fault_by(error.kind())),
    }
}

// The number that the words give for an option, or this one where they give none.
fn find_number(matches: &ArgMatches<'_>, name: &str, usual: u32) -> Option<u32>
    ensures some { (words : List (List ℕ)) → AreMatches words matches.now → IfSome result (λ n. Has (MayGive (dashed name.now) (λ value. IsNumberText value n) (n ≡ usual)) words) }
    ensures only { (words : List (List ℕ)) → AreMatches words matches.now → IfSome result (λ n. (m : ℕ) → Has (MayGive (dashed name.now) (λ value. IsNumberText value m) (m ≡ usual)) words → m ≡ n) }
    ensures none { (words : List (List ℕ)) → AreMatches words matches.now → IfNone result ((n : ℕ) → Has (MayGive (dashed name.now) (λ value. IsNumberText value n) (n ≡ usual)) words → ⊥) }
{
    match matches.get_str(name) {
        Some(value) => parse_number(value.as_bytes()),
        None => Some(usual),
    }
}

fn is_forever(value: &str) -> bool
    ensures { IsTrue result ↔ (value.now ≡ codes "forever") }
{
    value == "forever"
}

// Whether there may be so many rounds.
fn may_be_rounds(number: u32) -> bool
    ensures { IsTrue result ↔ ((1 ≤ number) × (number ≤ 4096)) }
{
    (1..=4096).contains(&number)
}

// The rounds that a value stands for.
pub(crate) fn rounds_of(value: &str) -> Option<u32>
    ensures some { IfSome result (λ rounds. IsRounds value.now rounds) }
    ensures none { IfNone result ((rounds : ℕ) → IsRounds value.now rounds → ⊥) }
{
    if is_forever(value) {
        return Some(u32::MAX);
    }
    match parse_number(value.as_bytes()) {
        Some(number) => if may_be_rounds(number) {
            Some(number)
        } else {
            None
        },
        None => None,
    }
}

// The rounds that the words give, or `forever` where they give none.
fn find_rounds(matches: &ArgMatches<'_>) -> Option<u32>
    ensures some { (words : List (List ℕ)) → AreMatches words matches.now → IfSome result (λ n. Has (MayGive (dashed (codes "rounds")) (λ value. IsRounds value n) (n ≡ forever)) words) }
    ensures only { (words : List (List ℕ)) → AreMatches words matches.now
        → IfSome result (λ n. (m : ℕ) → Has (MayGive (dashed (codes "rounds")) (λ value. IsRounds value m) (m ≡ forever)) words → m ≡ n) }
    ensures none { (words : List (List ℕ)) → AreMatches words matches.now → IfNone result ((n : ℕ) → Has (MayGive (dashed (codes "rounds")) (λ value. IsRounds value n) (n ≡ forever)) words → ⊥) }
{
    match matches.get_str("rounds") {
        Some(value) => rounds_of(value),
        None => Some(u32::MAX),
    }
}

// The address that the words give for an option, or this one where they give none.
fn find_address(matches: &ArgMatches<'_>, name: &str, usual: Addr) -> Option<Addr>
    ensures some { (words : List (List ℕ)) → AreMatches words matches.now
        → IfSome result (λ address. Has (MayGive (dashed name.now) (λ value. IsAddressText value address) (address ≡ usual)) words) }
    ensures only { (words : List (List ℕ)) → AreMatches words matches.now
        → IfSome result (λ address. (other : AddressValue) → Has (MayGive (dashed name.now) (λ value. IsAddressText value other) (other ≡ usual)) words → other ≡ address) }
    ensures none { (words : List (List ℕ)) → AreMatches words matches.now
        → IfNone result ((address : AddressValue) → Has (MayGive (dashed name.now) (λ value. IsAddressText value address) (address ≡ usual)) words → ⊥) }
{
    match matches.get_str(name) {
        Some(value) => parse_addr(value.as_bytes()),
        None => Some(usual),
    }
}

// 127.0.0.1
fn home() -> Addr
    ensures { result ≡ loopback }
{
    Addr::v4([127, 0, 0, 1])
}

// Whether the ports are shared, by a value.
pub(crate) fn ports_of(value: &str) -> Option<bool>
    ensures some { IfSome result (λ shared. IsPorts value.now shared) }
    ensures none { IfNone result ((shared : Bool) → IsPorts value.now shared → ⊥) }
{
    if value == "shared" {
        return Some(true);
    }
    if value == "each" {
        return Some(false);
    }
    None
}

// Whether the words give an option.
fn gives(matches: &ArgMatches<'_>, name: &str) -> bool
    ensures { (words : List (List ℕ)) → AreMatches words matches.now → Has (λ settings. result ≡ is_given (dashed name.now) settings) words }
{
    match matches.get_str(name) {
        Some(_) => true,
        None => false,
    }
}

// Whether one of these isn't given.
pub(crate) fn is_short(
    feeds: bool,
    askers: bool,
    feed_port: bool,
    ask_port: bool,
    rounds: bool,
) -> bool
    ensures { result ≡ not (feeds && askers && feed_port && ask_port && rounds) }
{
    !(feeds && askers && feed_port && ask_port && rounds)
}

// Whether the ports are shared where the words don't say it: not where they give each option that once had to be given.
fn usual_ports(matches: &ArgMatches<'_>) -> bool
    ensures { (words : List (List ℕ)) → AreMatches words matches.now → Has (λ settings. result ≡ usually_shared settings) words }
{
    is_short(
        gives(matches, "feeds"),
        gives(matches, "askers"),
        gives(matches, "feed-port"),
        gives(matches, "ask-port"),
        gives(matches, "rounds"),
    )
}

// Whether the ports are shared, by the words.
fn find_ports(matches: &ArgMatches<'_>) -> Option<bool>
    ensures some { (words : List (List ℕ)) → AreMatches words matches.now → IfSome result (λ shared. Has (ArePorts shared) words) }
    ensures only { (words : List (List ℕ)) → AreMatches words matches.now → IfSome result (λ shared. (other : Bool) → Has (ArePorts other) words → other ≡ shared) }
    ensures none { (words : List (List ℕ)) → AreMatches words matches.now → IfNone result ((shared : Bool) → Has (ArePorts shared) words → ⊥) }
{
    match matches.get_str("ports") {
        Some(value) => ports_of(value),
        None => Some(usual_ports(matches)),
    }
}

// Whether it may be so many seconds.
fn may_be_seconds(number: u32) -> bool
    ensures { IsTrue result ↔ ((1 ≤ number) × (number ≤ 86400)) }
{
    (1..=86_400).contains(&number)
}

// The time that a value stands for.
pub(crate) fn seconds_of(value: &str) -> Option<Option<u32>>
    ensures some { IfSome result (λ time. IsSeconds value.now time) }
    ensures none { IfNone result ((time : Option ℕ) → IsSeconds value.now time → ⊥) }
{
    match parse_number(value.as_bytes()) {
        Some(number) => if may_be_seconds(number) {
            Some(Some(number))
        } else {
            None
        },
        None => None,
    }
}

// The time that the words give for this name, if they give one.
fn find_seconds(matches: &ArgMatches<'_>, name: &str) -> Option<Option<u32>>
    ensures some { (words : List (List ℕ)) → AreMatches words matches.now → IfSome result (λ time. Has (MayGive (dashed name.now) (λ value. IsSeconds value time) (time ≡ None)) words) }
    ensures only { (words : List (List ℕ)) → AreMatches words matches.now
        → IfSome result (λ time. (other : Option ℕ) → Has (MayGive (dashed name.now) (λ value. IsSeconds value other) (other ≡ None)) words → other ≡ time) }
    ensures none { (words : List (List ℕ)) → AreMatches words matches.now
        → IfNone result ((time : Option ℕ) → Has (MayGive (dashed name.now) (λ value. IsSeconds value time) (time ≡ None)) words → ⊥) }
{
    match matches.get_str(name) {
        Some(value) => seconds_of(value),
        None => Some(None),
    }
}

// What is said of connections, by a value.
pub(crate) fn log_of(value: &str) -> Option<Log>
    ensures some { IfSome result (λ log. IsLog value.now log) }
    ensures none { IfNone result ((log : AnyLog) → IsLog value.now log → ⊥) }
{
    match value {
        "none" => Some(Log::None),
        "routers" => Some(Log::Routers),
        "clients" => Some(Log::Clients),
        _ => None,
    }
}

// What is said of connections, by the words.
fn find_log(matches: &ArgMatches<'_>) -> Option<Log>
    ensures some { (words : List (List ℕ)) → AreMatches words matches.now → IfSome result (λ log. Has (MayGive (dashed (codes "log")) (λ value. IsLog value log) (log ≡ Log.Routers)) words) }
    ensures only { (words : List (List ℕ)) → AreMatches words matches.now
        → IfSome result (λ log. (other : AnyLog) → Has (MayGive (dashed (codes "log")) (λ value. IsLog value other) (other ≡ Log.Routers)) words → other ≡ log) }
    ensures none { (words : List (List ℕ)) → AreMatches words matches.now
        → IfNone result ((log : AnyLog) → Has (MayGive (dashed (codes "log")) (λ value. IsLog value log) (log ≡ Log.Routers)) words → ⊥) }
{
    match matches.get_str("log") {
        Some(value) => log_of(value),
        None => Some(Log::Routers),
    }
}

// Where connections may come from, by the words: from anywhere where they don't say it.
fn find_allowed(matches: &ArgMatches<'_>, name: &str) -> Option<Allowed>
    ensures some { (words : List (List ℕ)) → AreMatches words matches.now
        → IfSome result (λ allowed. Has (MayGive (dashed name.now) (λ value. IsAllowed value allowed) (allowed ≡ [])) words) }
    ensures only { (words : List (List ℕ)) → AreMatches words matches.now
        → IfSome result (λ allowed. (other : List PrefixValue) → Has (MayGive (dashed name.now) (λ value. IsAllowed value other) (other ≡ [])) words → other ≡ allowed) }
    ensures none { (words : List (List ℕ)) → AreMatches words matches.now
        → IfNone result ((allowed : List PrefixValue) → Has (MayGive (dashed name.now) (λ value. IsAllowed value allowed) (allowed ≡ [])) words → ⊥) }
{
    match matches.get_str(name) {
        Some(value) => allowed_of(value),
        None => Some(Allowed::anywhere()),
    }
}

// Whether the words have the flag.
fn find_lenient(matches: &ArgMatches<'_>) -> bool
    ensures { (words : List (List ℕ)) → AreMatches words matches.now → Has (MayGive flag (λ value. result ≡ true) (result ≡ false)) words }
{
    matches.get_str("lenient").is_some()
}

// The port of this number, where it is one.
fn port_of(number: u32) -> Option<u16>
    ensures some { IfSome result (λ port. port ≡ number) }
    ensures none { IfNone result (65536 ≤ number) }
{
    if number > u16::MAX as u32 {
        return None;
    }
    Some(number as u16)
}

// How many ports so many lanes or askers have.
pub(crate) fn width(shared: bool, count: u32) -> u32
    ensures { result ≡ ports_for shared count }
{
    if shared { 1 } else { count }
}

// Whether the numbers are within what a station takes, and the ports of the lanes and of the askers are ports and don't
// meet.
fn may_serve(serve: &ServeWords) -> bool
    ensures { IsTrue result ↔ MayServe serve.now }
{
    let Listening {
        feeds,
        askers,
        feed_port,
        ask_port,
        shared,
        ..
    } = serve.at;
    if !((1..=MOST_PLACES).contains(&feeds) && (1..=MOST_PLACES).contains(&askers)) {
        return false;
    }
    let feed_end = feed_port as u32 + width(shared, feeds);
    let ask_end = ask_port as u32 + width(shared, askers);
    feed_port >= 1
        && ask_port >= 1
        && feed_end <= 65536
        && ask_end <= 65536
        && (feed_end <= ask_port as u32 || ask_end <= feed_port as u32)
}

// Where the settings ask to listen, and for how many rounds.
fn serve_of(matches: &ArgMatches<'_>) -> Option<ServeWords>
    ensures some { (words : List (List ℕ)) → AreMatches words matches.now → (lenient : Bool) → Has (MayGive flag (λ value. lenient ≡ true) (lenient ≡ false)) words
        → IfSome result (λ serve. IsServe serve lenient words) }
    ensures none { (words : List (List ℕ)) → AreMatches words matches.now → IfNone result ((serve : AnyServe) (lenient : Bool) → IsServe serve lenient words → ⊥) }
{
    let Some(feeds) = find_number(matches, "feeds", FEEDS) else {
        return None;
    };
    let Some(askers) = find_number(matches, "askers", ASKERS) else {
        return None;
    };
    let Some(feed_number) = find_number(matches, "feed-port", FEED_PORT) else {
        return None;
    };
    let Some(ask_number) = find_number(matches, "ask-port", ASK_PORT) else {
        return None;
    };
    let Some(rounds) = find_rounds(matches) else {
        return None;
    };
    let Some(address) = find_address(matches, "address", home()) else {
        return None;
    };
    let Some(ask_address) = find_address(matches, "ask-address", address) else {
        return None;
    };
    let Some(shared) = find_ports(matches) else {
        return None;
    };
    let Some(idle) = find_seconds(matches, "idle") else {
        return None;
    };
    let Some(ask_idle) = find_seconds(matches, "ask-idle") else {
        return None;
    };
    let Some(log) = find_log(matches) else {
        return None;
    };
    let Some(feed_from) = find_allowed(matches, "feed-from") else {
        return None;
    };
    let Some(ask_from) = find_allowed(matches, "ask-from") else {
        return None;
    };
    let Some(feed_port) = port_of(feed_number) else {
        return None;
    };
    let Some(ask_port) = port_of(ask_number) else {
        return None;
    };
    let serve = ServeWords {
        at: Listening {
            address,
            ask_address,
            feeds,
            askers,
            feed_port,
            ask_port,
            shared,
            idle,
            ask_idle,
            log,
            feed_from,
            ask_from,
        },
        rounds,
    };
    if may_serve(&serve) { Some(serve) } else { None }
}

/// What the words after `serve` ask for: `--feeds N`, `--askers M`, `--feed-port P`, `--ask-port Q`, `--rounds K`,
/// `--address A`, `--ask-address A`, `--ports each` or `shared`, `--idle S`, `--ask-idle S`, `--log none`, `routers` or
/// `clients`, `--feed-from P,P,..`, `--ask-from P,P,..` and `--lenient`, in any order. Each may be left out, and is given at most once, as `--name value` or as
/// `--name=value`, and `--lenient` alone. It answers too whether that one is given. `Usage` exactly where the words are no
/// such settings.
pub fn read_serve(alloc: Global, words: &[String]) -> Result<(ServeWords, bool), WordsFault>
    ensures ok { IfOk result (λ read. IsServe read.0 read.1 (map string_bytes words.now)) }
    ensures usage { result ≡ Err WordsFault.Usage → (serve : AnyServe) (lenient : Bool) → IsServe serve lenient (map string_bytes words.now) → ⊥ }
{
    match read_options(alloc, words) {
        Ok(matches) => match serve_of(&matches) {
            Some(serve) => Ok((serve, find_lenient(&matches))),
            None => Err(WordsFault::Usage),
        },
        Err(fault) => Err(fault),
    }
}
