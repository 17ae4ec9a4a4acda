//! The ports that the words after `serve` ask for, for whoever asks what is wrong with them. Nothing else is wrong with these
//! words.

ghost use Rattle.std.specs.Prelude.{◌≡◌, ◌+◌, ◌<◌, ◌≤◌, ◌⊎◌, ℕ, List, IfSome, IfNone, map};
ghost use Rattle.std.specs.String.{string_bytes};
ghost use Rattle.bmp_specs.specs.NumberText.{IsNumberText};
ghost use Rattle.station_words.specs.Complaints.{AreServe, AreSound, IsValueOf, OpenAsks, OpenFeeds, ServeComplains, name_of};
ghost use Rattle.station_words.specs.ServeWords.{ArePorts, AreSettings, Has, MayGive, Setting as AnySetting, is_given, usually_shared};

use crate::complaint::Complaint;
use crate::serve_options::{ServeOption, value_of};
use crate::serve_words::{ASK_PORT, ASKERS, FEED_PORT, FEEDS, is_short, ports_of, width};
use ip_prefix::parse_number;

// The number that the words give for an option whose value is one, or this one where they give none.
fn number_of(given: &[String], option: ServeOption, usual: u32) -> u32
    requires is_number { (value : List ℕ) → IsValueOf option value → (n : ℕ) × IsNumberText value n }
    ensures { (settings : List AnySetting) → AreSettings settings (map string_bytes given.now) → AreSound settings → MayGive (name_of option) (λ value. IsNumberText value result) (result ≡ usual) settings }
{
    match value_of(given, option) {
        Some(value) => match parse_number(value.as_bytes()) {
            Some(number) => number,
            None => usual,
        },
        None => usual,
    }
}

// Whether the words give an option.
fn gives(given: &[String], option: ServeOption) -> bool
    ensures { (settings : List AnySetting) → AreSettings settings (map string_bytes given.now) → AreSound settings → result ≡ is_given (name_of option) settings }
{
    match value_of(given, option) {
        Some(_) => true,
        None => false,
    }
}

// Whether the ports are shared where the words don't say it.
fn are_usually_shared(given: &[String]) -> bool
    ensures { (settings : List AnySetting) → AreSettings settings (map string_bytes given.now) → AreSound settings → result ≡ usually_shared settings }
{
    is_short(
        gives(given, ServeOption::Feeds),
        gives(given, ServeOption::Askers),
        gives(given, ServeOption::FeedPort),
        gives(given, ServeOption::AskPort),
        gives(given, ServeOption::Rounds),
    )
}

// Whether the ports are shared.
fn are_shared(given: &[String]) -> bool
    ensures { (settings : List AnySetting) → AreSettings settings (map string_bytes given.now) → AreSound settings → ArePorts result settings }
{
    match value_of(given, ServeOption::Ports) {
        Some(value) => match ports_of(value) {
            Some(shared) => shared,
            None => true,
        },
        None => are_usually_shared(given),
    }
}

// What is wrong with so many ports from these two on, if something is.
fn apart_complaint<'a>(feed: u32, feeds: u32, ask: u32, askers: u32) -> Option<Complaint<'a>>
    ensures some { (given : List (List ℕ)) → Has (λ settings. AreSound settings × OpenFeeds feed feeds settings × OpenAsks ask askers settings) given → IfSome result (λ complaint. ServeComplains complaint given) }
    ensures none { IfNone result ((feed + feeds ≤ 65536) × (ask + askers ≤ 65536) × ((feed + feeds ≤ ask) ⊎ (ask + askers ≤ feed))) }
{
    let feed_end = feed as u64 + feeds as u64;
    let ask_end = ask as u64 + askers as u64;
    if feed_end > 65_536 {
        return Some(Complaint::PastEnd {
            option: ServeOption::FeedPort,
            first: feed,
            count: feeds,
        });
    }
    if ask_end > 65_536 {
        return Some(Complaint::PastEnd {
            option: ServeOption::AskPort,
            first: ask,
            count: askers,
        });
    }
    if feed_end <= ask as u64 || ask_end <= feed as u64 {
        return None;
    }
    Some(Complaint::Meet {
        feed,
        feeds,
        ask,
        askers,
    })
}

/// What is wrong with the ports that the words after `serve` ask for. None where nothing is: then they are words of `serve`.
pub(crate) fn ports_complaint<'a>(given: &[String]) -> Option<Complaint<'a>>
    ensures some { Has AreSound (map string_bytes given.now) → IfSome result (λ complaint. ServeComplains complaint (map string_bytes given.now)) }
    ensures none { Has AreSound (map string_bytes given.now) → IfNone result (AreServe (map string_bytes given.now)) }
{
    let feeds = number_of(given, ServeOption::Feeds, FEEDS);
    let askers = number_of(given, ServeOption::Askers, ASKERS);
    let feed = number_of(given, ServeOption::FeedPort, FEED_PORT);
    let ask = number_of(given, ServeOption::AskPort, ASK_PORT);
    let shared = are_shared(given);
    apart_complaint(feed, width(shared, feeds), ask, width(shared, askers))
}
