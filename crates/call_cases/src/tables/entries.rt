//! Entries: `open`, `close`, or the length of a message and its effects, with `;` between them. An effect is words
//! with commas between them.
use super::routes::{nlris_of, route_at};
use super::states::{REMOTE_SILENT, info_of, list_of};
use super::words::{long_at, peer_at, short_at, view_at};
use crate::line::{at, behind, family_at, number_at, octet_at};
use bmp_specs::Cause;
use ip_prefix::{Nlri, parse_number};
use rib_model::{Closing, Effect, EffectList, Entry, Head, Opening};
use std::alloc::Global;
use wire_io::List;
use wire_tables::Stat;

fn up(alloc: Global, words: &[&str]) -> Option<Effect> {
    match info_of(alloc, false, None) {
        Some(info) => Some(Effect::Up {
            key: peer_at(words, 1),
            info,
        }),
        None => None,
    }
}

fn announce_all(alloc: Global, words: &[&str], nlris: List<Nlri>) -> Option<Effect> {
    match route_at(alloc, words, 4) {
        Some(route) => Some(Effect::Announce {
            key: peer_at(words, 1),
            view: view_at(words, 2),
            nlris,
            route,
        }),
        None => None,
    }
}

fn announce(alloc: Global, words: &[&str]) -> Option<Effect> {
    match nlris_of(alloc, at(words, 3), 1) {
        Some(nlris) => announce_all(alloc, words, nlris),
        None => None,
    }
}

// Each prefix is withdrawn so many times, where a number says so, or once.
fn withdraw(alloc: Global, words: &[&str]) -> Option<Effect> {
    let times = parse_number(at(words, 4).as_bytes()).unwrap_or(1);
    match nlris_of(alloc, at(words, 3), times) {
        Some(nlris) => Some(Effect::Withdraw {
            key: peer_at(words, 1),
            view: view_at(words, 2),
            nlris,
        }),
        None => None,
    }
}

// The statistic of a code, a family and a value.
pub(crate) fn stat_of(words: &[&str]) -> Stat {
    Stat {
        code: short_at(words, 0),
        afi: short_at(words, 1),
        safi: octet_at(words, 2),
        value: long_at(words, 3),
    }
}

fn told(alloc: Global, words: &[&str]) -> Option<Effect> {
    match list_of(alloc, at(words, 1).as_bytes()) {
        Some(bytes) => Some(if at(words, 0) == "name" {
            Effect::Name(bytes)
        } else {
            Effect::Descr(bytes)
        }),
        None => None,
    }
}

// An effect on a peer.
fn of_peer(alloc: Global, words: &[&str]) -> Option<Effect> {
    match at(words, 0) {
        "up" => up(alloc, words),
        "down" => Some(Effect::Down {
            key: peer_at(words, 1),
            info: REMOTE_SILENT,
        }),
        "mark" => Some(Effect::Mark {
            key: peer_at(words, 1),
            view: view_at(words, 2),
            family: family_at(words, 3),
        }),
        "stat" => Some(Effect::Statistic {
            key: peer_at(words, 1),
            stat: stat_of(behind(words, 2)),
        }),
        _ => of_routes(alloc, words),
    }
}

// An effect on routes or on the router, or none where the words name none.
fn of_routes(alloc: Global, words: &[&str]) -> Option<Effect> {
    match at(words, 0) {
        "announce" => announce(alloc, words),
        "withdraw" => withdraw(alloc, words),
        "name" => told(alloc, words),
        "descr" => told(alloc, words),
        "orphan" => Some(Effect::Orphan),
        _ => None,
    }
}

fn effect_of(alloc: Global, text: &str) -> Option<Effect> {
    match text.split(',').collect::<Vec<&str>>(alloc) {
        Ok(words) => of_peer(alloc, words.as_slice()),
        Err(_) => None,
    }
}

// Puts the effect of a text.
fn put_effect(alloc: Global, effects: &mut EffectList, text: &str) -> bool {
    match effect_of(alloc, text) {
        Some(effect) => effects.push(effect).is_ok(),
        None => false,
    }
}

// Puts the effects of a text.
fn put_effects(alloc: Global, effects: &mut EffectList, texts: &str) -> bool {
    let mut is_well = true;
    for text in texts.split(';') {
        is_well = is_well && put_effect(alloc, effects, text);
    }
    is_well
}

// The head of a Route Monitoring message of a length, which tells nothing else.
fn head_of(length: u32) -> Head {
    Head {
        kind: 0,
        length,
        peer: None,
        reach: None,
        unreach: None,
    }
}

// The message of a length and its effects.
fn message(alloc: Global, length: &str, texts: &str) -> Option<Entry> {
    let mut effects = EffectList::new(alloc);
    if put_effects(alloc, &mut effects, texts) {
        Some(Entry::Message {
            head: head_of(number_at(&[length], 0)),
            effects,
        })
    } else {
        None
    }
}

// The entry of a text.
pub(crate) fn entry_of(alloc: Global, text: &str) -> Option<Entry> {
    match text.split_once(';') {
        Some((length, texts)) => message(alloc, length, texts),
        None => Some(if text == "open" {
            Entry::Opened(Opening::untold())
        } else {
            Entry::Closed(Closing::untimed(Cause::Ended))
        }),
    }
}
